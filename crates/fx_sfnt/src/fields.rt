//! Big-endian numbers at an offset of a slice of bytes (OpenType, "Data types").

ghost use Rattle.std.specs.Prelude.{◌≡◌, ◌+◌, ◌≤◌, length};
ghost use Rattle.fx_sfnt.specs.Fields.{number_at, field, signed_at, signed_field};

use byteorder::{BigEndian, ByteOrder};

/// The `uint16` at an offset, if its two bytes are inside.
pub fn u16_at(bytes: &[u8], at: usize) -> Option<u16>
    ensures { result ≡ number_at 2 bytes.now at }
{
    if at > bytes.len() || bytes.len() - at < 2 {
        return None;
    }
    Some(u16_in(bytes, at))
}

/// The `int16` at an offset, if its two bytes are inside.
pub fn i16_at(bytes: &[u8], at: usize) -> Option<i16>
    ensures { result ≡ signed_at bytes.now at }
{
    if at > bytes.len() || bytes.len() - at < 2 {
        return None;
    }
    Some(i16_in(bytes, at))
}

/// The `uint32` at an offset, if its four bytes are inside.
pub fn u32_at(bytes: &[u8], at: usize) -> Option<u32>
    ensures { result ≡ number_at 4 bytes.now at }
{
    if at > bytes.len() || bytes.len() - at < 4 {
        return None;
    }
    Some(u32_in(bytes, at))
}

/// The `uint16` at an offset; its two bytes are inside.
#[tactic(auto, unfolding(crate::specs::Fields::field))]
pub fn u16_in(bytes: &[u8], at: usize) -> u16
    requires { at + 2 ≤ length bytes.now }
    ensures { result ≡ field 2 bytes.now at }
{
    BigEndian::read_u16(&bytes[at..])
}

/// The `int16` at an offset; its two bytes are inside.
#[tactic(auto, unfolding(crate::specs::Fields::field))]
pub fn i16_in(bytes: &[u8], at: usize) -> i16
    requires { at + 2 ≤ length bytes.now }
    ensures { result ≡ signed_field bytes.now at }
{
    BigEndian::read_i16(&bytes[at..])
}

/// The `uint32` at an offset; its four bytes are inside.
#[tactic(auto, unfolding(crate::specs::Fields::field))]
pub fn u32_in(bytes: &[u8], at: usize) -> u32
    requires { at + 4 ≤ length bytes.now }
    ensures { result ≡ field 4 bytes.now at }
{
    BigEndian::read_u32(&bytes[at..])
}

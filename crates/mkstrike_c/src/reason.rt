//! The texts of a number, for C: its name, and what to do.
ghost use Rattle.std.specs.Prelude.{◌≡◌, length};
ghost use Rattle.mkstrike_c.specs.Reasons.{IsPut, advice_of, reason_of};

use crate::names::{advice, reason};

/// Puts as much of a text as fits at the front of a buffer, and a 0 after it.
fn put_text(buffer: &mut [u8], text: &[u8])
    ensures { IsPut text.now buffer.old buffer.new }
{
    if buffer.is_empty() {
        return;
    }
    let n = text.len().min(buffer.len() - 1);
    buffer[..n].copy_from_slice(&text[..n]);
    buffer[n] = 0;
}

/// Puts the name of what a call returned into a buffer, with a 0 after it: as much of it as fits. Returns the length of all of it.
#[unsafe(no_mangle)]
pub extern "C" fn proved_mkstrike_reason(number: u32, text: &mut [u8]) -> usize
    ensures text { IsPut (reason_of number) text.old text.new }
    ensures size { result ≡ length (reason_of number) }
{
    let name = reason(number).as_bytes();
    put_text(text, name);
    name.len()
}

/// Puts what to do after what a call returned into a buffer, with a 0 after it: as much of it as fits. Returns the length of all of
/// it.
#[unsafe(no_mangle)]
pub extern "C" fn proved_mkstrike_advice(number: u32, text: &mut [u8]) -> usize
    ensures text { IsPut (advice_of number) text.old text.new }
    ensures size { result ≡ length (advice_of number) }
{
    let to_do = advice(number).as_bytes();
    put_text(text, to_do);
    to_do.len()
}

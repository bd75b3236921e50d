//! The headers of tuples.

ghost use Rattle.std.specs.Prelude.{◌≡◌, ◌+◌, ◌*◌, ◌%◌, ◌≤◌, ◌<◌, ◌^◌, length, take, drop, option_map, IfSome, IsTrue};
ghost use Rattle.fx_sfnt.specs.Fields.{field};
ghost use Rattle.fx_glyf.specs.Words.{has};
ghost use Rattle.fx_tuples.specs.Headers.{own_size, between_size, peaks_of, header_of};

use crate::regions::Region;
use fx_fixed::{after, part};
use fx_sfnt::u16_in;
use std::marker::Model;

/// The header has a peak of its own.
const EMBEDDED_PEAK_TUPLE: u16 = 0x8000;

/// The header says where the tuple begins and ends to count.
const INTERMEDIATE_REGION: u16 = 0x4000;

/// The tuple has points of its own.
const PRIVATE_POINT_NUMBERS: u16 = 0x2000;

/// Whether an index has a flag, by its mask.
pub fn has(index: u16, mask: u16) -> bool
    ensures { result ≡ has index mask }
{
    index & mask != 0
}

/// A tuple's header: how many bytes its points and deltas take, whether these begin with points of its own, its region, and the
/// bytes
/// after it.
#[derive(Drop)]
pub struct Header<'a> {
    pub(crate) size: u16,
    pub(crate) is_private: bool,
    pub(crate) region: Region<'a>,
    pub(crate) rest: &'a [u8],
}

impl<'a> Model for Header<'a> {
    ghost use Rattle.fx_tuples.specs.Headers.{HeaderView};

    ghost Value = { HeaderView };

    ghost view = { λ h. record {
      size = h.size;
      is_private = h.is_private;
      is_intermediate = h.region.is_intermediate;
      peaks = h.region.peaks.now;
      starts = h.region.starts.now;
      ends = h.region.ends.now;
      rest = h.rest.now;
    } };
}

/// The bytes of a header's own peaks.
fn own_size(width: usize, index: u16) -> usize
    requires { width < 2 ^ 17 }
    ensures value { result ≡ own_size width index }
    ensures bound { result ≤ width }
{
    if has(index, EMBEDDED_PEAK_TUPLE) {
        width
    } else {
        0
    }
}

/// The bytes of where a tuple begins and ends to count.
fn between_size(width: usize, index: u16) -> usize
    requires { width < 2 ^ 17 }
    ensures value { result ≡ between_size width index }
    ensures bound { result ≤ 2 * width }
{
    if has(index, INTERMEDIATE_REGION) {
        2 * width
    } else {
        0
    }
}

/// The peaks of a tuple, its own or those that it shares.
#[tactic(auto, unfolding(crate::specs::Headers::peaks_of))]
fn peaks_of<'a>(shared: &'a [u8], width: usize, index: u16, bytes: &'a [u8]) -> Option<&'a [u8]>
    requires { width < 2 ^ 17 }
    ensures { option_map (λ b. b.now) result ≡ peaks_of shared.entry.now width index bytes.entry.now }
{
    if has(index, EMBEDDED_PEAK_TUPLE) {
        return Some(part(bytes, 4, width));
    }
    let at = width * usize::from(index % 4096);
    if shared.len() < at + width {
        return None;
    }
    Some(part(shared, at, width))
}

/// The header at the front of bytes; `width` is two bytes for each axis.
#[tactic(auto, unfolding(crate::specs::Headers::header_of))]
pub fn header_of<'a>(shared: &'a [u8], width: usize, bytes: &'a [u8]) -> Option<Header<'a>>
    requires { width < 2 ^ 17 }
    ensures { result ≡ header_of shared.entry.now width bytes.entry.now }
{
    if bytes.len() < 4 {
        return None;
    }
    let index = u16_in(bytes, 2);
    let own = own_size(width, index);
    let size = 4 + own + between_size(width, index);
    if bytes.len() < size {
        return None;
    }
    let peaks = peaks_of(shared, width, index, bytes)?;
    Some(Header {
        size: u16_in(bytes, 0),
        is_private: has(index, PRIVATE_POINT_NUMBERS),
        region: Region {
            is_intermediate: has(index, INTERMEDIATE_REGION),
            peaks,
            starts: part(bytes, 4 + own, width),
            ends: part(bytes, 4 + own + width, width),
        },
        rest: after(bytes, size),
    })
}

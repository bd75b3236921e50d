//! The encoding records of `cmap`.

ghost use Rattle.std.specs.Prelude.{◌≡◌, ◌+◌, ◌*◌, ◌≤◌, length, option_map, Bool, nat_le, ◌&&◌};
ghost use Rattle.fx_sfnt.specs.Fields.{field};
ghost use Rattle.fx_cmap.specs.Lookup.{has_format, is_record_of, first_subtable_of, chosen_of};

use crate::candidates::{Candidate, Format};
use fx_fixed::after;
use fx_sfnt::{u16_at, u16_in, u32_in};

/// Whether the subtable at an offset has a format.
fn has_format(format: u16, cmap: &[u8], start: u32) -> bool
    ensures { result ≡ has_format format cmap.now start }
{
    u16_at(cmap, start as usize) == Some(format)
}

/// Whether a record is one that a candidate looks for.
fn is_record_of(candidate: Candidate, cmap: &[u8], entry: &[u8]) -> bool
    requires { 8 ≤ length entry.now }
    ensures { result ≡ is_record_of candidate cmap.now entry.now }
{
    let encoding = u16_in(entry, 2);
    u16_in(entry, 0) == candidate.platform
        && (candidate.low <= encoding && encoding <= candidate.high)
        && has_format(candidate.format.number(), cmap, u32_in(entry, 4))
}

/// The format of a candidate and the offset of the subtable of the first record that it looks for.
fn first_subtable(cmap: &[u8], candidate: Candidate) -> Option<(Format, u32)>
    requires header { 4 ≤ length cmap.now }
    requires inside { 4 + 8 * field 2 cmap.now 2 ≤ length cmap.now }
    ensures { result ≡ first_subtable_of cmap.now candidate }
{
    let count = u16_in(cmap, 2);
    let mut rest = after(cmap, 4);
    // The first such record among the records that are left is that among all.
    'records: for k in 0..count {
        if is_record_of(candidate, cmap, rest) {
            return Some((candidate.format, u32_in(rest, 4)));
        }
        rest = after(rest, 8);
    }
    None
}

/// The subtable of the first candidate that has one: its format and its offset.
pub fn chosen(cmap: &[u8], candidates: &[Candidate]) -> Option<(Format, u32)>
    requires header { 4 ≤ length cmap.now }
    requires inside { 4 + 8 * field 2 cmap.now 2 ≤ length cmap.now }
    ensures { result ≡ chosen_of cmap.now candidates.now }
{
    // The first candidate with a subtable among those that are left is that among all.
    'candidates: for candidate in candidates {
        if let Some(found) = first_subtable(cmap, *candidate) {
            return Some(found);
        }
    }
    None
}

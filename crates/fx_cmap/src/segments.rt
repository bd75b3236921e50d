//! The segments of a subtable of format 4.

ghost use Rattle.std.specs.Prelude.{◌≡◌, ◌+◌, ◌*◌, ◌^◌, ◌<◌, ◌≤◌, length, IfSome};
ghost use Rattle.fx_cmap.specs.Segments.{segment_of, segment_for, segments_at};

use crate::codes::Codes;
use crate::fault::CharMapFault;
use crate::rising::RisingCodes;
use crate::segment::Segment;
use crate::subtable::Subtable;
use fx_sfnt::u16_in;
use std::marker::Model;

/// A subtable of format 4 in the bytes of `cmap`.
#[derive(Drop)]
pub struct Segments<'a> {
    cmap: &'a [u8],
    // The offset of the subtable in `cmap`.
    start: u32,
    // The number of its segments.
    seg_count: u32,
    // Their last codes.
    end_codes: RisingCodes<'a>,
}

impl<'a> Model for Segments<'a> {
    ghost use Rattle.std.specs.Prelude.{◌≡◌, ◌+◌, ◌*◌, ◌≤◌, length, map};
    ghost use Rattle.fx_cmap.specs.Segments.{SegmentsView, segments_of};
    ghost use Rattle.fx_cmap.specs.declared.segment.Segment.{Segment};

    ghost Value = { SegmentsView };

    ghost view = { λ s. record { cmap = s.cmap.now; segments = segments_of s.cmap.now s.start s.seg_count } };

    ghost invariant = { λ s. (s.start + 16 + 8 * s.seg_count ≤ length s.cmap.now)
        × (map (λ (x : Segment). x.end_code) (segments_of s.cmap.now s.start s.seg_count) ≡ s.end_codes) };
}

impl<'a> Segments<'a> {
    /// Reads the subtable at an offset of `cmap`, or returns the first fault; its length and language are not looked at.
    #[tactic(auto, using(crate::proofs::Searching::end_codes_of), unfolding(crate::specs::Segments::segments_at))]
    pub fn read(cmap: &'a [u8], start: u32) -> Result<Segments<'a>, CharMapFault>
        ensures { result ≡ segments_at cmap.now start }
    {
        let at = start as usize;
        if cmap.len() < at + 8 {
            return Err(CharMapFault::BadCharMap);
        }
        let seg_count_x2 = u16_in(cmap, at + 6);
        let seg_count = u32::from(seg_count_x2 / 2);
        if cmap.len() < at + 16 + 8 * seg_count as usize {
            return Err(CharMapFault::BadCharMap);
        }
        let end_codes = Codes::short(cmap, at + 14, 2, seg_count);
        if end_codes.fall() {
            return Err(CharMapFault::BadCharMap);
        }
        Ok(Segments {
            cmap,
            start,
            seg_count,
            end_codes: RisingCodes::of(end_codes),
        })
    }

    /// The segment that counts for a code. The search begins at the segment with the number `near`, which becomes that of the
    /// segment that is found, or the number of all segments.
    #[inline]
    fn find(&self, near: &mut u32, code: u32) -> Option<Segment>
        ensures value { result ≡ segment_for self.now.segments code }
        ensures reaches { IfSome result (λ s. code ≤ s.end_code) }
        ensures offset { IfSome result (λ s. s.offset < 2 ^ 40) }
    {
        match self.end_codes.find(near, code) {
            Some(k) => Some(segment(self.cmap, self.start, self.seg_count, k)),
            None => None,
        }
    }
}

impl<'a> Subtable for Segments<'a> {
    ghost use Rattle.fx_cmap.specs.Segments.{glyph_by_segments};

    ghost glyph_of = { glyph_by_segments };

    /// It has none past U+FFFF.
    #[inline]
    fn glyph(&self, near: &mut u32, code: u32) -> u16 {
        match self.find(near, code) {
            Some(segment) => segment.glyph(self.cmap, code),
            None => 0,
        }
    }

    /// The first code of the segment that counts for the given one. If none does, none counts for a later one, and the result is
    /// the greatest number.
    fn gap_end(&self, near: u32, code: u32) -> u32 {
        let mut near = near;
        match self.find(&mut near, code) {
            Some(segment) => u32::from(segment.start_code.min(segment.end_code)),
            None => u32::MAX,
        }
    }
}

/// The segment with a number, of `count` segments in the subtable at an offset of `cmap`.
#[tactic(auto, unfolding(crate::specs::Segments::segment_of))]
fn segment(cmap: &[u8], start: u32, count: u32, k: u32) -> Segment
    requires inside { start + 16 + 8 * count ≤ length cmap.now }
    requires within { k < count }
    ensures value { result ≡ segment_of cmap.now start count k }
    ensures offset { result.offset < 2 ^ 40 }
{
    let n = count as usize;
    let at = start as usize + 2 * k as usize;
    Segment {
        end_code: u16_in(cmap, at + 14),
        start_code: u16_in(cmap, at + 16 + 2 * n),
        id_delta: u16_in(cmap, at + 16 + 4 * n),
        id_range_offset: u16_in(cmap, at + 16 + 6 * n),
        offset: at + 16 + 6 * n,
    }
}

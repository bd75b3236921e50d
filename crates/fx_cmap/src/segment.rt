//! One segment of a character map.

ghost use Rattle.std.specs.Prelude.{◌≡◌};
ghost use Rattle.fx_cmap.specs.Segments.{plus_id_delta};

use fx_sfnt::u16_at;

/// The fields of a segment: it is for the codes from `start_code` to `end_code`.
#[derive(Clone, Copy)]
pub struct Segment {
    /// Its `endCode`.
    pub end_code: u16,
    /// Its `startCode`.
    pub start_code: u16,
    /// Its `idDelta`, which is added modulo 65536.
    pub id_delta: u16,
    /// Its `idRangeOffset`.
    pub id_range_offset: u16,
    /// The offset in `cmap` of its `idRangeOffset`.
    pub offset: usize,
}

impl Segment {
    ghost use Rattle.std.specs.Prelude.{◌≡◌, ◌^◌, ◌<◌, ◌≤◌};
    ghost use Rattle.fx_cmap.specs.Segments.{glyph_in_segment};

    /// The glyph of a code that this segment counts for.
    #[tactic(auto, unfolding(crate::specs::Segments::glyph_in_segment))]
    pub fn glyph(&self, cmap: &[u8], code: u32) -> u16
        requires offset { self.now.offset < 2 ^ 40 }
        requires reaches { code ≤ self.now.end_code }
        ensures { result ≡ glyph_in_segment cmap.now self.now code }
    {
        if code < self.start_code as u32 {
            return 0;
        }
        if self.id_range_offset == 0 {
            return plus_id_delta(code as u16, self.id_delta);
        }
        if self.id_range_offset == 0xFFFF {
            return 0;
        }
        let at = self.offset
            + self.id_range_offset as usize
            + 2 * (code - self.start_code as u32) as usize;
        match u16_at(cmap, at) {
            Some(id) if id != 0 => plus_id_delta(id, self.id_delta),
            _ => 0,
        }
    }
}

/// The sum of a number and `idDelta`, modulo 65536.
fn plus_id_delta(number: u16, id_delta: u16) -> u16
    ensures { result ≡ plus_id_delta number id_delta }
{
    ((number as u32 + id_delta as u32) % 65536) as u16
}

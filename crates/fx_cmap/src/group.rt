//! One group of a character map.

ghost use Rattle.std.specs.Prelude.{◌≡◌};
ghost use Rattle.fx_cmap.specs.Groups.{glyph_id_of};

/// The fields of a group: it is for the codes from `start_char_code` to `end_char_code`.
#[derive(Clone, Copy)]
pub struct Group {
    /// Its `startCharCode`.
    pub start_char_code: u32,
    /// Its `endCharCode`.
    pub end_char_code: u32,
    /// Its `startGlyphID`, the glyph of `start_char_code`; each further code has the next glyph.
    pub start_glyph_id: u32,
}

impl Group {
    ghost use Rattle.fx_cmap.specs.Groups.{glyph_in_group};

    /// The glyph of a code that this group counts for.
    #[tactic(auto, unfolding(crate::specs::Groups::glyph_in_group))]
    pub fn glyph(&self, code: u32) -> u16
        ensures { result ≡ glyph_in_group self.now code }
    {
        if code < self.start_char_code {
            return 0;
        }
        glyph_id(u64::from(self.start_glyph_id) + u64::from(code - self.start_char_code))
    }
}

/// The glyph id that a number is, 0 if it has more than 16 bits.
fn glyph_id(number: u64) -> u16
    ensures { result ≡ glyph_id_of number }
{
    if number <= 0xFFFF { number as u16 } else { 0 }
}

//! What a front learns of a run.
use crate::text::Text;

/// The counts of a strike.
#[derive(Clone, Copy)]
pub struct Counts {
    pub glyphs: u32,
    pub missing: u32,
}

/// What a front learns of a refusal.
#[derive(Clone, Copy)]
pub struct RefusalFacts {
    /// Its number.
    pub number: u8,
    /// What to do.
    pub advice: &'static str,
    /// The glyph that is refused.
    pub glyph: Option<u16>,
    /// Whether a program of the font halted.
    pub is_halted: bool,
    /// Whether that was the program of a glyph.
    pub is_halted_glyph: bool,
}

/// What a front learns of the font of a run.
#[derive(Drop)]
pub struct FontFacts {
    /// The first bytes of the font's file, if it was read and is not hexadecimal text.
    pub start: Option<Vec<u8>>,
    /// Whether the font is a variable font.
    pub is_variable: bool,
    /// Whether the font has bitmaps of its own at the size of the strike.
    pub has_bitmaps: bool,
    /// Which characters are missing, as `4e00-4e10,5000`, and whether these are not all.
    pub missing: Text,
    pub has_more: bool,
    /// The first character that the font has, if the strike has no glyph.
    pub first: Option<u32>,
    /// Whether the font has more characters than the strike takes.
    pub is_cut: bool,
}

/// What a front learns of a run.
#[derive(Drop)]
pub struct Facts {
    /// The strike that was made.
    pub strike: Option<Counts>,
    /// The refusal.
    pub refused: Option<RefusalFacts>,
    /// Its font.
    pub font: FontFacts,
}

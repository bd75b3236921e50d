//! A point of a simple glyph.

/// A point of a contour, in FUnits (OpenType, `glyf`, simple glyph table).
#[derive(Clone, Copy, Debug, PartialEq, Eq)]
pub struct GlyphPoint {
    pub x: i16,
    pub y: i16,
    pub on_curve: bool,
}

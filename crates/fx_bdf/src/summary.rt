//! What a strike's glyphs settle of its properties.

/// What the glyphs of a strike settle of the properties that the X logical font description has.
#[derive(Clone, Copy, Debug, PartialEq, Eq)]
pub struct Summary {
    /// Whether all advances are one.
    pub is_monospaced: bool,
    /// Ten times the mean of the sizes of the advances, in pixels, rounded; 0 if there is no glyph.
    pub average_width: i32,
    /// Whether U+FFFD is in the strike.
    pub has_replacement: bool,
    /// Whether U+0020 is.
    pub has_space: bool,
}

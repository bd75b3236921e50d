//! Why bytes are no glyph.

use thiserror::Error;

/// The first fault of a glyph's bytes, with the glyph's number.
#[derive(Clone, Copy, Debug, PartialEq, Eq, Error)]
pub enum GlyphFault {
    /// The bytes end too early.
    #[error("the bytes of glyph {0} end too early")]
    GlyphShort(u16),
    /// An end point of a contour is below the one before it.
    #[error("the end points of glyph {0} decrease")]
    BadContours(u16),
}

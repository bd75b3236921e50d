//! Why a file is not a font that is read, or a glyph has no bytes.

use thiserror::Error;

/// What is wrong with a font's tables: the first fault, in the order of the checks.
#[derive(Clone, Copy, Debug, PartialEq, Eq, Error)]
pub enum FontFault {
    /// The directory is truncated, or has a version other than 1.0 and `true`; or so does a collection's header, whose versions are
    /// 1.0 and 2.0.
    #[error("the file is no TrueType font")]
    NotTrueType,
    /// The file has no face of the number that is asked for.
    #[error("the file has no such face")]
    NoFace,
    /// A required table is not in the directory.
    #[error("the table with tag {0:?} is missing")]
    TableMissing([u8; 4]),
    /// A table is shorter than the fields that are read from it.
    #[error("the table with tag {0:?} is too short")]
    TableShort([u8; 4]),
    /// `head` has another magic number, a size of the em square outside 16 to 16384, or a format of `loca` above 1.
    #[error("a field of head is wrong")]
    BadHead,
    /// `maxp` has another version than 1.0, or no glyph.
    #[error("a field of maxp is wrong")]
    BadMaxp,
    /// The offsets of this glyph in `loca` are truncated, decrease, or begin past the end of `glyf`.
    #[error("the offsets of glyph {0} are wrong")]
    BadLoca(u16),
    /// This glyph's number is not below the number of glyphs.
    #[error("there is no glyph {0}")]
    BadGlyphNumber(u16),
}

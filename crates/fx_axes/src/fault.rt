//! Why a font has no axes that are read, or no place for values along them.

use thiserror::Error;

/// The first fault of the tables of axes, or of values along them. A tag is its four bytes as a big-endian number.
#[derive(Clone, Copy, Debug, PartialEq, Eq, Error)]
pub enum AxesFault {
    /// The font has no table `fvar`.
    #[error("the font is not variable")]
    NotVariable,
    /// `fvar` is too short, has another version than 1.0, records that are too small, or an axis whose default is not between its
    /// least and its greatest value.
    #[error("fvar is wrong")]
    BadFvar,
    /// `avar` is too short, has another version than 1.0, another number of axes than `fvar`, or a map that is none.
    #[error("avar is wrong")]
    BadAvar,
    /// A value is given for an axis that the font lacks.
    #[error("there is no axis with tag {0:08X}")]
    UnknownAxis(u32),
    /// Two values are given for an axis.
    #[error("the axis with tag {0:08X} is given twice")]
    RepeatedAxis(u32),
    /// The value that is given for an axis is below its least or above its greatest one.
    #[error("the value of the axis with tag {0:08X} is out of range")]
    OutOfRange(u32),
}

//! Why a font has no character map that is read.

use thiserror::Error;

/// What is wrong with a font's `cmap`.
#[derive(Clone, Copy, Debug, PartialEq, Eq, Error)]
pub enum CharMapFault {
    /// There is no `cmap`, or none of the candidates has a subtable in it.
    #[error("the font has no character map that is read")]
    NoCharMap,
    /// `cmap` ends within its header, its records or the fields of the subtable; or the subtable's last codes fall.
    #[error("the character map is wrong")]
    BadCharMap,
}

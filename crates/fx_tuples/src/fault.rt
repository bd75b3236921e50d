//! Why the tuples of a glyph, or of the control values, can't be read.

use thiserror::Error;

/// The first fault of tuples, in the order in which they are read.
#[derive(Clone, Copy, Debug, PartialEq, Eq, Error)]
pub enum TupleFault {
    /// `cvar` has another version than 1.0.
    #[error("the version of cvar is not 1.0")]
    BadVersion,
    /// The header of a tuple ends too early, or names a shared tuple that does not exist.
    #[error("the headers of tuples end too early")]
    HeaderShort,
    /// The data end before those of a tuple do.
    #[error("the data of tuples end too early")]
    DataShort,
    /// Point numbers end too early, or a run has more of them than are left.
    #[error("the point numbers of a tuple end too early")]
    NumbersShort,
    /// Deltas end too early, or a run has more of them than are left.
    #[error("the deltas of a tuple end too early")]
    DeltasShort,
}

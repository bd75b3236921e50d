//! Why a trace has no more lines.

use fx_hint::HintFault;
use thiserror::Error;

/// Why a trace is not that of programs that ended well.
#[derive(Clone, Copy, Debug, PartialEq, Eq, Error)]
pub enum TraceFault {
    /// The programs ended with this fault, after the lines that were written.
    #[error("{0}")]
    Cause(HintFault),
    /// The writer took this many bytes of the text.
    #[error("write failed after {0} bytes")]
    WriteFailed(u64),
    /// Out of memory.
    #[error("out of memory")]
    OutOfMemory,
}

/// Why the text of a trace stops.
#[derive(Clone, Copy)]
pub enum Stop {
    /// The writer took this many bytes of it.
    WriterFailed(u64),
    /// There is no memory for what a trace keeps of the state.
    OutOfMemory,
}

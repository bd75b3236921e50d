//! Why an outline has no pieces or no frame.

ghost use Rattle.std.specs.Prelude.{◌≡◌};
ghost use Rattle.fx_contour.specs.declared.fault.ContourFault.TheVariants.{OutOfMemory};

use std::alloc::AllocError;
use thiserror::Error;

/// Why an outline has no pieces or no frame.
#[derive(Clone, Copy, Debug, PartialEq, Eq, Error)]
pub enum ContourFault {
    /// A point lies more than 2^21 from an axis, in 26.6 pixels; with drop-out control, one of a piece more than 2^21 - 128.
    #[error("a point of the outline lies too far out")]
    TooFar,
    /// A side of the frame has more than 8,192 pixels.
    #[error("the frame has more than 8,192 pixels a side")]
    TooLarge,
    /// Out of memory.
    #[error("out of memory")]
    OutOfMemory,
}

impl From<AllocError> for ContourFault {
    ghost from_gives = { λ _ e. e ≡ OutOfMemory };

    fn from(_e: AllocError) -> ContourFault {
        ContourFault::OutOfMemory
    }
}

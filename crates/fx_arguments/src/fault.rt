//! Faults of a run.
ghost use Rattle.std.specs.Prelude.{◌≡◌};
ghost use Rattle.fx_arguments.specs.declared.fault.Fault.TheVariants.{Early};
ghost use Rattle.fx_request.specs.declared.refusal.Refusal.TheVariants.{OutOfMemory};

use fx_request::Refusal;
use std::alloc::{AllocError, AllocFailed};

/// Why a run failed.
#[derive(Clone, Copy)]
pub enum Fault {
    /// The arguments are invalid.
    Usage,
    /// A refusal before the job was begun.
    Early(Refusal),
    /// A refusal of the job: of the strike, the picture, the outline, the listing or the trace.
    Late(Refusal),
}

impl From<AllocError> for Fault {
    ghost from_gives = { λ _ e. e ≡ Early OutOfMemory };

    fn from(_e: AllocError) -> Fault {
        Fault::Early(Refusal::OutOfMemory)
    }
}

impl<T: Drop> From<AllocFailed<T>> for Fault {
    ghost from_gives = { λ _ e. e ≡ Early OutOfMemory };

    fn from(_e: AllocFailed<T>) -> Fault {
        Fault::Early(Refusal::OutOfMemory)
    }
}

impl From<Refusal> for Fault {
    ghost from_gives = { λ refusal e. e ≡ Early refusal };

    fn from(refusal: Refusal) -> Fault {
        Fault::Early(refusal)
    }
}

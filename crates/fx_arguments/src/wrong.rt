//! What is wrong with the values of a command's options.
ghost use Rattle.std.specs.Prelude.{◌≡◌};
ghost use Rattle.fx_arguments.specs.declared.wrong.Wrong.TheVariants.{Refused};
ghost use Rattle.fx_request.specs.declared.refusal.Refusal.TheVariants.{OutOfMemory};

use fx_request::Refusal;
use std::alloc::AllocFailed;

/// Why the values of a command's options ask for nothing.
#[derive(Clone, Copy)]
pub enum Wrong<'a> {
    /// What is wrong.
    Says(&'static str),
    /// What an option takes, and a value that it does not take.
    NotTaken(&'a str, &'a str),
    /// Characters are malformed, or out of memory.
    Refused(Refusal),
}

impl From<Refusal> for Wrong<'_> {
    ghost from_gives = { λ refusal e. e ≡ Refused refusal };

    fn from(refusal: Refusal) -> Self {
        Wrong::Refused(refusal)
    }
}

impl<T: Drop> From<AllocFailed<T>> for Wrong<'_> {
    ghost from_gives = { λ _ e. e ≡ Refused OutOfMemory };

    fn from(_e: AllocFailed<T>) -> Self {
        Wrong::Refused(Refusal::OutOfMemory)
    }
}

//! Lines that say what is wrong with arguments.
ghost use Rattle.std.specs.Prelude.{◌≡◌, ◌∷◌, [], IfOk};
ghost use Rattle.fx_arguments.specs.Arguments.{texts};
ghost use Rattle.fx_arguments.specs.Mistakes.{IsSaid};
ghost use Rattle.fx_arguments.specs.Wrong.{said};
ghost use Rattle.fx_arguments.specs.declared.fault.Fault.TheVariants.{Early};
ghost use Rattle.fx_arguments.specs.declared.said.Said.TheVariants.{Stopped};
ghost use Rattle.fx_request.specs.declared.refusal.Refusal.TheVariants.{OutOfMemory};

use crate::fault::Fault;
use std::alloc::{AllocError, AllocFailed, Global};

/// What is wrong with arguments, or that there is no memory for the line.
#[derive(Drop)]
pub enum Said {
    /// The line, with its end.
    MessageLine(Vec<u8>),
    /// Out of memory.
    Stopped(Fault),
}

impl From<AllocError> for Said {
    ghost from_gives = { λ _ e. e ≡ Stopped (Early OutOfMemory) };

    fn from(e: AllocError) -> Said {
        Said::Stopped(Fault::from(e))
    }
}

impl<T: Drop> From<AllocFailed<T>> for Said {
    ghost from_gives = { λ _ e. e ≡ Stopped (Early OutOfMemory) };

    fn from(e: AllocFailed<T>) -> Said {
        Said::Stopped(Fault::from(e))
    }
}

/// The line of pieces.
fn line_of(alloc: Global, pieces: &[&str]) -> Result<Vec<u8>, AllocError>
    ensures { IfOk result (λ line. line.items ≡ said (texts pieces.now)) }
{
    let mut line = Vec::new(alloc);
    // The pieces so far were added.
    'pieces: for piece in pieces {
        line.extend_from_slice(piece.as_bytes())?;
    }
    line.push(b'\n')?;
    Ok(line)
}

/// A line of a word between two texts.
pub fn say_about(alloc: Global, before: &str, word: &str, after: &str) -> Said
    ensures { IsSaid result (said (before.now ∷ word.now ∷ after.now ∷ [])) }
{
    say(alloc, &[before, word, after])
}

/// A line of these pieces.
pub fn say(alloc: Global, pieces: &[&str]) -> Said
    ensures { IsSaid result (said (texts pieces.now)) }
{
    match line_of(alloc, pieces) {
        Ok(line) => Said::MessageLine(line),
        Err(fault) => Said::from(fault),
    }
}

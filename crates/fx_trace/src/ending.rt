//! How a trace ends.

ghost use Rattle.std.specs.Prelude.{◌≡◌};
ghost use Rattle.fx_trace.specs.Traces.{end_of};
ghost use Rattle.fx_trace.specs.inner.Ending.{fpgm_end, result_of};

use crate::fault::{Stop, TraceFault};
use fx_hint::HintFault;
use fx_machine::FontProgram;

/// Whether there was a fault, and which.
pub fn end_of<Y: Drop>(made: Result<Y, HintFault>) -> Result<(), HintFault>
    ensures { result ≡ end_of made }
{
    match made {
        Ok(_) => Ok(()),
        Err(fault) => Err(fault),
    }
}

/// How `fpgm` ended, by how `fpgm` and `prep` did: `prep` runs only if `fpgm` ended well.
pub fn fpgm_end(end: Result<(), HintFault>) -> Result<(), HintFault>
    ensures { result ≡ fpgm_end end }
{
    match end {
        Err(HintFault::Halted(halt)) => match halt.during {
            FontProgram::Prep => Ok(()),
            _ => Err(HintFault::Halted(halt)),
        },
        end => end,
    }
}

/// What a trace returns, by what became of its text, and of the programs.
pub fn result_of(told: Result<(), Stop>, end: Result<(), HintFault>) -> Result<(), TraceFault>
    ensures { result ≡ result_of told end }
{
    match told {
        Err(Stop::WriterFailed(n)) => Err(TraceFault::WriteFailed(n)),
        Err(Stop::OutOfMemory) => Err(TraceFault::OutOfMemory),
        Ok(()) => match end {
            Ok(()) => Ok(()),
            Err(HintFault::OutOfMemory) => Err(TraceFault::OutOfMemory),
            Err(fault) => Err(TraceFault::Cause(fault)),
        },
    }
}

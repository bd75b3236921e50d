//! The traces of the font program and of the control value program.

ghost use Rattle.std.specs.Prelude.{◌≡◌, ◌<◌, ◌^◌, length, nat_eq};
ghost use Rattle.fx_fixed.specs.Changes.{change_of};
ghost use Rattle.fx_fixed.specs.Chain.{GivesUnless, map_fault};
ghost use Rattle.fx_sfnt.specs.Tables.{table_or_empty};
ghost use Rattle.fx_machine.specs.Known.{machine_of};
ghost use Rattle.fx_hint.specs.Faults.{Fails};
ghost use Rattle.fx_hint.specs.Outlines.{of_machine};
ghost use Rattle.fx_trace.specs.Traces.{fpgm_trace, if_there, prelude_text, prep_trace, Traces, end_of};
ghost use Rattle.fx_trace.specs.inner.Ending.{ended, fpgm_end, result_of};

use crate::ending::{fpgm_end, result_of};
use crate::fault::{Stop, TraceFault};
use crate::tracer::Tracer;
use crate::wanted::TracedPrograms;
use fx_fixed::{Ppem, Sink};
use fx_hint::{HintFault, RunWatcher};
use fx_machine::{Machine, MachineFault, Unwatched};
use fx_sfnt::Font;
use std::alloc::Global;

/// Why there is no machine, as a cause why there is no outline.
fn machine_end(made: Result<Machine<'_>, MachineFault>) -> Result<(), HintFault>
    ensures { result ≡ end_of (map_fault of_machine made.entry) }
{
    match made {
        Ok(_) => Ok(()),
        Err(MachineFault::Halted(halt)) => Err(HintFault::Halted(halt)),
        Err(MachineFault::OutOfMemory) => Err(HintFault::OutOfMemory),
    }
}

/// Whether a table of a font is absent or empty.
fn is_absent(font: &Font<'_>, tag: [u8; 4]) -> bool
    ensures { result ≡ nat_eq (length (table_or_empty font.now tag)) 0 }
{
    font.table(tag).unwrap_or(&[]).is_empty()
}

/// Runs `fpgm`, then `prep`: how they ended.
fn run_untold(alloc: Global, font: &Font<'_>, ppem: Ppem) -> Result<(), HintFault>
    ensures { GivesUnless Fails (λ u. u) result (end_of (map_fault of_machine (machine_of font.now ppem))) }
{
    machine_end(Machine::new(alloc, font.shared(), ppem, &mut Unwatched))
}

/// Runs `fpgm`, then `prep`, and writes the lines of one of them: what became of the text, and how they ended.
fn run_told<S: Sink>(
    alloc: Global,
    font: &Font<'_>,
    ppem: Ppem,
    wanted: TracedPrograms,
    out: &mut S,
) -> (Result<(), Stop>, Result<(), HintFault>)
    requires { S.fault_count out.old < 2 ^ 63 }
    ensures traces { Traces (ended (prelude_text font.now ppem wanted) result.1)
        (change_of S.held S.fault_count out.old out.new) (result_of result.0 result.1) }
    ensures value { GivesUnless Fails (λ u. u) result.1 (end_of (map_fault of_machine (machine_of font.now ppem))) }
{
    let tracer = Tracer::new(alloc, out, wanted);
    let mut watched = RunWatcher {
        watcher: tracer,
        component: None,
    };
    let made = Machine::new(alloc, font.shared(), ppem, &mut watched);
    let RunWatcher { watcher, .. } = watched;
    let mut tracer = watcher;
    let told = tracer.end();
    tracer.close();
    (told, machine_end(made))
}

/// Runs `fpgm`, then `prep`, and writes the lines of one of them, which is in this table: what became of the text, and how they
/// ended.
fn run_both<S: Sink>(
    alloc: Global,
    font: &Font<'_>,
    ppem: Ppem,
    wanted: TracedPrograms,
    tag: [u8; 4],
    out: &mut S,
) -> (Result<(), Stop>, Result<(), HintFault>)
    requires { S.fault_count out.old < 2 ^ 63 }
    ensures traces { Traces (ended (if_there (table_or_empty font.now tag) (prelude_text font.now ppem wanted)) result.1)
        (change_of S.held S.fault_count out.old out.new) (result_of result.0 result.1) }
    ensures value { GivesUnless Fails (λ u. u) result.1 (end_of (map_fault of_machine (machine_of font.now ppem))) }
{
    if is_absent(font, tag) {
        return (Ok(()), run_untold(alloc, font, ppem));
    }
    run_told(alloc, font, ppem, wanted, out)
}

/// Writes the trace of `fpgm` at a size: a line when it begins and one for each instruction that was executed. If it is absent or
/// empty it does not begin.
///
/// `Cause` is its halt, after the lines until then; what `prep` comes to is not told. After `WriteFailed(n)` the writer holds the
/// first n bytes of the trace, after `OutOfMemory` a beginning of it.
pub fn trace_fpgm<S: Sink>(
    alloc: Global,
    font: &Font<'_>,
    ppem: Ppem,
    out: &mut S,
) -> Result<(), TraceFault>
    requires { S.fault_count out.old < 2 ^ 63 }
    ensures { Traces (fpgm_trace font.now ppem) (change_of S.held S.fault_count out.old out.new) result }
{
    let (told, end) = run_both(alloc, font, ppem, TracedPrograms::Fpgm, *b"fpgm", out);
    result_of(told, fpgm_end(end))
}

/// Writes the trace of `prep` at a size, as `trace_fpgm` does that of `fpgm`, which runs before it.
///
/// `Cause` is the first halt of both: that of `fpgm` without a line, that of `prep` after the lines until then.
pub fn trace_prep<S: Sink>(
    alloc: Global,
    font: &Font<'_>,
    ppem: Ppem,
    out: &mut S,
) -> Result<(), TraceFault>
    requires { S.fault_count out.old < 2 ^ 63 }
    ensures { Traces (prep_trace font.now ppem) (change_of S.held S.fault_count out.old out.new) result }
{
    let (told, end) = run_both(alloc, font, ppem, TracedPrograms::Prep, *b"prep", out);
    result_of(told, end)
}

//! The trace of the programs of a glyph and of its components.

ghost use Rattle.std.specs.Prelude.{◌≡◌, ◌<◌, ◌^◌};
ghost use Rattle.fx_fixed.specs.Changes.{change_of};
ghost use Rattle.fx_fixed.specs.Chain.{GivesUnless};
ghost use Rattle.fx_scale.specs.Scaling.{scale_of};
ghost use Rattle.fx_hint.specs.Faults.{Fails};
ghost use Rattle.fx_hint.specs.Programmed.{hinting_of};
ghost use Rattle.fx_hint.specs.Outlines.{outline_with};
ghost use Rattle.fx_hint.specs.Runs.{runs_of};
ghost use Rattle.fx_trace.specs.Traces.{glyph_trace, end_of, Traces};
ghost use Rattle.fx_trace.specs.inner.Ending.{Ran};
ghost use Rattle.fx_trace.specs.inner.Telling.{Sees};

use crate::ending::{end_of, result_of};
use crate::fault::TraceFault;
use crate::tracer::Tracer;
use crate::wanted::TracedPrograms;
use fx_fixed::{Ppem, Sink};
use fx_hint::{HintFault, RunWatcher, WatchedMachine, outline_with};
use fx_machine::Machine;
use fx_sfnt::Font;
use std::alloc::Global;

/// The outline of a glyph is made, while a tracer watches: the tracer then, and whether there was a fault.
fn outline_watched<'w, S: Sink>(
    alloc: Global,
    machine: Machine<'_>,
    font: &Font<'_>,
    ppem: Ppem,
    g: u16,
    watcher: Tracer<'w, S>,
) -> (Tracer<'w, S>, Result<(), HintFault>)
    ensures ran { Ran (Sees (λ t. t.wanted) (λ t. t.text) (λ t. t.before)) machine.entry.known
        (runs_of (hinting_of machine.entry.known) font.now (scale_of font.now ppem) g) watcher.entry result.0 result.1 }
    ensures value { GivesUnless Fails (λ u. u) result.1 (end_of (outline_with (hinting_of machine.entry.known) font.now ppem g)) }
{
    let watcher = RunWatcher {
        watcher,
        component: None,
    };
    let mut watched = WatchedMachine { machine, watcher };
    let made = outline_with(alloc, &mut watched, font, ppem, g);
    let WatchedMachine { watcher, .. } = watched;
    let RunWatcher { watcher, .. } = watcher;
    (watcher, end_of(made))
}

/// Writes the trace of the programs of a glyph and of its components by what `prep` left, in the order in which they run: a line
/// when a program begins and one for each instruction that was executed.
///
/// `Cause` is the first fault, that of the glyph's bytes too; the lines until then were written. After `WriteFailed(n)` the writer
/// holds the first n bytes of the trace, after `OutOfMemory` a beginning of it.
pub fn trace_glyph<S: Sink>(
    alloc: Global,
    machine: Machine<'_>,
    font: &Font<'_>,
    ppem: Ppem,
    g: u16,
    out: &mut S,
) -> Result<(), TraceFault>
    requires { S.fault_count out.old < 2 ^ 63 }
    ensures { Traces (glyph_trace machine.entry.known font.now ppem g)
        (change_of S.held S.fault_count out.old out.new) result }
{
    let tracer = Tracer::new(alloc, out, TracedPrograms::Each);
    let (mut tracer, end) = outline_watched(alloc, machine, font, ppem, g, tracer);
    let told = tracer.end();
    tracer.close();
    result_of(told, end)
}

//! The trace of a font's programs.
ghost use Rattle.std.specs.Prelude.{◌≡◌, ◌<◌, ◌^◌, ℕ, Ok, Err, IfOk, IfErr, IsErrOf};
ghost use Rattle.fx_fixed.specs.Changes.{change_of};
ghost use Rattle.fx_strike.specs.Headline.{HasToName, IsCause, Late};
ghost use Rattle.fx_views.specs.Traces.{IsTold, IsToldSome, IsToldTo, TellsTrace, glyph_traced, is_trace_over, opening_for, refused_as};
ghost use Rattle.fx_views.specs.Traces.{told_in, told_of};
ghost use Rattle.fx_views.specs.Traces.{trace_of};

use crate::choices::{chosen_glyph, open_choice};
use fx_fixed::Sink;
use fx_machine::FontProgram;
use fx_request::{Refusal, TraceSubject};
use fx_sfnt::FontFile;
use fx_strike::{Opened, is_work_over, machine_at, of_hint, open_at};
use fx_trace::{TraceFault, trace_fpgm, trace_glyph, trace_prep};
use std::alloc::{AllocError, Global};

/// What a trace returns, as a refusal.
fn refused_as(traced: Result<(), TraceFault>) -> Result<bool, Refusal>
    ensures { result ≡ refused_as traced }
{
    match traced {
        Ok(()) => Ok(true),
        Err(TraceFault::Cause(fault)) => Err(of_hint(fault)),
        Err(TraceFault::WriteFailed(n)) => Err(Refusal::WriteFailed(n)),
        Err(TraceFault::OutOfMemory) => Err(Refusal::OutOfMemory),
    }
}

/// Writes the trace of a glyph of an opened font, if there is one, once `fpgm` and `prep` ran.
fn trace_chosen<W: Sink>(
    alloc: Global,
    opened: &Opened<'_>,
    glyph: Option<u16>,
    out: &mut W,
) -> Result<bool, Refusal>
    requires { W.fault_count out.old < 2 ^ 63 }
    ensures { TellsTrace (told_of opened.now glyph) (change_of W.held W.fault_count out.old out.new) result }
{
    let machine = machine_at(alloc, opened)?;
    match glyph {
        Some(g) => refused_as(trace_glyph(alloc, machine, &opened.font, opened.ppem, g, out)),
        None => Ok(false),
    }
}

/// The size, the font and its character map, for what is traced.
fn open_for<'a>(file: &FontFile<'a>, ppem: u16, traced: TraceSubject) -> Result<Opened<'a>, Refusal>
    ensures due { result ≡ opening_for file.now ppem traced }
    ensures named { IfErr result IsCause }
{
    match traced {
        TraceSubject::Program(_) => open_at(file, ppem),
        TraceSubject::Glyph(choice) => open_choice(file, ppem, choice),
    }
}

/// The glyph whose programs are traced, if it is one.
fn glyph_traced(opened: &Opened<'_>, traced: TraceSubject) -> Option<u16>
    ensures { result ≡ glyph_traced opened.now traced }
{
    match traced {
        TraceSubject::Program(FontProgram::Fpgm | FontProgram::Prep) => None,
        TraceSubject::Program(FontProgram::Glyph(g)) => Some(g),
        TraceSubject::Glyph(choice) => chosen_glyph(&opened.map, choice),
    }
}

/// Whether the programs do more work than they may, if work is bounded.
fn is_trace_over(
    alloc: Global,
    opened: &Opened<'_>,
    traced: TraceSubject,
    careful: bool,
) -> Result<bool, AllocError>
    ensures { IfOk result (λ over. over ≡ is_trace_over opened.now traced careful) }
{
    if !careful {
        return Ok(false);
    }
    is_work_over(alloc, opened, glyph_traced(opened, traced))
}

/// Writes the trace of an opened font.
fn trace_opened<W: Sink>(
    alloc: Global,
    opened: &Opened<'_>,
    traced: TraceSubject,
    out: &mut W,
) -> Result<bool, Refusal>
    requires { W.fault_count out.old < 2 ^ 63 }
    ensures { TellsTrace (told_in opened.now traced) (change_of W.held W.fault_count out.old out.new) result }
{
    match traced {
        TraceSubject::Program(FontProgram::Fpgm) => {
            refused_as(trace_fpgm(alloc, &opened.font, opened.ppem, out))
        }
        TraceSubject::Program(FontProgram::Prep) => {
            refused_as(trace_prep(alloc, &opened.font, opened.ppem, out))
        }
        TraceSubject::Program(FontProgram::Glyph(g)) => trace_chosen(alloc, opened, Some(g), out),
        TraceSubject::Glyph(choice) => {
            trace_chosen(alloc, opened, chosen_glyph(&opened.map, choice), out)
        }
    }
}

/// `trace_of` with its clauses as one.
#[tactic(auto, unfolding(crate::specs::Traces::trace_of))]
fn trace_inner<W: Sink>(
    alloc: Global,
    font: &FontFile<'_>,
    ppem: u16,
    traced: TraceSubject,
    careful: bool,
    out: &mut W,
) -> Result<bool, Refusal>
    requires { W.fault_count out.old < 2 ^ 63 }
    ensures tells { TellsTrace (trace_of font.now ppem traced careful) (change_of W.held W.fault_count out.old out.new) result }
    ensures late { IsErrOf result Refusal.OutOfMemory → Late (opening_for font.now ppem traced) }
{
    let opened = open_for(font, ppem, traced)?;
    if is_trace_over(alloc, &opened, traced, careful)? {
        return Err(Refusal::TooMuchWork);
    }
    trace_opened(alloc, &opened, traced, out)
}

/// Writes the trace of a font's programs at a size: a line when a program begins, and one for each instruction that was executed.
/// False, and no line, if the font lacks the character.
///
/// If it is careful, `TooMuchWork` is returned before the first line if `fpgm` and `prep`, or the programs of the glyph, do more
/// work than they may.
///
/// The first cause is returned after the lines until then: the size, the code point, the font's tables, its character map, the
/// halts of `fpgm`, then of `prep`, then what a glyph comes to. A trace of `fpgm` ends with `fpgm`: a halt of `prep` is no cause.
/// After `WriteFailed(n)` the writer holds the first n bytes of the trace, after `OutOfMemory` a beginning of it. `OutOfMemory` may
/// be returned in place of any step after the character map, and of none before it.
pub fn trace_of<W: Sink>(
    alloc: Global,
    font: &FontFile<'_>,
    ppem: u16,
    traced: TraceSubject,
    careful: bool,
    out: &mut W,
) -> Result<bool, Refusal>
    requires { W.fault_count out.old < 2 ^ 63 }
    // The programs ended well, or the font lacks the character; the trace was written, and the writer counted no fault.
    ensures text { IfOk result (λ there.
        IsTold (trace_of font.now ppem traced careful) (change_of W.held W.fault_count out.old out.new) (Ok there)) }
    // The first cause was named after the lines until then, and the writer counted no fault.
    ensures cause { IfErr result (λ refusal. HasToName refusal →
        IsTold (trace_of font.now ppem traced careful) (change_of W.held W.fault_count out.old out.new) (Err refusal)) }
    // A beginning of the trace was written, and the writer counted no fault.
    ensures memory { IsErrOf result Refusal.OutOfMemory →
        IsToldSome (trace_of font.now ppem traced careful) (change_of W.held W.fault_count out.old out.new) }
    // Memory is taken late: after the size and the code point are within their limits, and the font and its map opened.
    ensures late { IsErrOf result Refusal.OutOfMemory → Late (opening_for font.now ppem traced) }
    // Exactly the first bytes of the trace were written, and the writer counted one fault.
    ensures writer { (n : ℕ) → IsErrOf result (Refusal.WriteFailed n) →
        IsToldTo (trace_of font.now ppem traced careful) (change_of W.held W.fault_count out.old out.new) n }
{
    trace_inner(alloc, font, ppem, traced, careful, out)
}

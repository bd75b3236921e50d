//! The lines of a trace.

ghost use Rattle.std.specs.Prelude.{◌≡◌};
ghost use Rattle.std.specs.List.{flat_map};
ghost use Rattle.fx_trace.specs.Lines.{last_of, number_text, program_text, component_text, purpose_text, begin_text, line_text};
ghost use Rattle.fx_trace.specs.inner.Telling.{Says};

use crate::changes::add_changes;
use crate::snapshot::Snapshot;
use crate::text::TraceText;
use crate::values::{TraceValue, add_value};
use fx_code::Code;
use fx_fixed::{Digits, Sink};
use fx_hint::ComponentOf;
use fx_machine::{FontProgram, State};

/// How many numbers of the stack a line shows at most, from the top.
const SHOWN: usize = 8;

/// Adds a program's name.
fn add_program<S: Sink>(text: &mut TraceText<'_, S>, program: FontProgram)
    ensures { Says text.old text.new (program_text program) }
{
    match program {
        FontProgram::Fpgm => text.add(&[b"fpgm"]),
        FontProgram::Prep => text.add(&[b"prep"]),
        FontProgram::Glyph(g) => text.add(&[b"glyph ", Digits::unsigned(u64::from(g)).text()]),
    }
}

/// Adds numbers in turn.
fn add_numbers<S: Sink>(text: &mut TraceText<'_, S>, numbers: &[i32])
    ensures { Says text.old text.new (flat_map number_text numbers.now) }
{
    // The numbers so far were added.
    'numbers: for number in numbers {
        add_value(text, &TraceValue::Number(*number));
    }
}

/// The last numbers of a list.
fn last(numbers: &[i32]) -> &[i32]
    ensures { result.now ≡ last_of numbers.now }
{
    if numbers.len() <= SHOWN {
        return numbers;
    }
    &numbers[numbers.len() - SHOWN..]
}

/// Adds the line of an instruction.
pub fn add_line<S: Sink>(
    text: &mut TraceText<'_, S>,
    program: FontProgram,
    code: &Code<'_>,
    address: usize,
    was: &Snapshot,
    state: &State,
)
    ensures { Says text.old text.new (line_text program code.now address was.now state.now) }
{
    add_program(text, program);
    text.add(&[b" "]);
    text.add_instruction(code, address);
    text.add(&[b" |"]);
    add_numbers(text, last(state.store.numbers()));
    add_changes(text, was, state);
    text.add(&[b"\n"]);
}

/// Adds a component of a glyph.
fn add_component<S: Sink>(text: &mut TraceText<'_, S>, component: ComponentOf)
    ensures { Says text.old text.new (component_text component) }
{
    text.add(&[
        b", component ",
        Digits::unsigned(u64::from(component.number)).text(),
        b" of glyph ",
        Digits::unsigned(u64::from(component.composite)).text(),
    ])
}

/// Adds for which component a program runs, if for one.
fn add_purpose<S: Sink>(text: &mut TraceText<'_, S>, component: Option<ComponentOf>)
    ensures { Says text.old text.new (purpose_text component) }
{
    match component {
        None => {}
        Some(component) => add_component(text, component),
    }
}

/// Adds the line of a program that begins.
pub fn add_begin<S: Sink>(
    text: &mut TraceText<'_, S>,
    component: Option<ComponentOf>,
    program: FontProgram,
)
    ensures { Says text.old text.new (begin_text component program) }
{
    add_program(text, program);
    text.add(&[b" begins"]);
    add_purpose(text, component);
    text.add(&[b"\n"]);
}

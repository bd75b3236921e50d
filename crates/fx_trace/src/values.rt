//! Values of parts of the state.

ghost use Rattle.std.specs.Prelude.{◌≡◌};
ghost use Rattle.std.specs.List.{flat_map};
ghost use Rattle.fx_trace.specs.Changes.{is_same, round_name, value_text};
ghost use Rattle.fx_trace.specs.inner.Telling.{Says};

use crate::text::TraceText;
use fx_fixed::{Digits, Sink};
use fx_gstate::RoundState;

/// The value of a part of the state.
#[derive(Clone, Copy)]
pub enum TraceValue {
    /// A number.
    Number(i32),
    /// A count.
    Count(u64),
    /// Two coordinates.
    Pair(i32, i32),
    /// A round state, without the grid that SROUND chooses.
    Round(RoundState),
}

/// The name of a round state.
fn round_name(state: &RoundState) -> &'static [u8]
    ensures { result.now ≡ round_name state.now }
{
    match state {
        RoundState::ToGrid => b"grid",
        RoundState::ToHalfGrid => b"half-grid",
        RoundState::ToDoubleGrid => b"double-grid",
        RoundState::DownToGrid => b"down",
        RoundState::UpToGrid => b"up",
        RoundState::Off => b"off",
        RoundState::Super(_) => b"super",
    }
}

/// Whether two values are the same.
#[inline(always)]
pub fn is_same(was: &TraceValue, now: &TraceValue) -> bool
    ensures { result ≡ is_same was.now now.now }
{
    match (was, now) {
        (TraceValue::Number(x), TraceValue::Number(y)) => *x == *y,
        (TraceValue::Count(x), TraceValue::Count(y)) => *x == *y,
        (TraceValue::Pair(x, y), TraceValue::Pair(z, w)) => *x == *z && *y == *w,
        (TraceValue::Round(x), TraceValue::Round(y)) => round_name(x) == round_name(y),
        _ => false,
    }
}

/// Adds a value after a space.
pub fn add_value<S: Sink>(text: &mut TraceText<'_, S>, value: &TraceValue)
    ensures { Says text.old text.new (value_text value.now) }
{
    match value {
        TraceValue::Number(n) => text.add(&[b" ", Digits::signed(*n).text()]),
        TraceValue::Count(n) => text.add(&[b" ", Digits::unsigned(*n).text()]),
        TraceValue::Pair(x, y) => text.add(&[
            b" ",
            Digits::signed(*x).text(),
            b",",
            Digits::signed(*y).text(),
        ]),
        TraceValue::Round(state) => text.add(&[b" ", round_name(state)]),
    }
}

/// Adds values in turn.
pub fn add_values<S: Sink>(text: &mut TraceText<'_, S>, values: &[TraceValue])
    ensures { Says text.old text.new (flat_map value_text values.now) }
{
    // The values so far were added.
    'values: for value in values {
        add_value(text, value);
    }
}

//! Packed deltas.

ghost use Rattle.std.specs.Prelude.{◌≡◌, ◌+◌, ◌-◌, ◌≤◌, ◌<◌, ◌≢◌, IsSome, IfSome, option_map, length, drop, pos};
ghost use Rattle.fx_glyf.specs.Words.{list_in};
ghost use Rattle.fx_tuples.specs.Deltas.{state, come, wide, narrow, run_from, opened, advanced, next_delta, deltas_from, deltas_in, start};

use crate::fault::TupleFault;
use fx_fixed::after;
use fx_sfnt::i16_in;
use std::marker::Model;

/// What is left of deltas: how many of the run, their form, the delta before, and the bytes.
#[derive(Clone, Copy)]
struct DeltaCursor<'a> {
    again: u8,
    form: u8,
    delta: i16,
    bytes: &'a [u8],
}

/// A run, at its first byte.
#[tactic(auto, unfolding(crate::specs::Deltas::run_from))]
fn run_from<'a>(most: usize, delta: i16, bytes: &'a [u8]) -> Option<DeltaCursor<'a>>
    ensures value { option_map (λ c. state c.again c.form c.delta c.bytes.now) result ≡ run_from most delta bytes.now }
    ensures some { IfSome result (λ c. c.again ≢ 0) }
{
    match bytes {
        [] => None,
        [head, rest @ ..] => {
            let again = *head % 64 + 1;
            if most < usize::from(again) {
                return None;
            }
            Some(DeltaCursor {
                again,
                form: *head / 64,
                delta,
                bytes: rest,
            })
        }
    }
}

/// The cursor in a run that has deltas left.
#[tactic(auto, unfolding(crate::specs::Deltas::opened))]
fn opened(most: usize, cursor: DeltaCursor<'_>) -> Option<DeltaCursor<'_>>
    ensures value { option_map (λ c. state c.again c.form c.delta c.bytes.now) result
        ≡ opened most (state cursor.entry.again cursor.entry.form cursor.entry.delta cursor.entry.bytes.now) }
    ensures some { IfSome result (λ c. c.again ≢ 0) }
{
    if cursor.again == 0 {
        run_from(most, cursor.delta, cursor.bytes)
    } else {
        Some(cursor)
    }
}

/// The cursor after a delta.
fn come(cursor: DeltaCursor<'_>, delta: i16, size: usize) -> DeltaCursor<'_>
    requires some { cursor.again ≢ 0 }
    requires inside { size ≤ length cursor.bytes.now }
    ensures { state result.again result.form result.delta result.bytes.now
        ≡ come (state cursor.entry.again cursor.entry.form cursor.entry.delta cursor.entry.bytes.now) delta
        (drop size cursor.entry.bytes.now) }
{
    DeltaCursor {
        again: cursor.again - 1,
        form: cursor.form,
        delta,
        bytes: after(cursor.bytes, size),
    }
}

/// The next delta of a run of which all are 0.
fn still(cursor: DeltaCursor<'_>) -> DeltaCursor<'_>
    requires { cursor.again ≢ 0 }
    ensures { state result.again result.form result.delta result.bytes.now
        ≡ come (state cursor.entry.again cursor.entry.form cursor.entry.delta cursor.entry.bytes.now)
        (pos 0) cursor.entry.bytes.now }
{
    DeltaCursor {
        again: cursor.again - 1,
        form: cursor.form,
        delta: 0,
        bytes: cursor.bytes,
    }
}

/// The next delta of a run of which each takes two bytes.
fn wide(cursor: DeltaCursor<'_>) -> Option<DeltaCursor<'_>>
    requires { cursor.again ≢ 0 }
    ensures { option_map (λ c. state c.again c.form c.delta c.bytes.now) result
        ≡ wide (state cursor.entry.again cursor.entry.form cursor.entry.delta cursor.entry.bytes.now) }
{
    if cursor.bytes.len() < 2 {
        return None;
    }
    let delta = i16_in(cursor.bytes, 0);
    Some(come(cursor, delta, 2))
}

/// The next delta of a run of which each takes a byte.
fn narrow(cursor: DeltaCursor<'_>) -> Option<DeltaCursor<'_>>
    requires { cursor.again ≢ 0 }
    ensures { option_map (λ c. state c.again c.form c.delta c.bytes.now) result
        ≡ narrow (state cursor.entry.again cursor.entry.form cursor.entry.delta cursor.entry.bytes.now) }
{
    if cursor.bytes.len() < 1 {
        return None;
    }
    let delta = i16::from(cursor.bytes[0].cast_signed());
    Some(come(cursor, delta, 1))
}

/// The next delta of a run.
#[tactic(auto, unfolding(crate::specs::Deltas::advanced))]
fn advanced(cursor: DeltaCursor<'_>) -> Option<DeltaCursor<'_>>
    requires { cursor.again ≢ 0 }
    ensures { option_map (λ c. state c.again c.form c.delta c.bytes.now) result
        ≡ advanced (state cursor.entry.again cursor.entry.form cursor.entry.delta cursor.entry.bytes.now) }
{
    if 2 <= cursor.form {
        Some(still(cursor))
    } else if cursor.form == 1 {
        wide(cursor)
    } else {
        narrow(cursor)
    }
}

/// The next delta.
#[tactic(auto, unfolding(crate::specs::Deltas::next_delta))]
fn next_delta(most: usize, cursor: DeltaCursor<'_>) -> Option<DeltaCursor<'_>>
    ensures { option_map (λ c. state c.again c.form c.delta c.bytes.now) result
        ≡ next_delta most (state cursor.entry.again cursor.entry.form cursor.entry.delta cursor.entry.bytes.now) }
{
    advanced(opened(most, cursor)?)
}

/// Before the first delta.
fn start(bytes: &[u8]) -> DeltaCursor<'_>
    ensures { state result.again result.form result.delta result.bytes.now ≡ start bytes.now }
{
    DeltaCursor {
        again: 0,
        form: 0,
        delta: 0,
        bytes,
    }
}

/// The bytes after `count` deltas, if they are complete.
#[tactic(auto, using(crate::proofs::DeltaSteps::skip_steps))]
pub fn skip_deltas(count: usize, bytes: &[u8]) -> Option<&[u8]>
    ensures { option_map (λ b. b.now) result ≡ option_map (λ r. r.1) (deltas_from count (start bytes.now)) }
{
    let mut cursor = start(bytes);
    // After the deltas that are left comes what comes after all.
    'deltas: for k in 0..count {
        match next_delta(count - k, cursor) {
            None => return None,
            Some(next) => cursor = next,
        }
    }
    Some(cursor.bytes)
}

/// Deltas that are left; their bytes are complete.
#[derive(Drop)]
pub struct Deltas<'a> {
    left: usize,
    cursor: DeltaCursor<'a>,
}

impl<'a> Model for Deltas<'a> {
    ghost use Rattle.std.specs.Prelude.{ℤ, List, IsSome};
    ghost use Rattle.fx_glyf.specs.Words.{list_in};
    ghost use Rattle.fx_tuples.specs.Deltas.{deltas_from, state};

    ghost Value = { List ℤ };

    ghost view = { λ d. list_in (deltas_from d.left (state d.cursor.again d.cursor.form d.cursor.delta d.cursor.bytes.now)) };

    ghost invariant = { λ d. IsSome (deltas_from d.left (state d.cursor.again d.cursor.form d.cursor.delta d.cursor.bytes.now)) };
}

impl<'a> Deltas<'a> {
    /// `count` deltas at the front of the bytes.
    pub fn new(count: usize, bytes: &'a [u8]) -> Deltas<'a>
        requires { IsSome (deltas_from count (start bytes.now)) }
        ensures { result ≡ list_in (deltas_from count (start bytes.now)) }
    {
        Deltas {
            left: count,
            cursor: start(bytes),
        }
    }
}

impl<'a> Iterator for Deltas<'a> {
    type Item = i16;

    ghost use Rattle.std.specs.Iterator.{YieldsFirst, item_count};

    ghost next_gives = { YieldsFirst (λ ds. ds) };

    ghost remaining = { item_count (λ ds. ds) };

    #[tactic(auto, using(crate::proofs::DeltaSteps::next_steps))]
    fn next(&mut self) -> Option<i16> {
        if self.left == 0 {
            return None;
        }
        match next_delta(self.left, self.cursor) {
            None => None,
            Some(cursor) => {
                self.left -= 1;
                self.cursor = cursor;
                Some(cursor.delta)
            }
        }
    }
}

/// The deltas of a coordinate: those of x come first, then those of y.
#[tactic(auto, using(crate::proofs::NumberLists::read_steps), unfolding(crate::specs::Deltas::deltas_in))]
pub fn deltas_in(second: bool, count: usize, bytes: &[u8]) -> Result<Deltas<'_>, TupleFault>
    ensures { result ≡ deltas_in second count bytes.now }
{
    let Some(rest) = skip_deltas(count, bytes) else {
        return Err(TupleFault::DeltasShort);
    };
    if !second {
        return Ok(Deltas::new(count, bytes));
    }
    match skip_deltas(count, rest) {
        None => Err(TupleFault::DeltasShort),
        Some(_rest) => Ok(Deltas::new(count, rest)),
    }
}

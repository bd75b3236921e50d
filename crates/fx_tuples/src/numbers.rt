//! Packed point numbers.

ghost use Rattle.std.specs.Prelude.{◌≡◌, ◌+◌, ◌-◌, ◌*◌, ◌^◌, ◌≤◌, ◌<◌, ◌≢◌, IsSome, IfSome, option_map, length, drop};
ghost use Rattle.fx_glyf.specs.Words.{list_in};
ghost use Rattle.fx_tuples.specs.Numbers.{state, moved, wide, narrow, run_from, opened, advanced, next_number, numbers_from, start};
ghost use Rattle.fx_tuples.specs.Numbers.{count_of};

use fx_fixed::after;
use fx_sfnt::u16_in;
use std::marker::Model;

/// What is left of numbers: how many of the run, whether they take two bytes each, the number before, and the bytes.
#[derive(Clone, Copy)]
struct Cursor<'a> {
    again: u8,
    is_wide: bool,
    number: u32,
    bytes: &'a [u8],
}

/// A run, at its first byte.
#[tactic(auto, unfolding(crate::specs::Numbers::run_from))]
fn run_from<'a>(most: u16, number: u32, bytes: &'a [u8]) -> Option<Cursor<'a>>
    ensures value { option_map (λ c. state c.again c.is_wide c.number c.bytes.now) result ≡ run_from most number bytes.now }
    ensures same { IfSome result (λ c. c.number ≡ number) }
    ensures some { IfSome result (λ c. c.again ≢ 0) }
{
    match bytes {
        [] => None,
        [head, rest @ ..] => {
            let again = *head % 128 + 1;
            if most < u16::from(again) {
                return None;
            }
            Some(Cursor {
                again,
                is_wide: 128 <= *head,
                number,
                bytes: rest,
            })
        }
    }
}

/// The cursor in a run that has numbers left.
#[tactic(auto, unfolding(crate::specs::Numbers::opened))]
fn opened(most: u16, cursor: Cursor<'_>) -> Option<Cursor<'_>>
    ensures value { option_map (λ c. state c.again c.is_wide c.number c.bytes.now) result
        ≡ opened most (state cursor.entry.again cursor.entry.is_wide cursor.entry.number cursor.entry.bytes.now) }
    ensures same { IfSome result (λ c. c.number ≡ cursor.entry.number) }
    ensures some { IfSome result (λ c. c.again ≢ 0) }
{
    if cursor.again == 0 {
        run_from(most, cursor.number, cursor.bytes)
    } else {
        Some(cursor)
    }
}

/// The cursor after a number.
fn moved(cursor: Cursor<'_>, by: u16, size: usize) -> Cursor<'_>
    requires some { cursor.again ≢ 0 }
    requires small { cursor.number ≤ 2 ^ 31 }
    requires inside { size ≤ length cursor.bytes.now }
    ensures value { state result.again result.is_wide result.number result.bytes.now
        ≡ moved (state cursor.entry.again cursor.entry.is_wide cursor.entry.number cursor.entry.bytes.now) by
        (drop size cursor.entry.bytes.now) }
    ensures near { result.number ≤ cursor.entry.number + 65535 }
{
    Cursor {
        again: cursor.again - 1,
        is_wide: cursor.is_wide,
        number: cursor.number + u32::from(by),
        bytes: after(cursor.bytes, size),
    }
}

/// The next number of a run of which each takes two bytes.
fn wide(cursor: Cursor<'_>) -> Option<Cursor<'_>>
    requires some { cursor.again ≢ 0 }
    requires small { cursor.number ≤ 2 ^ 31 }
    ensures value { option_map (λ c. state c.again c.is_wide c.number c.bytes.now) result
        ≡ wide (state cursor.entry.again cursor.entry.is_wide cursor.entry.number cursor.entry.bytes.now) }
    ensures near { IfSome result (λ c. c.number ≤ cursor.entry.number + 65535) }
{
    if cursor.bytes.len() < 2 {
        return None;
    }
    let by = u16_in(cursor.bytes, 0);
    Some(moved(cursor, by, 2))
}

/// The next number of a run of which each takes a byte.
fn narrow(cursor: Cursor<'_>) -> Option<Cursor<'_>>
    requires some { cursor.again ≢ 0 }
    requires small { cursor.number ≤ 2 ^ 31 }
    ensures value { option_map (λ c. state c.again c.is_wide c.number c.bytes.now) result
        ≡ narrow (state cursor.entry.again cursor.entry.is_wide cursor.entry.number cursor.entry.bytes.now) }
    ensures near { IfSome result (λ c. c.number ≤ cursor.entry.number + 65535) }
{
    if cursor.bytes.len() < 1 {
        return None;
    }
    let by = u16::from(cursor.bytes[0]);
    Some(moved(cursor, by, 1))
}

/// The next number of a run.
#[tactic(auto, unfolding(crate::specs::Numbers::advanced))]
fn advanced(cursor: Cursor<'_>) -> Option<Cursor<'_>>
    requires some { cursor.again ≢ 0 }
    requires small { cursor.number ≤ 2 ^ 31 }
    ensures value { option_map (λ c. state c.again c.is_wide c.number c.bytes.now) result
        ≡ advanced (state cursor.entry.again cursor.entry.is_wide cursor.entry.number cursor.entry.bytes.now) }
    ensures near { IfSome result (λ c. c.number ≤ cursor.entry.number + 65535) }
{
    if cursor.is_wide {
        wide(cursor)
    } else {
        narrow(cursor)
    }
}

/// The next number.
#[tactic(auto, unfolding(crate::specs::Numbers::next_number))]
fn next_number(most: u16, cursor: Cursor<'_>) -> Option<Cursor<'_>>
    requires { cursor.number ≤ 2 ^ 31 }
    ensures value { option_map (λ c. state c.again c.is_wide c.number c.bytes.now) result
        ≡ next_number most (state cursor.entry.again cursor.entry.is_wide cursor.entry.number cursor.entry.bytes.now) }
    ensures near { IfSome result (λ c. c.number ≤ cursor.entry.number + 65535) }
{
    advanced(opened(most, cursor)?)
}

/// Before the first number.
fn start(bytes: &[u8]) -> Cursor<'_>
    ensures { state result.again result.is_wide result.number result.bytes.now ≡ start bytes.now }
{
    Cursor {
        again: 0,
        is_wide: false,
        number: 0,
        bytes,
    }
}

/// The bytes after `count` numbers, if they are complete.
#[tactic(auto, using(crate::proofs::NumberSteps::skip_steps))]
pub fn skip_numbers(count: u16, bytes: &[u8]) -> Option<&[u8]>
    requires { count < 32768 }
    ensures { option_map (λ b. b.now) result ≡ option_map (λ r. r.1) (numbers_from count (start bytes.now)) }
{
    let mut cursor = start(bytes);
    // After the numbers that are left comes what comes after all.
    'numbers: for k in 0..count {
        match next_number(count - k, cursor) {
            None => return None,
            Some(next) => cursor = next,
        }
    }
    Some(cursor.bytes)
}

/// How many numbers there are, and the bytes after that; 0 means all points.
#[tactic(auto, unfolding(crate::specs::Numbers::count_of))]
pub fn count_of(bytes: &[u8]) -> Option<(u16, &[u8])>
    ensures value { option_map (λ c. (c.0, c.1.now)) result ≡ count_of bytes.now }
    ensures small { IfSome result (λ c. c.0 < 32768) }
{
    match bytes {
        [] => None,
        [first, rest @ ..] => {
            if *first < 128 {
                return Some((u16::from(*first), rest));
            }
            match rest {
                [] => None,
                [low, rest @ ..] => Some((u16::from(*first % 128) * 256 + u16::from(*low), rest)),
            }
        }
    }
}

/// Point numbers that are left; their bytes are complete.
#[derive(Drop)]
pub struct Numbers<'a> {
    left: u16,
    cursor: Cursor<'a>,
}

impl<'a> Model for Numbers<'a> {
    ghost use Rattle.std.specs.Prelude.{ℕ, List, IsSome, ◌+◌, ◌*◌, ◌^◌, ◌≤◌};
    ghost use Rattle.fx_glyf.specs.Words.{list_in};
    ghost use Rattle.fx_tuples.specs.Numbers.{numbers_from, state};

    ghost Value = { List ℕ };

    ghost view = { λ n. list_in (numbers_from n.left (state n.cursor.again n.cursor.is_wide n.cursor.number n.cursor.bytes.now)) };

    ghost invariant = { λ n. IsSome (numbers_from n.left
        (state n.cursor.again n.cursor.is_wide n.cursor.number n.cursor.bytes.now)) ×
        (n.cursor.number + 65535 * n.left ≤ 2 ^ 31) };
}

impl<'a> Numbers<'a> {
    /// `count` numbers at the front of the bytes.
    pub fn new(count: u16, bytes: &'a [u8]) -> Numbers<'a>
        requires small { count < 32768 }
        requires complete { IsSome (numbers_from count (start bytes.now)) }
        ensures { result ≡ list_in (numbers_from count (start bytes.now)) }
    {
        Numbers {
            left: count,
            cursor: start(bytes),
        }
    }
}

impl<'a> Iterator for Numbers<'a> {
    type Item = u32;

    ghost use Rattle.std.specs.Iterator.{YieldsFirst, item_count};

    ghost next_gives = { YieldsFirst (λ ns. ns) };

    ghost remaining = { item_count (λ ns. ns) };

    #[tactic(auto, using(crate::proofs::NumberSteps::next_steps))]
    fn next(&mut self) -> Option<u32> {
        if self.left == 0 {
            return None;
        }
        match next_number(self.left, self.cursor) {
            None => None,
            Some(cursor) => {
                self.left -= 1;
                self.cursor = cursor;
                Some(cursor.number)
            }
        }
    }
}

//! Lists of characters.
ghost use Rattle.std.specs.Prelude.{◌≡◌, ◌⊎◌, ◌+◌, ◌-◌, ◌<◌, ◌≤◌, ◌^◌, ◌++◌, length, option_and_then, IfOk, IfErr, IfSome, OnOk, vec_len};
ghost use Rattle.fx_request.specs.Limits.{max_characters};
ghost use Rattle.fx_arguments.specs.Chars.{number_of, numbers_between, numbers_from, numbers_of_list, pair_of, range_of};
ghost use Rattle.hex.specs.Hex.{hex_digit_value};

use crate::parts::first_part;
use fx_request::{MAX_CHARACTERS, Refusal};
use std::alloc::Global;

/// The numbers of a list of characters, in their order. Commas separate its items: a number of one to six hexadecimal digits, or
/// two such with `-` between them, low first. The empty text is the empty list. `BadChars` means that its form is wrong, or that it
/// has more than `MAX_CHARACTERS` numbers; any other refusal is `OutOfMemory`.
#[tactic(auto, using(crate::proofs::Items::none_by_item, crate::proofs::Items::all_items))]
pub fn parse_chars(alloc: Global, list: &str) -> Result<Vec<u32>, Refusal>
    ensures numbers { IfOk result (λ chars. numbers_of_list list.now ≡ Some chars.items) }
    ensures refused { IfErr result (λ refusal.
        (refusal ≡ Refusal.OutOfMemory) ⊎ ((refusal ≡ Refusal.BadChars) × (numbers_of_list list.now ≡ None))) }
{
    let mut chars = Vec::new(alloc);
    let mut left = if list.is_empty() { None } else { Some(list) };
    // The numbers of the items before `left` were pushed.
    'items: while let Some(text) = left {
        let (item, more) = first_part(text, ',');
        let Some((low, high)) = range(item) else {
            return Err(Refusal::BadChars);
        };
        push_range(&mut chars, low, high)?;
        left = more;
    }
    Ok(chars)
}

/// The first and the last number of an item.
#[tactic(auto, using(crate::proofs::Items::range_cut, crate::proofs::Items::range_whole))]
pub fn range(item: &str) -> Option<(u32, u32)>
    ensures value { result ≡ range_of item.now }
    ensures order { IfSome result (λ range. range.0 ≤ range.1) }
{
    match item.split_once('-') {
        Some((low, high)) => pair(number(low), number(high)),
        None => {
            let only = number(item);
            pair(only, only)
        }
    }
}

/// Two numbers, low first.
fn pair(low: Option<u32>, high: Option<u32>) -> Option<(u32, u32)>
    ensures value { result ≡ pair_of low high }
    ensures order { IfSome result (λ range. range.0 ≤ range.1) }
{
    match (low, high) {
        (Some(low), Some(high)) if low <= high => Some((low, high)),
        _ => None,
    }
}

/// A number of one to six hexadecimal digits.
#[tactic(auto, using(crate::proofs::Numerals::number_steps))]
pub fn number(text: &str) -> Option<u32>
    ensures { result ≡ number_of text.now }
{
    let digits = text.as_bytes();
    if digits.is_empty() || digits.len() > 6 {
        return None;
    }
    let mut number = 0u32;
    // The digits so far write `number`.
    'digits: for digit in digits {
        number = number * 16 + u32::from(digit_value(*digit)?);
    }
    Some(number)
}

/// The value of a hexadecimal digit in either case.
pub fn digit_value(digit: u8) -> Option<u8>
    ensures value { result ≡ hex_digit_value digit }
    ensures bound { IfSome result (λ value. value < 16) }
{
    match digit {
        b'A'..=b'F' => Some(digit - b'A' + 10),
        b'a'..=b'f' => Some(digit - b'a' + 10),
        b'0'..=b'9' => Some(digit - b'0'),
        _ => None,
    }
}

/// Appends all numbers from one to the other.
fn push_range(chars: &mut Vec<u32>, low: u32, high: u32) -> Result<(), Refusal>
    requires order { low ≤ high }
    requires few { vec_len chars.old ≤ max_characters }
    ensures ok { OnOk result (
        (chars.new.items ≡ chars.old.items ++ numbers_between (low, high)) × (vec_len chars.new ≤ max_characters)) }
    ensures err { IfErr result (λ refusal. (refusal ≡ Refusal.OutOfMemory)
        ⊎ ((refusal ≡ Refusal.BadChars) × (max_characters < vec_len chars.old + (high - low + 1)))) }
{
    let start = chars.len();
    let count = (high - low) as usize + 1;
    if count > MAX_CHARACTERS - start {
        return Err(Refusal::BadChars);
    }
    if chars.resize(start + count, low).is_err() {
        return Err(Refusal::OutOfMemory);
    }
    put_range(&mut chars[start..], low);
    Ok(())
}

/// Writes the numbers from `low` on, in steps of one.
fn put_range(numbers: &mut [u32], low: u32)
    requires { low + length numbers.old ≤ 2 ^ 32 }
    ensures { numbers.new ≡ numbers_from low (length numbers.old) }
{
    // The first k numbers are written.
    'numbers: for k in 0..numbers.len() {
        numbers[k] = low + k as u32;
    }
}

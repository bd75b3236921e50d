//! Which item of a list of characters is wrong, and why.
ghost use Rattle.std.specs.Prelude.{◌≡◌, option_map};
ghost use Rattle.std.specs.List.{list_all};
ghost use Rattle.fx_arguments.specs.WrongItems.{fault_of_item, fault_of_number, fault_of_range, is_digit, seen_item, wrong_item_of};

use crate::chars::{digit_value, number, range};
use crate::parts::first_part;
use fx_request::MAX_CODE;

/// Why an item of a list of characters is wrong.
#[derive(Clone, Copy)]
pub enum ItemFault {
    /// It is no hexadecimal number or range.
    NoNumber,
    /// A number has more than six digits.
    TooLong,
    /// It ends before it begins.
    Falls,
    /// It goes above 10FFFF.
    TooHigh,
}

/// The first item of a list of characters that is wrong, and why. If none is, a list that is refused has too many numbers.
pub fn wrong_item(list: &str) -> Option<(&str, ItemFault)>
    ensures { option_map seen_item result ≡ wrong_item_of list.entry.now }
{
    let mut left = if list.is_empty() { None } else { Some(list) };
    // The items before `left` are right.
    'items: while let Some(text) = left {
        let (item, more) = first_part(text, ',');
        if let Some(fault) = fault_of_item(item) {
            return Some((item, fault));
        }
        left = more;
    }
    None
}

/// Why an item is wrong.
fn fault_of_item(item: &str) -> Option<ItemFault>
    ensures { result ≡ fault_of_item item.now }
{
    match range(item) {
        Some((_, high)) if high <= MAX_CODE => None,
        Some(_) => Some(ItemFault::TooHigh),
        None => Some(fault_of_range(item)),
    }
}

/// Why an item is no range.
fn fault_of_range(item: &str) -> ItemFault
    ensures { result ≡ fault_of_range item.now }
{
    match item.split_once('-') {
        Some((low, high)) => match fault_of_number(low) {
            Some(fault) => fault,
            None => fault_of_number(high).unwrap_or(ItemFault::Falls),
        },
        None => fault_of_number(item).unwrap_or(ItemFault::Falls),
    }
}

/// Why a text is no number of at most six digits.
fn fault_of_number(text: &str) -> Option<ItemFault>
    ensures { result ≡ fault_of_number text.now }
{
    if number(text).is_some() {
        None
    } else if !text.is_empty() && are_digits(text.as_bytes()) {
        Some(ItemFault::TooLong)
    } else {
        Some(ItemFault::NoNumber)
    }
}

/// Whether all bytes are hexadecimal digits.
fn are_digits(bytes: &[u8]) -> bool
    ensures { result ≡ list_all is_digit bytes.now }
{
    bytes.iter().all(|byte| digit_value(*byte).is_some())
}

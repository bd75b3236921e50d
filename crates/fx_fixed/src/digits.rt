//! Numbers as text, in a fixed buffer.

ghost use Rattle.std.specs.Prelude.{◌≡◌, ◌+◌, ◌<◌, ◌≤◌, ◌^◌, ◌-◌, ◌++◌, ℕ, List, true, length, drop, replicate};
ghost use Rattle.std.specs.Fmt.{decimal, signed_decimal, digit_glyph, digits};
ghost use Rattle.fx_fixed.specs.Lines.{hexadecimal};

use std::marker::Model;

/// A number's digits, seen as their text.
#[derive(Drop)]
pub struct Digits {
    buffer: [u8; 20],
    at: usize,
}

impl Model for Digits {
    ghost Value = { List ℕ };

    ghost view = { λ d. drop d.at d.buffer };

    ghost invariant = { λ d. d.at ≤ 20 };
}

impl Digits {
    /// A number in decimal.
    pub fn unsigned(number: u64) -> Digits
        ensures { result ≡ decimal number }
    {
        let mut buffer = [0; 20];
        let at = put_decimal(number, &mut buffer, 20);
        Digits { buffer, at }
    }

    /// A signed number in decimal, with its sign if it is below 0.
    pub fn signed(number: i32) -> Digits
        ensures { result ≡ signed_decimal number }
    {
        let mut buffer = [0; 20];
        let at = put_signed(number, &mut buffer, 20);
        Digits { buffer, at }
    }

    /// A number in upper case hexadecimal digits, with zeros before them if it has fewer than `least`.
    pub fn hexadecimal(number: u64, least: usize) -> Digits
        requires { least ≤ 20 }
        ensures { result ≡ hexadecimal least number }
    {
        let mut buffer = [0; 20];
        let at = put_hexadecimal(number, least, &mut buffer, 20);
        Digits { buffer, at }
    }

    /// The text.
    pub fn text(&self) -> &[u8]
        ensures value { result.now ≡ self.now }
        ensures short { length result.now ≤ 20 }
    {
        &self.buffer[self.at..]
    }
}

/// Writes the digits of a number before the bytes from `end` on, and returns the offset of the first.
pub fn put_decimal(number: u64, buffer: &mut [u8], end: usize) -> usize
    requires room { 20 ≤ end }
    requires within { end ≤ length buffer.old }
    ensures long { length buffer.new ≡ length buffer.old }
    ensures within { result ≤ end }
    ensures few { end ≤ result + 20 }
    ensures digits { drop result buffer.new ≡ decimal number ++ drop end buffer.old }
    ensures before { number < 10 ^ 19 → end < result + 20 }
{
    let mut at = end;
    let mut left = number;
    // The digits of `left` and then those from `at` on are the number's, and what was from `end` on.
    'digits: while left >= 10 {
        at -= 1;
        buffer[at] = b'0' + (left % 10) as u8;
        left /= 10;
    }
    at -= 1;
    buffer[at] = b'0' + left as u8;
    at
}

/// Writes the digits of a signed number, with its sign if it is below 0, before the bytes from `end` on, and returns the offset of
/// the first byte.
pub fn put_signed(number: i32, buffer: &mut [u8], end: usize) -> usize
    requires room { 20 ≤ end }
    requires within { end ≤ length buffer.old }
    ensures long { length buffer.new ≡ length buffer.old }
    ensures within { result ≤ end }
    ensures few { end ≤ result + 20 }
    ensures digits { drop result buffer.new ≡ signed_decimal number ++ drop end buffer.old }
{
    let at = put_decimal(u64::from(number.unsigned_abs()), buffer, end);
    if number >= 0 {
        return at;
    }
    buffer[at - 1] = b'-';
    at - 1
}

/// Writes the upper case hexadecimal digits of a number before the bytes from `end` on, and zeros before them if it has fewer than
/// `least`; returns the offset of the first.
#[tactic(auto, unfolding(crate::specs::Lines::hexadecimal))]
pub fn put_hexadecimal(number: u64, least: usize, buffer: &mut [u8], end: usize) -> usize
    requires some { least ≤ 20 }
    requires room { 20 ≤ end }
    requires within { end ≤ length buffer.old }
    ensures long { length buffer.new ≡ length buffer.old }
    ensures within { result ≤ end }
    ensures few { end ≤ result + 20 }
    ensures digits { drop result buffer.new ≡ hexadecimal least number ++ drop end buffer.old }
{
    let first = put_hex_digits(number, buffer, end);
    put_zeros(least, first, buffer, end)
}

/// Writes the upper case hexadecimal digits of a number before the bytes from `end` on, and returns the offset of the first.
fn put_hex_digits(number: u64, buffer: &mut [u8], end: usize) -> usize
    requires room { 20 ≤ end }
    requires within { end ≤ length buffer.old }
    ensures long { length buffer.new ≡ length buffer.old }
    ensures within { result ≤ end }
    ensures few { end ≤ result + 20 }
    ensures digits { drop result buffer.new ≡ digits 16 true number ++ drop end buffer.old }
{
    let mut at = end;
    let mut left = number;
    // The digits of `left` and then those from `at` on are the number's, and what was from `end` on.
    'digits: while left >= 16 {
        at -= 1;
        buffer[at] = hex_digit((left % 16) as u8);
        left /= 16;
    }
    at -= 1;
    buffer[at] = hex_digit(left as u8);
    at
}

/// Writes zeros before the digits from `first` up to `end`, so that there are `least` in all, and returns the offset of the first.
fn put_zeros(least: usize, first: usize, buffer: &mut [u8], end: usize) -> usize
    requires some { least ≤ 20 }
    requires room { 20 ≤ end }
    requires within { end ≤ length buffer.old }
    requires order { first ≤ end }
    requires few { end ≤ first + 20 }
    ensures long { length buffer.new ≡ length buffer.old }
    ensures within { result ≤ end }
    ensures few { end ≤ result + 20 }
    ensures zeros { drop result buffer.new ≡ replicate (least - (end - first)) 48 ++ drop first buffer.old }
{
    let mut at = first;
    // Zeros stand from `at` to `first`.
    'zeros: while end - at < least {
        at -= 1;
        buffer[at] = b'0';
    }
    at
}

/// An upper case hexadecimal digit.
pub fn hex_digit(value: u8) -> u8
    requires { value < 16 }
    ensures { result ≡ digit_glyph true value }
{
    if value < 10 {
        b'0' + value
    } else {
        b'A' + (value - 10)
    }
}

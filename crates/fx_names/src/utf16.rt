//! UTF-16BE, and the same text as UTF-8 (The Unicode Standard, 3.9).

ghost use Rattle.std.specs.Prelude.{◌≡◌, ◌≤◌, ◌++◌, ◌∷◌, ◌&&◌, true, length, drop, unwrap_or};
ghost use Rattle.std.specs.Char.Utf16.{is_high_surrogate, is_low_surrogate, lone_unit_char, surrogate_pair_char};
ghost use Rattle.fx_names.specs.Text.{chars_of, utf8_of};

use fx_fixed::{after, put_over};
use fx_sfnt::u16_in;

/// Whether two code units are a pair of surrogates.
fn is_pair(high: u16, low: u16) -> bool
    ensures { result ≡ (is_high_surrogate high && is_low_surrogate low) }
{
    (0xD800 <= high && high < 0xDC00) && (0xDC00 <= low && low < 0xE000)
}

/// The character of a pair of surrogates.
fn pair_char(high: u16, low: u16) -> char
    requires { (is_high_surrogate high && is_low_surrogate low) ≡ true }
    ensures { result ≡ surrogate_pair_char high low }
{
    let code = 0x1_0000 + (u32::from(high) - 0xD800) * 0x400 + (u32::from(low) - 0xDC00);
    char::from_u32(code).unwrap_or('\u{FFFD}')
}

/// The character of a code unit that is in no pair: U+FFFD of a surrogate.
fn lone_char(unit: u16) -> char
    ensures { result ≡ unwrap_or (lone_unit_char unit) 0xFFFD }
{
    char::from_u32(u32::from(unit)).unwrap_or('\u{FFFD}')
}

/// The first character of a text in UTF-16BE, and how many bytes of the text it takes.
fn first_char(string: &[u8]) -> (char, usize)
    requires { 2 ≤ length string.now }
    ensures least { 2 ≤ result.1 }
    ensures inside { result.1 ≤ length string.now }
    ensures chars { chars_of string.now ≡ result.0 ∷ chars_of (drop result.1 string.now) }
{
    let high = u16_in(string, 0);
    if string.len() < 4 {
        return (lone_char(high), 2);
    }
    let low = u16_in(string, 2);
    if is_pair(high, low) {
        (pair_char(high, low), 4)
    } else {
        (lone_char(high), 2)
    }
}

/// How many bytes a text in UTF-16BE has in UTF-8.
pub fn utf8_len(string: &[u8]) -> usize
    ensures { result ≡ length (utf8_of string.now) }
{
    let mut rest = string;
    let mut count = 0usize;
    // `count` is the length of the characters before `rest`.
    'chars: while rest.len() >= 2 {
        let (first, taken) = first_char(rest);
        count += first.len_utf8();
        rest = after(rest, taken);
    }
    count
}

/// Puts a text in UTF-16BE as UTF-8 at the front of a buffer that has room for it.
pub fn put_utf8(string: &[u8], text: &mut [u8])
    requires { length (utf8_of string.now) ≤ length text.old }
    ensures { text.new ≡ utf8_of string.now ++ drop (length (utf8_of string.now)) text.old }
{
    let mut rest = string;
    let mut count = 0usize;
    // The characters before `rest` are at the front of `text`, in `count` bytes.
    'chars: while rest.len() >= 2 {
        let (first, taken) = first_char(rest);
        let mut buffer = [0u8; 4];
        let piece = first.encode_utf8(&mut buffer);
        put_over(text, count, piece.as_bytes());
        count += piece.len();
        rest = after(rest, taken);
    }
}

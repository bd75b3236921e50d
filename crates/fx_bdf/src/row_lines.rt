//! Lines of rows, written straight into the room of a text.

ghost use Rattle.std.specs.Prelude.{◌≡◌, ◌+◌, ◌-◌, ◌*◌, ◌/◌, ◌++◌, ◌∷◌, [], ◌<◌, ◌≤◌, ◌^◌, ℕ, take, length, slice_index_or};
ghost use Rattle.std.specs.List.{flat_map};
ghost use Rattle.fx_fixed.specs.Texts.{with_more};
ghost use Rattle.fx_bdf.specs.Text.{row_digits, row_text};
ghost use Rattle.fx_bdf.specs.inner.Lines.{word_text, lines_between};

use crate::box_rows::BoxRows;
use crate::digits::{pair_lanes, two_lanes, word_lanes};
use crate::rows::Row;
use fx_fixed::{Fill, Sink, TextWriter, put_over};
use std::simd::prelude::*;

/// Writes the digits of words, eight each, over the bytes from `start` on.
#[inline(always)]
fn put_words(bytes: &mut [u8], start: usize, words: &[u32])
    requires { start + 8 * length words.now ≤ length bytes.old }
    ensures long { length bytes.new ≡ length bytes.old }
    ensures text { take (start + 8 * length words.now) bytes.new ≡ take start bytes.old ++ flat_map word_text words.now }
{
    let mut k = 0;
    // The digits of the words before k were written.
    'pairs: while words.len() - k > 1 {
        pair_lanes(words[k], words[k + 1]).copy_to_slice(&mut bytes[start + 8 * k..]);
        k += 2;
    }
    if k < words.len() {
        word_lanes(words[k]).copy_to_slice(&mut bytes[start + 8 * k..]);
    }
}

/// Writes the digits of a row over the bytes from `start` on, by whole words.
#[inline(always)]
fn put_digits(bytes: &mut [u8], start: usize, row: &Row<'_>, digits: usize)
    requires digits { digits ≡ (length row.now + 7) / 8 * 2 }
    requires room { start + digits + 7 ≤ length bytes.old }
    ensures long { length bytes.new ≡ length bytes.old }
    ensures text { take (start + digits) bytes.new ≡ take start bytes.old ++ row_digits row.now }
{
    if let Some(words) = row.whole_words() {
        put_words(bytes, start, words);
        return;
    }
    // The digits of the words before k were written.
    'words: for k in 0..row.len() {
        word_lanes(row.word(k)).copy_to_slice(&mut bytes[start + 8 * k..]);
    }
}

/// Writes the line of a row over the bytes from `start` on; returns where it ends.
#[inline(always)]
fn put_row(bytes: &mut [u8], start: usize, row: &Row<'_>, digits: usize) -> usize
    requires digits { digits ≡ (length row.now + 7) / 8 * 2 }
    requires room { start + digits + 7 ≤ length bytes.old }
    ensures long { length bytes.new ≡ length bytes.old }
    ensures end { result ≡ start + (digits + 1) }
    ensures text { take result bytes.new ≡ take start bytes.old ++ row_text row.now }
{
    put_digits(bytes, start, row, digits);
    put_over(bytes, start + digits, b"\n");
    start + (digits + 1)
}

/// Writes the first `digits` of the eight digits of a word and LF over the bytes from `start` on; returns where the line ends.
#[inline(always)]
fn put_short_line(bytes: &mut [u8], start: usize, word: u8x8, digits: usize) -> usize
    requires word { length word ≡ 8 }
    requires room { start + 8 < length bytes.old }
    requires few { digits ≤ 8 }
    ensures long { length bytes.new ≡ length bytes.old }
    ensures end { result ≡ start + (digits + 1) }
    ensures text { take result bytes.new ≡ take start bytes.old ++ (take digits word ++ 10 ∷ []) }
{
    word.copy_to_slice(&mut bytes[start..]);
    put_over(bytes, start + digits, b"\n");
    start + (digits + 1)
}

/// Writes the lines of rows of one word each from `first` up to `last`, but perhaps the last one, over the bytes from `start` on:
/// two at a time, so that their digits are made together. Writes none if the rows have more words. Returns where the lines end,
/// and the number of the row after them.
#[inline(always)]
fn put_short_lines(
    bytes: &mut [u8],
    start: usize,
    rows: &BoxRows<'_>,
    digits: usize,
    first: u32,
    last: u32,
) -> (usize, u32)
    requires order { first ≤ last }
    requires inside { last ≤ length rows.now }
    requires digits { (i : ℕ) → i < length rows.now → (length (slice_index_or rows.now i []) + 7) / 8 * 2 ≡ digits }
    requires here { start ≤ length bytes.old }
    requires room { (k : ℕ) → k < last - first → start + (k * (digits + 1) + digits + 7) ≤ length bytes.old }
    ensures long { length bytes.new ≡ length bytes.old }
    ensures within { result.0 ≤ length bytes.new }
    ensures end { result.0 ≡ start + (result.1 - first) * (digits + 1) }
    ensures order { first ≤ result.1 }
    ensures next { result.1 ≤ last }
    ensures text { take result.0 bytes.new ≡ take start bytes.old ++ lines_between rows.now first result.1 }
{
    if digits == 0 || digits > 8 {
        return (start, first);
    }
    let mut end = start;
    let mut i = first;
    // The lines of the rows before i were written, up to `end`.
    'pairs: while last - i > 1 {
        let (upper, lower) = two_lanes(rows.row(i).word(0), rows.row(i + 1).word(0));
        end = put_short_line(bytes, end, upper, digits);
        end = put_short_line(bytes, end, lower, digits);
        i += 2;
    }
    (end, i)
}

/// The row after the last one whose line fits into a room, of lines of this many digits from the row `first` on. A row's digits are
/// written by whole words, so the last line needs up to 6 bytes more than its own.
fn last_fitting(room: usize, digits: usize, rows: &BoxRows<'_>, first: u32) -> u32
    requires digits { digits ≤ 2 ^ 11 }
    requires first { first ≤ length rows.now }
    ensures order { first ≤ result }
    ensures inside { result ≤ length rows.now }
    ensures room { (k : ℕ) → k < result - first → k * (digits + 1) + digits + 7 ≤ room }
{
    let left = rows.len() - first;
    let fitting = room.saturating_sub(6) / (digits + 1);
    first + fitting.min(left as usize) as u32
}

/// Writes the lines of rows from the row `first` on over the bytes from `start` on: as many as there is room for. Returns where
/// they end, and the number of the row after them.
fn put_lines(bytes: &mut [u8], start: usize, rows: &BoxRows<'_>, first: u32) -> (usize, u32)
    requires { start ≤ length bytes.old }
    ensures long { length bytes.new ≡ length bytes.old }
    ensures within { result.0 ≤ length bytes.new }
    ensures order { first ≤ result.1 }
    ensures next { first ≤ length rows.now → result.1 ≤ length rows.now }
    ensures text { take result.0 bytes.new ≡ take start bytes.old ++ lines_between rows.now first result.1 }
{
    if first >= rows.len() {
        return (start, first);
    }
    let digits = rows.digits();
    let last = last_fitting(bytes.len() - start, digits, rows, first);
    let (mut end, next) = put_short_lines(bytes, start, rows, digits, first, last);
    // The lines of the rows before i were written, up to `end`.
    'rows: for i in next..last {
        end = put_row(bytes, end, &rows.row(i), digits);
    }
    (end, last)
}

/// Rows from the row `next` on, whose lines fill the room of a text.
#[derive(Drop)]
struct RowLines<'a, 'b> {
    rows: &'b BoxRows<'a>,
    next: u32,
}

impl<'a, 'b> Fill for RowLines<'a, 'b> {
    ghost use Rattle.std.specs.Prelude.{◌≡◌, ◌≤◌, length};
    ghost use Rattle.fx_bdf.specs.inner.Lines.{lines_between};

    ghost added = { λ old new. lines_between old.rows.now old.next new.next };

    ghost Fills = { λ old new. (old.next ≤ new.next) × (old.next ≤ length old.rows.now → new.next ≤ length old.rows.now) };

    fn fill(&mut self, bytes: &mut [u8], start: usize) -> usize {
        let (end, next) = put_lines(bytes, start, &self.rows.copied(), self.next);
        self.next = next;
        end
    }
}

/// Adds the lines of rows from the row `first` on: as many as there is room for. Returns the number of the row after them.
pub fn add_lines<W: Sink>(rows: &BoxRows<'_>, first: u32, text: &mut TextWriter<'_, W>) -> u32
    requires { first ≤ length rows.now }
    ensures order { first ≤ result }
    ensures next { result ≤ length rows.now }
    ensures text { text.new ≡ with_more text.old (lines_between rows.now first result) }
{
    let mut lines = RowLines { rows, next: first };
    text.fill(&mut lines);
    lines.next
}

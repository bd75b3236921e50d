//! Of the segments that are noted, those that are open: neither of their pixels is set.

ghost use Rattle.std.specs.Prelude.{◌≡◌, ℕ, ◌+◌, ◌-◌, ◌*◌, ◌<◌, ◌≤◌, ◌↔◌, length, false};
ghost use Rattle.std.specs.Int.{bit_at};
ghost use Rattle.fx_dropout.specs.inner.Closing.{distance, left_bit, AreLeftIn, AreNone, AreOf, AreOpen, IsOpen};

use fx_winding::{Frame, words_for};

/// The bits of the left neighbours of a word's pixels. That of its first one is the last of the word before.
#[tactic(auto, using(crate::proofs::Words::left_before))]
#[inline(always)]
fn left_of(before: u32, word: u32) -> u32
    ensures { (c : ℕ) → c < 32 → bit_at result (31 - c) ≡ left_bit before word c }
{
    before << 31 | word >> 1
}

/// The segments that are open, by the bits of the segments that are noted and of the pixels at their ends.
#[tactic(auto, using(crate::proofs::Words::open_bit))]
#[inline(always)]
fn gaps_of(noted: u32, here: u32, next: u32) -> u32
    ensures { (i : ℕ) → i < 32 → (bit_at result i ≡ 1) ↔ IsOpen (bit_at noted i) (bit_at here i) (bit_at next i) }
{
    noted & !(here | next)
}

/// Leaves of the segments of rows those that are open. It reads each word twice, so that the compiler can work on several at once.
fn leave_open_across(noted: &mut [u32], words: &[u32])
    requires { length noted.old ≡ length words.now }
    ensures { AreOpen 1 noted.old words.now noted.new }
{
    if words.is_empty() {
        return;
    }
    noted[0] = gaps_of(noted[0], left_of(0, words[0]), words[0]);
    // In the first w words the open segments are left.
    'words: for w in 1..words.len() {
        noted[w] = gaps_of(noted[w], left_of(words[w - 1], words[w]), words[w]);
    }
}

/// Leaves those that are open of the segments in `count` words, which lead from words of pixels to others. The words of the
/// segments, of the pixels that they come from, and of those that they lead to begin at three places.
fn leave_open_between(
    noted: &mut [u32],
    at: usize,
    words: &[u32],
    lower: usize,
    upper: usize,
    count: usize,
)
    requires noted { at + count ≤ length noted.old }
    requires lower { lower + count ≤ length words.now }
    requires upper { upper + count ≤ length words.now }
    ensures { AreLeftIn words.now noted.old noted.new at lower upper count }
{
    // In the first w words the open segments are left.
    'words: for w in 0..count {
        noted[at + w] = gaps_of(noted[at + w], words[lower + w], words[upper + w]);
    }
}

/// Leaves of the segments of columns those that are open. A row of pixels has `size` words.
fn leave_open_up(noted: &mut [u32], words: &[u32], size: usize)
    requires some { size ≤ length words.now }
    requires long { length noted.old ≡ length words.now + size }
    ensures { AreOpen (32 * size) noted.old words.now noted.new }
{
    let inner = words.len() - size;
    leave_open_between(noted, 0, words, 0, 0, size);
    leave_open_between(noted, size, words, 0, size, inner);
    leave_open_between(noted, size + inner, words, inner, inner, size);
}

/// Leaves of the segments of a frame's rows, or with `is_up` of its columns, those that are open.
pub(crate) fn leave_open(is_up: bool, frame: Frame, noted: &mut [u32], words: &[u32])
    requires { AreOf is_up frame noted.old words.now }
    ensures { AreOpen (distance is_up frame) noted.old words.now noted.new }
{
    if is_up {
        leave_open_up(noted, words, words_for(frame.width));
    } else {
        leave_open_across(noted, words);
    }
}

/// Whether any bit of some words is set.
pub(crate) fn is_any(words: &[u32]) -> bool
    ensures { result ≡ false → AreNone words.now }
{
    let mut bits = 0;
    // `bits` has those of the first w words.
    'words: for w in 0..words.len() {
        bits |= words[w];
    }
    bits != 0
}

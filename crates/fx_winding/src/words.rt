//! Rows of pixels as words of 32 bits, the leftmost pixel the highest bit of the first word.

ghost use Rattle.std.specs.Prelude.{◌≡◌, ◌≢◌, ◌↔◌, IsTrue, IfOk, ℕ, ◌-◌, ◌/◌, ◌<◌, ◌≤◌, length, replicate};
ghost use Rattle.std.specs.Int.{bit_at};
ghost use Rattle.fx_winding.specs.Bitmaps.{words_for as words_for_of, word_bit};

use std::alloc::AllocError;

/// The number of words that hold a row of this width, and the segments of one, which are one more than its pixels.
pub fn words_for(width: u32) -> usize
    ensures { result ≡ words_for_of width }
{
    (width as usize + 32) / 32
}

/// Whether the bit of a pixel of a row is set.
pub fn is_set(words: &[u32], i: usize) -> bool
    requires { i / 32 < length words.now }
    ensures { IsTrue result ↔ (word_bit words.now i ≡ 1) }
{
    words[i / 32] >> (31 - i % 32) & 1 == 1
}

/// The first pixel of a word that is set, if any is.
#[tactic(auto, using(crate::proofs::WordEnds::first_bit, crate::proofs::WordEnds::none_before))]
pub fn first_in(word: u32) -> u32
    requires { 0 < word }
    ensures within { result < 32 }
    ensures set { bit_at word (31 - result) ≡ 1 }
    ensures before { (i : ℕ) → i < result → bit_at word (31 - i) ≡ 0 }
{
    word.leading_zeros()
}

/// The last pixel of a word that is set, if any is.
#[tactic(auto, using(crate::proofs::WordEnds::last_bit, crate::proofs::WordEnds::none_after))]
pub fn last_in(word: u32) -> u32
    requires { 0 < word }
    ensures within { result < 32 }
    ensures set { bit_at word (31 - result) ≡ 1 }
    ensures after { (i : ℕ) → result < i → i < 32 → bit_at word (31 - i) ≡ 0 }
{
    31 - word.trailing_zeros()
}

/// Sets the bit of a pixel of a row.
pub fn set_bit(words: &mut [u32], i: usize)
    requires { i / 32 < length words.old }
    ensures here { word_bit words.new i ≡ 1 }
    ensures others { (j : ℕ) → j ≢ i → word_bit words.new j ≡ word_bit words.old j }
{
    words[i / 32] |= 1 << (31 - i % 32);
}

/// Sets the bit with this number, which is 0 so far, if `on`.
pub(crate) fn put_bit(words: &mut [u32], i: usize, on: bool)
    requires place { i / 32 < length words.old }
    requires clear { word_bit words.old i ≡ 0 }
    ensures here { (word_bit words.new i ≡ 1) ↔ IsTrue on }
    ensures others { (j : ℕ) → j ≢ i → word_bit words.new j ≡ word_bit words.old j }
{
    if on {
        set_bit(words, i);
    }
}

/// `count` words that are all the same, in the buffer of other words, which are lost. Memory is asked for only if the buffer is too
/// short.
pub fn refilled(buffer: Vec<u32>, count: usize, word: u32) -> Result<Vec<u32>, AllocError>
    ensures { IfOk result (λ ws. ws.items ≡ replicate count word) }
{
    let mut words = buffer;
    words.clear();
    words.reserve_exact(count)?;
    words.resize(count, word)?;
    Ok(words)
}

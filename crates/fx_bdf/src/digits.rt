//! Words of pixels as hexadecimal digits.

ghost use Rattle.std.specs.Prelude.{◌≡◌, ◌++◌};
ghost use Rattle.fx_bdf.specs.inner.Lines.{word_text};

use std::simd::prelude::*;

/// The sixteen digits of two words, those of the first word first, and in each word the digit of the highest four bits first.
///
/// Each byte of the words stands in two neighbouring lanes: the first keeps its high four bits, the second its low four.
#[inline(always)]
pub fn pair_lanes(first: u32, second: u32) -> u8x16
    ensures { result ≡ word_text first ++ word_text second }
{
    let bytes = u32x2::from_array([first, second]).to_le_bytes();
    let twice = bytes.swizzle([3, 3, 2, 2, 1, 1, 0, 0, 7, 7, 6, 6, 5, 5, 4, 4]);
    let high = u8x16::from_array([15, 0, 15, 0, 15, 0, 15, 0, 15, 0, 15, 0, 15, 0, 15, 0]);
    let low = u8x16::from_array([0, 15, 0, 15, 0, 15, 0, 15, 0, 15, 0, 15, 0, 15, 0, 15]);
    let four = twice >> u8x16::splat(4) & high | twice & low;
    // In ASCII 7 characters lie between `9` and `A`.
    let letters = four
        .simd_gt(u8x16::splat(9))
        .select(u8x16::splat(7), u8x16::splat(0));
    four + u8x16::splat(48) + letters
}

/// The digits of two words, eight each, which are made together.
#[inline(always)]
pub fn two_lanes(first: u32, second: u32) -> (u8x8, u8x8)
    ensures first { result.0 ≡ word_text first }
    ensures second { result.1 ≡ word_text second }
{
    let both = pair_lanes(first, second);
    (both.extract::<0, 8>(), both.extract::<8, 8>())
}

/// The eight digits of a word.
#[inline(always)]
pub fn word_lanes(word: u32) -> u8x8
    ensures { result ≡ word_text word }
{
    pair_lanes(word, 0).extract::<0, 8>()
}

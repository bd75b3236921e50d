//! The counts and the marks of a band of rows.
//!
//! The pixels of a band are numbered row by row, from the lowest. After a row's last pixel the numbers up to the next multiple of
//! 32 are left out, so that each row begins a word of bits, as in a bitmap.
//!
//! A piece with its cut at column 3 adds v to the columns before it, and that changes two differences:
//!
//!     column        0   1   2   3   4   5
//!     difference   +v   0   0  -v   0   0
//!     count         v   v   v   0   0   0      the sum of the differences up to the column
//!     touched       *           *

ghost use Rattle.std.specs.Prelude.{◌≡◌, ◌+◌, ◌*◌, ◌/◌, ◌%◌, ◌^◌, ◌<◌, ◌≤◌, length, pos, IfOk};
ghost use Rattle.fx_winding.specs.Bitmaps.{words_for};

use fx_winding::{Counters, Frame, Scratch, refilled, words_for};
use std::alloc::{AllocError, Global};
use std::mem;

/// The most rows of a band.
pub(crate) const MOST_ROWS: u32 = 128;

/// The counts of a band's pixels, as differences between neighbours whose sums are the counts, and the pixels on pieces. A row's
/// words have a bit after its last pixel, where there is a difference too. The lists of the differences are lent by a scratch and
/// can be longer.
#[derive(Drop)]
pub(crate) struct Band {
    /// The band's pixels.
    pub frame: Frame,
    /// The differences, each from the count of the number before.
    pub diff: Vec<i32>,
    /// A bit for each difference that may not be 0; the first of a word needs none.
    pub touched: Vec<u32>,
    /// A bit for each pixel that is on a piece.
    pub marks: Vec<u32>,
    ghost few: { frame.height ≤ 128 },
    ghost room: { length marks.items ≡ frame.height * words_for frame.width },
    ghost words: { length marks.items ≤ length touched.items },
    ghost cells: { length diff.items ≡ 32 * length touched.items },
}

impl Band {
    ghost use Rattle.fx_rows.specs.inner.Bands.{stride, IsClear};
    ghost use Rattle.fx_rows.specs.inner.Sums.{AreZero};

    /// A band that nothing was added to. It takes the counters of a scratch, and makes its marks in the scratch's buffer of words.
    #[tactic(auto, using(fx_fixed::proofs::Linear::signed_linear))]
    pub(crate) fn new(
        alloc: Global,
        frame: Frame,
        scratch: &mut Scratch,
    ) -> Result<Band, AllocError>
        requires { frame.height ≤ 128 }
        ensures frame { IfOk result (λ b. b.frame ≡ frame) }
        ensures clear { IfOk result (λ b. IsClear b) }
    {
        let words = frame.height as usize * words_for(frame.width);
        let counters = mem::replace(&mut scratch.counters, Counters::new(alloc));
        let lent = counters.with_words(alloc, words)?;
        let buffer = mem::replace(&mut scratch.words, Vec::new(alloc));
        let marks = refilled(buffer, words, 0)?;
        Ok(Band {
            frame,
            diff: lent.numbers,
            touched: lent.bits,
            marks,
        })
    }

    /// The number of the first pixel of the row that is `up` above the band's lowest.
    #[tactic(auto, using(crate::proofs::Banding::word_in))]
    pub(crate) fn first_of(&self, up: u32) -> usize
        requires { up < self.now.frame.height }
        ensures value { result ≡ up * stride self.now.frame.width }
        ensures few { result < 2 ^ 32 }
        ensures word { result % 32 ≡ 0 }
        ensures room { (result + self.now.frame.width) / 32 < length self.now.marks.items }
    {
        up as usize * (32 * words_for(self.frame.width))
    }
}

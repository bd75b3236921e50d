//! The rows of a box.

ghost use Rattle.std.specs.Prelude.{◌≡◌, ◌+◌, ◌*◌, ◌/◌, ◌<◌, ◌≤◌, ◌^◌, ℕ, [], length, slice_index_or};
ghost use Rattle.fx_winding.specs.Bitmaps.{bit_of};
ghost use Rattle.fx_bdf.specs.Glyphs.{IsBoxed, rows_in};

use crate::bounds::Bounds;
use crate::rows::Row;
use crate::words::part;
use fx_winding::{Bitmap, words_for};
use std::marker::Model;

/// The rows of the tight box of a bitmap's set bits, from the top, seen as their bits. The bitmap's rows have `stride` words each,
/// and `top` of them end with the box's highest. The box's rows begin `from` pixels to the right of the bitmap's.
#[derive(Drop)]
pub struct BoxRows<'a> {
    words: &'a [u32],
    stride: usize,
    top: usize,
    from: usize,
    width: u32,
    height: u32,
}

impl<'a> Model for BoxRows<'a> {
    ghost use Rattle.std.specs.Prelude.{List, Bool};
    ghost use Rattle.fx_bdf.specs.inner.BoxRows.{AreInBox, rows_held};

    ghost Value = { List (List Bool) };

    ghost view = { λ r. rows_held r.words.now r.stride r.top r.from r.width r.height };

    ghost invariant = { λ r. AreInBox r.words.now r.stride r.top r.from r.width r.height };
}

impl<'a> BoxRows<'a> {
    /// The rows of the tight box of a bitmap.
    pub fn new(bitmap: &'a Bitmap, bounds: Bounds) -> BoxRows<'a>
        requires { IsBoxed bounds (bit_of bitmap.now) }
        ensures { result ≡ rows_in bounds (bit_of bitmap.now) }
    {
        let frame = bitmap.frame();
        let top = bounds.bottom.abs_diff(frame.bottom) + bounds.height;
        BoxRows {
            words: bitmap.words(),
            stride: words_for(frame.width),
            top: top as usize,
            from: bounds.left.abs_diff(frame.left) as usize,
            width: bounds.width,
            height: bounds.height,
        }
    }

    /// The same rows once more, as a value that no reference leads to: a loop that writes bytes need not read it again.
    pub fn copied(&self) -> BoxRows<'a>
        ensures { result ≡ self.now }
    {
        BoxRows {
            words: self.words,
            stride: self.stride,
            top: self.top,
            from: self.from,
            width: self.width,
            height: self.height,
        }
    }

    /// How many there are.
    #[tactic(auto, using(crate::proofs::HeldRows::held_sizes))]
    pub fn len(&self) -> u32
        ensures { result ≡ length self.now }
    {
        self.height
    }

    /// How many digits each has: two for each eight pixels.
    pub fn digits(&self) -> usize
        ensures value { (i : ℕ) → i < length self.now → (length (slice_index_or self.now i []) + 7) / 8 * 2 ≡ result }
        ensures few { result ≤ 2 ^ 11 }
    {
        (self.width as usize + 7) / 8 * 2
    }

    /// A row, counted from the top.
    pub fn row(&self, i: u32) -> Row<'a>
        requires { i < length self.now }
        ensures { result ≡ slice_index_or self.now i [] }
    {
        let start = (self.top - 1 - i as usize) * self.stride;
        Row::new(part(self.words, start, self.stride), self.from, self.width)
    }
}

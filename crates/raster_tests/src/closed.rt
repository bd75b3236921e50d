//! Drop-out control pixel by pixel, as it is defined: whether a pixel is covered, and if not, whether it closes a gap.

ghost use Rattle.std.specs.Prelude.{◌≡◌, ◌↔◌, IsTrue, pos, ◌+ℤ◌, ◌-ℤ◌, map};
ghost use Rattle.fx_dropout.specs.declared.chooser.Closing.TheVariants.{Lower};
ghost use Rattle.fx_dropout.specs.Dropout.{IsGap, IsRowSet, IsSet};
ghost use Rattle.fx_winding.specs.Turned.{turned_span};
ghost use Rattle.fx_winding.specs.Frames.{IsInFrame, HasMargin};
ghost use Rattle.fx_winding.specs.Limits.{IsPixelNumber};
ghost use Rattle.fx_winding.specs.Winding.{place_of, span_of, centre as centre_of, IsCovered};

use fx_winding::{Bitmap, Frame, Pieces, Point, Tally, any_meets, covered};

/// A pixel, by its column and its row.
#[derive(Clone, Copy)]
pub(crate) struct Pixel {
    pub col: i32,
    pub row: i32,
    ghost col_number: { IsPixelNumber col },
    ghost row_number: { IsPixelNumber row },
}

impl Pixel {
    /// The centre.
    fn centre(self) -> Point
        ensures { place_of result ≡ centre_of self.col self.row }
    {
        Point {
            x: 128 * self.col + 64,
            y: 128 * self.row + 64,
        }
    }

    /// The pixel to the left.
    fn left(self) -> Pixel
        requires { IsPixelNumber (self.col -ℤ pos 1) }
        ensures col { result.col ≡ self.col -ℤ pos 1 }
        ensures row { result.row ≡ self.row }
    {
        Pixel {
            col: self.col - 1,
            row: self.row,
        }
    }

    /// The pixel to the right.
    fn right(self) -> Pixel
        requires { IsPixelNumber (self.col +ℤ pos 1) }
        ensures col { result.col ≡ self.col +ℤ pos 1 }
        ensures row { result.row ≡ self.row }
    {
        Pixel {
            col: self.col + 1,
            row: self.row,
        }
    }

    /// The pixel below.
    fn below(self) -> Pixel
        requires { IsPixelNumber (self.row -ℤ pos 1) }
        ensures col { result.col ≡ self.col }
        ensures row { result.row ≡ self.row -ℤ pos 1 }
    {
        Pixel {
            col: self.col,
            row: self.row - 1,
        }
    }

    /// The pixel above.
    fn above(self) -> Pixel
        requires { IsPixelNumber (self.row +ℤ pos 1) }
        ensures col { result.col ≡ self.col }
        ensures row { result.row ≡ self.row +ℤ pos 1 }
    {
        Pixel {
            col: self.col,
            row: self.row + 1,
        }
    }
}

/// The pieces of an outline, the same with their coordinates exchanged, and a frame.
#[derive(Drop)]
pub(crate) struct Drawing<'a> {
    pub pieces: &'a Pieces,
    pub turned: &'a Pieces,
    pub frame: Frame,
    ghost columns: { map span_of turned.now ≡ map turned_span (map span_of pieces.now) },
    ghost margin: { HasMargin frame },
}

impl<'a> Drawing<'a> {
    /// Whether a pixel lies in the frame.
    fn is_inside(&self, pixel: Pixel) -> bool
        ensures { IsTrue result ↔ IsInFrame self.now.frame pixel.col pixel.row }
    {
        let frame = self.frame;
        if pixel.col < frame.left {
            return false;
        }
        if pixel.row < frame.bottom {
            return false;
        }
        if i64::from(pixel.col) >= i64::from(frame.left) + i64::from(frame.width) {
            return false;
        }
        if i64::from(pixel.row) >= i64::from(frame.bottom) + i64::from(frame.height) {
            return false;
        }
        true
    }

    /// Whether the centre of a pixel is covered.
    fn is_covered(&self, pixel: Pixel, tally: &mut Tally) -> bool
        ensures { IsTrue result ↔ IsCovered (centre_of pixel.col pixel.row) (map span_of self.now.pieces.now) }
    {
        covered(self.pieces, pixel.col, pixel.row, tally)
    }

    /// Whether there is a gap between a pixel and its right neighbour, of pixels that are set if they are covered.
    fn is_row_gap(&self, pixel: Pixel, tally: &mut Tally) -> bool
        requires { IsPixelNumber (pixel.col +ℤ pos 1) }
        ensures { IsTrue result ↔ IsGap (map span_of self.now.pieces.now)
            (λ i j. IsCovered (centre_of i j) (map span_of self.now.pieces.now)) pixel.col pixel.row }
    {
        let next = pixel.right();
        if !any_meets(self.pieces.as_slice(), pixel.centre(), next.centre(), tally) {
            return false;
        }
        if self.is_covered(pixel, tally) {
            return false;
        }
        if self.is_covered(next, tally) {
            return false;
        }
        true
    }

    /// Whether a pixel is set by its row.
    fn is_row_set(&self, pixel: Pixel, tally: &mut Tally) -> bool
        ensures { IsTrue result ↔ IsRowSet Lower (map span_of self.now.pieces.now) self.now.frame pixel.col pixel.row }
    {
        if self.is_covered(pixel, tally) {
            return true;
        }
        if !self.is_inside(pixel) {
            return false;
        }
        if self.is_row_gap(pixel, tally) {
            return true;
        }
        let before = pixel.left();
        if self.is_inside(before) {
            return false;
        }
        self.is_row_gap(before, tally)
    }

    /// Whether there is a gap between a pixel and the one above it, of pixels that are set by their rows.
    fn is_column_gap(&self, pixel: Pixel, tally: &mut Tally) -> bool
        requires { IsPixelNumber (pixel.row +ℤ pos 1) }
        ensures { IsTrue result ↔ IsGap (map turned_span (map span_of self.now.pieces.now))
            (λ j i. IsRowSet Lower (map span_of self.now.pieces.now) self.now.frame i j) pixel.row pixel.col }
    {
        let next = pixel.above();
        let here = pixel.centre().turned();
        if !any_meets(self.turned.as_slice(), here, next.centre().turned(), tally) {
            return false;
        }
        if self.is_row_set(pixel, tally) {
            return false;
        }
        if self.is_row_set(next, tally) {
            return false;
        }
        true
    }

    /// Whether a pixel is set.
    pub(crate) fn is_set(&self, pixel: Pixel, tally: &mut Tally) -> bool
        ensures { IsTrue result ↔ IsSet Lower (map span_of self.now.pieces.now) self.now.frame pixel.col pixel.row }
    {
        if self.is_row_set(pixel, tally) {
            return true;
        }
        if !self.is_inside(pixel) {
            return false;
        }
        if self.is_column_gap(pixel, tally) {
            return true;
        }
        let before = pixel.below();
        if self.is_inside(before) {
            return false;
        }
        self.is_column_gap(before, tally)
    }

    /// Whether the bits of a bitmap in the frame are those of the pixels that are set.
    pub(crate) fn is_drawn_in(&self, bitmap: &Bitmap, tally: &mut Tally) -> bool {
        let frame = self.frame;
        'rows: for up in 0..frame.height {
            let row = frame.bottom + up as i32;
            'columns: for across in 0..frame.width {
                let col = frame.left + across as i32;
                if bitmap.bit(col, row) != self.is_set(Pixel { col, row }, tally) {
                    return false;
                }
            }
        }
        true
    }
}

//! Pixels with their right neighbours, between whose centres a piece may pass.

ghost use Rattle.std.specs.Prelude.{◌*◌, ◌^◌, ◌<◌, pos, ◌+ℤ◌, false, option_map};
ghost use Rattle.fx_winding.specs.Bitmaps.{words_for as words_for_of};
ghost use Rattle.fx_winding.specs.Limits.{IsPixelNumber};
ghost use Rattle.fx_dropout.specs.inner.Pairs.{IsPairIn};

use fx_winding::Frame;

/// A pixel and its right neighbour.
#[derive(Clone, Copy)]
pub(crate) struct Pair {
    pub col: i32,
    pub row: i32,
    ghost col_number: { IsPixelNumber col },
    ghost next_number: { IsPixelNumber (col +ℤ pos 1) },
    ghost row_number: { IsPixelNumber row },
}

impl Pair {
    /// A pixel of a frame and its right neighbour, or with `is_up` its upper one, which is the right one if all coordinates are
    /// exchanged; if the frame has both. The pixel's column and row are counted from the frame's first.
    pub(crate) fn in_frame(frame: Frame, is_up: bool, column: usize, row: usize) -> Option<Pair>
        requires column { column < 32 * words_for_of frame.width }
        requires row { row < frame.height }
        ensures { IsPairIn frame is_up (frame.left +ℤ pos column) (frame.bottom +ℤ pos row)
            (option_map (λ p. (p.col, p.row)) result) }
    {
        if is_up {
            return Pair::across(frame.turned(), row, column);
        }
        Pair::across(frame, column, row)
    }

    /// A pixel of a frame and its right neighbour, if the frame has both.
    fn across(frame: Frame, column: usize, row: usize) -> Option<Pair>
        requires column { column < 2 ^ 16 }
        requires row { row < 2 ^ 16 }
        ensures { IsPairIn frame false (frame.left +ℤ pos column) (frame.bottom +ℤ pos row)
            (option_map (λ p. (p.col, p.row)) result) }
    {
        if column + 1 >= frame.width as usize || row >= frame.height as usize {
            return None;
        }
        Some(Pair {
            col: frame.left + column as i32,
            row: frame.bottom + row as i32,
        })
    }
}

//! Pieces in a band of rows, as those who note segments see them.

ghost use Rattle.std.specs.Prelude.{◌≡◌, ◌*◌, ◌^◌, ◌≤◌, pos, ◌+ℤ◌, ◌-ℤ◌};
ghost use Rattle.fx_winding.specs.Frames.{HasMargin};
ghost use Rattle.fx_winding.specs.Limits.{IsPixelNumber};
ghost use Rattle.fx_winding.specs.Bitmaps.{words_for as words_for_of};

use crate::across::Across;
use crate::heights::RowRange;
use fx_winding::{Frame, words_for};

/// A piece in a band, which is some rows of a frame. Rows are counted from the frame's lowest.
#[derive(Clone, Copy)]
pub(crate) struct PieceInBand {
    /// The frame's pixels.
    pub frame: Frame,
    /// The rows of the band.
    pub rows: RowRange,
    /// Those of them that pass between the piece's ends.
    pub inner: RowRange,
    /// The columns of the piece's box.
    pub across: Across,
    ghost first: { rows.first ≤ inner.first },
    ghost end: { inner.end ≤ rows.end },
    ghost within: { rows.end ≤ frame.height },
    ghost margin: { HasMargin frame },
}

/// The number of the first segment of a row, that to its first pixel.
#[inline(always)]
pub(crate) fn first_of(frame: Frame, row: u32) -> usize
    requires { row ≤ frame.height }
    ensures value { result ≡ row * (32 * words_for_of frame.width) }
    ensures few { result ≤ 2 ^ 28 }
{
    row as usize * (32 * words_for(frame.width))
}

/// The row below a band.
#[inline(always)]
pub(crate) fn row_below(placed: PieceInBand) -> i32
    ensures value { result ≡ (placed.frame.bottom -ℤ pos 1) +ℤ pos placed.rows.first }
    ensures near { IsPixelNumber result }
{
    placed.frame.bottom - 1 + placed.rows.first as i32
}

/// The row above those between a piece's ends: of the band, or the one above it.
#[inline(always)]
pub(crate) fn row_above(placed: PieceInBand) -> i32
    ensures value { result ≡ placed.frame.bottom +ℤ pos placed.inner.end }
    ensures near { IsPixelNumber result }
{
    placed.frame.bottom + placed.inner.end as i32
}

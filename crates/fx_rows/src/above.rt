//! From a row to the next one, which need not be a row of pixels.

ghost use Rattle.std.specs.Prelude.{◌≡◌, ◌^◌, pos, ◌+ℤ◌, ◌-ℤ◌, ◌*ℤ◌};
ghost use Rattle.fx_fixed.specs.Ranges.{IsWithin};
ghost use Rattle.fx_winding.specs.Winding.{place_of, centre};
ghost use Rattle.fx_rows.specs.inner.Sides.{place_at, side};

use crate::chord::chord_rise;
use crate::strip::Strip;
use fx_winding::{Piece, Point, difference, turned};

/// By how much the area of a column's point with two points changes from row to row.
pub(crate) fn lift_of(p: Point, q: Point) -> i64
    ensures value { result ≡ pos 128 *ℤ (q.x -ℤ p.x) }
    ensures size { IsWithin (2 ^ 38) result }
{
    128 * difference(q.x, p.x)
}

/// The side of the chord on which the base lies in the row above, from that in this row.
pub(crate) fn side_above(piece: &Piece, strip: Strip, start: i64) -> i64
    requires start { start ≡ side (place_of piece.now.a) (place_of piece.now.c) (place_at strip 0) }
    ensures value { result ≡
        side (place_of piece.now.a) (place_of piece.now.c) (centre (strip.base +ℤ pos 0) (strip.row +ℤ pos 1)) }
    ensures size { IsWithin (2 ^ 56) result }
{
    start + turned(chord_rise(piece), lift_of(piece.c, piece.a))
}

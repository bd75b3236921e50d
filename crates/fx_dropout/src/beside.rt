//! Pieces beside all places of a segment.

ghost use Rattle.std.specs.Prelude.{◌≡◌, ◌↔◌, ◌^◌, ◌<ℤ◌, IsTrue};
ghost use Rattle.fx_fixed.specs.Ranges.{IsWithin};
ghost use Rattle.fx_winding.specs.Outside.{HasAll};
ghost use Rattle.fx_winding.specs.Winding.{place_of, span_of};
ghost use Rattle.fx_dropout.specs.inner.Places.{coordinate_of};

use fx_fixed::Axis;
use fx_winding::{Piece, Point};

/// A point's coordinate along an axis.
#[inline(always)]
fn coordinate(p: Point, axis: Axis) -> i32
    ensures value { result ≡ coordinate_of axis (place_of p) }
    ensures near { IsWithin (2 ^ 30) result }
{
    match axis {
        Axis::X => p.x,
        Axis::Y => p.y,
    }
}

/// Whether all points of a piece lie after a coordinate along an axis: right of it, or above it.
#[inline(always)]
pub(crate) fn is_after(piece: &Piece, axis: Axis, limit: i32) -> bool
    ensures { IsTrue result ↔ HasAll (λ e. limit <ℤ coordinate_of axis e) (span_of piece.now) }
{
    coordinate(piece.a, axis) > limit
        && coordinate(piece.c, axis) > limit
        && match piece.b {
            None => true,
            Some(b) => coordinate(b, axis) > limit,
        }
}

/// Whether all lie before it: left of it, or below it.
#[inline(always)]
pub(crate) fn is_before(piece: &Piece, axis: Axis, limit: i32) -> bool
    ensures { IsTrue result ↔ HasAll (λ e. coordinate_of axis e <ℤ limit) (span_of piece.now) }
{
    coordinate(piece.a, axis) < limit
        && coordinate(piece.c, axis) < limit
        && match piece.b {
            None => true,
            Some(b) => coordinate(b, axis) < limit,
        }
}

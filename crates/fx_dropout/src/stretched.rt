//! Pieces stretched 128-fold across, so that the places between two centres of a row become centres of pixels, which
//! `fx_rows` knows how to look at.

ghost use Rattle.std.specs.Prelude.{◌≡◌, ◌^◌, option_map};
ghost use Rattle.fx_fixed.specs.Ranges.{IsWithin};
ghost use Rattle.fx_winding.specs.Limits.{IsPixelNumber};
ghost use Rattle.fx_winding.specs.Near.{IsNear, IsNearPlace};
ghost use Rattle.fx_winding.specs.Outside.{OptionAll};
ghost use Rattle.fx_winding.specs.Winding.{maybe_place_of, place_of, span_of};
ghost use Rattle.fx_dropout.specs.inner.Stretched.{stretched_place, stretched_span};

use fx_winding::{Piece, Point};

/// A point, stretched about the centres of a column.
fn stretched_point(p: Point, col: i32) -> Point
    requires near { IsWithin (2 ^ 22) p.x }
    requires column { IsPixelNumber col }
    ensures { place_of result ≡ stretched_place col (place_of p) }
{
    Point {
        x: 128 * (p.x - (128 * col + 64)) + 64,
        y: p.y,
    }
}

/// A control point, if there is one.
fn stretched_control(b: Option<Point>, col: i32) -> Option<Point>
    requires near { OptionAll IsNearPlace (maybe_place_of b) }
    requires column { IsPixelNumber col }
    ensures { maybe_place_of result ≡ option_map (stretched_place col) (maybe_place_of b) }
{
    match b {
        None => None,
        Some(b) => Some(stretched_point(b, col)),
    }
}

/// A piece, stretched about the centres of a column.
pub(crate) fn stretched(piece: &Piece, col: i32) -> Piece
    requires near { IsNear piece.now }
    requires column { IsPixelNumber col }
    ensures { span_of result ≡ stretched_span col (span_of piece.now) }
{
    Piece {
        a: stretched_point(piece.a, col),
        b: stretched_control(piece.b, col),
        c: stretched_point(piece.c, col),
    }
}

//! The halves of an arc.

ghost use Rattle.std.specs.Prelude.{◌≡◌, ◌^◌, IfSome, option_map};
ghost use Rattle.fx_fixed.specs.Ranges.{IsWithin};
ghost use Rattle.fx_symmetry.specs.Halving.{half_of, middle_of, halves_of};
ghost use Rattle.fx_winding.specs.Winding.{place_of, span_of};

use fx_winding::{Piece, Point};

/// Half of a sum of two coordinates, if it is whole.
fn half(sum: i64) -> Option<i64>
    requires { IsWithin (2 ^ 31) sum }
    ensures value { result ≡ half_of sum }
    ensures size { IfSome result (λ h. IsWithin (2 ^ 30) h) }
{
    let low = sum.div_euclid(2);
    if 2 * low == sum {
        return Some(low);
    }
    None
}

/// The point half way between two, if its coordinates are whole.
fn middle(p: Point, q: Point) -> Option<Point>
    ensures { option_map place_of result ≡ middle_of (place_of p) (place_of q) }
{
    let x = half(i64::from(p.x) + i64::from(q.x))?;
    let y = half(i64::from(p.y) + i64::from(q.y))?;
    Some(Point {
        x: x as i32,
        y: y as i32,
    })
}

/// The halves of an arc, cut at the parameter 1/2: from its start to the join, and from there to its end. `None` for a line, and
/// if a coordinate of the halves' points would not be whole.
pub fn halves(piece: &Piece) -> Option<(Piece, Piece)>
    ensures { option_map (λ h. (span_of h.0, span_of h.1)) result ≡ halves_of (span_of piece.now) }
{
    let b = piece.b?;
    let first = middle(piece.a, b)?;
    let second = middle(b, piece.c)?;
    let join = middle(first, second)?;
    let start = Piece {
        a: piece.a,
        b: Some(first),
        c: join,
    };
    let end = Piece {
        a: join,
        b: Some(second),
        c: piece.c,
    };
    Some((start, end))
}

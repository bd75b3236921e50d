//! How fast an arc's gap changes along a row.

ghost use Rattle.std.specs.Prelude.{◌≡◌, ◌^◌};
ghost use Rattle.fx_fixed.specs.Ranges.{IsWithin};
ghost use Rattle.fx_winding.specs.Winding.{place_of};
ghost use Rattle.fx_winding.specs.Meets.{slope as slope_of};

use crate::area::{difference, signed_area, wide_product};
use crate::point::Point;

/// Half of how fast the gap 4uw - v² grows along a row, where u, v and w are the areas of p with an arc's points: it is
/// 2 ((by - cy) w + (ay - by) u) + (ay - cy) v.
pub fn gap_slope(a: Point, b: Point, c: Point, p: Point) -> i128
    ensures value { result ≡ slope_of (place_of a) (place_of b) (place_of c) (place_of p) }
    ensures size { IsWithin (2 ^ 113) result }
{
    let w = wide_product(difference(b.y, c.y), signed_area(a, b, p));
    let u = wide_product(difference(a.y, b.y), signed_area(p, b, c));
    let v = wide_product(difference(a.y, c.y), signed_area(a, p, c));
    2 * (w + u) + v
}

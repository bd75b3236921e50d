//! Shifts along the freedom vector.

ghost use Rattle.std.specs.Prelude.{◌≡◌, ◌≢◌, ◌^◌, ◌≤◌, pos, ◌+ℤ◌, ◌*ℤ◌, unsigned_abs};
ghost use Rattle.fx_gstate.specs.Vectors.{dot_of, not_small, shift_part_of, shift_of};

use crate::vectors::Vector;
use fx_fixed::{Axis, F26, Place, near_quotient, product_16, w32};

/// The shift along the freedom vector that changes the projection by `d` (Apple TrueType Reference Manual, "Freedom vector"): each
/// coordinate is the nearest to the exact quotient, in 32 bits. When both vectors are one axis it is `d` along that axis.
pub fn shift_along(freedom: Vector, projection: Vector, d: F26) -> Place
    ensures { result ≡ shift_of freedom projection d }
{
    if freedom.is_along(Axis::X) && projection.is_along(Axis::X) {
        return Place::on(Axis::X, d);
    }
    if freedom.is_along(Axis::Y) && projection.is_along(Axis::Y) {
        return Place::on(Axis::Y, d);
    }
    shifted(freedom, projection, d)
}

/// The shift of `d` along any vectors, by the quotient.
fn shifted(freedom: Vector, projection: Vector, d: F26) -> Place
    ensures { result ≡ shift_of freedom projection d }
{
    let by = dot(freedom, projection);
    Place {
        x: F26(shift(d.0, freedom.x().0, by)),
        y: F26(shift(d.0, freedom.y().0, by)),
    }
}

/// One coordinate of the shift, at the product of the vectors.
#[tactic(auto, unfolding(crate::specs::Vectors::shift_part_of))]
fn shift(d: i32, along: i16, by: i64) -> i32
    requires nonzero { by ≢ pos 0 }
    requires size { unsigned_abs by ≤ 2 ^ 31 }
    ensures { result ≡ shift_part_of d along by }
{
    w32(i128::from(near_quotient(numerator(d, along), by)))
}

/// What is divided by the product of the vectors.
fn numerator(d: i32, along: i16) -> i64
    ensures value { result ≡ d *ℤ along *ℤ pos (2 ^ 14) }
    ensures bound { unsigned_abs result ≤ 2 ^ 60 }
{
    product_16(d, along) * (1 << 14)
}

/// The product of the vectors.
fn dot(freedom: Vector, projection: Vector) -> i64
    ensures value { result ≡ dot_of freedom projection }
    ensures nonzero { result ≢ pos 0 }
    ensures size { unsigned_abs result ≤ 2 ^ 31 }
{
    not_small(dot_product(
        freedom.x().0,
        freedom.y().0,
        projection.x().0,
        projection.y().0,
    ))
}

/// A product below 1/16 is taken as that of equal vectors, so that a shift stays in reach.
fn not_small(dot: i64) -> i64
    requires { unsigned_abs dot ≤ 2 ^ 31 }
    ensures value { result ≡ not_small dot }
    ensures nonzero { result ≢ pos 0 }
    ensures size { unsigned_abs result ≤ 2 ^ 31 }
{
    if dot.unsigned_abs() < 1 << 24 {
        1 << 28
    } else {
        dot
    }
}

/// The exact product of the vectors.
fn dot_product(fx: i16, fy: i16, px: i16, py: i16) -> i64
    ensures value { result ≡ fx *ℤ px +ℤ fy *ℤ py }
    ensures size { unsigned_abs result ≤ 2 ^ 31 }
{
    product_16(i32::from(fx), px) + product_16(i32::from(fy), py)
}

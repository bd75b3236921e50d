//! Places in the plane of the pixels, and its axes.

ghost use Rattle.std.specs.Prelude.{◌≡◌, ◌≤◌, ◌^◌, pos, ◌+ℤ◌, ◌*ℤ◌, unsigned_abs};
ghost use Rattle.fx_fixed.specs.Numbers.{near_of, wrapped_of};
ghost use Rattle.fx_fixed.specs.Places.{place_sum_of, place_difference_of, coordinate_of, place_on, origin};

use crate::numbers::{F2, F26, near_16384, w32};
use crate::products::product_16;

/// An axis of the plane (Apple TrueType Reference Manual, "Instructing TrueType Glyphs").
#[derive(Clone, Copy, Debug, PartialEq, Eq)]
pub enum Axis {
    /// The x axis, which points to the right.
    X,
    /// The y axis, which points upwards.
    Y,
}

/// A place in 26.6 pixels, or the difference of two places.
#[derive(Clone, Copy, Debug, PartialEq, Eq)]
pub struct Place {
    /// Pixels to the right of the origin.
    pub x: F26,
    /// Pixels above the origin.
    pub y: F26,
}

impl Place {
    /// The origin, (0, 0).
    pub fn origin() -> Place
        ensures { result ≡ origin }
    {
        Place {
            x: F26(0),
            y: F26(0),
        }
    }

    /// The place on an axis with a coordinate there, and 0 along the other.
    pub fn on(axis: Axis, coordinate: F26) -> Place
        ensures { result ≡ place_on axis coordinate }
    {
        match axis {
            Axis::X => Place {
                x: coordinate,
                y: F26(0),
            },
            Axis::Y => Place {
                x: F26(0),
                y: coordinate,
            },
        }
    }

    /// The coordinate along an axis.
    pub fn along(self, axis: Axis) -> F26
        ensures { result ≡ coordinate_of axis self }
    {
        match axis {
            Axis::X => self.x,
            Axis::Y => self.y,
        }
    }

    /// The sum of two places, each coordinate modulo 2^32.
    pub fn plus(self, by: Place) -> Place
        ensures { result ≡ place_sum_of self by }
    {
        Place {
            x: self.x.plus(by.x),
            y: self.y.plus(by.y),
        }
    }

    /// The difference of two places, each coordinate modulo 2^32.
    pub fn minus(self, by: Place) -> Place
        ensures { result ≡ place_difference_of self by }
    {
        Place {
            x: self.x.minus(by.x),
            y: self.y.minus(by.y),
        }
    }

    /// The sum of its coordinates, each times a number in 2.14: the nearest to the exact sum, halves away from zero, in 32 bits.
    pub fn weighted(&self, u: F2, v: F2) -> F26
        ensures { result ≡ wrapped_of (near_of (self.now.x *ℤ u +ℤ self.now.y *ℤ v) (pos (2 ^ 14))) }
    {
        F26(w32(i128::from(near_16384(weighted_sum(self.x.0, u.0, self.y.0, v.0)))))
    }
}

/// The exact sum of two products.
fn weighted_sum(x: i32, u: i16, y: i32, v: i16) -> i64
    ensures value { result ≡ x *ℤ u +ℤ y *ℤ v }
    ensures size { unsigned_abs result ≤ 2 ^ 47 }
{
    product_16(x, u) + product_16(y, v)
}

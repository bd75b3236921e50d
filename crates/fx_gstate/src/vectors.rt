//! Unit vectors.

ghost use Rattle.std.specs.Int.{cast_unsigned, w16};
ghost use Rattle.std.specs.Prelude.{◌≡◌, ◌↔◌, IsTrue, ◌+◌, ◌*◌};
ghost use Rattle.fx_fixed.specs.Ranges.{IsWithin};
ghost use Rattle.fx_fixed.specs.Unit.{unit_of};
ghost use Rattle.fx_gstate.specs.Vectors.{axis_of, projection_of, line_of, low_word, words_of, turned_of, part_of, place_along};
ghost use Rattle.fx_gstate.specs.Vectors.{has_part};

use fx_fixed::{Axis, F2, F26, Place, near_16384, product_16, unit, w32};
use std::marker::Model;

/// A unit vector; contracts see its two coordinates in 2.14.
#[derive(Clone, Copy, Debug, PartialEq, Eq)]
pub struct Vector {
    x: F2,
    y: F2,
}

impl Model for Vector {
    ghost use Rattle.std.specs.Prelude.{ℤ};
    ghost use Rattle.fx_fixed.specs.Ranges.{IsWithin};

    ghost Value = { ℤ × ℤ };

    ghost view = { λ v. (v.x, v.y) };

    ghost invariant = { λ v. IsWithin 16384 v.x × IsWithin 16384 v.y };

    ghost inverse = { λ v. record { x = v.0; y = v.1 } };
}

/// A pair of coordinates in one number.
fn packed(x: i16, y: i16) -> u32
    ensures { result ≡ cast_unsigned w16 x + 65536 * cast_unsigned w16 y }
{
    u32::from(x.cast_unsigned()) + 65536 * u32::from(y.cast_unsigned())
}

impl Vector {
    /// Its coordinate along the x axis.
    pub fn x(self) -> F2
        ensures value { result ≡ self.0 }
        ensures near { IsWithin 16384 result }
    {
        self.x
    }

    /// Its coordinate along the y axis.
    pub fn y(self) -> F2
        ensures value { result ≡ self.1 }
        ensures near { IsWithin 16384 result }
    {
        self.y
    }

    /// Whether it is the vector of an axis. Packed it takes one comparison, and nearly every row that moves a point asks.
    pub fn is_along(self, axis: Axis) -> bool
        ensures { IsTrue result ↔ (self ≡ axis_of axis) }
    {
        match axis {
            Axis::X => packed(self.x.0, self.y.0) == packed(F2::ONE.0, 0),
            Axis::Y => packed(self.x.0, self.y.0) == packed(0, F2::ONE.0),
        }
    }

    /// Whether its coordinate along an axis is not 0.
    pub fn has_part(self, axis: Axis) -> bool
        ensures { result ≡ has_part axis self }
    {
        match axis {
            Axis::X => self.x.0 != 0,
            Axis::Y => self.y.0 != 0,
        }
    }

    /// The vector of an axis.
    pub fn of_axis(axis: Axis) -> Vector
        ensures { result ≡ axis_of axis }
    {
        match axis {
            Axis::X => Vector {
                x: F2::ONE,
                y: F2(0),
            },
            Axis::Y => Vector {
                x: F2(0),
                y: F2::ONE,
            },
        }
    }

    /// The unit vector of a direction.
    pub fn along(dx: i32, dy: i32) -> Vector
        ensures { result ≡ unit_of dx dy }
    {
        let (x, y) = unit(dx, dy);
        Vector { x, y }
    }

    /// The vector of a line whose points differ by `d`: turned by 90 degrees counter-clockwise when that is asked for; of no
    /// difference the x axis, not turned (Apple TrueType Reference Manual, SPVTL).
    #[tactic(auto, unfolding(crate::specs::Vectors::line_of))]
    pub fn of_line(d: Place, perpendicular: bool) -> Vector
        ensures { result ≡ line_of d perpendicular }
    {
        if d.x.0 == 0 && d.y.0 == 0 {
            return Vector::of_axis(Axis::X);
        }
        let along = Vector::along(d.x.0, d.y.0);
        if perpendicular { along.turned() } else { along }
    }

    /// The unit vector of the low 16 bits of two stack numbers, signed (Apple TrueType Reference Manual, SPVFS).
    pub fn of_words(x: i32, y: i32) -> Vector
        ensures { result ≡ words_of x y }
    {
        Vector::along(word(x), word(y))
    }

    /// The vector turned by 90 degrees counter-clockwise.
    pub fn turned(self) -> Vector
        ensures { result ≡ turned_of self }
    {
        Vector {
            x: F2(-self.y.0),
            y: self.x,
        }
    }

    /// The projection of a difference of places on the vector: the nearest to the exact product, halves away from zero, in 32 bits.
    #[tactic(auto, unfolding(crate::specs::Vectors::projection_of))]
    pub fn project(self, d: Place) -> F26
        ensures { result ≡ projection_of self d }
    {
        if self.is_along(Axis::X) {
            d.x
        } else if self.is_along(Axis::Y) {
            d.y
        } else {
            d.weighted(self.x, self.y)
        }
    }

    /// The place at a distance from the origin along the vector, each coordinate rounded as a projection is.
    pub fn place_along(self, d: F26) -> Place
        ensures { result ≡ place_along self d }
    {
        Place {
            x: part(d, self.x),
            y: part(d, self.y),
        }
    }
}

/// One coordinate of a place along a vector.
#[tactic(auto, unfolding(crate::specs::Vectors::part_of))]
fn part(d: F26, along: F2) -> F26
    ensures { result ≡ part_of d along }
{
    F26(w32(i128::from(near_16384(product_16(d.0, along.0)))))
}

/// The low 16 bits of a stack number, signed.
fn word(n: i32) -> i32
    ensures { result ≡ low_word n }
{
    let low = n.rem_euclid(1 << 16) as u16;
    i32::from(low.cast_signed())
}

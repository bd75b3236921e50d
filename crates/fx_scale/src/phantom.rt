//! Phantom points.

ghost use Rattle.std.specs.Prelude.{◌≡◌, ◌<◌, ◌-ℤ◌, ◌*ℤ◌, ◌≤◌, pos, unsigned_abs};
ghost use Rattle.fx_fixed.specs.Numbers.{wrapped_of, near_of};
ghost use Rattle.fx_scale.specs.Phantoms.{phantom_on, phantoms_from, phantoms_of, fitted, in_order, untouched_points};

use crate::scale::Scale;
use fx_fixed::{Axis, F26, Place, near_64, w32};
use fx_sfnt::Metrics;
use fx_zone::ZonePoint;

/// The four points after a glyph's points (Apple TrueType Reference Manual, "Instructing TrueType Glyphs": phantom points).
#[derive(Clone, Copy, Debug, PartialEq, Eq)]
pub struct PhantomPoints {
    pub origin: ZonePoint,
    pub advance: ZonePoint,
    pub ascender: ZonePoint,
    pub descender: ZonePoint,
}

impl PhantomPoints {
    /// The phantom points of a glyph, from its origin, which is the x of its left side that its own bearing gives, and its advance,
    /// in FUnits. With hinting on the current x of the first two and the current y of the last two are at whole pixels.
    #[tactic(auto, unfolding(crate::specs::Phantoms::phantoms_from))]
    pub fn of_bearings(scale: &Scale, hinted: bool, origin: i32, advance: u16) -> PhantomPoints
        requires { unsigned_abs origin ≤ 65535 }
        ensures { result ≡ phantoms_from scale.now hinted origin advance }
    {
        let factor = scale.factor();
        let origin = factor.apply(origin);
        let advance = origin.plus(factor.apply(i32::from(advance)));
        let ascender = factor.apply(i32::from(scale.ascender));
        let descender = factor.apply(i32::from(scale.descender));
        PhantomPoints {
            origin: phantom(Axis::X, hinted, origin),
            advance: phantom(Axis::X, hinted, advance),
            ascender: phantom(Axis::Y, hinted, ascender),
            descender: phantom(Axis::Y, hinted, descender),
        }
    }

    /// The phantom points of a glyph, from the xMin of its header and its metrics.
    #[tactic(auto, unfolding(crate::specs::Phantoms::phantoms_of))]
    pub fn of_glyph(scale: &Scale, hinted: bool, x_min: i16, metrics: Metrics) -> PhantomPoints
        ensures { result ≡ phantoms_of scale.now hinted x_min metrics }
    {
        let origin = margin(x_min, metrics.lsb);
        PhantomPoints::of_bearings(scale, hinted, origin, metrics.advance_width)
    }

    /// The four in their order after a glyph's points.
    pub fn in_order(self) -> [ZonePoint; 4]
        ensures { result ≡ in_order self }
    {
        [self.origin, self.advance, self.ascender, self.descender]
    }

    /// The same points, untouched: each keeps its original and its current place.
    pub fn untouched(self) -> PhantomPoints
        ensures { result ≡ untouched_points self }
    {
        PhantomPoints {
            origin: self.origin.untouched(),
            advance: self.advance.untouched(),
            ascender: self.ascender.untouched(),
            descender: self.descender.untouched(),
        }
    }
}

/// The four phantom points of a glyph, in their order after its points.
pub fn phantoms(scale: &Scale, hinted: bool, x_min: i16, metrics: Metrics) -> [ZonePoint; 4]
    ensures { result ≡ in_order (phantoms_of scale.now hinted x_min metrics) }
{
    PhantomPoints::of_glyph(scale, hinted, x_min, metrics).in_order()
}

/// The x of the origin, in FUnits.
fn margin(x_min: i16, lsb: i16) -> i32
    ensures value { result ≡ x_min -ℤ lsb }
    ensures size { unsigned_abs result ≤ 65535 }
{
    i32::from(x_min) - i32::from(lsb)
}

/// A phantom point on an axis.
fn phantom(axis: Axis, hinted: bool, z: F26) -> ZonePoint
    ensures { result ≡ phantom_on axis hinted z }
{
    let org = Place::on(axis, z);
    let cur = Place::on(axis, fitted(hinted, z));
    ZonePoint {
        org,
        cur,
        on: false,
        touched_x: false,
        touched_y: false,
    }
}

/// A coordinate, rounded to whole pixels with hinting on.
pub fn fitted(hinted: bool, z: F26) -> F26
    ensures { result ≡ fitted hinted z }
{
    if hinted { whole_pixels(z) } else { z }
}

/// A coordinate, rounded to whole pixels.
fn whole_pixels(z: F26) -> F26
    ensures { result ≡ wrapped_of (pos 64 *ℤ near_of z (pos 64)) }
{
    F26(w32(64 * i128::from(near_64(i64::from(z.0)))))
}

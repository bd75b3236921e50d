//! Untouched points between touched ones.

ghost use Rattle.std.specs.Prelude.{◌≡◌, ◌≢◌, ◌+◌, ◌*◌, ◌≤◌, ◌<◌, ◌^◌, pos, ◌+ℤ◌, ◌-ℤ◌, ◌*ℤ◌, ◌<ℤ◌, unsigned_abs, length, map};
ghost use Rattle.std.specs.List.{All};
ghost use Rattle.fx_between.specs.Contours.{contours_filled};
ghost use Rattle.fx_fixed.specs.Numbers.{wrapped_of, near_of, near_size};
ghost use Rattle.fx_zone.specs.Interpolation.{is_touched, moved_with, in_proportion, coordinate_between, placed_along, placed, between};

use crate::point::ZonePoint;
use fx_between::{Rule, fill_contours};
use fx_fixed::{Axis, F26, near, near_quotient, product, w32, wide_product};

/// An exact difference.
fn difference(a: F26, b: F26) -> i64
    ensures value { result ≡ a -ℤ b }
    ensures bound { unsigned_abs result ≤ 2 ^ 32 }
{
    i64::from(a.0) - i64::from(b.0)
}

/// The exact distance of two numbers that are apart, as a divisor.
fn distance(from: F26, to: F26) -> i64
    requires { from ≢ to }
    ensures value { result ≡ to -ℤ from }
    ensures bound { unsigned_abs result ≤ 2 ^ 32 }
    ensures nonzero { result ≢ pos 0 }
{
    i64::from(to.0) - i64::from(from.0)
}

/// A sum modulo 2^32.
fn sum(a: F26, b: i128) -> F26
    requires { unsigned_abs b ≤ 2 ^ 64 }
    ensures { result ≡ wrapped_of (a +ℤ b) }
{
    F26(w32(i128::from(a.0) + b))
}

/// An original coordinate, moved as another one was.
fn moved_with(o: F26, its_org: F26, its_cur: F26) -> F26
    ensures { result ≡ moved_with o its_org its_cur }
{
    sum(o, i128::from(difference(its_cur, its_org)))
}

/// The greatest distance that is short, in 1/64 pixels: products of two such distances need 32 bits.
const MAX_SHORT: i64 = 65_535;

/// The quotient of a product of short distances, rounded to the nearest whole number, halves up.
#[inline(always)]
fn short_quotient(part: u32, whole: u32, apart: u32) -> u32
    requires part { part < 65536 }
    requires whole { whole < 65536 }
    requires apart { apart < 65536 }
    requires nonzero { apart ≢ 0 }
    ensures { result ≡ near_size (part * whole) apart }
{
    (part * whole + apart / 2) / apart
}

/// An original coordinate in proportion between two others, of which `lo` is the lower one. Of short distances, the common case,
/// no current one of which is negative, it needs 32 bits and no signs.
#[inline(always)]
#[tactic(auto, unfolding(crate::specs::Interpolation::in_proportion))]
fn in_proportion(o: F26, lo_org: F26, lo_cur: F26, hi_org: F26, hi_cur: F26) -> F26
    requires above { lo_org <ℤ o }
    requires below { o <ℤ hi_org }
    ensures { result ≡ in_proportion o lo_org lo_cur hi_org hi_cur }
{
    let apart = difference(hi_org, lo_org);
    let whole = difference(hi_cur, lo_cur);
    if apart <= MAX_SHORT && 0 <= whole && whole <= MAX_SHORT {
        let part = difference(o, lo_org);
        let moved = short_quotient(part as u32, whole as u32, apart as u32);
        return sum(lo_cur, i128::from(moved));
    }
    in_long_proportion(o, lo_org, lo_cur, hi_org, hi_cur)
}

/// The rounded quotient of a product of any distances; of those below 2^25 pixels it needs 64 bits.
fn long_quotient(part: i64, whole: i64, apart: i64) -> i128
    requires part { unsigned_abs part ≤ 2 ^ 32 }
    requires whole { unsigned_abs whole ≤ 2 ^ 32 }
    requires apart { unsigned_abs apart ≤ 2 ^ 32 }
    requires nonzero { apart ≢ pos 0 }
    ensures value { result ≡ near_of (part *ℤ whole) apart }
    ensures bound { unsigned_abs result ≤ 2 ^ 64 }
{
    if part.unsigned_abs() < 1 << 31 && whole.unsigned_abs() < 1 << 31 {
        i128::from(near_quotient(product(part as i32, whole as i32), apart))
    } else {
        near(wide_product(part, whole), i128::from(apart))
    }
}

/// The coordinate in proportion, of any distances.
#[cold]
#[inline(never)]
#[tactic(auto, unfolding(crate::specs::Interpolation::in_proportion))]
fn in_long_proportion(o: F26, lo_org: F26, lo_cur: F26, hi_org: F26, hi_cur: F26) -> F26
    requires { lo_org ≢ hi_org }
    ensures { result ≡ in_proportion o lo_org lo_cur hi_org hi_cur }
{
    let part = difference(o, lo_org);
    let whole = difference(hi_cur, lo_cur);
    sum(lo_cur, long_quotient(part, whole, distance(lo_org, hi_org)))
}

/// Where an original coordinate goes, between two others.
#[tactic(auto, unfolding(crate::specs::Interpolation::coordinate_between))]
fn coordinate_between(o: F26, lo_org: F26, lo_cur: F26, hi_org: F26, hi_cur: F26) -> F26
    ensures { result ≡ coordinate_between o lo_org lo_cur hi_org hi_cur }
{
    if o.0 <= lo_org.0 {
        moved_with(o, lo_org, lo_cur)
    } else if hi_org.0 <= o.0 {
        moved_with(o, hi_org, hi_cur)
    } else {
        in_proportion(o, lo_org, lo_cur, hi_org, hi_cur)
    }
}

/// Moves a point between two others, of which `lo` is the lower: one coordinate is written.
#[inline(always)]
fn place(axis: Axis, lo_org: F26, lo_cur: F26, hi_org: F26, hi_cur: F26, point: &mut ZonePoint)
    ensures { point.new ≡ placed_along axis lo_org lo_cur hi_org hi_cur point.old }
{
    let coordinate = coordinate_between(point.org.along(axis), lo_org, lo_cur, hi_org, hi_cur);
    match axis {
        Axis::X => point.cur.x = coordinate,
        Axis::Y => point.cur.y = coordinate,
    }
}

/// Interpolates a run of untouched points between two others, of which `lo` is the lower.
#[inline(always)]
#[tactic(auto, using(fx_between::proofs::Laying::more_written))]
fn place_run(
    points: &mut [ZonePoint],
    axis: Axis,
    lo_org: F26,
    lo_cur: F26,
    hi_org: F26,
    hi_cur: F26,
)
    ensures { points.new ≡ map (placed_along axis lo_org lo_cur hi_org hi_cur) points.old }
{
    // The points that were seen are interpolated.
    'run: for point in points.iter_mut() {
        place(axis, lo_org, lo_cur, hi_org, hi_cur, point);
    }
}

/// Interpolates a run between any two points.
#[cold]
#[inline(never)]
fn place_long_run(
    points: &mut [ZonePoint],
    axis: Axis,
    lo_org: F26,
    lo_cur: F26,
    hi_org: F26,
    hi_cur: F26,
)
    ensures { points.new ≡ map (placed_along axis lo_org lo_cur hi_org hi_cur) points.old }
{
    place_run(points, axis, lo_org, lo_cur, hi_org, hi_cur);
}

/// Interpolates a run. Whether its distances are short is asked once for all of its points.
#[inline(always)]
fn place_between(points: &mut [ZonePoint], axis: Axis, lo: &ZonePoint, hi: &ZonePoint)
    ensures { points.new ≡ map (placed axis lo.now hi.now) points.old }
{
    let lo_org = lo.org.along(axis);
    let lo_cur = lo.cur.along(axis);
    let hi_org = hi.org.along(axis);
    let hi_cur = hi.cur.along(axis);
    let apart = difference(hi_org, lo_org);
    let whole = difference(hi_cur, lo_cur);
    if 0 < apart && apart <= MAX_SHORT && 0 <= whole && whole <= MAX_SHORT {
        place_run(points, axis, lo_org, lo_cur, hi_org, hi_cur);
    } else {
        place_long_run(points, axis, lo_org, lo_cur, hi_org, hi_cur);
    }
}

/// The rule of points that are touched along an axis.
struct Touched {
    axis: Axis,
}

impl Rule for Touched {
    type Point = ZonePoint;

    ghost is_named = { λ rule. is_touched rule.axis };

    ghost between = { λ rule. between rule.axis };

    /// Whether a point is touched.
    #[inline(always)]
    fn is_named(&self, point: &ZonePoint) -> bool {
        match self.axis {
            Axis::X => point.touched_x,
            Axis::Y => point.touched_y,
        }
    }

    /// Interpolates a run between the touched points before and after it.
    #[inline(always)]
    #[tactic(auto, using(crate::proofs::Interpolating::between_lower, crate::proofs::Interpolating::between_higher))]
    fn fill_run(&self, points: &mut [ZonePoint], before: &ZonePoint, after: &ZonePoint) {
        if after.org.along(self.axis).0 < before.org.along(self.axis).0 {
            place_between(points, self.axis, after, before);
        } else {
            place_between(points, self.axis, before, after);
        }
    }
}

/// Interpolates the untouched points of each contour, by the numbers of their last points. It is compiled once for each axis.
pub fn interpolate_contours(points: &mut [ZonePoint], ends: &[u16], axis: Axis)
    requires { All (λ e. e < length points.old) ends.now }
    ensures value { points.new ≡ contours_filled (is_touched axis) (between axis) ends.now (length ends.now) points.old }
    ensures long { length points.new ≡ length points.old }
{
    match axis {
        Axis::X => fill_contours(&Touched { axis: Axis::X }, points, ends),
        Axis::Y => fill_contours(&Touched { axis: Axis::Y }, points, ends),
    }
}

//! The row that puts a point where two lines cross.

ghost use Rattle.std.specs.Prelude.{◌≡◌, ◌≢◌, ◌≤◌, ◌^◌, pos, ◌+ℤ◌, ◌-ℤ◌, ◌*ℤ◌, unsigned_abs};
ghost use Rattle.fx_zone.specs.Points.{put};
ghost use Rattle.fx_pointops.specs.Zones.{on_point};
ghost use Rattle.fx_pointops.specs.Intersect.{cross_of, fraction_of, scaled_by, mean_of, middle_of, crossing_of, intersection_of, isect_of};

use crate::zones::{Zones, cur};
use fx_fixed::{F26, Place, near, product, w32};
use fx_gstate::GState;

/// The difference of two products.
fn products_apart(a: i32, b: i32, c: i32, d: i32) -> i128
    ensures value { result ≡ a *ℤ b -ℤ c *ℤ d }
    ensures bound { unsigned_abs result ≤ 2 ^ 63 }
{
    i128::from(product(a, b)) - i128::from(product(c, d))
}

/// The cross product of two differences of places.
fn cross(a: &Place, b: &Place) -> i128
    ensures value { result ≡ cross_of a.now b.now }
    ensures bound { unsigned_abs result ≤ 2 ^ 63 }
{
    products_apart(a.x.0, b.y.0, a.y.0, b.x.0)
}

/// An exact product of a cross product and a coordinate.
fn multiple(n: i128, d: i32) -> i128
    requires { unsigned_abs n ≤ 2 ^ 63 }
    ensures value { result ≡ n *ℤ d }
    ensures bound { unsigned_abs result ≤ 2 ^ 94 }
{
    n * i128::from(d)
}

/// A coordinate times the fraction `n / by`.
#[tactic(auto, unfolding(crate::specs::Intersect::fraction_of))]
fn fraction(n: i128, d: F26, by: i128) -> F26
    requires numerator { unsigned_abs n ≤ 2 ^ 63 }
    requires denominator { unsigned_abs by ≤ 2 ^ 63 }
    requires nonzero { by ≢ pos 0 }
    ensures { result ≡ fraction_of n d by }
{
    F26(w32(near(multiple(n, d.0), by)))
}

/// A difference of places times the fraction `n / by`.
fn scaled_by(n: i128, by: i128, d: &Place) -> Place
    requires numerator { unsigned_abs n ≤ 2 ^ 63 }
    requires denominator { unsigned_abs by ≤ 2 ^ 63 }
    requires nonzero { by ≢ pos 0 }
    ensures { result ≡ scaled_by n by d.now }
{
    Place {
        x: fraction(n, d.x, by),
        y: fraction(n, d.y, by),
    }
}

/// The sum of two coordinates.
fn sum(a: F26, b: F26) -> i64
    ensures value { result ≡ a +ℤ b }
    ensures bound { unsigned_abs result ≤ 2 ^ 32 }
{
    i64::from(a.0) + i64::from(b.0)
}

/// The sum of two sums.
fn total(a: i64, b: i64) -> i128
    requires a { unsigned_abs a ≤ 2 ^ 32 }
    requires b { unsigned_abs b ≤ 2 ^ 32 }
    ensures value { result ≡ a +ℤ b }
    ensures bound { unsigned_abs result ≤ 2 ^ 33 }
{
    i128::from(a) + i128::from(b)
}

/// The mean of four coordinates.
#[tactic(auto, unfolding(crate::specs::Intersect::mean_of))]
fn mean(a: F26, b: F26, c: F26, d: F26) -> F26
    ensures { result ≡ mean_of a b c d }
{
    F26(w32(near(total(sum(a, b), sum(c, d)), 4)))
}

/// The middle of four places.
fn middle(a0: &Place, a1: &Place, b0: &Place, b1: &Place) -> Place
    ensures { result ≡ middle_of a0.now a1.now b0.now b1.now }
{
    Place {
        x: mean(a0.x, a1.x, b0.x, b1.x),
        y: mean(a0.y, a1.y, b0.y, b1.y),
    }
}

/// Where two lines cross that are not parallel.
fn crossing(a0: &Place, da: &Place, db: &Place, e: &Place) -> Place
    requires { cross_of da.now db.now ≢ pos 0 }
    ensures { result ≡ crossing_of a0.now da.now db.now e.now }
{
    a0.plus(scaled_by(cross(e, db), cross(da, db), da))
}

/// Where two lines cross; the middle of their places if they are parallel.
#[tactic(auto, unfolding(crate::specs::Intersect::intersection_of))]
fn intersection(a0: &Place, a1: &Place, b0: &Place, b1: &Place) -> Place
    ensures { result ≡ intersection_of a0.now a1.now b0.now b1.now }
{
    let da = a1.minus(*a0);
    let db = b1.minus(*b0);
    let e = b0.minus(*a0);
    if cross(&da, &db) == 0 {
        middle(a0, a1, b0, b1)
    } else {
        crossing(a0, &da, &db, &e)
    }
}

impl Zones {
    /// Puts a point of zp2 at a place, and touches it along both axes.
    #[tactic(auto, using(crate::proofs::Setting::setting))]
    fn put_point(&mut self, g: &GState, p: i32, place: Place)
        ensures { self.new ≡ on_point (put place) g.now.zp2 p self.old }
    {
        let Some(point) = self.point_mut(g.zp2, p) else {
            self.add_stray();
            return;
        };
        *point = point.put(place);
    }

    /// 0F ISECT, InterSECTion of two lines: puts p, of zp2, where the line between the points a, of zp1, crosses the one between
    /// the points b, of zp0.
    #[tactic(auto, unfolding(crate::specs::Intersect::isect_of))]
    pub fn isect(&mut self, g: &GState, p: i32, a: (i32, i32), b: (i32, i32))
        ensures { self.new ≡ isect_of g.now p a.0 a.1 b.0 b.1 self.old }
    {
        let a0 = self.point(g.zp1, a.0);
        let a1 = self.point(g.zp1, a.1);
        let b0 = self.point(g.zp0, b.0);
        let b1 = self.point(g.zp0, b.1);
        let place = intersection(&cur(&a0), &cur(&a1), &cur(&b0), &cur(&b1));
        self.count_two(&a0, &a1);
        self.count_two(&b0, &b1);
        self.put_point(g, p, place);
    }
}

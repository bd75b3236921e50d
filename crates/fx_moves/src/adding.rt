//! Sums over tuples.

ghost use Rattle.std.specs.Prelude.{◌≡◌, ◌≤◌, ◌+◌, ◌^◌, ◌+ℤ◌, ◌*ℤ◌, unsigned_abs, length, map};
ghost use Rattle.fx_moves.specs.Adding.{added, sums, AreWithin, AreNear};

use crate::point::GivenPoint;
use fx_fixed::wide_product;

/// How far a point is moved, as far as its tuple counts.
fn weighed(moved: i64, scalar: i64) -> i128
    requires { unsigned_abs scalar ≤ 2 ^ 42 }
    ensures value { result ≡ moved *ℤ scalar }
    ensures bound { unsigned_abs result ≤ 2 ^ 105 }
{
    wide_product(moved, scalar)
}

/// A sum.
fn sum(a: i128, b: i128) -> i128
    requires a { unsigned_abs a ≤ 2 ^ 120 }
    requires b { unsigned_abs b ≤ 2 ^ 105 }
    ensures value { result ≡ a +ℤ b }
    ensures near { unsigned_abs result ≤ unsigned_abs a + 2 ^ 105 }
{
    a + b
}

/// Adds to a point's sum.
fn add_to(point: &mut GivenPoint, scalar: i64)
    requires scalar { unsigned_abs scalar ≤ 2 ^ 42 }
    requires small { unsigned_abs point.old.sum ≤ 2 ^ 120 }
    ensures value { point.new ≡ added scalar point.old }
    ensures near { unsigned_abs point.new.sum ≤ unsigned_abs point.old.sum + 2 ^ 105 }
{
    point.sum = sum(point.sum, weighed(point.moved, scalar));
}

/// Adds to the sums of points how far a tuple moves them.
#[tactic(auto, using(fx_between::proofs::Laying::more_written, crate::proofs::Sums::add_steps))]
pub fn add(points: &mut [GivenPoint], scalar: i64)
    requires scalar { unsigned_abs scalar ≤ 2 ^ 42 }
    requires room { AreWithin 32767 (sums points.old) }
    ensures value { points.new ≡ map (added scalar) points.old }
    ensures near { AreNear (length points.old) points.old points.new }
{
    // The points that were seen have their sums, which are near those before.
    'points: for point in points.iter_mut() {
        add_to(point, scalar);
    }
}

//! The deltas of points that a tuple does not name.

ghost use Rattle.std.specs.Prelude.{◌≡◌, ◌≢◌, ◌≤◌, ◌<◌, ◌^◌, pos, ◌<ℤ◌, ◌-ℤ◌, ◌*ℤ◌, ◌+ℤ◌, unsigned_abs, map};
ghost use Rattle.fx_axes.specs.Rounding.{near_up_of};
ghost use Rattle.fx_moves.specs.Inferred.{one, in_proportion_of, inferred_between, inferred_of, is_named, given, between};

use crate::point::GivenPoint;
use fx_axes::near_up;
use fx_between::Rule;

/// A point that a tuple names, along an axis: its coordinate and its delta.
#[derive(Clone, Copy, Debug, PartialEq, Eq)]
pub struct Named {
    pub at: i16,
    pub delta: i16,
}

/// A delta, in 1/65536.
pub fn whole(delta: i16) -> i64
    ensures value { result ≡ delta *ℤ one }
    ensures bound { unsigned_abs result ≤ 2 ^ 31 }
{
    i64::from(delta) * 65536
}

/// An exact difference.
fn difference(a: i16, b: i16) -> i32
    ensures value { result ≡ a -ℤ b }
    ensures bound { unsigned_abs result < 2 ^ 16 }
{
    i32::from(a) - i32::from(b)
}

/// The distance of a coordinate to a greater one.
fn distance(lo: i16, hi: i16) -> u32
    requires { lo <ℤ hi }
    ensures value { result ≡ unsigned_abs (hi -ℤ lo) }
    ensures nonzero { result ≢ 0 }
{
    (i32::from(hi) - i32::from(lo)) as u32
}

/// A product of differences.
fn area(a: i32, b: i32) -> i64
    requires a { unsigned_abs a ≤ 2 ^ 16 }
    requires b { unsigned_abs b ≤ 2 ^ 16 }
    ensures value { result ≡ a *ℤ b }
    ensures bound { unsigned_abs result ≤ 2 ^ 32 }
{
    i64::from(a) * i64::from(b)
}

/// A number, in 1/65536.
fn raised(n: i64) -> i128
    requires { unsigned_abs n ≤ 2 ^ 32 }
    ensures value { result ≡ n *ℤ one }
    ensures bound { unsigned_abs result ≤ 2 ^ 48 }
{
    i128::from(n) * 65536
}

/// A sum of deltas.
fn sum(a: i64, b: i128) -> i128
    requires a { unsigned_abs a ≤ 2 ^ 31 }
    requires b { unsigned_abs b ≤ 2 ^ 48 }
    ensures value { result ≡ a +ℤ b }
    ensures bound { unsigned_abs result ≤ 2 ^ 49 }
{
    i128::from(a) + b
}

/// How far a coordinate is between two others, of which `lo` is the lower, times how their deltas differ.
fn moved(x: i16, lo: Named, hi: Named) -> i128
    requires { lo.at <ℤ hi.at }
    ensures value { result ≡ near_up_of ((x -ℤ lo.at) *ℤ (hi.delta -ℤ lo.delta) *ℤ one) (unsigned_abs (hi.at -ℤ lo.at)) }
    ensures bound { unsigned_abs result ≤ 2 ^ 48 }
{
    let area = raised(area(difference(x, lo.at), difference(hi.delta, lo.delta)));
    near_up(area, u64::from(distance(lo.at, hi.at)))
}

/// The delta of a coordinate between two others, of which `lo` is the lower, in proportion.
#[tactic(auto, unfolding(crate::specs::Inferred::in_proportion_of))]
fn in_proportion(x: i16, lo: Named, hi: Named) -> i128
    requires { lo.at <ℤ hi.at }
    ensures value { result ≡ in_proportion_of x lo hi }
    ensures bound { unsigned_abs result ≤ 2 ^ 49 }
{
    sum(whole(lo.delta), moved(x, lo, hi))
}

/// The delta of a coordinate by two others, of which `lo` is the lower.
fn inferred_between(x: i16, lo: Named, hi: Named) -> i128
    requires { lo.at <ℤ hi.at }
    ensures value { result ≡ inferred_between x lo hi }
    ensures bound { unsigned_abs result ≤ 2 ^ 49 }
{
    if x <= lo.at {
        i128::from(whole(lo.delta))
    } else if hi.at <= x {
        i128::from(whole(hi.delta))
    } else {
        in_proportion(x, lo, hi)
    }
}

/// The delta of a coordinate by those of the named points before and after it, in 1/65536.
pub fn inferred(x: i16, before: Named, after: Named) -> i128
    ensures value { result ≡ inferred_of x before after }
    ensures bound { unsigned_abs result ≤ 2 ^ 49 }
{
    if before.at == after.at {
        if before.delta == after.delta {
            i128::from(whole(before.delta))
        } else {
            0
        }
    } else if before.at < after.at {
        inferred_between(x, before, after)
    } else {
        inferred_between(x, after, before)
    }
}

/// A point's coordinate and the delta that the tuple gives it.
fn given(point: &GivenPoint) -> Named
    ensures { result ≡ given point.now }
{
    Named {
        at: point.at,
        delta: point.delta,
    }
}

/// Moves a point between two named ones.
#[tactic(auto, unfolding(crate::specs::Inferred::between))]
fn fill(point: &mut GivenPoint, before: &GivenPoint, after: &GivenPoint)
    ensures { point.new ≡ between before.now after.now point.old }
{
    point.moved = inferred(point.at, given(before), given(after)) as i64;
}

/// The rule of points that a tuple names.
pub struct Inferring;

impl Rule for Inferring {
    type Point = GivenPoint;

    ghost is_named = { λ rule. is_named };

    ghost between = { λ rule. between };

    /// Whether a tuple names a point.
    fn is_named(&self, point: &GivenPoint) -> bool {
        point.named
    }

    /// Moves a run of points between two named ones.
    #[tactic(auto, using(fx_between::proofs::Laying::more_written))]
    fn fill_run(&self, points: &mut [GivenPoint], before: &GivenPoint, after: &GivenPoint) {
        // The points that were seen are moved.
        'run: for point in points.iter_mut() {
            fill(point, before, after);
        }
    }
}

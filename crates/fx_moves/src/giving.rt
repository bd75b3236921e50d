//! What a tuple gives to points.

ghost use Rattle.std.specs.Prelude.{◌≡◌, map};
ghost use Rattle.fx_moves.specs.Giving.{cleared, moved_by, one_given, all_given};

use crate::inferring::whole;
use crate::point::GivenPoint;
use fx_tuples::{Deltas, Numbers};

/// Forgets what a tuple before gave to a point.
fn clear_point(point: &mut GivenPoint)
    ensures { point.new ≡ cleared point.old }
{
    point.named = false;
    point.delta = 0;
    point.moved = 0;
}

/// Forgets what a tuple before gave.
#[tactic(auto, using(fx_between::proofs::Laying::more_written))]
pub fn clear(points: &mut [GivenPoint])
    ensures { points.new ≡ map cleared points.old }
{
    // The points that were seen are cleared.
    'points: for point in points.iter_mut() {
        clear_point(point);
    }
}

/// A point that is given a delta.
fn moved_by(delta: i16, point: &GivenPoint) -> GivenPoint
    ensures { result ≡ moved_by delta point.now }
{
    GivenPoint {
        at: point.at,
        named: true,
        delta,
        moved: whole(delta),
        sum: point.sum,
    }
}

/// Gives a delta to the point of a number, if there is one.
#[tactic(auto, unfolding(crate::specs::Giving::one_given))]
pub fn give_one(points: &mut [GivenPoint], number: usize, delta: i16)
    ensures { points.new ≡ one_given number delta points.old }
{
    if number < points.len() {
        points[number] = moved_by(delta, &points[number]);
    }
}

/// Gives each number's point its delta.
#[tactic(auto, using(crate::proofs::Given::give_steps))]
pub fn give(points: &mut [GivenPoint], numbers: Numbers<'_>, mut deltas: Deltas<'_>)
    ensures { points.new ≡ all_given numbers.entry deltas.entry points.old }
{
    // With the numbers that are left, the points become what all make of them.
    'pairs: for number in numbers {
        match deltas.next() {
            None => return,
            Some(delta) => give_one(points, number as usize, delta),
        }
    }
}

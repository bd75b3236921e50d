//! How a tuple moves a coordinate of points.

ghost use Rattle.std.specs.Prelude.{◌≡◌, ◌<◌, length};
ghost use Rattle.std.specs.List.{All};
ghost use Rattle.fx_moves.specs.Giving.{all_given};
ghost use Rattle.fx_moves.specs.Moves.{count_up, points_moved, delta_count};

use crate::giving::{clear, give, give_one};
use crate::inferring::Inferring;
use crate::point::GivenPoint;
use fx_between::fill_contours;
use fx_tuples::{Deltas, PointNumbers};

/// Gives each of the first points in order its delta.
#[tactic(auto, using(crate::proofs::Given::give_steps))]
fn give_first(points: &mut [GivenPoint], count: usize, mut deltas: Deltas<'_>)
    ensures { points.new ≡ all_given (count_up 0 count) deltas.entry points.old }
{
    // With the numbers that are left, the points become what all make of them.
    'points: for number in 0..count {
        match deltas.next() {
            None => return,
            Some(delta) => give_one(points, number, delta),
        }
    }
}

/// Gives each point in order its delta.
fn give_all(points: &mut [GivenPoint], deltas: Deltas<'_>)
    ensures { points.new ≡ all_given (count_up 0 (length points.old)) deltas.entry points.old }
{
    let count = points.len();
    give_first(points, count, deltas);
}

/// How many deltas a tuple has for a coordinate.
pub fn delta_count(numbers: &PointNumbers<'_>, points: &[GivenPoint]) -> usize
    ensures { result ≡ delta_count numbers.now points.now }
{
    if numbers.count() == 0 {
        points.len()
    } else {
        usize::from(numbers.count())
    }
}

/// Moves points by the deltas of a tuple.
#[tactic(auto, unfolding(crate::specs::Moves::points_moved))]
pub fn move_points(
    points: &mut [GivenPoint],
    ends: &[u16],
    numbers: &PointNumbers<'_>,
    deltas: Deltas<'_>,
)
    requires { All (λ e. e < length points.old) ends.now }
    ensures { points.new ≡ points_moved ends.now numbers.now deltas.entry points.old }
{
    clear(points);
    if numbers.count() == 0 {
        give_all(points, deltas);
    } else {
        give(points, numbers.list(), deltas);
        fill_contours(&Inferring, points, ends);
    }
}

//! Changes of the points from a number to before another, and of all points.

ghost use Rattle.std.specs.Prelude.{◌≡◌, ◌≤◌, length, map};
ghost use Rattle.fx_zone.specs.Figures.{each_changed, in_range, in_range_without, is_number};
ghost use Rattle.fx_zone.specs.Points.{rested, shifted, curved};

use crate::point::{PointShift, ZonePoint};
use fx_fixed::Place;

/// The points from a number to before another, without one of them.
#[derive(Clone, Copy, Debug, PartialEq, Eq)]
pub struct PointRange {
    pub first: usize,
    pub past: usize,
    pub except: Option<usize>,
}

/// Whether a number is this one.
fn is_number(number: usize, other: Option<usize>) -> bool
    ensures { result ≡ is_number number other }
{
    match other {
        Some(other) => number == other,
        None => false,
    }
}

/// Shifts and touches the points of a range.
pub fn shift_range(points: &mut [ZonePoint], range: PointRange, shift: PointShift)
    requires { range.past ≤ length points.old }
    ensures { points.new ≡ each_changed (in_range_without range) (shifted shift) 0 points.old }
{
    // The points before `number` are done.
    'range: for number in range.first..range.past {
        if !is_number(number, range.except) {
            points[number].shift(&shift);
        }
    }
}

/// Makes the points of a range ones on the curve, or off it.
pub fn curve_range(points: &mut [ZonePoint], first: usize, past: usize, on: bool)
    requires { past ≤ length points.old }
    ensures { points.new ≡ each_changed (in_range first past) (curved on) 0 points.old }
{
    // The points before `number` are done.
    'range: for number in first..past {
        points[number] = points[number].curved(on);
    }
}

/// Shifts all points from their current places, where they rest untouched.
#[tactic(auto, using(fx_between::proofs::Laying::more_written))]
pub fn rest_points(points: &mut [ZonePoint], by: &Place)
    ensures { points.new ≡ map (rested by.now) points.old }
{
    // The points before `point` are done.
    'points: for point in points.iter_mut() {
        point.rest_shifted(by);
    }
}

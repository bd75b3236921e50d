//! Zones.

ghost use Rattle.std.specs.Prelude.{◌≡◌, ◌+◌, ◌<◌, ◌≤◌, ◌^◌, ◌++◌, length, map, take, slice_get, IfSome, slice_set, OnOk, OnErr};
ghost use Rattle.std.specs.List.{All};
ghost use Rattle.std.specs.Option.{option_copied_mut};
ghost use Rattle.std.specs.Borrow.{sem};
ghost use Rattle.fx_zone.specs.Lending.{LendsPoint};
ghost use Rattle.fx_zone.specs.Figures.{Figure, joined, empty_figure, range_shifted, range_curved, figure_rested, contour_of, HasShape};
ghost use Rattle.fx_zone.specs.Interpolation.{figure_interpolated};

use crate::interpolation::interpolate_contours;
use crate::point::{PointShift, ZonePoint};
use crate::range::{PointRange, curve_range, rest_points, shift_range};
use fx_fixed::{Axis, Place};
use std::alloc::{AllocError, Global};
use std::marker::Model;

/// Points, and the number of each contour's last point. A contour's points follow the last
/// point of the contour before it; points after the last contour belong to none, as a glyph's
/// phantom points do (OpenType, `glyf`).
#[derive(Drop)]
pub struct Zone {
    points: Vec<ZonePoint>,
    ends: Vec<u16>,
}

impl Model for Zone {
    ghost use Rattle.std.specs.Prelude.{◌<◌, length};
    ghost use Rattle.std.specs.List.{All};
    ghost use Rattle.fx_zone.specs.Figures.{Figure};

    ghost Value = { Figure };

    ghost view = { λ z. record { points = z.points.items; ends = z.ends.items } };

    ghost invariant = { λ z. All (λ e. e < length z.points.items) z.ends.items };
}

impl Zone {
    /// A zone without points.
    pub fn new(alloc: Global) -> Zone
        ensures { result ≡ empty_figure }
    {
        Zone {
            points: Vec::new(alloc),
            ends: Vec::new(alloc),
        }
    }

    /// A zone of these points and contours.
    pub fn of(points: Vec<ZonePoint>, ends: Vec<u16>) -> Zone
        requires { All (λ e. e < length points.items) ends.items }
        ensures { result ≡ record { points = points.items; ends = ends.items } }
    {
        Zone { points, ends }
    }

    /// The number of points.
    pub fn len(&self) -> usize
        ensures { result ≡ length self.now.points }
    {
        self.points.len()
    }

    /// The points.
    pub fn points(&self) -> &[ZonePoint]
        ensures { result.now ≡ self.now.points }
    {
        &self.points
    }

    /// The number of each contour's last point.
    pub fn ends(&self) -> &[u16]
        ensures value { result.now ≡ self.now.ends }
        ensures below { All (λ e. e < length self.now.points) result.now }
    {
        &self.ends
    }

    /// The lists of points and of contours, for another zone to take over.
    pub fn into_lists(self) -> (Vec<ZonePoint>, Vec<u16>)
        ensures points { result.0.items ≡ self.points }
        ensures ends { result.1.items ≡ self.ends }
    {
        let Zone { points, ends } = self;
        (points, ends)
    }

    /// The point of a number, if it is inside.
    pub fn point(&self, number: usize) -> Option<ZonePoint>
        ensures { result ≡ slice_get self.now.points number }
    {
        self.points.get(number).copied()
    }

    /// The point of a number, to be changed in its place, if it is inside.
    pub fn point_mut(&mut self, number: usize) -> Option<&mut ZonePoint>
        ensures* writes_back { sem 𝓛 (LendsPoint self.entry number result) }
        ensures value { option_copied_mut result ≡ slice_get self.old.points number }
    {
        self.points.get_mut(number)
    }

    /// Writes the point of a number, if it is inside.
    pub fn set(&mut self, number: usize, point: ZonePoint)
        ensures value { self.new ≡ record self.old { points = slice_set self.old.points number point } }
        ensures shape { HasShape self.old self.new }
    {
        if number < self.points.len() {
            self.points[number] = point;
        }
    }

    /// The number of a contour's first point, and the one after its last.
    pub fn contour(&self, number: usize) -> Option<(usize, usize)>
        ensures value { result ≡ contour_of self.now.ends number }
        ensures within { IfSome result (λ c. c.1 ≤ length self.now.points) }
    {
        let last = usize::from(*self.ends.get(number)?);
        let first = if number == 0 {
            0
        } else {
            usize::from(self.ends[number - 1]) + 1
        };
        Some((first, last + 1))
    }

    /// Shifts and touches the points of a range.
    pub fn shift_range(&mut self, range: PointRange, shift: PointShift)
        requires { range.past ≤ length self.old.points }
        ensures value { self.new ≡ range_shifted shift range self.old }
        ensures shape { HasShape self.old self.new }
    {
        shift_range(&mut self.points, range, shift);
    }

    /// Makes the points from a number to before another ones on the curve, or off it.
    pub fn curve_range(&mut self, first: usize, past: usize, on: bool)
        requires { past ≤ length self.old.points }
        ensures value { self.new ≡ range_curved on first past self.old }
        ensures shape { HasShape self.old self.new }
    {
        curve_range(&mut self.points, first, past, on);
    }

    /// Interpolates the untouched points of each contour along an axis (Apple TrueType Reference Manual, "IUP").
    #[tactic(auto, unfolding(crate::specs::Interpolation::figure_interpolated))]
    pub fn interpolate(&mut self, axis: Axis)
        ensures value { self.new ≡ figure_interpolated axis self.old }
        ensures shape { HasShape self.old self.new }
    {
        interpolate_contours(&mut self.points, &self.ends, axis);
    }

    /// Shifts all points from their current places, and lets them rest there, untouched.
    pub fn rest_shifted(&mut self, by: Place)
        ensures value { self.new ≡ figure_rested by self.old }
        ensures shape { HasShape self.old self.new }
    {
        rest_points(&mut self.points, &by);
    }

    /// Keeps the first points, which hold all contours.
    pub fn truncate(&mut self, count: usize)
        requires { All (λ e. e < count) self.old.ends }
        ensures { self.new ≡ record self.old { points = take count self.old.points } }
    {
        self.points.truncate(count);
    }

    /// Takes the points of another zone with as many points and the same contours.
    pub fn copy_from(&mut self, other: &Zone)
        requires points { length self.old.points ≡ length other.now.points }
        requires ends { self.old.ends ≡ other.now.ends }
        ensures { self.new ≡ other.now }
    {
        self.points.copy_from_slice(&other.points);
    }

    /// Removes all points and contours. The lists keep their memory.
    pub fn clear(&mut self)
        ensures { self.new ≡ empty_figure }
    {
        self.ends.clear();
        self.points.clear();
    }

    /// Takes these points and contours in place of its own. If memory is refused it may hold anything.
    pub fn refill(&mut self, points: &[ZonePoint], ends: &[u16]) -> Result<(), AllocError>
        requires { All (λ e. e < length points.now) ends.now }
        ensures { OnOk result (self.new ≡ record { points = points.now; ends = ends.now }) }
    {
        self.clear();
        self.points.extend_from_slice(points)?;
        self.ends.extend_from_slice(ends)
    }

    /// Appends points, and contours numbered within these points; if memory is refused,
    /// nothing changes.
    pub fn append(&mut self, points: &[ZonePoint], ends: &[u16]) -> Result<(), AllocError>
        requires below { All (λ e. e < length points.now) ends.now }
        requires fits { All (λ e. length self.old.points + e < 2 ^ 16) ends.now }
        ensures done { OnOk result (self.new ≡ joined self.old (record { points = points.now; ends = ends.now })) }
        ensures kept { OnErr result (self.new ≡ self.old) }
    {
        let first = self.points.len();
        self.points.reserve(points.len())?;
        append_shifted(&mut self.ends, ends, first)?;
        self.points.extend_from_slice(points)
    }
}

/// Appends numbers, counted from `first` on; if memory is refused, nothing changes.
fn append_shifted(numbers: &mut Vec<u16>, more: &[u16], first: usize) -> Result<(), AllocError>
    requires { All (λ e. first + e < 2 ^ 16) more.now }
    ensures done { OnOk result (numbers.new.items ≡ numbers.old.items ++ map (λ e. first + e) more.now) }
    ensures kept { OnErr result (numbers.new.items ≡ numbers.old.items) }
{
    numbers.reserve(more.len())?;
    // The numbers before `number` are appended, and there is room for those that are left.
    'numbers: for number in more {
        numbers.push_reserved((first + usize::from(*number)) as u16);
    }
    Ok(())
}

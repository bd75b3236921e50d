//! How far the points of an outline reach.
ghost use Rattle.std.specs.Prelude.{◌≡◌, ◌≤ℤ◌, ◌↔◌, IsTrue};
ghost use Rattle.std.specs.Int.{int_min, int_max};
ghost use Rattle.fx_contour.specs.Contours.{IsRangeNear};

use crate::curves::{contour, have_two};
use fx_fixed::F26;
use fx_outline::{Outline, OutlinePoint};

/// The greatest distance of a point from either axis, in 26.6 pixels.
const FARTHEST: i32 = 1 << 21;

/// The least box that holds some points, in 26.6 pixels.
#[derive(Clone, Copy)]
pub(crate) struct Extent {
    pub left: F26,
    pub right: F26,
    pub bottom: F26,
    pub top: F26,
    ghost across: { left ≤ℤ right },
    ghost up: { bottom ≤ℤ top },
}

impl Extent {
    ghost use Rattle.std.specs.Prelude.{◌≡◌};
    ghost use Rattle.fx_contour.specs.Curve.{doubled_of, curve_of};
    ghost use Rattle.fx_contour.specs.Contours.{spans_of};
    ghost use Rattle.fx_contour.specs.Frames.{HaveAny};
    ghost use Rattle.fx_contour.specs.Bounds.{Grows, IsLeast, Extends, DoesReach, HavePoint, KeepsLimit};

    /// The extent of one point.
    fn around(p: &OutlinePoint) -> Extent
        ensures left { result.left ≡ p.now.x }
        ensures right { result.right ≡ p.now.x }
        ensures bottom { result.bottom ≡ p.now.y }
        ensures top { result.top ≡ p.now.y }
    {
        Extent {
            left: p.x,
            right: p.x,
            bottom: p.y,
            top: p.y,
        }
    }

    /// The extent of this one's points and one more.
    fn with_point(self, p: OutlinePoint) -> Extent
        ensures { Grows (Extends self) (Extends result) (λ P. P (doubled_of p)) }
    {
        Extent {
            left: least(self.left, p.x),
            right: greatest(self.right, p.x),
            bottom: least(self.bottom, p.y),
            top: greatest(self.top, p.y),
        }
    }

    /// The extent of this one's points and more.
    fn with_points(self, points: &[OutlinePoint]) -> Extent
        ensures { Grows (Extends self) (Extends result) (λ P. HavePoint P points.now) }
    {
        let mut extent = self;
        // The extent is that of `self` and the points so far.
        'points: for p in points {
            extent = extent.with_point(*p);
        }
        extent
    }

    /// The extent of the points, if there are any.
    pub(crate) fn of(points: &[OutlinePoint]) -> Option<Extent>
        ensures { IsLeast (DoesReach Extends result) (λ P. HavePoint P points.now) }
    {
        if points.is_empty() {
            return None;
        }
        Some(Extent::around(&points[0]).with_points(points))
    }

    /// Whether no side is too far out.
    pub(crate) fn keeps_limit(&self) -> bool
        ensures { IsTrue result ↔ KeepsLimit self.now }
    {
        are_near(self.left, self.right) && are_near(self.bottom, self.top)
    }

    /// The extent with the curve of a contour: a contour of fewer than two points has none.
    fn with_contour(extent: Option<Extent>, points: &[OutlinePoint]) -> Option<Extent>
        ensures { Grows (DoesReach Extends extent) (DoesReach Extends result) (λ P. HaveAny P (curve_of points.now)) }
    {
        if points.len() < 2 {
            return extent;
        }
        match extent {
            None => Extent::of(points),
            Some(extent) => Some(extent.with_points(points)),
        }
    }

    /// The extent of the curves of an outline's contours, found contour by contour.
    fn of_contours(outline: &Outline) -> Option<Extent>
        ensures { IsLeast (DoesReach Extends result) (λ P. HaveAny P (spans_of outline.now.ends.items outline.now.points.items)) }
    {
        let mut extent = None;
        let mut start = 0;
        // The extent is that of the contours so far, and the next one begins at `start`.
        'contours: for end in &outline.ends {
            let next = usize::from(*end) + 1;
            extent = Extent::with_contour(extent, contour(&outline.points, start, next));
            start = next;
        }
        extent
    }

    /// The extent of the curves of an outline, whose points have the extent `all`: the same, unless a contour has one point
    /// alone, which draws nothing. The other points of a curve lie half way between two points of its contour.
    pub(crate) fn of_curves(outline: &Outline, all: Extent) -> Option<Extent>
        requires { IsLeast (Extends all) (λ P. HavePoint P outline.now.points.items) }
        ensures { IsLeast (DoesReach Extends result) (λ P. HaveAny P (spans_of outline.now.ends.items outline.now.points.items)) }
    {
        if have_two(&outline.ends) {
            return Some(all);
        }
        Extent::of_contours(outline)
    }
}

/// The lesser of two coordinates.
fn least(a: F26, b: F26) -> F26
    ensures { result ≡ int_min a b }
{
    F26(a.0.min(b.0))
}

/// The greater of two coordinates.
fn greatest(a: F26, b: F26) -> F26
    ensures { result ≡ int_max a b }
{
    F26(a.0.max(b.0))
}

/// Whether the coordinates from one to another are within the limit.
fn are_near(least: F26, greatest: F26) -> bool
    ensures { IsTrue result ↔ IsRangeNear least greatest }
{
    -FARTHEST <= least.0 && greatest.0 <= FARTHEST
}

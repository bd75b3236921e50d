//! The bounding box of points.
ghost use Rattle.std.specs.Prelude.{◌^◌, ◌≡◌, ◌↔◌, ℤ, map, All, IsSomeAnd, IsTrue};
ghost use Rattle.fx_fixed.specs.Ranges.{IsWithin};
ghost use Rattle.fx_contour.specs.DropoutFrames.{farthest_with_margin};

use crate::curves::twice;
use crate::extent::Extent;
use fx_outline::Outline;
use fx_winding::{Piece, Point};

/// The greatest distance of a point of a piece from either axis, with drop-out control, in 1/128 pixel: two pixels less than that
/// of an outline's points.
const FARTHEST_WITH_MARGIN: i32 = (1 << 22) - 256;

/// The least box that holds some points, in 1/128 pixel.
#[derive(Clone, Copy)]
pub(crate) struct PieceBounds {
    pub left: i32,
    pub right: i32,
    pub bottom: i32,
    pub top: i32,
    ghost near_left: { IsWithin (2 ^ 22) left },
    ghost near_right: { IsWithin (2 ^ 22) right },
    ghost near_bottom: { IsWithin (2 ^ 22) bottom },
    ghost near_top: { IsWithin (2 ^ 22) top },
}

impl PieceBounds {
    ghost use Rattle.fx_winding.specs.Near.{IsNearPlace, IsNear};
    ghost use Rattle.fx_winding.specs.Outside.{OptionAll};
    ghost use Rattle.fx_winding.specs.Winding.{place_of, maybe_place_of, span_of};
    ghost use Rattle.fx_contour.specs.Contours.{IsInReach, spans_of};
    ghost use Rattle.fx_contour.specs.Frames.{HasAny, HaveAny};
    ghost use Rattle.fx_contour.specs.Bounds.{Side, Reaches, Grows, IsLeast, Extends, HavePoint, KeepsLimit, AreBoundsOf};
    ghost use Rattle.fx_contour.specs.Bounds.{BoundsLeaveMargin};

    /// The box of one point.
    fn around(p: Point) -> PieceBounds
        requires { IsWithin (2 ^ 22) p.x }
        ensures left { result.left ≡ p.x }
        ensures right { result.right ≡ p.x }
        ensures bottom { result.bottom ≡ p.y }
        ensures top { result.top ≡ p.y }
    {
        PieceBounds {
            left: p.x,
            right: p.x,
            bottom: p.y,
            top: p.y,
        }
    }

    /// The least box that holds this one and a point.
    fn with_point(self, p: Point) -> PieceBounds
        requires { IsWithin (2 ^ 22) p.x }
        ensures { Grows (Reaches self) (Reaches result) (λ P. P (place_of p)) }
    {
        PieceBounds {
            left: self.left.min(p.x),
            right: self.right.max(p.x),
            bottom: self.bottom.min(p.y),
            top: self.top.max(p.y),
        }
    }

    /// The least box that holds this one and the control point, if there is one.
    fn with_control(self, control: Option<Point>) -> PieceBounds
        requires { OptionAll IsNearPlace (maybe_place_of control) }
        ensures { Grows (Reaches self) (Reaches result) (λ P. IsSomeAnd (maybe_place_of control) P) }
    {
        match control {
            None => self,
            Some(p) => self.with_point(p),
        }
    }

    /// The least box that holds this one and the points of a piece, its control point too.
    fn with_piece(self, piece: &Piece) -> PieceBounds
        requires { IsNear piece.now }
        ensures { Grows (Reaches self) (Reaches result) (λ P. HasAny P (span_of piece.now)) }
    {
        self.with_point(piece.a)
            .with_control(piece.b)
            .with_point(piece.c)
    }

    /// The bounding box of all points of the pieces, control points too.
    pub(crate) fn of(pieces: &[Piece]) -> Option<PieceBounds>
        requires { All IsNear pieces.now }
        ensures { AreBoundsOf result (map span_of pieces.now) }
    {
        if pieces.is_empty() {
            return None;
        }
        let mut bounds = PieceBounds::around(pieces[0].a);
        // The box is that of the pieces so far.
        'pieces: for piece in pieces {
            bounds = bounds.with_piece(piece);
        }
        Some(bounds)
    }

    /// An extent in 1/128 pixel.
    fn doubled(extent: Extent) -> PieceBounds
        requires { KeepsLimit extent }
        ensures { (side : Side) (t : ℤ) → Reaches result side t ↔ Extends extent side t }
    {
        PieceBounds {
            left: twice(extent.left),
            right: twice(extent.right),
            bottom: twice(extent.bottom),
            top: twice(extent.top),
        }
    }

    /// The bounding box of all points of the pieces of an outline, whose points have the extent `all`.
    pub(crate) fn of_outline(outline: &Outline, all: Extent) -> Option<PieceBounds>
        requires all { IsLeast (Extends all) (λ P. HavePoint P outline.now.points.items) }
        requires reach { All IsInReach outline.now.points.items }
        ensures { AreBoundsOf result (spans_of outline.now.ends.items outline.now.points.items) }
    {
        match Extent::of_curves(outline, all) {
            None => None,
            Some(extent) => Some(PieceBounds::doubled(extent)),
        }
    }

    /// Whether each side leaves the margin that drop-out control needs.
    pub(crate) fn leaves_margin(&self) -> bool
        ensures { IsTrue result ↔ BoundsLeaveMargin self.now }
    {
        are_inner(self.left, self.right) && are_inner(self.bottom, self.top)
    }
}

/// Whether a coordinate is within the distance that leaves a margin.
fn is_inner(z: i32) -> bool
    ensures { IsTrue result ↔ IsWithin farthest_with_margin z }
{
    -FARTHEST_WITH_MARGIN <= z && z <= FARTHEST_WITH_MARGIN
}

/// Whether two coordinates are.
fn are_inner(low: i32, high: i32) -> bool
    ensures { IsTrue result ↔ (IsWithin farthest_with_margin low × IsWithin farthest_with_margin high) }
{
    is_inner(low) && is_inner(high)
}

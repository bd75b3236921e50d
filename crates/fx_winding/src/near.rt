//! Pieces near the origin, which lists can hold.

ghost use Rattle.std.specs.Prelude.{◌↔◌, IsTrue};
ghost use Rattle.fx_winding.specs.Near.{IsNearPlace, IsNear};
ghost use Rattle.fx_winding.specs.Outside.{OptionAll};
ghost use Rattle.fx_winding.specs.Winding.{place_of, maybe_place_of};

use crate::point::{Piece, Point};

/// The greatest distance from the origin, across and up, of the points of a list's pieces.
const FARTHEST: i32 = 1 << 22;

/// Whether a point lies near the origin across. Up and down each point does.
fn is_point_near(p: Point) -> bool
    ensures { IsTrue result ↔ IsNearPlace (place_of p) }
{
    -FARTHEST <= p.x && p.x <= FARTHEST
}

/// Whether a control point does, if there is one.
fn is_control_near(b: Option<Point>) -> bool
    ensures { IsTrue result ↔ OptionAll IsNearPlace (maybe_place_of b) }
{
    match b {
        None => true,
        Some(b) => is_point_near(b),
    }
}

impl Piece {
    /// Whether all points of a piece lie within 2^22 of the origin, so that a list can hold it.
    pub fn is_near(&self) -> bool
        ensures { IsTrue result ↔ IsNear self.now }
    {
        is_point_near(self.a) && is_control_near(self.b) && is_point_near(self.c)
    }
}

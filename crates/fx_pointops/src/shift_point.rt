//! How instructions move points: along the freedom vector, and touching them.

ghost use Rattle.std.specs.Prelude.{◌≡◌};
ghost use Rattle.fx_pointops.specs.Zones.{changed_at};
ghost use Rattle.fx_pointops.specs.ShiftPoint.{shift_with, moved_by, point_shifted};

use crate::zones::Zones;
use fx_fixed::{Axis, F26, Place};
use fx_gstate::{GState, ZonePointer};
use fx_zone::{PointShift, ZonePoint};

/// A shift that touches points along each axis along which the freedom vector has a part.
pub fn shift_with(g: &GState, by: Place) -> PointShift
    ensures { result ≡ shift_with g.now by }
{
    PointShift {
        by,
        x: g.touches(Axis::X),
        y: g.touches(Axis::Y),
    }
}

/// Moves a point by a distance. Along an axis it is known which axis it touches.
#[inline(never)]
#[tactic(auto, unfolding(crate::specs::ShiftPoint::moved_by))]
pub fn move_point(g: &GState, d: F26, point: &mut ZonePoint)
    ensures { point.new ≡ moved_by g.now d point.old }
{
    match g.axis() {
        Some(Axis::X) => {
            point.cur = point.cur.plus(g.shift_place(d));
            point.touched_x = true;
        }
        Some(Axis::Y) => {
            point.cur = point.cur.plus(g.shift_place(d));
            point.touched_y = true;
        }
        None => move_aslant(g, d, point),
    }
}

/// Moves a point by a distance along any vectors.
#[inline(never)]
#[tactic(auto, unfolding(crate::specs::ShiftPoint::moved_by))]
fn move_aslant(g: &GState, d: F26, point: &mut ZonePoint)
    ensures { point.new ≡ moved_by g.now d point.old }
{
    point.shift(&shift_with(g, g.shift_place(d)));
}

impl Zones {
    /// Moves a point by a distance, if it is inside.
    #[tactic(auto, using(crate::proofs::Setting::setting))]
    pub(crate) fn move_by(&mut self, g: &GState, zone: ZonePointer, p: i32, d: F26)
        ensures { self.new ≡ changed_at (moved_by g.now d) zone p self.old }
    {
        if let Some(point) = self.point_mut(zone, p) {
            move_point(g, d, point);
        }
    }

    /// Shifts a point of zp2.
    #[tactic(auto, unfolding(crate::specs::ShiftPoint::point_shifted), using(crate::proofs::Setting::setting))]
    pub(crate) fn shift_point(&mut self, g: &GState, shift: &PointShift, p: i32)
        ensures { self.new ≡ point_shifted g.now shift.now p self.old }
    {
        let Some(point) = self.point_mut(g.zp2, p) else {
            self.add_stray();
            return;
        };
        point.shift(shift);
    }
}

//! Places, distances and lines, as instructions measure them.

ghost use Rattle.std.specs.Prelude.{◌≡◌};
ghost use Rattle.fx_pointops.specs.Measure.{gc_of, md_of, line_between, distance_of, original_of};

use crate::zones::{Zones, cur, org};
use fx_fixed::{F26, Place};
use fx_gstate::{GState, ZonePointer};

/// The difference of two points' original and of their current places.
#[derive(Clone, Copy, Debug, PartialEq, Eq)]
pub struct LineBetween {
    pub org: Place,
    pub cur: Place,
}

impl Zones {
    /// The current distance of a point from another.
    pub(crate) fn distance(
        &self,
        g: &GState,
        zone: ZonePointer,
        p: i32,
        base: ZonePointer,
        q: i32,
    ) -> F26
        ensures { result ≡ distance_of g.now zone p base q self.now }
    {
        let to = cur(&self.point(zone, p));
        let from = cur(&self.point(base, q));
        g.project_place(to.minus(from))
    }

    /// The original distance of a point from another.
    pub(crate) fn original(
        &self,
        g: &GState,
        zone: ZonePointer,
        p: i32,
        base: ZonePointer,
        q: i32,
    ) -> F26
        ensures { result ≡ original_of g.now zone p base q self.now }
    {
        let to = org(&self.point(zone, p));
        let from = org(&self.point(base, q));
        g.dual_project_place(to.minus(from))
    }

    /// 46-47 GC[a], Get Coordinate: that of p, of zp2: with 0 the current one, with 1 the original one, along the dual vector.
    #[tactic(auto, unfolding(crate::specs::Measure::gc_of))]
    pub fn gc(&mut self, g: &GState, original: bool, p: i32) -> F26
        ensures { (result, self.new) ≡ gc_of g.now original p self.old }
    {
        let point = self.point(g.zp2, p);
        self.count(&point);
        if original {
            g.dual_project_place(org(&point))
        } else {
            g.project_place(cur(&point))
        }
    }

    /// 49-4A MD[a], Measure Distance: of p, of zp0, from q, of zp1: 49 the current one, 4A the original one, along the dual
    /// vector.
    #[tactic(auto, unfolding(crate::specs::Measure::md_of))]
    pub fn md(&mut self, g: &GState, original: bool, p: i32, q: i32) -> F26
        ensures { (result, self.new) ≡ md_of g.now original p q self.old }
    {
        let to = self.point(g.zp0, p);
        let from = self.point(g.zp1, q);
        self.count_two(&to, &from);
        if original {
            g.dual_project_place(org(&to).minus(org(&from)))
        } else {
            g.project_place(cur(&to).minus(cur(&from)))
        }
    }

    /// 06-07 SPVTL[a], 08-09 SFVTL[a], 86-87 SDPVTL[a]: the line to p1, of zp1, from p2, of zp2.
    #[tactic(auto, unfolding(crate::specs::Measure::line_between))]
    pub fn line(&mut self, g: &GState, p1: i32, p2: i32) -> LineBetween
        ensures { (result, self.new) ≡ line_between g.now p1 p2 self.old }
    {
        let to = self.point(g.zp1, p1);
        let from = self.point(g.zp2, p2);
        self.count_two(&to, &from);
        LineBetween {
            org: org(&to).minus(org(&from)),
            cur: cur(&to).minus(cur(&from)),
        }
    }
}

//! The row that keeps points in proportion between two reference points.

ghost use Rattle.std.specs.Prelude.{◌≡◌, ◌≢◌, ◌≤◌, ◌^◌, pos, ◌*ℤ◌, unsigned_abs, reverse};
ghost use Rattle.fx_fixed.specs.Numbers.{near_of, wrapped_of};
ghost use Rattle.fx_pointops.specs.Interpolate.{proportion_of, point_in_proportion, ip_of};

use crate::loops::LoopStep;
use crate::shift_point::move_point;
use crate::zones::Zones;
use fx_fixed::{F26, near_quotient, product, w32};
use fx_gstate::GState;

/// A distance that is not 0, as a divisor.
fn divisor(d: F26) -> i64
    requires { d ≢ pos 0 }
    ensures value { result ≡ d }
    ensures bound { unsigned_abs result ≤ 2 ^ 32 }
    ensures nonzero { result ≢ pos 0 }
{
    i64::from(d.0)
}

/// The distance that is to `o` as `cb` to `ob`.
fn proportional(o: F26, cb: F26, ob: F26) -> F26
    requires { ob ≢ pos 0 }
    ensures { result ≡ wrapped_of (near_of (o *ℤ cb) ob) }
{
    F26(w32(i128::from(near_quotient(product(o.0, cb.0), divisor(ob)))))
}

/// A distance in the proportion of `cb` to `ob`; the distance itself if `ob` is 0.
#[tactic(auto, unfolding(crate::specs::Interpolate::proportion_of))]
fn proportion(o: F26, cb: F26, ob: F26) -> F26
    ensures { result ≡ proportion_of o cb ob }
{
    if ob.0 == 0 {
        o
    } else {
        proportional(o, cb, ob)
    }
}

impl Zones {
    /// Moves a point to the distance from reference point 1 that is in proportion.
    #[tactic(auto, unfolding(crate::specs::Interpolate::point_in_proportion))]
    pub(crate) fn move_in_proportion(&mut self, g: &GState, cb: &F26, ob: &F26, p: i32)
        ensures { self.new ≡ point_in_proportion g.now cb.now ob.now p self.old }
    {
        let Some(base) = self.point(g.zp0, g.rp1) else {
            return self.move_stray_in_proportion(g, cb, ob, p);
        };
        let Some(point) = self.point_mut(g.zp2, p) else {
            return self.move_stray_in_proportion(g, cb, ob, p);
        };
        let o = g.dual_project_place(point.org.minus(base.org));
        let c = g.project_place(point.cur.minus(base.cur));
        move_point(g, proportion(o, *cb, *ob).minus(c), point);
    }

    /// Moves a point to that distance, if it or reference point 1 may be a stray.
    #[inline(never)]
    #[tactic(auto, unfolding(crate::specs::Interpolate::point_in_proportion))]
    fn move_stray_in_proportion(&mut self, g: &GState, cb: &F26, ob: &F26, p: i32)
        ensures { self.new ≡ point_in_proportion g.now cb.now ob.now p self.old }
    {
        let point = self.point(g.zp2, p);
        let o = self.original(g, g.zp2, p, g.zp0, g.rp1);
        let c = self.distance(g, g.zp2, p, g.zp0, g.rp1);
        self.count(&point);
        self.move_by(g, g.zp2, p, proportion(o, *cb, *ob).minus(c));
    }

    /// 39 IP, Interpolate Point: moves each p, of zp2, in proportion between rp1, of zp0, and rp2, of zp1.
    #[tactic(auto, unfolding(crate::specs::Interpolate::ip_of))]
    pub fn ip(&mut self, g: &GState, points: &[i32])
        ensures { self.new ≡ ip_of g.now (reverse points.now) self.old }
    {
        let base = self.point(g.zp0, g.rp1);
        let other = self.point(g.zp1, g.rp2);
        let ob = self.original(g, g.zp1, g.rp2, g.zp0, g.rp1);
        let cb = self.distance(g, g.zp1, g.rp2, g.zp0, g.rp1);
        self.count_two(&base, &other);
        self.each(g, &LoopStep::Interpolate { cb, ob }, points);
    }
}

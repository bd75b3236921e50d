//! The rows that move points directly: to a place, or to a distance from reference point 0.

ghost use Rattle.std.specs.Prelude.{◌≡◌, reverse};
ghost use Rattle.fx_pointops.specs.Zones.{point_at, counting_two};
ghost use Rattle.fx_pointops.specs.Measure.{org_at};
ghost use Rattle.fx_pointops.specs.Direct.{untouched_along, untouched_by, utp_of, to_grid, moved_to_grid, mdap_of, laid_from_rp, moved_to_distance};
ghost use Rattle.fx_pointops.specs.Direct.{msirp_of, aligned_to_rp, alignrp_of, half_of, alignpts_of, moved_to_value, scfs_of, shpix_of, wanted_of, mdrp_of};

use crate::distances::{Relative, kept_by, negative, rounded_by, single};
use crate::loops::LoopStep;
use crate::shift_point::{move_point, shift_with};
use crate::zones::{Zones, cur, is_twilight, org};
use fx_fixed::{Axis, F26, Place, cut, w32};
use fx_gstate::GState;
use fx_zone::ZonePoint;

/// The move that puts a coordinate on the grid, or none.
fn to_grid(g: &GState, rounds: bool, c: F26) -> F26
    ensures { result ≡ to_grid g.now rounds c }
{
    if rounds { g.round(c).minus(c) } else { F26(0) }
}

/// Half of a distance, cut toward zero.
fn half(d: F26) -> F26
    ensures { result ≡ half_of d }
{
    F26(w32(cut(i128::from(d.0), 2)))
}

/// The distance that MDRP moves a point to, of its original one.
#[tactic(auto, unfolding(crate::specs::Direct::wanted_of))]
fn wanted(g: &GState, how: Relative, o: F26) -> F26
    ensures { result ≡ wanted_of g.now how o }
{
    let o = single(g, o);
    kept_by(g, how, o, rounded_by(g, how, o))
}

/// A point untouched along an axis, if the freedom vector has a part along it.
fn untouched_along(g: &GState, axis: Axis, point: ZonePoint) -> ZonePoint
    ensures { result ≡ untouched_along g.now axis point }
{
    if g.touches(axis) {
        point.marked(axis, false)
    } else {
        point
    }
}

/// A point untouched along each axis along which the freedom vector has a part.
#[tactic(auto, unfolding(crate::specs::Direct::untouched_by))]
fn untouched_by(g: &GState, point: ZonePoint) -> ZonePoint
    ensures { result ≡ untouched_by g.now point }
{
    let point = untouched_along(g, Axis::X, point);
    untouched_along(g, Axis::Y, point)
}

/// Moves a point to its coordinate, or to the rounded one.
#[tactic(auto, unfolding(crate::specs::Direct::moved_to_grid))]
fn move_to_grid(g: &GState, rounds: bool, point: &mut ZonePoint)
    ensures { point.new ≡ moved_to_grid g.now rounds point.old }
{
    let d = to_grid(g, rounds, g.project_place(point.cur));
    move_point(g, d, point);
}

/// Moves a point to a coordinate, which becomes its original one in the twilight zone.
#[tactic(auto, unfolding(crate::specs::Direct::moved_to_value))]
fn move_to_value(g: &GState, v: F26, point: &mut ZonePoint)
    ensures { point.new ≡ moved_to_value g.now v point.old }
{
    move_point(g, v.minus(g.project_place(point.cur)), point);
    if is_twilight(g.zp2) {
        *point = point.settled();
    }
}

impl Zones {
    /// 29 UTP, UnTouch Point: untouches p, of zp0, along each axis along which the freedom vector has a part.
    #[tactic(auto, unfolding(crate::specs::Direct::utp_of), using(crate::proofs::Setting::setting))]
    pub fn utp(&mut self, g: &GState, p: i32)
        ensures { self.new ≡ utp_of g.now p self.old }
    {
        let Some(point) = self.point_mut(g.zp0, p) else {
            self.add_stray();
            return;
        };
        *point = untouched_by(g, *point);
    }

    /// 2E-2F MDAP[a], Move Direct Absolute Point: moves p, of zp0, by 0, or with 1 to its rounded coordinate.
    #[tactic(auto, unfolding(crate::specs::Direct::mdap_of), using(crate::proofs::Setting::setting))]
    pub fn mdap(&mut self, g: &GState, rounds: bool, p: i32)
        ensures { self.new ≡ mdap_of g.now rounds p self.old }
    {
        let Some(point) = self.point_mut(g.zp0, p) else {
            self.add_stray();
            return;
        };
        move_to_grid(g, rounds, point);
    }

    /// The original place of reference point 0.
    fn original_place(&self, g: &GState) -> Place
        ensures { result ≡ org_at g.now.zp0 g.now.rp0 self.now }
    {
        org(&self.point(g.zp0, g.rp0))
    }

    /// Lays a point of zp1 at reference point 0 and a place from there, if zp1 is the twilight zone.
    #[tactic(auto, using(crate::proofs::Setting::setting))]
    pub(crate) fn lay_from_rp(&mut self, g: &GState, p: i32, by: Place)
        ensures { self.new ≡ laid_from_rp g.now p by self.old }
    {
        if !is_twilight(g.zp1) {
            return;
        }
        let from = self.original_place(g);
        if let Some(point) = self.point_mut(g.zp1, p) {
            *point = point.laid(from.plus(by));
        }
    }

    /// Counts p, of zp1, and reference point 0, each if it is a stray.
    pub(crate) fn count_with_rp0(&mut self, g: &GState, p: i32)
        ensures { self.new ≡ counting_two (point_at g.now.zp1 p self.old) (point_at g.now.zp0 g.now.rp0 self.old) self.old }
    {
        let point = self.point(g.zp1, p);
        let base = self.point(g.zp0, g.rp0);
        self.count_two(&point, &base);
    }

    /// Moves a point of zp1 to a distance from reference point 0.
    pub(crate) fn move_to_distance(&mut self, g: &GState, p: i32, d: F26)
        ensures { self.new ≡ moved_to_distance g.now p d self.old }
    {
        let c = self.distance(g, g.zp1, p, g.zp0, g.rp0);
        self.move_by(g, g.zp1, p, d.minus(c));
    }

    /// 3A-3B MSIRP[a], Move Stack Indirect Relative Point: moves p, of zp1, to the distance d from rp0, of zp0.
    #[tactic(auto, unfolding(crate::specs::Direct::msirp_of))]
    pub fn msirp(&mut self, g: &GState, p: i32, d: F26)
        ensures { self.new ≡ msirp_of g.now p d self.old }
    {
        self.count_with_rp0(g, p);
        self.lay_from_rp(g, p, g.shift_place(d));
        self.move_to_distance(g, p, d);
    }

    /// Moves a point to the distance 0 from reference point 0.
    #[tactic(auto, unfolding(crate::specs::Direct::aligned_to_rp), using(crate::proofs::Setting::setting))]
    pub(crate) fn align_to_rp(&mut self, g: &GState, p: i32)
        ensures { self.new ≡ aligned_to_rp g.now p self.old }
    {
        let base = self.point(g.zp0, g.rp0);
        let Some(point) = self.point_mut(g.zp1, p) else {
            self.add_stray();
            return;
        };
        let c = g.project_place(point.cur.minus(cur(&base)));
        move_point(g, negative(c), point);
    }

    /// 3C ALIGNRP, ALIGN Relative Point: moves each p, of zp1, to the distance 0 from rp0, of zp0.
    #[tactic(auto, unfolding(crate::specs::Direct::alignrp_of))]
    pub fn alignrp(&mut self, g: &GState, points: &[i32])
        ensures { self.new ≡ alignrp_of g.now (reverse points.now) self.old }
    {
        let base = self.point(g.zp0, g.rp0);
        self.count(&base);
        self.each(g, &LoopStep::Align, points);
    }

    /// 27 ALIGNPTS, ALIGN Points: moves p, of zp1, and q, of zp0, halfway to each other.
    #[tactic(auto, unfolding(crate::specs::Direct::alignpts_of))]
    pub fn alignpts(&mut self, g: &GState, p: i32, q: i32)
        ensures { self.new ≡ alignpts_of g.now p q self.old }
    {
        let first = self.point(g.zp1, p);
        let second = self.point(g.zp0, q);
        let d = self.distance(g, g.zp0, q, g.zp1, p);
        self.count_two(&first, &second);
        self.move_by(g, g.zp1, p, half(d));
        self.move_by(g, g.zp0, q, half(d).minus(d));
    }

    /// 48 SCFS, Sets Coordinate From the Stack: moves p, of zp2, to the coordinate v.
    #[tactic(auto, unfolding(crate::specs::Direct::scfs_of), using(crate::proofs::Setting::setting))]
    pub fn scfs(&mut self, g: &GState, p: i32, v: F26)
        ensures { self.new ≡ scfs_of g.now p v self.old }
    {
        let Some(point) = self.point_mut(g.zp2, p) else {
            self.add_stray();
            return;
        };
        move_to_value(g, v, point);
    }

    /// 38 SHPIX, SHift point by a PIXel amount: shifts each p, of zp2, by a along the freedom vector.
    #[tactic(auto, unfolding(crate::specs::Direct::shpix_of))]
    pub fn shpix(&mut self, g: &GState, points: &[i32], a: F26)
        ensures { self.new ≡ shpix_of g.now (reverse points.now) a self.old }
    {
        let shift = shift_with(g, g.freedom_place(a));
        self.each(g, &LoopStep::Shift(shift), points);
    }

    /// C0-DF MDRP[abcde], Move Direct Relative Point: moves p, of zp1, to its original distance from rp0, of zp0, or the single
    /// width. `how` has the bits: rounded, at least the minimum distance.
    #[tactic(auto, unfolding(crate::specs::Direct::mdrp_of))]
    pub fn mdrp(&mut self, g: &GState, how: Relative, p: i32)
        ensures { self.new ≡ mdrp_of g.now how p self.old }
    {
        let Some(base) = self.point(g.zp0, g.rp0) else {
            return self.mdrp_by_strays(g, how, p);
        };
        let Some(point) = self.point_mut(g.zp1, p) else {
            return self.mdrp_by_strays(g, how, p);
        };
        let o = g.dual_project_place(point.org.minus(base.org));
        let c = g.project_place(point.cur.minus(base.cur));
        move_point(g, wanted(g, how, o).minus(c), point);
    }

    /// MDRP, if p or rp0 may be a stray.
    #[inline(never)]
    #[tactic(auto, unfolding(crate::specs::Direct::mdrp_of))]
    fn mdrp_by_strays(&mut self, g: &GState, how: Relative, p: i32)
        ensures { self.new ≡ mdrp_of g.now how p self.old }
    {
        let o = self.original(g, g.zp1, p, g.zp0, g.rp0);
        self.count_with_rp0(g, p);
        self.move_to_distance(g, p, wanted(g, how, o));
    }
}

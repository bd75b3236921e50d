//! The rows that move points by control values.

ghost use Rattle.std.specs.Prelude.{◌≡◌};
ghost use Rattle.fx_pointops.specs.inner.Controlled.{mirp_outside_of};
ghost use Rattle.fx_pointops.specs.Indirect.{is_cut_off, laid_along, aimed_of, moved_to_coordinate, miap_of, is_one_negative};
ghost use Rattle.fx_pointops.specs.Indirect.{auto_flipped, cut_in_by, controlled_of, mirp_distance_of, moved_to_control, mirp_of};

use crate::distances::{Relative, is_below, kept_by, negative, single, size};
use crate::shift_point::move_point;
use crate::zones::{Zones, is_same_zone, is_twilight};
use fx_fixed::F26;
use fx_gstate::GState;
use fx_zone::ZonePoint;

/// Whether two distances are further apart than the control value cut-in.
fn is_cut_off(g: &GState, v: F26, o: F26) -> bool
    ensures { result ≡ is_cut_off g.now v o }
{
    is_below(g.cut_in, size(v.minus(o)))
}

/// The coordinate that MIAP moves a point to.
#[tactic(auto, unfolding(crate::specs::Indirect::aimed_of))]
fn aimed(g: &GState, rounds: bool, v: F26, c: F26) -> F26
    ensures { result ≡ aimed_of g.now rounds v c }
{
    if !rounds {
        v
    } else if is_cut_off(g, v, c) {
        g.round(c)
    } else {
        g.round(v)
    }
}

/// Whether exactly one of two distances is below 0.
fn is_one_negative(o: F26, v: F26) -> bool
    ensures { result ≡ is_one_negative o v }
{
    if o.0 < 0 { !(v.0 < 0) } else { v.0 < 0 }
}

/// The control value, on the side of the original distance if auto flip is on.
fn auto_flipped(g: &GState, o: F26, v: F26) -> F26
    ensures { result ≡ auto_flipped g.now o v }
{
    if g.auto_flip && is_one_negative(o, v) {
        negative(v)
    } else {
        v
    }
}

/// The control value, or the original distance of points of one zone if it is too far from it.
fn cut_in_by(g: &GState, o: F26, v: F26) -> F26
    ensures { result ≡ cut_in_by g.now o v }
{
    if is_same_zone(g.zp0, g.zp1) && is_cut_off(g, v, o) {
        o
    } else {
        v
    }
}

/// The distance that MIRP moves a point to, of its original one and the control value.
#[tactic(auto, unfolding(crate::specs::Indirect::controlled_of))]
fn controlled(g: &GState, how: Relative, o: F26, v: F26) -> F26
    ensures { result ≡ controlled_of g.now how o v }
{
    let d = if how.rounds {
        g.round(cut_in_by(g, o, v))
    } else {
        v
    };
    kept_by(g, how, o, d)
}

/// The distance that MIRP moves a point to, of its original one and a control value that auto flip may still turn.
#[tactic(auto, unfolding(crate::specs::Indirect::mirp_distance_of))]
fn mirp_distance(g: &GState, how: Relative, o: F26, v: F26) -> F26
    ensures { result ≡ mirp_distance_of g.now how o v }
{
    controlled(g, how, o, auto_flipped(g, o, v))
}

/// A point laid at a control value, if zp0 is the twilight zone.
fn laid_along(g: &GState, v: F26, point: ZonePoint) -> ZonePoint
    ensures { result ≡ laid_along g.now v point }
{
    if is_twilight(g.zp0) {
        point.laid(g.freedom_place(v))
    } else {
        point
    }
}

/// Moves a point to a control value.
#[tactic(auto, unfolding(crate::specs::Indirect::moved_to_coordinate))]
fn move_to_coordinate(g: &GState, rounds: bool, v: F26, point: &mut ZonePoint)
    ensures { point.new ≡ moved_to_coordinate g.now rounds v point.old }
{
    let c = g.project_place(point.cur);
    move_point(g, aimed(g, rounds, v, c).minus(c), point);
}

impl Zones {
    /// 3E-3F MIAP[a], Move Indirect Absolute Point: moves p, of zp0, to the control value v; with 1 rounded, or to its own
    /// coordinate rounded if v is beyond the cut-in.
    #[tactic(auto, unfolding(crate::specs::Indirect::miap_of), using(crate::proofs::Setting::setting))]
    pub fn miap(&mut self, g: &GState, rounds: bool, p: i32, v: F26)
        ensures { self.new ≡ miap_of g.now rounds p v self.old }
    {
        let Some(point) = self.point_mut(g.zp0, p) else {
            self.add_stray();
            return;
        };
        *point = laid_along(g, v, *point);
        move_to_coordinate(g, rounds, v, point);
    }

    /// Moves a point to a control value from reference point 0.
    fn move_to_control(&mut self, g: &GState, how: Relative, p: i32, v: F26)
        ensures { self.new ≡ moved_to_control g.now how p v self.old }
    {
        let o = self.original(g, g.zp1, p, g.zp0, g.rp0);
        self.move_to_distance(g, p, mirp_distance(g, how, o, v));
    }

    /// E0-FF MIRP[abcde], Move Indirect Relative Point: moves p, of zp1, to the distance of the control value v from rp0, of
    /// zp0. `how` has the bits: rounded and within the cut-in, at least the minimum distance. Reads the single width and auto
    /// flip.
    #[tactic(auto, unfolding(crate::specs::Indirect::mirp_of, crate::specs::inner::Controlled::mirp_outside_of))]
    pub fn mirp(&mut self, g: &GState, how: Relative, p: i32, v: F26)
        ensures { self.new ≡ mirp_of g.now how p v self.old }
    {
        if is_twilight(g.zp1) {
            return self.mirp_in_twilight(g, how, p, v);
        }
        self.mirp_outside(g, how, p, single(g, v));
    }

    /// MIRP outside the twilight zone, with the control value as the single width has left it. Each of the two points is read once.
    #[tactic(auto, unfolding(crate::specs::inner::Controlled::mirp_outside_of))]
    fn mirp_outside(&mut self, g: &GState, how: Relative, p: i32, v: F26)
        ensures { self.new ≡ mirp_outside_of g.now how p v self.old }
    {
        let Some(base) = self.point(g.zp0, g.rp0) else {
            return self.mirp_by_strays(g, how, p, v);
        };
        let Some(point) = self.point_mut(g.zp1, p) else {
            return self.mirp_by_strays(g, how, p, v);
        };
        let o = g.dual_project_place(point.org.minus(base.org));
        let c = g.project_place(point.cur.minus(base.cur));
        move_point(g, mirp_distance(g, how, o, v).minus(c), point);
    }

    /// MIRP outside the twilight zone, if p or rp0 may be a stray.
    #[inline(never)]
    #[tactic(auto, unfolding(crate::specs::inner::Controlled::mirp_outside_of))]
    fn mirp_by_strays(&mut self, g: &GState, how: Relative, p: i32, v: F26)
        ensures { self.new ≡ mirp_outside_of g.now how p v self.old }
    {
        self.count_with_rp0(g, p);
        self.move_to_control(g, how, p, v);
    }

    /// MIRP in the twilight zone, where the point is laid first.
    #[inline(never)]
    #[tactic(auto, unfolding(crate::specs::Indirect::mirp_of))]
    fn mirp_in_twilight(&mut self, g: &GState, how: Relative, p: i32, v: F26)
        ensures { self.new ≡ mirp_of g.now how p v self.old }
    {
        let v = single(g, v);
        self.count_with_rp0(g, p);
        self.lay_from_rp(g, p, g.freedom_place(v));
        self.move_to_control(g, how, p, v);
    }
}

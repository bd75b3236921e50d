//! The rows that shift points as a reference point was moved.

ghost use Rattle.std.specs.Prelude.{◌≡◌, ◌≤◌, length, reverse, IfSome};
ghost use Rattle.fx_zone.specs.Figures.{range_shifted};
ghost use Rattle.fx_pointops.specs.Zones.{zone_at, on_zone};
ghost use Rattle.fx_pointops.specs.Shift.{reference_zone, reference_point, counting_reference, reference_shift, excepted, shp_of};
ghost use Rattle.fx_pointops.specs.Shift.{contour_at, contour_shifted_at, shc_of, count_without_phantoms, shz_of};

use crate::loops::LoopStep;
use crate::shift_point::shift_with;
use crate::zones::{Zones, cur, index_of, is_same_zone, org};
use fx_fixed::Place;
use fx_gstate::{GState, ZonePointer};
use fx_zone::{PointRange, PointShift};

/// The zone of the reference point: of point 1 or of point 2.
fn reference_zone(g: &GState, one: bool) -> ZonePointer
    ensures { result ≡ reference_zone g.now one }
{
    if one { g.zp0 } else { g.zp1 }
}

/// The number of the reference point.
fn reference_point(g: &GState, one: bool) -> i32
    ensures { result ≡ reference_point g.now one }
{
    if one { g.rp1 } else { g.rp2 }
}

/// The reference point's number, if it is in this zone.
fn excepted(g: &GState, one: bool, zone: ZonePointer) -> Option<usize>
    ensures { result ≡ excepted g.now one zone }
{
    if is_same_zone(reference_zone(g, one), zone) {
        index_of(reference_point(g, one))
    } else {
        None
    }
}

impl Zones {
    /// The shift that moves a point as far as the reference point was moved, which is counted if it is a stray.
    #[tactic(auto, unfolding(crate::specs::Shift::reference_shift))]
    fn reference_shift(&mut self, g: &GState, one: bool) -> Place
        ensures value { result ≡ reference_shift g.now one self.old }
        ensures counted { self.new ≡ counting_reference g.now one self.old }
    {
        let zone = reference_zone(g, one);
        let p = reference_point(g, one);
        let point = self.point(zone, p);
        self.count(&point);
        g.shift_place(g.project_place(cur(&point).minus(org(&point))))
    }

    /// 32-33 SHP[a], SHift Point: shifts each p, of zp2, as a reference point was moved: with 0 rp2, of zp1, with 1 rp1, of
    /// zp0.
    #[tactic(auto, unfolding(crate::specs::Shift::shp_of))]
    pub fn shp(&mut self, g: &GState, one: bool, points: &[i32])
        ensures { self.new ≡ shp_of g.now one (reverse points.now) self.old }
    {
        let shift = shift_with(g, self.reference_shift(g, one));
        self.each(g, &LoopStep::Shift(shift), points);
    }

    /// Shifts and touches the points of a range.
    fn shift_range(&mut self, zone: ZonePointer, range: PointRange, shift: PointShift)
        requires { range.past ≤ length (zone_at zone self.old).points }
        ensures { self.new ≡ on_zone (range_shifted shift range) zone self.old }
    {
        match zone {
            ZonePointer::Twilight => self.twilight.shift_range(range, shift),
            ZonePointer::Glyph => self.glyph.shift_range(range, shift),
        }
    }

    /// The number of a contour's first point, and the one after its last.
    fn contour(&self, zone: ZonePointer, k: i32) -> Option<(usize, usize)>
        ensures value { result ≡ contour_at zone k self.now }
        ensures within { IfSome result (λ c. c.1 ≤ length (zone_at zone self.now).points) }
    {
        let index = index_of(k)?;
        match zone {
            ZonePointer::Twilight => self.twilight.contour(index),
            ZonePointer::Glyph => self.glyph.contour(index),
        }
    }

    /// 34-35 SHC[a], SHift Contour: shifts the points of contour k, of zp2, but the reference point.
    #[tactic(auto, unfolding(crate::specs::Shift::shc_of))]
    pub fn shc(&mut self, g: &GState, one: bool, k: i32)
        ensures { self.new ≡ shc_of g.now one k self.old }
    {
        let by = self.reference_shift(g, one);
        self.shift_contour(g, one, by, k);
    }

    /// Shifts the points of contour k, of zp2, but the reference point; a contour that is not there is a stray.
    fn shift_contour(&mut self, g: &GState, one: bool, by: Place, k: i32)
        ensures { self.new ≡ contour_shifted_at g.now one by k self.old }
    {
        let Some((first, past)) = self.contour(g.zp2, k) else {
            self.add_stray();
            return;
        };
        let range = PointRange {
            first,
            past,
            except: excepted(g, one, g.zp2),
        };
        self.shift_range(g.zp2, range, shift_with(g, by));
    }

    /// The number of points of a zone without a glyph's four phantom points.
    fn count_without_phantoms(&self, zone: ZonePointer) -> usize
        ensures value { result ≡ count_without_phantoms zone self.now }
        ensures within { result ≤ length (zone_at zone self.now).points }
    {
        match zone {
            ZonePointer::Twilight => self.twilight.len(),
            ZonePointer::Glyph => self.glyph.len().saturating_sub(4),
        }
    }

    /// 36-37 SHZ[a], SHift Zone: shifts the points of a zone, but the reference point and the phantom points, and touches none.
    #[tactic(auto, unfolding(crate::specs::Shift::shz_of))]
    pub fn shz(&mut self, g: &GState, one: bool, zone: ZonePointer)
        ensures { self.new ≡ shz_of g.now one zone self.old }
    {
        let by = self.reference_shift(g, one);
        let range = PointRange {
            first: 0,
            past: self.count_without_phantoms(zone),
            except: excepted(g, one, zone),
        };
        let shift = PointShift {
            by,
            x: false,
            y: false,
        };
        self.shift_range(zone, range, shift);
    }
}

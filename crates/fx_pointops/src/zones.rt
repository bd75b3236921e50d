//! The two zones, and their points by zone pointers and stack numbers.

ghost use Rattle.std.specs.Prelude.{◌≡◌};
ghost use Rattle.fx_fixed.specs.Places.{origin};
ghost use Rattle.fx_pointops.specs.Zones.{is_twilight, is_same_zone, index_of, org_of, cur_of};

use fx_fixed::Place;
use fx_gstate::ZonePointer;
use fx_zone::{Zone, ZonePoint};

/// The twilight zone, without contours, and the glyph zone, which ends with the glyph's four phantom points; it is empty when no
/// glyph's program runs (Apple TrueType Reference Manual, "Zones").
#[derive(Drop)]
pub struct Zones {
    pub twilight: Zone,
    pub glyph: Zone,
    /// How many numbers outside their zone instructions have named; it stays at the greatest.
    pub strays: u64,
}

/// Whether a zone pointer names the twilight zone.
pub fn is_twilight(zone: ZonePointer) -> bool
    ensures { result ≡ is_twilight zone }
{
    match zone {
        ZonePointer::Twilight => true,
        ZonePointer::Glyph => false,
    }
}

/// Whether two zone pointers name one zone.
pub fn is_same_zone(a: ZonePointer, b: ZonePointer) -> bool
    ensures { result ≡ is_same_zone a b }
{
    match (a, b) {
        (ZonePointer::Twilight, ZonePointer::Twilight) => true,
        (ZonePointer::Glyph, ZonePointer::Glyph) => true,
        (ZonePointer::Twilight, ZonePointer::Glyph) => false,
        (ZonePointer::Glyph, ZonePointer::Twilight) => false,
    }
}

/// A stack number as the number of a point or a contour.
pub fn index_of(number: i32) -> Option<usize>
    ensures { result ≡ index_of number }
{
    if number < 0 {
        None
    } else {
        Some(number as usize)
    }
}

/// The original place of a point, (0, 0) if there is none.
pub fn org(point: &Option<ZonePoint>) -> Place
    ensures { result ≡ org_of point.now }
{
    match point {
        Some(point) => point.org,
        None => Place::origin(),
    }
}

/// The current place of a point, (0, 0) if there is none.
pub fn cur(point: &Option<ZonePoint>) -> Place
    ensures { result ≡ cur_of point.now }
{
    match point {
        Some(point) => point.cur,
        None => Place::origin(),
    }
}

impl Zones {
    ghost use Rattle.std.specs.Option.{option_copied_mut};
    ghost use Rattle.std.specs.Borrow.{sem};
    ghost use Rattle.fx_pointops.specs.inner.Lending.{LendsPointAt};
    ghost use Rattle.fx_pointops.specs.Zones.{point_at, with_stray, counting, counting_two};

    /// The point of a number, if it is inside. It tests the sign itself: to hand an `Option` of a number on costs more.
    #[tactic(auto, unfolding(crate::specs::Zones::point_at), using(crate::proofs::Setting::index))]
    pub(crate) fn point(&self, zone: ZonePointer, number: i32) -> Option<ZonePoint>
        ensures { result ≡ point_at zone number self.now }
    {
        if number < 0 {
            return None;
        }
        let index = number as usize;
        match zone {
            ZonePointer::Twilight => self.twilight.point(index),
            ZonePointer::Glyph => self.glyph.point(index),
        }
    }

    /// Counts a stray.
    pub(crate) fn add_stray(&mut self)
        ensures { self.new ≡ with_stray self.old }
    {
        self.strays = self.strays.saturating_add(1);
    }

    /// Counts a point as a stray if there is none.
    pub(crate) fn count(&mut self, point: &Option<ZonePoint>)
        ensures { self.new ≡ counting point.now self.old }
    {
        if point.is_none() {
            self.add_stray();
        }
    }

    /// Counts two points as strays, each if there is none.
    pub(crate) fn count_two(&mut self, p: &Option<ZonePoint>, q: &Option<ZonePoint>)
        ensures { self.new ≡ counting_two p.now q.now self.old }
    {
        self.count(p);
        self.count(q);
    }

    /// The point of a number, to be changed in its place, if it is inside.
    #[tactic(auto, unfolding(crate::specs::Zones::point_at, crate::specs::Zones::written_at), using(crate::proofs::Setting::index))]
    pub(crate) fn point_mut(&mut self, zone: ZonePointer, number: i32) -> Option<&mut ZonePoint>
        ensures* writes_back { sem 𝓛 (LendsPointAt self.entry zone number result) }
        ensures value { option_copied_mut result ≡ point_at zone number self.old }
    {
        if number < 0 {
            return None;
        }
        let index = number as usize;
        match zone {
            ZonePointer::Twilight => self.twilight.point_mut(index),
            ZonePointer::Glyph => self.glyph.point_mut(index),
        }
    }
}

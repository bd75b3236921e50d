//! The rows that turn points on the curve into points off it, and back.

ghost use Rattle.std.specs.Prelude.{◌≡◌, reverse};
ghost use Rattle.fx_pointops.specs.Zones.{index_of};
ghost use Rattle.fx_pointops.specs.Flip.{point_flipped, flippt_of, run_curved, run_curved_at, fliprg_of};

use crate::loops::LoopStep;
use crate::zones::{Zones, index_of};
use fx_gstate::{GState, ZonePointer};
use fx_zone::Zone;

/// Makes the points of a zone from `low` to `high` ones on the curve, or off it, if both are inside.
fn curve_run(zone: &mut Zone, on: bool, low: usize, high: usize)
    ensures { zone.new ≡ run_curved on low high zone.old }
{
    let count = zone.len();
    if low < count && high < count {
        zone.curve_range(low, high + 1, on);
    }
}

impl Zones {
    /// Flips a point: on the curve, or off it.
    #[tactic(auto, unfolding(crate::specs::Flip::point_flipped), using(crate::proofs::Setting::setting))]
    pub(crate) fn flip_point(&mut self, g: &GState, p: i32)
        ensures { self.new ≡ point_flipped g.now p self.old }
    {
        let Some(point) = self.point_mut(g.zp0, p) else {
            self.add_stray();
            return;
        };
        *point = point.flipped();
    }

    /// 80 FLIPPT, FLIP PoinT: each p, of zp0, goes off the curve, or onto it.
    #[tactic(auto, unfolding(crate::specs::Flip::flippt_of))]
    pub fn flippt(&mut self, g: &GState, points: &[i32])
        ensures { self.new ≡ flippt_of g.now (reverse points.now) self.old }
    {
        self.each(g, &LoopStep::Flip, points);
    }

    /// Makes the points of a zone from `low` to `high` ones on the curve, or off it, if both are inside.
    fn curve_range(&mut self, on: bool, zone: ZonePointer, low: i32, high: i32)
        ensures { self.new ≡ run_curved_at on zone (index_of low) (index_of high) self.old }
    {
        let Some(low) = index_of(low) else {
            return;
        };
        let Some(high) = index_of(high) else {
            return;
        };
        match zone {
            ZonePointer::Twilight => curve_run(&mut self.twilight, on, low, high),
            ZonePointer::Glyph => curve_run(&mut self.glyph, on, low, high),
        }
    }

    /// 81 FLIPRGON, 82 FLIPRGOFF, FLIP RanGe: the points from low to high, of zp0, go onto the curve, or off it.
    #[tactic(auto, unfolding(crate::specs::Flip::fliprg_of))]
    pub fn fliprg(&mut self, g: &GState, on: bool, low: i32, high: i32)
        ensures { self.new ≡ fliprg_of g.now on low high self.old }
    {
        let first = self.point(g.zp0, low);
        let last = self.point(g.zp0, high);
        self.count_two(&first, &last);
        self.curve_range(on, g.zp0, low, high);
    }
}

//! The points of a loop.

ghost use Rattle.std.specs.Prelude.{◌≡◌, reverse};
ghost use Rattle.fx_pointops.specs.Loops.{each};
ghost use Rattle.fx_pointops.specs.inner.Steps.{steps_of};

use crate::zones::Zones;
use fx_fixed::F26;
use fx_gstate::GState;
use fx_zone::PointShift;

/// What a row does with each point of its loop.
#[derive(Clone, Copy)]
pub enum LoopStep {
    /// ALIGNRP: it moves to the distance 0 from reference point 0.
    Align,
    /// FLIPPT: it goes off the curve, or onto it.
    Flip,
    /// SHP, SHPIX: it is shifted so.
    Shift(PointShift),
    /// IP: it moves to a distance in the proportion of `cb` to `ob`.
    Interpolate { cb: F26, ob: F26 },
}

impl Zones {
    /// The steps of a row for one point.
    fn step(&mut self, g: &GState, step: &LoopStep, p: i32)
        ensures { self.new ≡ steps_of g.now step.now p self.old }
    {
        match step {
            LoopStep::Align => self.align_to_rp(g, p),
            LoopStep::Flip => self.flip_point(g, p),
            LoopStep::Shift(shift) => self.shift_point(g, shift, p),
            LoopStep::Interpolate { cb, ob } => self.move_in_proportion(g, cb, ob, p),
        }
    }

    /// The steps of a row for each point, the last of the slice first.
    #[tactic(auto, using(crate::proofs::Looping::looping))]
    pub(crate) fn each(&mut self, g: &GState, step: &LoopStep, points: &[i32])
        ensures { self.new ≡ each (steps_of g.now step.now) (reverse points.now) self.old }
    {
        let mut left = points.len();
        // The points from `left` on are done.
        'points: while left > 0 {
            left -= 1;
            self.step(g, step, points[left]);
        }
    }
}

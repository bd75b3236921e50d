//! The rows that move points at some sizes.

ghost use Rattle.std.specs.Prelude.{◌≡◌, pos, reverse};
ghost use Rattle.std.specs.Ordering.{int_eq};
ghost use Rattle.fx_gstate.specs.Deltas.{delta_of, each_pair};
ghost use Rattle.fx_pointops.specs.Delta.{point_delta, deltap_of};
ghost use Rattle.fx_pointops.specs.ShiftPoint.{moved_by};
ghost use Rattle.fx_pointops.specs.Zones.{on_point};

use crate::shift_point::move_point;
use crate::zones::Zones;
use fx_fixed::Ppem;
use fx_gstate::{DeltaForm, GState};

/// Whether an argument acts at a size. It does not work out by how much: most arguments act at another size.
#[inline(always)]
fn acts_at(g: &GState, form: DeltaForm, ppem: &Ppem, argument: i32) -> bool
    ensures { result ≡ int_eq (delta_of form g.now.delta_base g.now.delta_shift argument).ppem (pos ppem.now) }
{
    g.delta(form, argument).acts_at(*ppem)
}

impl Zones {
    /// Moves a point, of zp0, by what an argument says.
    #[inline(never)]
    #[tactic(auto, using(crate::proofs::Setting::setting))]
    fn move_by_argument(&mut self, g: &GState, form: DeltaForm, p: i32, argument: i32)
        ensures { self.new ≡ on_point (moved_by g.now (delta_of form g.now.delta_base g.now.delta_shift argument).amount)
            g.now.zp0 p self.old }
    {
        let amount = g.delta(form, argument).amount;
        let Some(point) = self.point_mut(g.zp0, p) else {
            self.add_stray();
            return;
        };
        move_point(g, amount, point);
    }

    /// Moves a point, of zp0, if its argument acts at this size.
    #[tactic(auto, unfolding(crate::specs::Delta::point_delta))]
    fn move_at_size(&mut self, g: &GState, form: DeltaForm, ppem: &Ppem, p: i32, argument: i32)
        ensures { self.new ≡ point_delta g.now form ppem.now p argument self.old }
    {
        if acts_at(g, form, ppem, argument) {
            self.move_by_argument(g, form, p, argument);
        }
    }

    /// Moves the points of pairs, the last of the slice first.
    #[tactic(auto, using(crate::proofs::Looping::looping))]
    fn move_each_at_size(&mut self, g: &GState, form: DeltaForm, ppem: &Ppem, pairs: &[i32])
        ensures { self.new ≡ each_pair (point_delta g.now form ppem.now) (reverse pairs.now) self.old }
    {
        let mut left = pairs.len();
        // The pairs from `left` on are done.
        'pairs: while left > 1 {
            left -= 2;
            self.move_at_size(g, form, ppem, pairs[left + 1], pairs[left]);
        }
    }

    /// 5D DELTAP1, 71 DELTAP2, 72 DELTAP3, DELTA exception P: moves each p, of zp0, whose argument acts at this size. A pair is
    /// an argument and, after it, its point.
    #[tactic(auto, unfolding(crate::specs::Delta::deltap_of))]
    pub fn deltap(&mut self, g: &GState, form: DeltaForm, ppem: Ppem, pairs: &[i32])
        ensures { self.new ≡ deltap_of g.now form ppem (reverse pairs.now) self.old }
    {
        self.move_each_at_size(g, form, &ppem, pairs);
    }
}

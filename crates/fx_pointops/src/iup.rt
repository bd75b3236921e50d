//! The row that interpolates untouched points.

ghost use Rattle.std.specs.Prelude.{◌≡◌};
ghost use Rattle.fx_pointops.specs.Iup.{iup_of};

use crate::zones::Zones;
use fx_fixed::Axis;

impl Zones {
    /// 30-31 IUP[a], Interpolate Untouched Points: those of the glyph zone, with 0 in y, with 1 in x. It counts no strays.
    #[tactic(auto, unfolding(crate::specs::Iup::iup_of))]
    pub fn iup(&mut self, axis: Axis)
        ensures { self.new ≡ iup_of axis self.old }
    {
        self.glyph.interpolate(axis);
    }
}

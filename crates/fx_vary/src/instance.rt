//! A font at a place.

ghost use Rattle.std.specs.Prelude.{◌≡◌, ◌≤◌, ◌<◌, ◌^◌, IfOk, length};
ghost use Rattle.std.specs.List.{All};
ghost use Rattle.fx_fixed.specs.Chain.{map_ok};
ghost use Rattle.fx_moves.specs.Adding.{AreWithin, sums};
ghost use Rattle.fx_vary.specs.Instance.{instance_of, points_added};

use crate::fault::GvarFault;
use crate::gvar::{glyph_data, is_gvar, shared_tuples};
use fx_fixed::F2;
use fx_moves::{GivenPoint, add_glyph};
use fx_sfnt::Font;
use fx_tuples::{TupleFault, TupleSetting};
use std::marker::Model;

/// A font at a place: a view over the bytes of `gvar`, and a coordinate for each axis.
#[derive(Drop)]
pub struct Instance<'a> {
    gvar: &'a [u8],
    place: &'a [F2],
    glyphs: u16,
}

impl<'a> Model for Instance<'a> {
    ghost use Rattle.std.specs.Prelude.{◌≡◌, ◌≤◌, ◌<◌, ◌^◌, true, length};
    ghost use Rattle.fx_vary.specs.Gvar.{holds_offsets, glyph_count};
    ghost use Rattle.fx_vary.specs.Instance.{InstanceView};

    ghost Value = { InstanceView };

    ghost view = { λ i. record { gvar = i.gvar.now; place = i.place.now } };

    ghost invariant = { λ i. (20 ≤ length i.gvar.now) × (holds_offsets i.glyphs i.gvar.now ≡ true) × (length i.place.now < 2 ^ 16)
        × (i.glyphs ≡ glyph_count i.gvar.now) };
}

impl<'a> Instance<'a> {
    ghost use Rattle.fx_vary.specs.Gvar.{glyph_count};

    /// The font at a place, which has a coordinate for each axis: `Axes::place` fills it. Or the fault of `gvar`.
    #[tactic(auto, using(crate::proofs::Offsets::counted), unfolding(crate::specs::Instance::instance_of))]
    pub fn open(font: &Font<'a>, place: &'a [F2]) -> Result<Instance<'a>, GvarFault>
        requires { length place.now < 2 ^ 16 }
        ensures value { result ≡ instance_of font.now place.entry.now }
        // It has as many glyphs as the font.
        ensures counted { IfOk result (λ i. glyph_count i.gvar ≡ font.now.maxp.num_glyphs) }
    {
        let Some(gvar) = font.table(*b"gvar") else {
            return Err(GvarFault::NoGvar);
        };
        let glyphs = font.maxp().num_glyphs;
        if !is_gvar(place.len() as u16, glyphs, gvar) {
            return Err(GvarFault::BadGvar);
        }
        Ok(Instance {
            gvar,
            place,
            glyphs,
        })
    }

    /// Its place.
    pub(crate) fn place(&self) -> &'a [F2]
        ensures value { result.now ≡ self.now.place }
        ensures short { length result.now < 2 ^ 16 }
    {
        self.place
    }

    /// Adds what a glyph's tuples move a coordinate of its points: x, or y as the second one. Or returns the first fault.
    ///
    /// The points are those of a simple glyph's contours, or one for each component, and then four phantom points; `ends` are the
    /// last points of contours, and are empty for a composite. Their sums begin at 0.
    #[tactic(auto, using(crate::proofs::Offsets::offsets_inside))]
    pub fn add(
        &self,
        g: u16,
        ends: &[u16],
        second: bool,
        points: &mut [GivenPoint],
    ) -> Result<(), TupleFault>
        requires glyph { g < glyph_count self.now.gvar }
        requires ends { All (λ e. e < length points.old) ends.now }
        requires begun { AreWithin 0 (sums points.old) }
        ensures value { map_ok (λ _. points.new) result ≡ points_added self.now g ends.now second points.old }
        ensures room { AreWithin 4095 (sums points.new) }
    {
        let shared = shared_tuples(self.place.len() as u16, self.gvar);
        let setting = TupleSetting::new(shared, self.place);
        add_glyph(points, ends, second, &setting, glyph_data(self.gvar, g))
    }
}

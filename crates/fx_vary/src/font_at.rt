//! A font as it is, or at a place.

ghost use Rattle.std.specs.Prelude.{◌≡◌, ◌≤◌, unsigned_abs, IfOk, OnOk, Ok, None, Some, is_some};
ghost use Rattle.fx_fixed.specs.Chain.{GivesUnless};
ghost use Rattle.fx_sfnt.specs.Glyphs.{metrics_of};
ghost use Rattle.fx_vary.specs.Faults.{Fails};
ghost use Rattle.fx_vary.specs.FontAt.{IsInstanceOf, HasAllPoints, glyph_by, shape_by};
ghost use Rattle.fx_vary.specs.Shape.{own_bearings};

use crate::fault::ShapeFault;
use crate::instance::Instance;
use crate::lists::Moved;
use crate::metrics::{Bearings, margin};
use crate::shape::x_min_of;
use fx_glyf::Glyph;
use fx_sfnt::{Font, Metrics};
use std::marker::Model;

/// A font as it is, or at a place.
#[derive(Drop)]
pub struct FontAt<'s, 'a> {
    font: &'s Font<'a>,
    instance: Option<&'s Instance<'a>>,
}

impl<'s, 'a> Model for FontAt<'s, 'a> {
    ghost use Rattle.std.specs.Prelude.{option_map};
    ghost use Rattle.fx_vary.specs.FontAt.{FontAtView, IsInstanceOf};

    ghost Value = { FontAtView };

    ghost view = { λ f. record { face = f.font.now; instance = option_map (λ i. i.now) f.instance } };

    ghost invariant = { λ f. IsInstanceOf f.font.now (option_map (λ i. i.now) f.instance) };
}

/// The origin and the advance of a glyph as the font has it.
pub fn own_bearings(metrics: Metrics, glyph: &Glyph<'_>) -> Bearings
    ensures value { result ≡ own_bearings metrics glyph.now }
    ensures origin { unsigned_abs result.origin ≤ 65535 }
{
    Bearings {
        origin: margin(x_min_of(glyph), metrics.lsb),
        advance: metrics.advance_width,
    }
}

impl<'s, 'a> FontAt<'s, 'a> {
    /// A font as it is.
    pub fn of(font: &'s Font<'a>) -> FontAt<'s, 'a>
        ensures { result ≡ record { face = font.now; instance = None } }
    {
        FontAt {
            font,
            instance: None,
        }
    }

    /// A font at a place: `Instance::open` says that the instance has as many glyphs.
    pub fn at(font: &'s Font<'a>, instance: &'s Instance<'a>) -> FontAt<'s, 'a>
        requires { IsInstanceOf font.now (Some instance.now) }
        ensures { result ≡ record { face = font.now; instance = Some instance.now } }
    {
        FontAt {
            font,
            instance: Some(instance),
        }
    }

    /// The font.
    pub fn font(&self) -> &'s Font<'a>
        ensures { result.now ≡ self.now.face }
    {
        self.font
    }

    /// Whether it is at a place.
    pub fn is_moved(&self) -> bool
        ensures { result ≡ is_some self.now.instance }
    {
        self.instance.is_some()
    }

    /// The origin and the advance of a glyph, by its number, its metrics and its reading. At a place it also makes lists the
    /// glyph's points or components; or it returns the first fault.
    #[tactic(auto, using(crate::proofs::AllPoints::by_lists, crate::proofs::AllPoints::by_own), unfolding(crate::specs::FontAt::shape_by))]
    pub fn bearings(
        &self,
        g: u16,
        metrics: Metrics,
        glyph: &Glyph<'_>,
        moved: &mut Moved,
    ) -> Result<Bearings, ShapeFault>
        requires { Ok metrics ≡ metrics_of self.now.face g }
        ensures value { GivesUnless Fails (λ b. record {
          glyph = glyph_by self.now.instance glyph.now moved.new.points.items moved.new.components.items;
          bearings = b;
        }) result (shape_by self.now.instance g metrics glyph.now) }
        ensures origin { IfOk result (λ b. unsigned_abs b.origin ≤ 65535) }
        ensures points { OnOk result (HasAllPoints self.now.instance glyph.now moved.new.points.items) }
    {
        match self.instance {
            None => Ok(own_bearings(metrics, glyph)),
            Some(instance) => instance.shape(g, metrics, glyph, moved),
        }
    }
}

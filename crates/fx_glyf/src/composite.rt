//! A composite glyph.

ghost use Rattle.std.specs.Prelude.{◌≡◌, ◌≤◌, ◌<◌, ◌^◌, length, option_map, IfSome};
ghost use Rattle.fx_glyf.specs.Glyphs.{announced_of, composite_of};

use crate::components::Components;
use crate::fault::GlyphFault;
use crate::program::program;
use crate::records::skip_components;
use crate::simple::x_min;
use fx_fixed::after;
use std::marker::Model;

/// A glyph of components, in its bytes (OpenType, `glyf`, composite glyph description).
#[derive(Drop)]
pub struct Composite<'a> {
    x_min: i16,
    components: &'a [u8],
    code: &'a [u8],
}

impl<'a> Model for Composite<'a> {
    ghost use Rattle.std.specs.Prelude.{IsSome, true, length, ◌<◌, ◌^◌};
    ghost use Rattle.fx_glyf.specs.Words.{list_in};
    ghost use Rattle.fx_glyf.specs.Components.{components_in};
    ghost use Rattle.fx_glyf.specs.Shapes.{CompositeView};

    ghost Value = { CompositeView };

    ghost view = { λ c. record { components = list_in (components_in true c.components.now); x_min = c.x_min; code = c.code.now } };

    ghost invariant = { λ c. IsSome (components_in true c.components.now) × (length c.code.now < 2 ^ 16) };
}

/// The program after components, if one is announced.
fn announced_program(announced: bool, bytes: &[u8]) -> Option<(&[u8], &[u8])>
    ensures value { option_map (λ p. (p.0.now, p.1.now)) result ≡ announced_of announced bytes.now }
    ensures short { IfSome result (λ p. length p.0.now < 2 ^ 16) }
{
    if announced {
        program(bytes)
    } else {
        Some((&[], bytes))
    }
}

impl<'a> Composite<'a> {
    /// Reads the components and the program after the header; g is the glyph's number.
    #[tactic(auto, unfolding(crate::specs::Glyphs::composite_of))]
    pub(crate) fn read(bytes: &'a [u8], g: u16) -> Result<Composite<'a>, GlyphFault>
        requires { 10 ≤ length bytes.now }
        ensures { result ≡ composite_of bytes.now g }
    {
        let components = after(bytes, 10);
        let Some((announced, rest)) = skip_components(components) else {
            return Err(GlyphFault::GlyphShort(g));
        };
        let Some((code, _)) = announced_program(announced, rest) else {
            return Err(GlyphFault::GlyphShort(g));
        };
        Ok(Composite {
            x_min: x_min(bytes),
            components,
            code,
        })
    }

    /// The components, in their order.
    pub fn components(&self) -> Components<'a>
        ensures { result ≡ self.now.components }
    {
        Components::new(self.components)
    }

    /// The xMin of the header, in FUnits.
    pub fn x_min(&self) -> i16
        ensures { result ≡ self.now.x_min }
    {
        self.x_min
    }

    /// The program; empty if no component announces one.
    pub fn code(&self) -> &'a [u8]
        ensures value { result.now ≡ self.now.code }
        ensures short { length result.now < 2 ^ 16 }
    {
        self.code
    }
}

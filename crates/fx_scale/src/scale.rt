//! Scaling.

ghost use Rattle.std.specs.Prelude.{◌≡◌, ◌^◌, ◌≤◌, ◌*◌, pos, ◌*ℤ◌, unsigned_abs};
ghost use Rattle.fx_fixed.specs.Numbers.{near_of, wrapped_of};
ghost use Rattle.fx_sfnt.specs.Units.{IsUnitsPerEm};
ghost use Rattle.fx_scale.specs.Scaling.{scaled_of, scaled_by, scale_of};

use crate::factor::Factor;
use fx_fixed::{F26, Ppem, near, product, w32};
use fx_sfnt::{Font, UnitsPerEm};

/// A size, and what of the font belongs to every glyph at it; ascender and descender in FUnits.
#[derive(Clone, Copy, Debug, PartialEq, Eq)]
pub struct Scale {
    pub ppem: Ppem,
    pub units_per_em: UnitsPerEm,
    pub ascender: i16,
    pub descender: i16,
}

impl Scale {
    /// A font's scale at a size.
    pub fn of(font: &Font<'_>, ppem: Ppem) -> Scale
        ensures { result ≡ scale_of font.now ppem }
    {
        Scale {
            ppem,
            units_per_em: font.head().units_per_em,
            ascender: font.hhea().ascender,
            descender: font.hhea().descender,
        }
    }

    /// A value in FUnits at this scale, in 26.6 pixels.
    pub fn apply(&self, v: i32) -> F26
        ensures { result ≡ scaled_by self.now v }
    {
        scaled(v, self.ppem, self.units_per_em)
    }

    /// The factor of this scale, for several values.
    pub(crate) fn factor(&self) -> Factor
        ensures ppem { result.ppem ≡ self.now.ppem }
        ensures units { result.units_per_em ≡ self.now.units_per_em }
    {
        Factor::of(self.ppem, self.units_per_em)
    }
}

/// A value in FUnits at a size, in 26.6 pixels: `v * ppem * 64 / unitsPerEm` rounded to the nearest whole number, halves away
/// from zero (OpenType, "TrueType fundamentals": scaling a glyph outline).
///
/// The values in a font, and differences of two of them, are within 2^28 at every size; others are taken modulo 2^32.
#[tactic(auto, using(crate::proofs::Exact::exact_of, crate::proofs::Exact::unwrapped))]
pub fn scaled(v: i32, ppem: Ppem, units_per_em: UnitsPerEm) -> F26
    ensures value { result ≡ scaled_of v ppem units_per_em }
    ensures within { unsigned_abs v ≤ 65535 → unsigned_abs result ≤ 2 ^ 28 }
    ensures exact { unsigned_abs v ≤ 2 ^ 16 → result ≡ near_of (v *ℤ pos (ppem * 64)) (pos units_per_em) }
{
    if v.unsigned_abs() > MAX_FUNITS {
        let em = u32::from(ppem.pixels()) * 64;
        return scaled_long(v, em, u32::from(units_per_em.funits()));
    }
    Factor::of(ppem, units_per_em).apply(v)
}

/// The greatest size of a value that a factor scales, in FUnits. All values of a font are within it, and differences of two.
const MAX_FUNITS: u32 = 65_535;

/// A value of any size scaled; no value of a font is as large. `em` is the number of 1/64 pixels in an em.
#[cold]
fn scaled_long(v: i32, em: u32, funits: u32) -> F26
    requires em_size { em ≤ 65536 }
    requires units { IsUnitsPerEm funits }
    ensures { result ≡ wrapped_of (near_of (v *ℤ pos em) (pos funits)) }
{
    let n = i128::from(product(v, em as i32));
    F26(w32(near(n, i128::from(funits))))
}

//! Scaling by a product and a shift.

ghost use Rattle.std.specs.Prelude.{◌≡◌, ◌≤◌, ◌*◌, ◌/◌, ◌+◌, ◌^◌, pos, unsigned_abs};
ghost use Rattle.fx_fixed.specs.Sizes.{IsPpem};
ghost use Rattle.fx_sfnt.specs.Units.{IsUnitsPerEm};
ghost use Rattle.fx_scale.specs.Scaling.{scaled_of};

use fx_fixed::{F26, Ppem};
use fx_sfnt::UnitsPerEm;

/// How many 1/64 pixels a FUnit has at a size: a value of a font takes a product and a shift, in any em square.
///
/// The factor counts in parts of which 2^32 are 1/64 pixel. It is cut to whole parts, and has one part more, so it is a little too
/// large. A value's product then lies above what is exact for a value above 0, and below it for one below 0: halves go away from
/// zero. The size of the product is too large by less than 2^31 parts over the FUnits of an em, which changes nothing else.
#[derive(Clone, Copy)]
pub struct Factor {
    ppem: Ppem,
    units_per_em: UnitsPerEm,
    /// The parts in a FUnit.
    parts: i64,
    ghost size: { IsPpem ppem },
    ghost units: { IsUnitsPerEm units_per_em },
    ghost counted: { parts ≡ pos (ppem * 64 * 4294967296 / units_per_em + 1) },
}

/// Half of the parts in 1/64 pixel.
const HALF: i64 = 1 << 31;

impl Factor {
    /// The factor of a size and an em square.
    pub fn of(ppem: Ppem, units_per_em: UnitsPerEm) -> Factor
        ensures ppem { result.ppem ≡ ppem }
        ensures units { result.units_per_em ≡ units_per_em }
    {
        let em = u64::from(ppem.pixels()) * 64 * 4_294_967_296;
        let parts = em / u64::from(units_per_em.funits()) + 1;
        Factor {
            ppem,
            units_per_em,
            parts: parts as i64,
        }
    }

    /// A value in FUnits that a font can have, or a difference of two of them, in 26.6 pixels.
    pub fn apply(&self, v: i32) -> F26
        requires { unsigned_abs v ≤ 65535 }
        ensures value { result ≡ scaled_of v self.now.ppem self.now.units_per_em }
        ensures size { unsigned_abs result ≤ 2 ^ 28 }
    {
        let parts = i64::from(v) * self.parts + HALF;
        F26((parts >> 32) as i32)
    }
}

//! The em square in FUnits.

ghost use Rattle.std.specs.Prelude.{◌≡◌};
ghost use Rattle.fx_sfnt.specs.Units.{IsUnitsPerEm, units_per_em_of};

use std::marker::Model;

/// A valid `unitsPerEm`, `LEAST` to `GREATEST` FUnits (OpenType, "head"); contracts see it as its number.
#[derive(Clone, Copy, Debug, PartialEq, Eq)]
pub struct UnitsPerEm {
    funits: u16,
}

impl Model for UnitsPerEm {
    ghost use Rattle.std.specs.Prelude.{ℕ};
    ghost use Rattle.fx_sfnt.specs.Units.{IsUnitsPerEm};

    ghost Value = { ℕ };

    ghost view = { λ u. u.funits };

    ghost invariant = { λ u. IsUnitsPerEm u.funits };

    ghost inverse = { λ n. record { funits = n } };
}

impl UnitsPerEm {
    /// The least valid number.
    pub const LEAST: u16 = 16;
    /// The greatest valid number.
    pub const GREATEST: u16 = 16384;

    /// The em square of this number of FUnits, if it is valid.
    pub fn new(funits: u16) -> Option<UnitsPerEm>
        ensures { result ≡ units_per_em_of funits }
    {
        if funits < UnitsPerEm::LEAST || funits > UnitsPerEm::GREATEST {
            return None;
        }
        Some(UnitsPerEm { funits })
    }

    /// The number of FUnits in a side of the em square.
    pub fn funits(self) -> u16
        ensures value { result ≡ self }
        ensures valid { IsUnitsPerEm result }
    {
        self.funits
    }
}

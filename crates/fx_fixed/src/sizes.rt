//! Sizes in pixels per em.

ghost use Rattle.std.specs.Prelude.{◌≡◌};
ghost use Rattle.fx_fixed.specs.Sizes.{IsPpem, ppem_of};

use std::marker::Model;

/// The greatest size in pixels per em.
pub const MAX_PPEM: u16 = 1_024;

/// A valid size in pixels per em, 1 to `MAX_PPEM`; contracts see it as its number.
#[derive(Clone, Copy, Debug, PartialEq, Eq)]
pub struct Ppem {
    pixels: u16,
}

impl Model for Ppem {
    ghost use Rattle.std.specs.Prelude.{ℕ};
    ghost use Rattle.fx_fixed.specs.Sizes.{IsPpem};

    ghost Value = { ℕ };

    ghost view = { λ p. p.pixels };

    ghost invariant = { λ p. IsPpem p.pixels };

    ghost inverse = { λ n. record { pixels = n } };
}

impl Ppem {
    /// The size of this number of pixels per em, if it is valid.
    pub fn new(pixels: u16) -> Option<Ppem>
        ensures { result ≡ ppem_of pixels }
    {
        if pixels == 0 || pixels > MAX_PPEM {
            return None;
        }
        Some(Ppem { pixels })
    }

    /// The number of pixels per em.
    pub fn pixels(self) -> u16
        ensures value { result ≡ self }
        ensures valid { IsPpem result }
    {
        self.pixels
    }
}

//! A font that is opened at a size, and what the glyphs of a strike depend on beside the machine.
ghost use Rattle.std.specs.Prelude.{◌≡◌, ◌≤◌, neg_ℤ, unsigned_abs};
ghost use Rattle.fx_strike.specs.Strike.{basis_of, pixels};

use fx_cmap::CharMap;
use fx_fixed::{Ppem, near};
use fx_request::{Dropout, Mode};
use fx_sfnt::Font;

/// A valid size, and a font with its character map.
#[derive(Drop)]
pub struct Opened<'a> {
    pub ppem: Ppem,
    pub font: Font<'a>,
    pub map: CharMap<'a>,
}

/// FUnits in whole pixels.
fn pixels(units: i32, ppem: Ppem, em: u16) -> i32
    requires units { unsigned_abs units ≤ 32768 }
    requires em { 16 ≤ em }
    ensures { result ≡ pixels units ppem em }
{
    near(
        i128::from(units) * i128::from(ppem.pixels()),
        i128::from(em),
    ) as i32
}

impl<'a> Opened<'a> {
    /// FUnits of its font in whole pixels.
    pub fn pixels_of(&self, units: i32) -> i32
        requires { unsigned_abs units ≤ 32768 }
        ensures { result ≡ pixels units self.now.ppem self.now.font.head.units_per_em }
    {
        pixels(units, self.ppem, self.font.head().units_per_em.funits())
    }

    /// The font's ascent in whole pixels.
    pub fn ascent(&self) -> i32
        ensures { result ≡ pixels self.now.font.hhea.ascender self.now.ppem self.now.font.head.units_per_em }
    {
        self.pixels_of(i32::from(self.font.hhea().ascender))
    }

    /// The font's descent in whole pixels, counted down.
    pub fn descent(&self) -> i32
        ensures { result ≡ pixels (neg_ℤ self.now.font.hhea.descender) self.now.ppem self.now.font.head.units_per_em }
    {
        self.pixels_of(-i32::from(self.font.hhea().descender))
    }
}

/// A font that is opened at a size, drop-out control, and whether work is bounded.
#[derive(Drop)]
pub(crate) struct Basis<'a> {
    pub opened: Opened<'a>,
    pub dropout: Dropout,
    pub careful: bool,
}

impl<'a> Basis<'a> {
    /// An opened font in a mode, but for its hinting.
    pub(crate) fn of(opened: Opened<'a>, mode: Mode) -> Basis<'a>
        ensures { result ≡ basis_of opened.entry mode }
    {
        Basis {
            opened,
            dropout: mode.dropout,
            careful: mode.careful,
        }
    }
}

//! How outlines become pixels, and in which form pixels are told, as C says it.
ghost use Rattle.std.specs.Prelude.{◌≡◌};
ghost use Rattle.mkstrike_c.specs.Modes.{dropout_of, is_mode, is_outline_mode, is_packed, is_pixel_mode, is_strike_mode, is_x11};
ghost use Rattle.mkstrike_c.specs.Modes.{mode_of};

use fx_request::{Dropout, Mode};

/// Whether a number is a mode: no bit is set but those of hinting, drop-out control, bounded work and packed pixels, and at most
/// one of drop-out control.
pub fn is_mode(mode: u32) -> bool
    ensures { result ≡ is_mode mode }
{
    mode < 512 && is_outline_mode(mode % 256)
}

/// Whether a number is a mode for a strike, which has no form of pixels, but may have properties for X11.
pub fn is_strike_mode(mode: u32) -> bool
    ensures { result ≡ is_strike_mode mode }
{
    mode < 1024 && is_outline_mode(mode % 512)
}

/// Whether no bit is set but those of hinting, drop-out control and bounded work, and at most one of drop-out control.
fn is_outline_mode(mode: u32) -> bool
    ensures { result ≡ is_outline_mode mode }
{
    mode < 32 && is_pixel_mode(mode % 16)
}

/// Whether no bit is set but those of hinting and drop-out control, and at most one of the latter.
fn is_pixel_mode(mode: u32) -> bool
    ensures { result ≡ is_pixel_mode mode }
{
    mode < 6 || mode / 2 == 4
}

/// Which pixels drop-out control sets, by a number of C.
fn dropout_of(mode: u32) -> Dropout
    ensures { result ≡ dropout_of mode }
{
    if mode / 8 % 2 == 1 {
        return Dropout::Font;
    }
    if mode / 4 % 2 == 1 {
        return Dropout::Near;
    }
    if mode / 2 % 2 == 1 {
        return Dropout::Left;
    }
    Dropout::Off
}

/// How outlines become pixels, by a number of C: its lowest bit says whether the font's programs run, the next three whether
/// drop-out control is on, and how, and the next one whether a character that takes too much work is refused.
pub fn mode_of(mode: u32) -> Mode
    ensures { result ≡ mode_of mode }
{
    Mode {
        hinting: mode % 2 == 1,
        dropout: dropout_of(mode),
        careful: mode / 16 % 2 == 1,
    }
}

/// Whether pixels are packed, eight a byte.
pub fn is_packed(mode: u32) -> bool
    ensures { result ≡ is_packed mode }
{
    mode / 256 % 2 == 1
}

/// Whether a strike has the properties that X11 looks for.
pub fn is_x11(mode: u32) -> bool
    ensures { result ≡ is_x11 mode }
{
    mode / 512 % 2 == 1
}

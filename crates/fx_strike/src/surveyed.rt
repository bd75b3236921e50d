//! What is known of a strike before it is written.

use fx_bdf::{Bounds, Header, Summary};
use fx_fixed::Ppem;
use fx_gstate::ScanType as ScanType;
use fx_request::Report;

/// What is known of a strike before its first byte is written: the numbers of its header, what its
/// glyphs settle of its properties, and what is counted over it.
#[derive(Clone, Copy, Debug, PartialEq, Eq)]
pub struct Survey {
    /// The least box that holds the boxes of all glyphs.
    pub bounds: Bounds,
    /// What the glyphs settle of the properties of X11.
    pub summary: Summary,
    /// What `prep` left asked of drop-out control (SCANCTRL and SCANTYPE, Apple TrueType Reference Manual, "The instruction
    /// set"), by which `ScanType::Font` draws each glyph whose own program asks for nothing else. None if nothing was asked, or
    /// hinting is off.
    pub wish: Option<ScanType>,
    /// The font's ascent in pixels.
    pub ascent: i32,
    /// The font's descent in pixels.
    pub descent: i32,
    /// What is counted over it.
    pub report: Report,
}

impl Survey {
    ghost use Rattle.std.specs.Prelude.{◌≡◌};
    ghost use Rattle.fx_strike.specs.Headline.{surveyed_header};

    /// The numbers in the lines before the glyphs.
    pub(crate) fn header(&self, ppem: Ppem) -> Header
        ensures { result ≡ surveyed_header ppem self.now }
    {
        Header {
            ppem: ppem.pixels(),
            bounds: self.bounds,
            ascent: self.ascent,
            descent: self.descent,
            glyphs: self.report.glyphs,
        }
    }
}

//! The faults of outlines and shapes as refusals.
ghost use Rattle.std.specs.Prelude.{◌≡◌};
ghost use Rattle.fx_strike.specs.Faults.{of_hint, of_raster};

use fx_hint::HintFault;
use fx_raster::RasterFault;
use fx_request::Refusal;

/// What a fault of an outline is refused as.
pub fn of_hint(fault: HintFault) -> Refusal
    ensures { result ≡ of_hint fault }
{
    match fault {
        HintFault::Font(fault) => Refusal::from(fault),
        HintFault::Glyph(fault) => Refusal::from(fault),
        HintFault::ComponentDepth(g) => Refusal::ComponentDepth(g),
        HintFault::TooManyComponents(g) => Refusal::TooManyComponents(g),
        HintFault::TooManyPoints(g) => Refusal::TooManyPoints(g),
        HintFault::BadPointMatch(g) => Refusal::BadPointMatch(g),
        HintFault::Halted(halt) => Refusal::Halted(halt),
        HintFault::OutOfMemory => Refusal::OutOfMemory,
    }
}

/// What a fault of a glyph's shape is refused as.
pub(crate) fn of_raster(glyph: u16, fault: RasterFault) -> Refusal
    ensures { result ≡ of_raster glyph fault }
{
    match fault {
        RasterFault::TooFar => Refusal::TooFar(glyph),
        RasterFault::TooLarge => Refusal::GlyphTooLarge(glyph),
        RasterFault::OutOfMemory => Refusal::OutOfMemory,
    }
}

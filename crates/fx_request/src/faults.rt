//! The faults of the crates below as refusals.
ghost use Rattle.std.specs.Prelude.{◌≡◌};
ghost use Rattle.fx_request.specs.declared.refusal.Refusal.TheVariants.{OutOfMemory, WriteFailed as WriteFailedOf};
ghost use Rattle.fx_request.specs.Faults.{of_font, of_char_map, of_glyph, of_machine};

use crate::refusal::Refusal;
use fx_cmap::CharMapFault;
use fx_fixed::WriteFailed;
use fx_glyf::GlyphFault;
use fx_machine::MachineFault;
use fx_sfnt::FontFault;
use std::alloc::AllocError;

impl From<AllocError> for Refusal {
    ghost from_gives = { λ _ e. e ≡ OutOfMemory };

    fn from(_fault: AllocError) -> Refusal {
        Refusal::OutOfMemory
    }
}

impl From<WriteFailed> for Refusal {
    ghost from_gives = { λ f e. e ≡ WriteFailedOf f.0 };

    fn from(fault: WriteFailed) -> Refusal {
        Refusal::WriteFailed(fault.0)
    }
}

impl From<FontFault> for Refusal {
    ghost from_gives = { λ f e. e ≡ of_font f };

    fn from(fault: FontFault) -> Refusal {
        match fault {
            FontFault::NotTrueType => Refusal::NotTrueType,
            FontFault::NoFace => Refusal::NoFace,
            FontFault::TableMissing(tag) => Refusal::TableMissing(tag),
            FontFault::TableShort(tag) => Refusal::TableShort(tag),
            FontFault::BadHead => Refusal::BadHead,
            FontFault::BadMaxp => Refusal::BadMaxp,
            FontFault::BadLoca(g) => Refusal::BadLoca(g),
            FontFault::BadGlyphNumber(g) => Refusal::BadGlyphNumber(g),
        }
    }
}

impl From<CharMapFault> for Refusal {
    ghost from_gives = { λ f e. e ≡ of_char_map f };

    fn from(fault: CharMapFault) -> Refusal {
        match fault {
            CharMapFault::NoCharMap => Refusal::NoCharMap,
            CharMapFault::BadCharMap => Refusal::BadCharMap,
        }
    }
}

impl From<GlyphFault> for Refusal {
    ghost from_gives = { λ f e. e ≡ of_glyph f };

    fn from(fault: GlyphFault) -> Refusal {
        match fault {
            GlyphFault::GlyphShort(g) => Refusal::GlyphShort(g),
            GlyphFault::BadContours(g) => Refusal::BadContours(g),
        }
    }
}

impl From<MachineFault> for Refusal {
    ghost from_gives = { λ f e. e ≡ of_machine f };

    fn from(fault: MachineFault) -> Refusal {
        match fault {
            MachineFault::Halted(halt) => Refusal::Halted(halt),
            MachineFault::OutOfMemory => Refusal::OutOfMemory,
        }
    }
}

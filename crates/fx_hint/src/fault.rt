//! Why a glyph has no outline.

ghost use Rattle.std.specs.Prelude.{◌≡◌};
ghost use Rattle.fx_hint.specs.declared.fault.HintFault.TheVariants.{Font, Glyph, Halted, OutOfMemory};

use fx_glyf::GlyphFault;
use fx_machine::Halt;
use fx_sfnt::FontFault;
use std::alloc::AllocError;
use thiserror::Error;

/// The first fault on the way to the outline of a root, the glyph that is asked for.
#[derive(Clone, Copy, Debug, PartialEq, Eq, Error)]
pub enum HintFault {
    /// The number of a glyph, or the offsets of its bytes: of the root or of a component.
    #[error("{0}")]
    Font(FontFault),
    /// The bytes of a glyph: of the root or of a component.
    #[error("{0}")]
    Glyph(GlyphFault),
    /// This component lies deeper than `MAX_DEPTH` levels below the root.
    #[error("component {0} lies too deep")]
    ComponentDepth(u16),
    /// There are more than `MAX_COMPONENTS` component records below this root.
    #[error("glyph {0} has too many components")]
    TooManyComponents(u16),
    /// The outline of this root has more than `MAX_POINTS` points.
    #[error("glyph {0} has too many points")]
    TooManyPoints(u16),
    /// A component of this composite is placed by the number of a point that does not exist.
    #[error("a component of glyph {0} is placed by a point that does not exist")]
    BadPointMatch(u16),
    /// The program of a glyph halted: of the root or of a component.
    #[error("{0}")]
    Halted(Halt),
    /// Out of memory.
    #[error("out of memory")]
    OutOfMemory,
}

impl From<FontFault> for HintFault {
    ghost from_gives = { λ f e. e ≡ Font f };

    fn from(fault: FontFault) -> HintFault {
        HintFault::Font(fault)
    }
}

impl From<GlyphFault> for HintFault {
    ghost from_gives = { λ f e. e ≡ Glyph f };

    fn from(fault: GlyphFault) -> HintFault {
        HintFault::Glyph(fault)
    }
}

impl From<Halt> for HintFault {
    ghost from_gives = { λ h e. e ≡ Halted h };

    fn from(halt: Halt) -> HintFault {
        HintFault::Halted(halt)
    }
}

impl From<AllocError> for HintFault {
    ghost from_gives = { λ _ e. e ≡ OutOfMemory };

    fn from(_error: AllocError) -> HintFault {
        HintFault::OutOfMemory
    }
}

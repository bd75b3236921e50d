//! Why a font has no instance that is read, or a glyph no shape.

ghost use Rattle.std.specs.Prelude.{◌≡◌};
ghost use Rattle.fx_vary.specs.declared.fault.ShapeFault.TheVariants.{Axes, Font, Glyph, Gvar, OutOfMemory};

use fx_axes::AxesFault;
use fx_glyf::GlyphFault;
use fx_sfnt::FontFault;
use std::alloc::AllocError;
use thiserror::Error;

/// Why a font has no variations that are read.
#[derive(Clone, Copy, Debug, PartialEq, Eq, Error)]
pub enum GvarFault {
    /// The font has no table `gvar`.
    #[error("the font has no table gvar")]
    NoGvar,
    /// `gvar` is too short, has another version than 1.0 or other numbers of axes and glyphs than the font, or offsets that
    /// decrease or lead out of it.
    #[error("gvar is wrong")]
    BadGvar,
}

/// The first fault on the way to a glyph, or to the control values, of a font at values along its axes.
#[derive(Clone, Copy, Debug, PartialEq, Eq, Error)]
pub enum ShapeFault {
    /// The tables of axes, or the values along them.
    #[error("{0}")]
    Axes(AxesFault),
    /// The table `gvar`.
    #[error("{0}")]
    Gvar(GvarFault),
    /// The number of the glyph, or the offsets of its bytes.
    #[error("{0}")]
    Font(FontFault),
    /// The bytes of the glyph.
    #[error("{0}")]
    Glyph(GlyphFault),
    /// The tuples of this glyph can't be read, or move it out of 16 bits.
    #[error("the variations of glyph {0} are wrong")]
    BadVariations(u16),
    /// The tuples of `cvar` can't be read, or move a control value out of 16 bits.
    #[error("cvar is wrong")]
    BadCvar,
    /// Out of memory.
    #[error("out of memory")]
    OutOfMemory,
}

impl From<AxesFault> for ShapeFault {
    ghost from_gives = { λ f e. e ≡ Axes f };

    fn from(fault: AxesFault) -> ShapeFault {
        ShapeFault::Axes(fault)
    }
}

impl From<GvarFault> for ShapeFault {
    ghost from_gives = { λ f e. e ≡ Gvar f };

    fn from(fault: GvarFault) -> ShapeFault {
        ShapeFault::Gvar(fault)
    }
}

impl From<FontFault> for ShapeFault {
    ghost from_gives = { λ f e. e ≡ Font f };

    fn from(fault: FontFault) -> ShapeFault {
        ShapeFault::Font(fault)
    }
}

impl From<GlyphFault> for ShapeFault {
    ghost from_gives = { λ f e. e ≡ Glyph f };

    fn from(fault: GlyphFault) -> ShapeFault {
        ShapeFault::Glyph(fault)
    }
}

impl From<AllocError> for ShapeFault {
    ghost from_gives = { λ _ e. e ≡ OutOfMemory };

    fn from(_error: AllocError) -> ShapeFault {
        ShapeFault::OutOfMemory
    }
}

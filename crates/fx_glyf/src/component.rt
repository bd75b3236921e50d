//! A component of a composite glyph.

ghost use Rattle.std.specs.Prelude.{◌≡◌};
ghost use Rattle.fx_glyf.specs.Words.{has};
ghost use Rattle.fx_glyf.specs.Components.{more_components, we_have_instructions};

use fx_fixed::F2;

/// Both arguments are words, else bytes.
pub const ARG_1_AND_2_ARE_WORDS: u16 = 0x0001;

/// The arguments are an x and a y offset, else numbers of points.
pub const ARGS_ARE_XY_VALUES: u16 = 0x0002;

/// The offsets are rounded to whole pixels, with hinting on.
const ROUND_XY_TO_GRID: u16 = 0x0004;

/// One scale, for x and y.
pub const WE_HAVE_A_SCALE: u16 = 0x0008;

/// Another component follows.
const MORE_COMPONENTS: u16 = 0x0020;

/// A scale for x and one for y.
pub const WE_HAVE_AN_X_AND_Y_SCALE: u16 = 0x0040;

/// All four numbers of the transformation.
pub const WE_HAVE_A_TWO_BY_TWO: u16 = 0x0080;

/// A program follows the last component.
const WE_HAVE_INSTRUCTIONS: u16 = 0x0100;

/// The composite has the component's metrics.
const USE_MY_METRICS: u16 = 0x0200;

/// Whether flags have a bit, by its mask.
pub fn has(flags: u16, mask: u16) -> bool
    ensures { result ≡ has flags mask }
{
    flags & mask != 0
}

/// Whether another component follows one with these flags.
pub fn is_followed(flags: u16) -> bool
    ensures { result ≡ has flags more_components }
{
    has(flags, MORE_COMPONENTS)
}

/// Whether a component with these flags announces a program after the last one.
pub fn has_program(flags: u16) -> bool
    ensures { result ≡ has flags we_have_instructions }
{
    has(flags, WE_HAVE_INSTRUCTIONS)
}

/// A component: a glyph, how it is placed, and its transformation (OpenType, `glyf`, composite glyph
/// description).
///
/// `args` are the x and y offset in FUnits if the component has offsets, else the number of a point
/// of the composite so far and that of a point of the component. The scales:
/// `x' = a x + c y`, `y' = b x + d y`.
#[derive(Clone, Copy, Debug, PartialEq, Eq)]
pub struct Component {
    pub glyph: u16,
    pub args: (i32, i32),
    pub flags: u16,
    pub a: F2,
    pub b: F2,
    pub c: F2,
    pub d: F2,
}

impl Component {
    ghost use Rattle.fx_glyf.specs.Components.{has_offsets, rounds_offset, uses_my_metrics};

    /// Whether the arguments are an x and a y offset, else numbers of points.
    pub fn has_offsets(&self) -> bool
        ensures { result ≡ has_offsets self.now }
    {
        has(self.flags, ARGS_ARE_XY_VALUES)
    }

    /// Whether the offset is rounded to whole pixels, with hinting on.
    pub fn rounds_offset(&self) -> bool
        ensures { result ≡ rounds_offset self.now }
    {
        has(self.flags, ROUND_XY_TO_GRID)
    }

    /// Whether the composite has the component's metrics.
    pub fn uses_my_metrics(&self) -> bool
        ensures { result ≡ uses_my_metrics self.now }
    {
        has(self.flags, USE_MY_METRICS)
    }
}

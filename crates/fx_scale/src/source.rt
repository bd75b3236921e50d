//! Where the points of a glyph come from.

use fx_glyf::{GlyphPoint, Points};

/// The points of a glyph in FUnits, one after the other: as they are read, or from a list.
pub trait PointSource {
    ghost use Rattle.std.specs.Prelude.{List};
    ghost use Rattle.std.specs.Iterator.{YieldsFirst};
    ghost use Rattle.fx_glyf.specs.declared.point.GlyphPoint.{GlyphPoint};

    // The points that are left.
    ghost left: { Self → List GlyphPoint };

    /// The next point, if one is left.
    fn next_point(&mut self) -> Option<GlyphPoint>
        ensures { YieldsFirst left self.old result self.new };
}

impl<'a> PointSource for Points<'a> {
    ghost left = { λ points. points };

    #[inline(always)]
    fn next_point(&mut self) -> Option<GlyphPoint> {
        self.next()
    }
}

impl<'a> PointSource for &'a [GlyphPoint] {
    ghost left = { λ points. points.now };

    #[inline(always)]
    fn next_point(&mut self) -> Option<GlyphPoint> {
        let (first, others) = self.split_first()?;
        *self = others;
        Some(*first)
    }
}

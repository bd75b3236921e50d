//! From a sketch to its bits.
ghost use Rattle.std.specs.Prelude.{◌≡◌, ◌≤◌, ◌^◌, pos, unsigned_abs, IfOk, IfErr};
ghost use Rattle.fx_fixed.specs.Numbers.{near_of};
ghost use Rattle.fx_strike.specs.Strike.{IsGlyphOf, glyph_sketch_of, sketch_alone};
ghost use Rattle.fx_strike.specs.inner.Drawing.{Draws};

use crate::characters::Mapped;
use crate::sketch::Sketch;
use crate::striker::Striker;
use fx_bdf::BitGlyph;
use fx_fixed::{F26, near_64};
use fx_raster::Scan;
use fx_request::{OnRefused, Refusal};

/// An advance in whole pixels.
pub(crate) fn whole_pixels(advance: F26) -> i32
    ensures value { result ≡ near_of advance (pos 64) }
    ensures size { unsigned_abs result ≤ 2 ^ 25 }
{
    near_64(i64::from(advance.0)) as i32
}

impl<'a, S: Scan> Striker<'a, S> {
    /// The glyph of a sketch: the bits of its shape, in their tight box, and its advances.
    pub(crate) fn glyph_of(&mut self, sketch: &Sketch) -> Result<BitGlyph, Refusal>
        ensures kept { self.new ≡ self.old }
        ensures glyph { IfOk result (IsGlyphOf sketch.now) }
        ensures code { IfOk result (λ g. g.code ≡ sketch.now.code) }
        ensures fault { IfErr result (λ e. e ≡ Refusal.OutOfMemory) }
    {
        let bitmap = sketch
            .shape
            .bitmap(self.alloc, self.scan, &mut self.scratch)?;
        let dwidth = whole_pixels(sketch.advance);
        Ok(BitGlyph::of(sketch.code, sketch.swidth, dwidth, bitmap))
    }

    /// The glyph of a code point by its number in the font, or the first cause why there is none.
    pub(crate) fn draw(&mut self, code: u32, glyph: u16) -> Result<BitGlyph, Refusal>
        ensures kept { self.new ≡ self.old }
        ensures sketch { Draws (glyph_sketch_of self.old code glyph) result }
    {
        let sketch = self.sketch_at(code, glyph)?;
        self.glyph_of(&sketch)
    }

    /// The same for a call that is for it alone: it is refused if it takes too much work, and work is bounded.
    pub(crate) fn draw_alone(&mut self, code: u32, glyph: u16) -> Result<BitGlyph, Refusal>
        ensures kept { self.new ≡ self.old }
        ensures sketch { Draws (sketch_alone self.old code glyph) result }
    {
        let before = self.bound(OnRefused::Stop, &[Mapped { code, glyph }])?;
        let drawn = self.draw(code, glyph);
        self.over = before;
        drawn
    }
}

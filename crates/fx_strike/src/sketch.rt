//! From a glyph's number to its outline, its shape and its advance: a character before its bits.
ghost use Rattle.std.specs.Prelude.{◌≡◌, IfOk};
ghost use Rattle.fx_fixed.specs.Chain.{map_fault, GivesUnless};
ghost use Rattle.fx_hint.specs.Outlines.{view_of_glyph_outline, outline_with};
ghost use Rattle.fx_strike.specs.Faults.{Fails, of_hint};
ghost use Rattle.fx_strike.specs.Numbered.{is_glyph_over, outlined_with};
ghost use Rattle.fx_strike.specs.Strike.{hinting_by, machineless, setting_over, thousandths, glyph_sketch_of, programs_in};

use crate::census::CHARACTER_WORK;
use crate::faults::{of_hint, of_raster};
use crate::hinter::FontHinter;
use crate::opened::{Basis, Opened};
use crate::over_codes::OverCodes;
use crate::rule::rule_for;
use crate::striker::Striker;
use fx_fixed::{F26, near};
use fx_hint::{GlyphOutline, Spare};
use fx_machine::Usage;
use fx_raster::{Scan, Shape};
use fx_request::Refusal;
use fx_sfnt::UnitsPerEm;
use std::alloc::{AllocError, Global};
use std::marker::Model;

/// A character before its bits. Contracts see its advance in whole pixels.
#[derive(Drop)]
pub(crate) struct Sketch {
    pub code: u32,
    /// The advance in 1/1000 of an em.
    pub swidth: i32,
    /// The advance in pixels.
    pub advance: F26,
    /// The glyph's outline, scaled and hinted, with the rule by which it sets pixels.
    pub shape: Shape,
    /// What the glyph's programs used up.
    pub usage: Usage,
}

impl Model for Sketch {
    ghost use Rattle.std.specs.Prelude.{pos};
    ghost use Rattle.fx_fixed.specs.Numbers.{near_of};
    ghost use Rattle.fx_strike.specs.Sketches as sketches;

    ghost Value = { sketches.Sketch };

    ghost view = { λ s. record {
      code = s.code;
      swidth = s.swidth;
      dwidth = near_of s.advance (pos 64);
      shape = s.shape;
      usage = s.usage;
    } };
}

/// Makes the outline of a glyph, scaled and hinted. Its lists are those that an outline before left.
#[inline(always)]
fn outline_by(
    alloc: Global,
    spare: &mut Spare,
    hinter: &mut FontHinter<'_>,
    opened: &Opened<'_>,
    glyph: u16,
) -> Result<GlyphOutline, Refusal>
    ensures kept { hinter.new ≡ hinter.old }
    ensures outline { GivesUnless Fails view_of_glyph_outline result
        (map_fault of_hint (outline_with (hinting_by hinter.old) opened.now.font opened.now.ppem glyph)) }
{
    match hinter.outline(alloc, spare, opened, glyph) {
        Ok(outline) => Ok(outline),
        Err(fault) => Err(of_hint(fault)),
    }
}

/// An advance of FUnits in 1/1000 of an em.
fn thousandths(advance: u16, em: UnitsPerEm) -> i32
    ensures { result ≡ thousandths advance em }
{
    near(i128::from(advance) * 1000, i128::from(em.funits())) as i32
}

/// The sketch of a code point by its glyph's number, or the first cause why it has none.
#[inline(always)]
fn sketch_by(
    alloc: Global,
    spare: &mut Spare,
    hinter: &mut FontHinter<'_>,
    basis: &Basis<'_>,
    over: &OverCodes,
    code: u32,
    glyph: u16,
) -> Result<Sketch, Refusal>
    ensures kept { hinter.new ≡ hinter.old }
    ensures sketch { GivesUnless Fails (λ s. s) result
        (glyph_sketch_of (setting_over basis.now hinter.old over.now) code glyph) }
{
    if over.has(code) {
        return Err(Refusal::TooMuchWork);
    }
    let made = outline_by(alloc, spare, hinter, &basis.opened, glyph)?;
    let rule = rule_for(basis.dropout, made.wish);
    let shape = match Shape::of(made.outline, rule) {
        Ok(shape) => shape,
        Err(fault) => return Err(of_raster(glyph, fault)),
    };
    let metrics = basis.opened.font.metrics(glyph)?;
    let em = basis.opened.font.head().units_per_em;
    Ok(Sketch {
        code,
        swidth: thousandths(metrics.advance_width, em),
        advance: made.advance,
        shape,
        usage: made.usage,
    })
}

impl<'a, S: Scan> Striker<'a, S> {
    /// Makes the outline of a glyph by its number: the points that its bits are of, scaled and hinted, and its advance.
    ///
    /// The first cause why it cannot be made is returned, such as `BadGlyphNumber` if the font does not have it, or `OutOfMemory`.
    /// How far out the points lie and how many pixels the glyph has is not looked at: `TooFar` and `GlyphTooLarge` are no causes.
    pub fn outline(&mut self, glyph: u16) -> Result<GlyphOutline, Refusal>
        // It is the outline of that glyph; or the first cause was named, or memory ran out.
        ensures outline { GivesUnless Fails view_of_glyph_outline result (outlined_with self.old glyph) }
        // Nothing of it has a part in what is made next.
        ensures kept { self.new ≡ self.old }
    {
        if self.is_glyph_over(glyph)? {
            return Err(Refusal::TooMuchWork);
        }
        outline_by(
            self.alloc,
            &mut self.spare,
            &mut self.hinter,
            &self.basis.opened,
            glyph,
        )
    }

    /// What the programs of a glyph and of its components leave of so much work; none if they do more.
    pub(crate) fn programs_left(
        &mut self,
        glyph: u16,
        work: usize,
    ) -> Result<Option<usize>, AllocError>
        ensures kept { self.new ≡ self.old }
        ensures left { IfOk result (λ left. left ≡ programs_in self.old glyph work) }
    {
        self.hinter.programs_left(self.alloc, &mut self.spare, &self.basis.opened, glyph, work)
    }

    /// Whether the programs of a glyph do more work than they may, if work is bounded.
    fn is_glyph_over(&mut self, glyph: u16) -> Result<bool, AllocError>
        ensures kept { self.new ≡ self.old }
        ensures over { IfOk result (λ over. over ≡ is_glyph_over self.old glyph) }
    {
        if !self.basis.careful {
            return Ok(false);
        }
        let left = self.programs_left(glyph, CHARACTER_WORK)?;
        Ok(left.is_none())
    }

    /// The sketch of a code point by its glyph's number.
    pub(crate) fn sketch_at(&mut self, code: u32, glyph: u16) -> Result<Sketch, Refusal>
        ensures kept { self.new ≡ self.old }
        ensures sketch { GivesUnless Fails (λ s. s) result (glyph_sketch_of self.old code glyph) }
    {
        sketch_by(
            self.alloc,
            &mut self.spare,
            &mut self.hinter,
            &self.basis,
            &self.over,
            code,
            glyph,
        )
    }

    /// The same without hinting.
    pub(crate) fn sketch_unhinted(&mut self, code: u32, glyph: u16) -> Result<Sketch, Refusal>
        ensures kept { self.new ≡ self.old }
        ensures sketch { GivesUnless Fails (λ s. s) result (glyph_sketch_of (machineless self.old) code glyph) }
    {
        let mut none = FontHinter::none(self.alloc);
        sketch_by(
            self.alloc,
            &mut self.spare,
            &mut none,
            &self.basis,
            &self.over,
            code,
            glyph,
        )
    }
}

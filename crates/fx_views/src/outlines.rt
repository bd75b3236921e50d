//! The outline of a glyph.
ghost use Rattle.std.specs.Prelude.{◌≡◌, ◌<◌, ◌^◌, ℕ, Ok, option_map, IfOk, IfErr, IsErrOf};
ghost use Rattle.fx_fixed.specs.Chain.{GivesUnless};
ghost use Rattle.fx_fixed.specs.Changes.{change_of};
ghost use Rattle.fx_hint.specs.Outlines.{view_of_glyph_outline};
ghost use Rattle.fx_views.specs.Choices.{chosen_glyph, opened_choice_of};
ghost use Rattle.fx_strike.specs.Headline.{Late};
ghost use Rattle.fx_views.specs.Listings.{IsNoFault};
ghost use Rattle.fx_views.specs.Outlines.{IsNotOutlined, IsOutlined, IsOutlinedTo, outline_numbered_of, outlined_for};
ghost use Rattle.fx_views.specs.Outlines.{outlined_of};
ghost use Rattle.fx_strike.specs.Strike.{opened_at, Fails};

use crate::choices::{chosen_glyph, open_choice};
use crate::outline_text::put_outline;
use fx_fixed::Sink;
use fx_hint::GlyphOutline;
use fx_raster::{Rows, Scan};
use fx_request::{Choice, Mode, Refusal};
use fx_sfnt::FontFile;
use fx_strike::Striker;
use std::alloc::Global;

/// The outline of the glyph that is chosen; none if the font lacks the character.
fn outline_chosen<S: Scan>(
    striker: &mut Striker<'_, S>,
    choice: Choice,
) -> Result<Option<GlyphOutline>, Refusal>
    ensures outline { GivesUnless Fails (option_map view_of_glyph_outline) result
        (outlined_for striker.old (chosen_glyph striker.old.map choice)) }
{
    match chosen_glyph(striker.map(), choice) {
        Some(glyph) => {
            let outline = striker.outline(glyph)?;
            Ok(Some(outline))
        }
        None => Ok(None),
    }
}

/// Makes the outline of one glyph of a font at a size: the points that its bits are of. None if the font lacks the character that
/// it is chosen by.
///
/// The first cause is returned, as by `chosen`, but how far out the points lie and how many pixels the glyph has is not looked at.
/// `OutOfMemory` may be returned in place of any step after the character map, and of none before it.
pub fn outlined(
    alloc: Global,
    font: &FontFile<'_>,
    ppem: u16,
    choice: Choice,
    mode: Mode,
) -> Result<Option<GlyphOutline>, Refusal>
    // It is the outline of the glyph chosen, or the font lacks the character; or the first cause was named, or memory ran out.
    ensures outline { GivesUnless Fails (option_map view_of_glyph_outline) result (outlined_of font.now ppem choice mode) }
    // Memory is taken late: after the size and the choice are within their limits, and the font and its map opened.
    ensures late { IsErrOf result Refusal.OutOfMemory → Late (opened_choice_of font.now ppem choice) }
{
    let mut striker = Striker::of(alloc, &Rows, open_choice(font, ppem, choice), mode)?;
    outline_chosen(&mut striker, choice)
}

/// Makes the outline of a glyph of a font at a size, by its number, as `outlined` makes that of a choice.
pub fn outline_numbered(
    alloc: Global,
    font: &FontFile<'_>,
    ppem: u16,
    glyph: u16,
    mode: Mode,
) -> Result<GlyphOutline, Refusal>
    // It is the outline of that glyph; or the first cause was named, or memory ran out.
    ensures outline { GivesUnless Fails view_of_glyph_outline result (outline_numbered_of font.now ppem glyph mode) }
    // Memory is taken late: after the size is valid, and the font and its map opened.
    ensures late { IsErrOf result Refusal.OutOfMemory → Late (opened_at font.now ppem) }
{
    let mut striker = Striker::open(alloc, font, ppem, mode)?;
    striker.outline(glyph)
}

/// Writes the outline of one glyph of a font at a size: a line for each point with the number of its contour, its own number, `on`
/// or `off` the curve, x and y in 1/64 pixels; then its advance. `missing` if the font lacks the character that it is chosen by.
///
/// The first cause is returned, and nothing is written, as by `outlined`. After `WriteFailed(n)` the writer holds the first n bytes
/// of the text.
pub fn write_outline<W: Sink>(
    alloc: Global,
    font: &FontFile<'_>,
    ppem: u16,
    choice: Choice,
    mode: Mode,
    out: &mut W,
) -> Result<(), Refusal>
    requires { W.fault_count out.old < 2 ^ 63 }
    // The outline is due, its text was written, and the writer counted no fault.
    ensures text { IfOk result (λ _.
        IsOutlined (outlined_of font.now ppem choice mode) (change_of W.held W.fault_count out.old out.new)) }
    // The first cause was named, or memory ran out; nothing was written, and the writer counted no fault.
    ensures cause { IfErr result (λ refusal. IsNoFault refusal →
        IsNotOutlined (outlined_of font.now ppem choice mode) (change_of W.held W.fault_count out.old out.new) refusal) }
    // Memory is taken late: after the size and the choice are within their limits, and the font and its map opened.
    ensures late { IsErrOf result Refusal.OutOfMemory → Late (opened_choice_of font.now ppem choice) }
    // The outline is due, exactly the first n bytes of its text were written, and the writer counted one fault.
    ensures writer { (n : ℕ) → IsErrOf result (Refusal.WriteFailed n) →
        IsOutlinedTo (outlined_of font.now ppem choice mode) (change_of W.held W.fault_count out.old out.new) n }
{
    let outline = outlined(alloc, font, ppem, choice, mode)?;
    put_outline(&outline, out)?;
    Ok(())
}

//! One character of a font.
ghost use Rattle.std.specs.Prelude.{IfOk, IfErr, IsErrOf};
ghost use Rattle.fx_strike.specs.Strike.{opened_one_of, one_of, Fails};
ghost use Rattle.fx_strike.specs.Headline.{IsOneOf, Late};

use crate::choices::chosen;
use fx_bdf::BitGlyph;
use fx_request::{Choice, Mode, Refusal};
use fx_sfnt::FontFile;
use std::alloc::Global;

/// Makes the glyph of one character of a font at a size: its bits, in their tight box, and its advances. None if the font lacks
/// the character.
///
/// The first cause is returned, as for the strike of that one character: the size, the code point; the font's tables, its
/// character map; with hinting on `fpgm`, then `prep`; then the character. `OutOfMemory` may be returned in place of any step
/// after the character map, and of none before it.
#[tactic(auto, unfolding(fx_strike::specs::Strike::one_of, fx_strike::specs::Strike::one_in, crate::specs::Choices::choice_of))]
pub fn one(
    alloc: Global,
    font: &FontFile<'_>,
    ppem: u16,
    code: u32,
    mode: Mode,
) -> Result<Option<BitGlyph>, Refusal>
    // The glyph is that of the character, or the font lacks it.
    ensures glyph { IfOk result (IsOneOf (one_of font.now ppem code mode)) }
    // The first cause was named, or memory ran out.
    ensures cause { IfErr result (λ refusal. Fails refusal (one_of font.now ppem code mode)) }
    // Memory is taken late: after the size and the code point are within their limits, and the font and its map opened.
    ensures late { IsErrOf result Refusal.OutOfMemory → Late (opened_one_of font.now ppem code) }
{
    chosen(alloc, font, ppem, Choice::Character(code), mode)
}

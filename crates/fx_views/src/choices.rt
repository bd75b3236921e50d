//! One glyph of a font, chosen by a character or by its number.
ghost use Rattle.std.specs.Prelude.{◌≡◌, Ok, IfOk, IfErr, IsErrOf, OnOk};
ghost use Rattle.fx_views.specs.Choices.{checked_choice, choice_of, choice_with, chosen_glyph, opened_choice_of};
ghost use Rattle.fx_strike.specs.Headline.{IsCause, IsOneOf, Late};
ghost use Rattle.fx_strike.specs.Strike.{Fails};

use fx_bdf::BitGlyph;
use fx_cmap::CharMap;
use fx_raster::{Rows, Scan};
use fx_request::{Choice, Mode, Refusal};
use fx_sfnt::FontFile;
use fx_strike::{Opened, Striker, open_at, open_many};
use std::alloc::Global;

/// Makes one glyph of a font at a size: its bits, in their tight box, and its advances. None if the font lacks the character that
/// it is chosen by.
///
/// The first cause is returned: for a character as by `one`; for a number the size, the font's tables, its character map, with
/// hinting on `fpgm`, then `prep`; then `BadGlyphNumber` if the font has no glyph of that number, or why it can't be made.
/// `OutOfMemory` may be returned in place of any step after the character map, and of none before it.
pub fn chosen(
    alloc: Global,
    font: &FontFile<'_>,
    ppem: u16,
    choice: Choice,
    mode: Mode,
) -> Result<Option<BitGlyph>, Refusal>
    // The glyph is the one chosen, or the font lacks the character.
    ensures glyph { IfOk result (IsOneOf (choice_of font.now ppem choice mode)) }
    // The first cause was named, or memory ran out.
    ensures cause { IfErr result (λ refusal. Fails refusal (choice_of font.now ppem choice mode)) }
    // Memory is taken late: after the size and the choice are within their limits, and the font and its map opened.
    ensures late { IsErrOf result Refusal.OutOfMemory → Late (opened_choice_of font.now ppem choice) }
{
    let mut striker = Striker::of(alloc, &Rows, open_choice(font, ppem, choice), mode)?;
    drawn(&mut striker, choice)
}

/// The glyph that is chosen; none if the font lacks the character.
#[tactic(auto, using(crate::proofs::Choosing::character_is))]
fn drawn<S: Scan>(striker: &mut Striker<'_, S>, choice: Choice) -> Result<Option<BitGlyph>, Refusal>
    requires { Ok tt ≡ checked_choice choice }
    ensures glyph { IfOk result (IsOneOf (choice_with striker.old choice)) }
    ensures cause { IfErr result (λ refusal. Fails refusal (choice_with striker.old choice)) }
{
    match choice {
        Choice::Character(code) => striker.glyph(code),
        Choice::Number(glyph) => Ok(Some(striker.numbered(glyph)?)),
    }
}

/// The number of the glyph that is chosen; none if the font lacks the character.
pub(crate) fn chosen_glyph(map: &CharMap<'_>, choice: Choice) -> Option<u16>
    ensures { result ≡ chosen_glyph map.now choice }
{
    match choice {
        Choice::Character(code) => match map.glyph(code) {
            0 => None,
            glyph => Some(glyph),
        },
        Choice::Number(glyph) => Some(glyph),
    }
}

/// The size, the font and its character map, for one glyph.
pub(crate) fn open_choice<'a>(
    file: &FontFile<'a>,
    ppem: u16,
    choice: Choice,
) -> Result<Opened<'a>, Refusal>
    ensures due { result ≡ opened_choice_of file.now ppem choice }
    ensures named { IfErr result IsCause }
    ensures passed { OnOk result (Ok tt ≡ checked_choice choice) }
{
    match choice {
        Choice::Character(code) => open_many(file, ppem, &[code]),
        Choice::Number(_) => open_at(file, ppem),
    }
}

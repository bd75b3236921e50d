//! Many characters for C.
ghost use Rattle.std.specs.Prelude.{◌≡◌, ◌<◌, ◌≤◌, [], true, false, Ok, IfOk, IfErr, OnOk, length};
ghost use Rattle.fx_request.specs.Refusals.{number_of};
ghost use Rattle.fx_request.specs.declared.request.OnRefused.TheVariants.{Stop};
ghost use Rattle.fx_strike.specs.Strike.{bounded_for, checked_chars, opened_many_of, setting_for};
ghost use Rattle.mkstrike_c.specs.Drawn.{AreDrawn};
ghost use Rattle.mkstrike_c.specs.FontAt.{file_at};
ghost use Rattle.mkstrike_c.specs.Modes.{is_mode, is_packed, mode_of};
ghost use Rattle.mkstrike_c.specs.Refused.{IsReason, IsRefused, refused_of};
ghost use Rattle.mkstrike_c.specs.inner.Gathering.{AreCounted, AreGathered, AreTold, Holds, IsGathered, is_memory};

use crate::buffer::put_front;
use crate::font_at::FontAt;
use crate::gathered::{Drawn, GlyphBuffers, Outcome, Placed, Wanted};
use crate::mode::{is_mode, is_packed, mode_of};
use crate::refused::{Refused, refuse, refuse_mode};
use fx_request::{Mode, Refusal};
use fx_rows::Rows;
use fx_sfnt::FontFile;
use fx_strike::Striker;
use std::alloc::Global;

/// What became of a character, unless memory was refused to it.
fn settled(outcome: Outcome) -> Result<Outcome, Refusal>
    ensures same { IfOk result (λ o. o ≡ outcome) }
    ensures settled { OnOk result (is_memory outcome ≡ false) }
    ensures memory { IfErr result (λ r. r ≡ Refusal.OutOfMemory) }
{
    match outcome {
        Err(Refusal::OutOfMemory) => Err(Refusal::OutOfMemory),
        outcome => Ok(outcome),
    }
}

/// Makes characters in their order and adds them to none.
fn gather(
    striker: &mut Striker<'_, Rows>,
    chars: &[u32],
    none: GlyphBuffers,
) -> Result<GlyphBuffers, Refusal>
    requires chars { Ok tt ≡ checked_chars chars.now }
    requires none { Holds none.wanted [] [] none }
    requires counted { AreCounted none.drawn 0 }
    ensures gathered { IfOk result (AreGathered striker.old chars.now none.wanted) }
    ensures memory { IfErr result (λ r. r ≡ Refusal.OutOfMemory) }
{
    let mut gathered = none;
    // `gathered` has the characters before this one.
    'chars: for code in chars {
        let outcome = settled(striker.one_among(*code))?;
        gathered.add(*code, &outcome)?;
    }
    Ok(gathered)
}

/// Makes the characters of an opened font, in memory. If work is bounded, they pay for it together.
pub fn gathered_with(
    alloc: Global,
    striker: &mut Striker<'_, Rows>,
    chars: &[u32],
    wanted: Wanted,
) -> Result<GlyphBuffers, Refusal>
    requires chars { Ok tt ≡ checked_chars chars.now }
    ensures gathered { IfOk result (AreGathered (bounded_for striker.old Stop chars.now) chars.now wanted) }
    ensures memory { IfErr result (λ r. r ≡ Refusal.OutOfMemory) }
{
    striker.bound_for(chars)?;
    let none = GlyphBuffers::new(alloc, wanted, chars.len())?;
    gather(striker, chars, none)
}

/// Makes the characters of a font at a size, in memory.
fn gathered_of(
    alloc: Global,
    font: &FontFile<'_>,
    ppem: u16,
    mode: Mode,
    chars: &[u32],
    wanted: Wanted,
) -> Result<GlyphBuffers, Refusal>
    ensures gathered { IfOk result (IsGathered wanted (setting_for font.now ppem chars.now mode) chars.now) }
    ensures refused { IfErr result (IsReason (opened_many_of font.now ppem chars.now)
        (setting_for font.now ppem chars.now mode)) }
{
    let mut striker = Striker::open_for(alloc, font, ppem, chars, mode)?;
    gathered_with(alloc, &mut striker, chars, wanted)
}

/// Copies what was gathered to the front of the caller's buffers, or tells why there is nothing.
pub fn tell_all(
    found: Result<GlyphBuffers, Refusal>,
    glyphs: &mut [Placed],
    pixels: &mut [u8],
    drawn: &mut Drawn,
    refused: &mut Refused,
) -> u32
    ensures found { IfOk found (λ g. AreTold g glyphs.old glyphs.new pixels.old pixels.new drawn.new
        refused.old refused.new result) }
    ensures refused { IfErr found (λ r. (result ≡ number_of r) × (refused.new ≡ refused_of r)) }
    ensures least { IfErr found (λ r. 10 ≤ result) }
    ensures kept { IfErr found (λ r. (glyphs.new ≡ glyphs.old) × (pixels.new ≡ pixels.old) × (drawn.new ≡ drawn.old)) }
{
    match found {
        Ok(gathered) => {
            put_front(glyphs, gathered.entries());
            put_front(pixels, gathered.pixels());
            *drawn = gathered.drawn();
            *refused = gathered.first().unwrap_or(*refused);
            0
        }
        Err(refusal) => refuse(refusal, refused),
    }
}

/// Makes the glyphs of characters of a font, in the order given; repeats are made again. Copies as many entries and as many bytes
/// of pixels as fit to the front of `glyphs` and `pixels`, and tells of all. The pixels of a glyph are as `mkstrike_glyph` puts
/// them, those of one glyph after those of the one before. A character that is refused has the refusal's number in its entry, and
/// `refused` has the fields of the first one. Returns 0; or, if nothing can be made, the number of a refusal, whose fields it puts
/// into `refused`.
#[unsafe(no_mangle)]
pub extern "C" fn proved_mkstrike_glyphs(
    at: &FontAt<'_>,
    chars: &[u32],
    glyphs: &mut [Placed],
    pixels: &mut [u8],
    drawn: &mut Drawn,
    refused: &mut Refused,
) -> u32
    // No bit of the mode is unknown.
    ensures known { result ≡ 0 → is_mode at.now.mode ≡ true }
    // The glyphs are those of the characters; as many of their entries and pixels as fit were copied, and the first character that
    // was refused was told.
    ensures drawn { result ≡ 0 → AreDrawn (is_packed at.now.mode)
        (setting_for (file_at at.now) at.now.ppem chars.now (mode_of at.now.mode))
        chars.now glyphs.old glyphs.new pixels.old pixels.new drawn.new refused.old refused.new }
    // The mode was named; or the first cause; or memory was refused, after the size and the characters passed and the font and its
    // map opened.
    ensures refused { 0 < result → IsRefused (is_mode at.now.mode) (opened_many_of (file_at at.now) at.now.ppem chars.now)
        (setting_for (file_at at.now) at.now.ppem chars.now (mode_of at.now.mode)) result refused.new }
    // A refusal leaves the buffers and what is told as they were.
    ensures kept { 0 < result → (glyphs.new ≡ glyphs.old) × (pixels.new ≡ pixels.old) × (drawn.new ≡ drawn.old) }
{
    if !is_mode(at.mode) {
        return refuse_mode(refused);
    }
    let wanted = Wanted {
        packed: is_packed(at.mode),
        entries: glyphs.len(),
        pixels: pixels.len(),
    };
    let how = mode_of(at.mode);
    let found = gathered_of(at.alloc, &at.file(), at.ppem, how, chars, wanted);
    tell_all(found, glyphs, pixels, drawn, refused)
}

//! Glyphs by a block, for C.
ghost use Rattle.std.specs.Prelude.{◌≡◌, ◌<◌, ◌≤◌, true, min, IfOk, IfErr, IfSome, OnOk, length};
ghost use Rattle.fx_fixed.specs.Chain.{map_ok};
ghost use Rattle.fx_strike.specs.Faults.{Fails};
ghost use Rattle.fx_strike.specs.Headline.{IsOneOf};
ghost use Rattle.fx_strike.specs.Numbered.{numbered_with};
ghost use Rattle.fx_strike.specs.Strike.{one_of, opened_at, opened_many_of, opened_one_of, setting_for};
ghost use Rattle.mkstrike_c.specs.Drawn.{AreDrawn};
ghost use Rattle.mkstrike_c.specs.FontAt.{file_at};
ghost use Rattle.mkstrike_c.specs.Modes.{is_mode, is_packed, mode_of};
ghost use Rattle.mkstrike_c.specs.Prepared.{AreOwn, AreWordsOf, HasItsBlock, HasItsOrigin, IsItsOwn, IsNoBlock, IsRefusedBy};
ghost use Rattle.mkstrike_c.specs.Refused.{IsReason, IsRefused};
ghost use Rattle.mkstrike_c.specs.Shown.{IsMissing, IsShown, by_id};
ghost use Rattle.mkstrike_c.specs.inner.Gathering.{IsGathered};
ghost use Rattle.mkstrike_c.specs.inner.Showing.{FindsById, IsFoundBy};

use crate::block::words_for;
use crate::font_at::{FontAt, PreparedFont};
use crate::gathered::{Drawn, GlyphBuffers, Placed, Wanted};
use crate::glyph::{GlyphInfo, id_of, tell};
use crate::glyphs::{gathered_with, tell_all};
use crate::mode::{is_mode, is_packed, mode_of};
use crate::refused::{Refused, refuse_block, refuse_mode};
use fx_bdf::BitGlyph;
use fx_request::Refusal;
use fx_rows::Rows;
use fx_strike::Striker;

/// The glyph of a character, by the words of a block. None if they are not those of one.
fn one_by(at: &FontAt<'_>, words: &[u32], code: u32) -> Option<Result<Option<BitGlyph>, Refusal>>
    ensures due { AreWordsOf (file_at at.now) at.now.ppem (mode_of at.now.mode) words.now
        → IsFoundBy (IsOneOf (one_of (file_at at.now) at.now.ppem code (mode_of at.now.mode)))
        (IsReason (opened_one_of (file_at at.now) at.now.ppem code)
        (one_of (file_at at.now) at.now.ppem code (mode_of at.now.mode))) result }
    ensures own { IfSome result (λ r. OnOk r (AreOwn (file_at at.now) at.now.ppem (mode_of at.now.mode).hinting words.now)) }
{
    let how = mode_of(at.mode);
    match Striker::of_block_for(at.alloc, &at.file(), at.ppem, &[code], how, words) {
        Ok(Some(mut striker)) => Some(striker.glyph(code)),
        Ok(None) => None,
        Err(refusal) => Some(Err(refusal)),
    }
}

/// Makes the glyph of one character as `mkstrike_glyph` does, by a block. Returns also 65 if the words are not a block of this
/// font, face and size, or if it was made hinted and the mode is unhinted, or the other way round.
#[unsafe(no_mangle)]
pub extern "C" fn proved_mkstrike_glyph_prepared(
    by: &PreparedFont<'_>,
    code: u32,
    pixels: &mut [u8],
    info: &mut GlyphInfo,
    refused: &mut Refused,
) -> u32
    // No bit of the mode is unknown.
    ensures known { result ≤ 1 → is_mode by.now.at.mode ≡ true }
    // The block is for this font, face and size, and hinted or unhinted like the mode, as far as words can tell.
    ensures own { result ≤ 1 → IsItsOwn by.now }
    // With a block of this font all is as without it: the glyph is that of the character; these are its numbers, and its pixels
    // where there is room.
    ensures shown { HasItsBlock by.now → result ≡ 0
        → IsShown (is_packed by.now.at.mode) (one_of (file_at by.now.at) by.now.at.ppem code (mode_of by.now.at.mode))
        pixels.old pixels.new info.new }
    // The font does not have the character.
    ensures missing { HasItsBlock by.now → result ≡ 1
        → IsMissing (one_of (file_at by.now.at) by.now.at.ppem code (mode_of by.now.at.mode)) }
    // The mode was named; or the first cause; or memory was refused, after the font and its character map opened. So the block is
    // not refused.
    ensures refused { HasItsBlock by.now → 1 < result
        → IsRefused (is_mode by.now.at.mode) (opened_one_of (file_at by.now.at) by.now.at.ppem code)
        (one_of (file_at by.now.at) by.now.at.ppem code (mode_of by.now.at.mode)) result refused.new }
    // Words that do not begin as a block for this are refused as no block, after the mode.
    ensures foreign { (HasItsOrigin by.now → ⊥) → IsNoBlock (is_mode by.now.at.mode) result refused.new }
    // Whatever the words, a refusal is that of the mode, of the block, or one that has a name.
    ensures named { 1 < result → IsRefusedBy (is_mode by.now.at.mode) result refused.new }
    // Whatever the block, nothing but what was named is written.
    ensures kept { 0 < result → (pixels.new ≡ pixels.old) × (info.new ≡ info.old) }
    ensures silent { result ≤ 1 → refused.new ≡ refused.old }
{
    if !is_mode(by.at.mode) {
        return refuse_mode(refused);
    }
    let Some(words) = words_for(by) else {
        return refuse_block(refused);
    };
    let Some(found) = one_by(&by.at, words, code) else {
        return refuse_block(refused);
    };
    tell(found, is_packed(by.at.mode), pixels, info, refused)
}

/// A glyph by its number, of an opened font.
fn numbered(striker: &mut Striker<'_, Rows>, glyph: u32) -> Result<Option<BitGlyph>, Refusal>
    ensures found { IfOk result (FindsById (map_ok Some (numbered_with striker.old (min glyph 65535)))) }
    ensures refused { IfErr result (λ r. Fails r (map_ok Some (numbered_with striker.old (min glyph 65535)))) }
{
    let made = striker.numbered(id_of(glyph))?;
    Ok(Some(made))
}

/// A glyph by its number, by the words of a block. None if they are not those of one.
fn numbered_by(
    at: &FontAt<'_>,
    words: &[u32],
    glyph: u32,
) -> Option<Result<Option<BitGlyph>, Refusal>>
    ensures due { AreWordsOf (file_at at.now) at.now.ppem (mode_of at.now.mode) words.now
        → IsFoundBy (FindsById (by_id (file_at at.now) at.now.ppem glyph (mode_of at.now.mode)))
        (IsReason (opened_at (file_at at.now) at.now.ppem)
        (by_id (file_at at.now) at.now.ppem glyph (mode_of at.now.mode))) result }
    ensures own { IfSome result (λ r. OnOk r (AreOwn (file_at at.now) at.now.ppem (mode_of at.now.mode).hinting words.now)) }
{
    match Striker::of_block(at.alloc, &at.file(), at.ppem, mode_of(at.mode), words) {
        Ok(Some(mut striker)) => Some(numbered(&mut striker, glyph)),
        Ok(None) => None,
        Err(refusal) => Some(Err(refusal)),
    }
}

/// Makes a glyph of a font by its number as `mkstrike_glyph_by_id` does, by a block as `mkstrike_glyph_prepared`.
#[unsafe(no_mangle)]
pub extern "C" fn proved_mkstrike_glyph_by_id_prepared(
    by: &PreparedFont<'_>,
    glyph: u32,
    pixels: &mut [u8],
    info: &mut GlyphInfo,
    refused: &mut Refused,
) -> u32
    // No bit of the mode is unknown.
    ensures known { result ≡ 0 → is_mode by.now.at.mode ≡ true }
    // The block is for this font, face and size, and hinted or unhinted like the mode, as far as words can tell.
    ensures own { result ≡ 0 → IsItsOwn by.now }
    // With a block of this font all is as without it: the glyph is that of the number; these are its numbers, and its pixels where
    // there is room.
    ensures shown { HasItsBlock by.now → result ≡ 0
        → IsShown (is_packed by.now.at.mode) (by_id (file_at by.now.at) by.now.at.ppem glyph (mode_of by.now.at.mode))
        pixels.old pixels.new info.new }
    // The mode was named; or the first cause; or memory was refused, after the font and its character map opened. So the block is
    // not refused.
    ensures refused { HasItsBlock by.now → 0 < result
        → IsRefused (is_mode by.now.at.mode) (opened_at (file_at by.now.at) by.now.at.ppem)
        (by_id (file_at by.now.at) by.now.at.ppem glyph (mode_of by.now.at.mode)) result refused.new }
    // Words that do not begin as a block for this are refused as no block, after the mode.
    ensures foreign { (HasItsOrigin by.now → ⊥) → IsNoBlock (is_mode by.now.at.mode) result refused.new }
    // Whatever the words, a refusal is that of the mode, of the block, or one that has a name.
    ensures named { 1 < result → IsRefusedBy (is_mode by.now.at.mode) result refused.new }
    // Whatever the block, nothing but what was named is written.
    ensures kept { 0 < result → (pixels.new ≡ pixels.old) × (info.new ≡ info.old) }
    ensures silent { result ≡ 0 → refused.new ≡ refused.old }
{
    if !is_mode(by.at.mode) {
        return refuse_mode(refused);
    }
    let Some(words) = words_for(by) else {
        return refuse_block(refused);
    };
    let Some(found) = numbered_by(&by.at, words, glyph) else {
        return refuse_block(refused);
    };
    tell(found, is_packed(by.at.mode), pixels, info, refused)
}

/// The glyphs of characters, by the words of a block. None if they are not those of one.
fn gathered_by(
    at: &FontAt<'_>,
    words: &[u32],
    chars: &[u32],
    wanted: Wanted,
) -> Option<Result<GlyphBuffers, Refusal>>
    ensures due { AreWordsOf (file_at at.now) at.now.ppem (mode_of at.now.mode) words.now
        → IsFoundBy (IsGathered wanted (setting_for (file_at at.now) at.now.ppem chars.now (mode_of at.now.mode)) chars.now)
        (IsReason (opened_many_of (file_at at.now) at.now.ppem chars.now)
        (setting_for (file_at at.now) at.now.ppem chars.now (mode_of at.now.mode))) result }
    ensures own { IfSome result (λ r. OnOk r (AreOwn (file_at at.now) at.now.ppem (mode_of at.now.mode).hinting words.now)) }
{
    let how = mode_of(at.mode);
    match Striker::of_block_for(at.alloc, &at.file(), at.ppem, chars, how, words) {
        Ok(Some(mut striker)) => Some(gathered_with(at.alloc, &mut striker, chars, wanted)),
        Ok(None) => None,
        Err(refusal) => Some(Err(refusal)),
    }
}

/// Makes the glyphs of characters of a font as `mkstrike_glyphs` does, by a block as `mkstrike_glyph_prepared`.
#[unsafe(no_mangle)]
pub extern "C" fn proved_mkstrike_glyphs_prepared(
    by: &PreparedFont<'_>,
    chars: &[u32],
    glyphs: &mut [Placed],
    pixels: &mut [u8],
    drawn: &mut Drawn,
    refused: &mut Refused,
) -> u32
    // No bit of the mode is unknown.
    ensures known { result ≡ 0 → is_mode by.now.at.mode ≡ true }
    // The block is for this font, face and size, and hinted or unhinted like the mode, as far as words can tell.
    ensures own { result ≡ 0 → IsItsOwn by.now }
    // With a block of this font all is as without it: the glyphs are those of the characters; as many of their entries and pixels
    // as fit were copied, and the first character that was refused was told.
    ensures drawn { HasItsBlock by.now → result ≡ 0
        → AreDrawn (is_packed by.now.at.mode) (setting_for (file_at by.now.at) by.now.at.ppem chars.now (mode_of by.now.at.mode))
        chars.now glyphs.old glyphs.new pixels.old pixels.new drawn.new refused.old refused.new }
    // The mode was named; or the first cause; or memory was refused, after the size and the characters passed and the font and its
    // map opened. So the block is not refused.
    ensures refused { HasItsBlock by.now → 0 < result
        → IsRefused (is_mode by.now.at.mode) (opened_many_of (file_at by.now.at) by.now.at.ppem chars.now)
        (setting_for (file_at by.now.at) by.now.at.ppem chars.now (mode_of by.now.at.mode)) result refused.new }
    // Words that do not begin as a block for this are refused as no block, after the mode.
    ensures foreign { (HasItsOrigin by.now → ⊥) → IsNoBlock (is_mode by.now.at.mode) result refused.new }
    // Whatever the words, a refusal is that of the mode, of the block, or one that has a name.
    ensures named { 0 < result → IsRefusedBy (is_mode by.now.at.mode) result refused.new }
    // Whatever the block, a refusal leaves the buffers and what is told as they were.
    ensures kept { 0 < result → (glyphs.new ≡ glyphs.old) × (pixels.new ≡ pixels.old) × (drawn.new ≡ drawn.old) }
{
    if !is_mode(by.at.mode) {
        return refuse_mode(refused);
    }
    let Some(words) = words_for(by) else {
        return refuse_block(refused);
    };
    let wanted = Wanted {
        packed: is_packed(by.at.mode),
        entries: glyphs.len(),
        pixels: pixels.len(),
    };
    let Some(found) = gathered_by(&by.at, words, chars, wanted) else {
        return refuse_block(refused);
    };
    tell_all(found, glyphs, pixels, drawn, refused)
}

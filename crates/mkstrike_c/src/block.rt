//! Blocks: a font that was opened at a size, as words, from which calls draw without running the font's programs.
//!
//! The first six words say what a block is for: its form, the face, the size, whether the font's programs run, and the length of
//! the file. Those of the machine follow (`fx_strike::Striker::block`), if the font's programs run.
ghost use Rattle.std.specs.Prelude.{◌≡◌, ◌<◌, ◌++◌, ◌/◌, ◌%◌, ◌^◌, ◌≤◌, true, ℕ, List, IfOk, IfErr, IfSome, IsNone, IsSome, OnOk, length, option_map};
ghost use Rattle.fx_request.specs.declared.request.Mode.{Mode};
ghost use Rattle.fx_sfnt.specs.Collections.{face_in};
ghost use Rattle.fx_strike.specs.Strike.{opened_at, setting_of};
ghost use Rattle.mkstrike_c.specs.FontAt.{file_at};
ghost use Rattle.mkstrike_c.specs.Modes.{is_mode, mode_of};
ghost use Rattle.mkstrike_c.specs.Prepared.{AreWordsOf, HasItsBlock, HasItsOrigin, HasNone, IsBlock, IsFor, IsPrepared};
ghost use Rattle.mkstrike_c.specs.Prepared.{IsUnprepared, origin_words};
ghost use Rattle.mkstrike_c.specs.Refused.{IsReason};
ghost use Rattle.mkstrike_c.specs.inner.Origin.{after_origin, has_origin};

use crate::buffer::put_front;
use crate::font_at::{FontAt, PreparedFont};
use crate::mode::{is_mode, mode_of};
use crate::refused::{Refused, refuse, refuse_block, refuse_mode};
use fx_request::{Mode, Refusal};
use fx_sfnt::FontFile;
use fx_strike::Striker;
use std::alloc::{AllocError, Global};

/// What each block begins with: "mkC", and the version of its form.
const FORM: u32 = 0x6D6B_4301;

/// How many words say what a block is for.
const ORIGIN: usize = 6;

/// The higher 32 bits of a length.
fn high_of(long: usize) -> u32
    ensures { result ≡ long / 2 ^ 32 }
{
    (long >> 32) as u32
}

/// The lower 32 bits of a length.
fn low_of(long: usize) -> u32
    ensures { result ≡ long % 2 ^ 32 }
{
    (long % (1 << 32)) as u32
}

/// Adds the words that say what a block is for.
fn push_origin(
    words: &mut Vec<u32>,
    font: &[u8],
    face: u32,
    ppem: u16,
    hinting: bool,
) -> Result<(), AllocError>
    ensures { OnOk result (words.new.items ≡ words.old.items ++ origin_words font.now face ppem hinting) }
{
    words.push(FORM)?;
    words.push(face)?;
    words.push(u32::from(ppem))?;
    words.push(u32::from(hinting))?;
    words.push(high_of(font.len()))?;
    words.push(low_of(font.len()))?;
    Ok(())
}

/// Whether words begin as those of a block for a font at a size.
fn has_origin(font: &[u8], face: u32, ppem: u16, hinting: bool, words: &[u32]) -> bool
    requires { 6 ≤ length words.now }
    ensures { result ≡ has_origin font.now face ppem hinting words.now }
{
    words[0] == FORM
        && words[1] == face
        && words[2] == u32::from(ppem)
        && words[3] == u32::from(hinting)
        && words[4] == high_of(font.len())
        && words[5] == low_of(font.len())
}

/// The words after those that say what a block is for, if it is for this.
#[tactic(auto, unfolding(crate::specs::inner::Origin::after_origin))]
fn after_origin<'a>(
    font: &[u8],
    face: u32,
    ppem: u16,
    hinting: bool,
    words: &'a [u32],
) -> Option<&'a [u32]>
    ensures { option_map (λ w. w.now) result ≡ after_origin font.now face ppem hinting words.now }
{
    if words.len() < ORIGIN || !has_origin(font, face, ppem, hinting, words) {
        return None;
    }
    Some(&words[ORIGIN..])
}

/// The words of a block after those that say what it is for, if that is this font, face and size, and programs that run or don't.
pub fn words_for<'a>(by: &PreparedFont<'a>) -> Option<&'a [u32]>
    ensures words { IfSome result (λ w. (f : List ℕ) (i s : ℕ) (m : Mode) → IsBlock f i s m by.now.block.now
        → AreWordsOf (face_in f i) s m w.now) }
    ensures taken { HasItsBlock by.now → IsSome result }
    ensures own { IsSome result → IsFor by.now.at.font.now by.now.at.face by.now.at.ppem (mode_of by.now.at.mode).hinting
        by.now.block.now }
    ensures begins { IfSome result (λ w. HasItsOrigin by.now) }
{
    let at = &by.at;
    let hinting = mode_of(at.mode).hinting;
    let Some(words) = after_origin(at.font, at.face, at.ppem, hinting, by.block) else {
        return None;
    };
    Some(words)
}

/// The block of a font at a size; none if it has none.
fn block_of(
    alloc: Global,
    font: &[u8],
    face: u32,
    ppem: u16,
    mode: Mode,
) -> Result<Option<Vec<u32>>, Refusal>
    ensures block { IfOk result (λ made. IfSome made (λ b. IsBlock font.now face ppem mode b.items)) }
    ensures none { IfOk result (λ made. IsNone made → HasNone (setting_of (face_in font.now face) ppem mode)) }
    ensures refused { IfErr result (IsReason (opened_at (face_in font.now face) ppem)
        (setting_of (face_in font.now face) ppem mode)) }
{
    let striker = Striker::open(alloc, &FontFile::new(font, face), ppem, mode)?;
    let Some(words) = striker.block()? else {
        return Ok(None);
    };
    let mut block = Vec::with_capacity(alloc, ORIGIN + words.len())?;
    push_origin(&mut block, font, face, ppem, mode.hinting)?;
    block.extend_from_slice(words.as_slice())?;
    Ok(Some(block))
}

/// Opens a font at a size and puts a block of it at the front of `block`, as many words of it as fit, and tells how many it has.
/// Returns 0; or the number of a refusal, whose fields it puts into `refused`.
#[unsafe(no_mangle)]
pub extern "C" fn proved_mkstrike_prepare(
    at: &FontAt<'_>,
    block: &mut [u32],
    need: &mut usize,
    refused: &mut Refused,
) -> u32
    // No bit of the mode is unknown.
    ensures known { result ≡ 0 → is_mode at.now.mode ≡ true }
    // A block was made, as many of its words as fit were copied, and this is how many it has.
    ensures block { result ≡ 0 → IsPrepared at.now.font.now at.now.face at.now.ppem (mode_of at.now.mode)
        block.old block.new need.new }
    // The mode was named; or the first cause; or memory was refused, after the font and its character map opened; or there is no
    // block of the font.
    ensures refused { 0 < result → IsUnprepared (is_mode at.now.mode) (opened_at (file_at at.now) at.now.ppem)
        (setting_of (file_at at.now) at.now.ppem (mode_of at.now.mode)) result refused.new }
    // Nothing but what was named is written.
    ensures kept { 0 < result → (block.new ≡ block.old) × (need.new ≡ need.old) }
    ensures silent { result ≡ 0 → refused.new ≡ refused.old }
{
    if !is_mode(at.mode) {
        return refuse_mode(refused);
    }
    match block_of(at.alloc, at.font, at.face, at.ppem, mode_of(at.mode)) {
        Ok(Some(words)) => {
            put_front(block, words.as_slice());
            *need = words.len();
            0
        }
        Ok(None) => refuse_block(refused),
        Err(refusal) => refuse(refusal, refused),
    }
}

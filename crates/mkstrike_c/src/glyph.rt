//! One glyph for C.
ghost use Rattle.std.specs.Prelude.{◌≡◌, ◌<◌, ◌≤◌, ◌^◌, length, min, true, IfOk, IfErr};
ghost use Rattle.std.specs.List.{flat_map};
ghost use Rattle.fx_request.specs.Refusals.{number_of};
ghost use Rattle.fx_strike.specs.Strike.{one_of, opened_at, opened_one_of};
ghost use Rattle.mkstrike_c.specs.FontAt.{file_at};
ghost use Rattle.mkstrike_c.specs.Modes.{is_mode, is_packed, mode_of};
ghost use Rattle.mkstrike_c.specs.Pixels.{row_bytes, size_of};
ghost use Rattle.mkstrike_c.specs.Shown.{HasPixels, IsMissing, IsShown, by_id, info_of, status_of};
ghost use Rattle.mkstrike_c.specs.Refused.{IsReason, IsRefused, refused_of};
ghost use Rattle.mkstrike_c.specs.inner.Showing.{FindsById, IsTold};

use crate::font_at::FontAt;
use crate::mode::{is_mode, is_packed, mode_of};
use crate::pixels::{put_pixels, stride};
use crate::refused::{Refused, refuse, refuse_mode};
use fx_bdf::BitGlyph;
use fx_request::{Mode, Refusal};
use fx_sfnt::FontFile;
use fx_strike::Striker;
use fx_views::one;
use std::alloc::Global;

/// The numbers of a glyph.
#[repr(C)]
#[derive(Clone, Copy)]
pub struct GlyphInfo {
    /// The width and the height of the tight box of the set bits in pixels, and the column and row of its lower left pixel.
    pub width: u32,
    pub height: u32,
    pub left: i32,
    pub bottom: i32,
    /// The bytes of a row of its pixels.
    pub stride: u32,
    /// The advance in pixels, and in 1/1000 of an em.
    pub dwidth: i32,
    pub swidth: i32,
}

/// The font does not have the character, or the name.
pub const MISSING: u32 = 1;

/// The numbers of a glyph.
pub fn info_of(glyph: &BitGlyph, packed: bool) -> GlyphInfo
    ensures { result ≡ info_of packed glyph.now }
{
    let bounds = glyph.bounds();
    GlyphInfo {
        width: bounds.width,
        height: bounds.height,
        left: bounds.left,
        bottom: bounds.bottom,
        stride: stride(bounds.width, packed),
        dwidth: glyph.dwidth(),
        swidth: glyph.swidth(),
    }
}

/// How many bytes a glyph's pixels take.
pub fn size(glyph: &BitGlyph, packed: bool) -> usize
    ensures value { result ≡ size_of packed glyph.now }
    ensures long { result ≡ length (flat_map (row_bytes packed) glyph.now.rows) }
    ensures small { result ≤ 2 ^ 26 }
{
    let bounds = glyph.bounds();
    bounds.height as usize * stride(bounds.width, packed) as usize
}

/// Puts the pixels of a glyph at the front of a buffer, if there is room for them.
fn put_if_room(glyph: &BitGlyph, packed: bool, buffer: &mut [u8])
    ensures { HasPixels packed glyph.now buffer.old buffer.new }
{
    let size = size(glyph, packed);
    if size <= buffer.len() {
        put_pixels(glyph, packed, &mut buffer[..size]);
    }
}

/// What a call returns of a character that was looked up.
pub fn status_of(made: &Option<BitGlyph>) -> u32
    ensures { result ≡ status_of made.now }
{
    if made.is_some() { 0 } else { MISSING }
}

/// Tells the glyph that was made, or why there is none.
pub fn tell(
    found: Result<Option<BitGlyph>, Refusal>,
    packed: bool,
    pixels: &mut [u8],
    info: &mut GlyphInfo,
    refused: &mut Refused,
) -> u32
    ensures found { IfOk found (λ made. IsTold packed made pixels.old pixels.new info.old info.new result) }
    ensures silent { IfOk found (λ made. refused.new ≡ refused.old) }
    ensures refused { IfErr found (λ r. (result ≡ number_of r) × (refused.new ≡ refused_of r)) }
    ensures least { IfErr found (λ r. 10 ≤ result) }
    ensures kept { IfErr found (λ r. (pixels.new ≡ pixels.old) × (info.new ≡ info.old)) }
{
    match found {
        Ok(made) => {
            if let Some(made) = &made {
                put_if_room(made, packed, pixels);
                *info = info_of(made, packed);
            }
            status_of(&made)
        }
        Err(refusal) => refuse(refusal, refused),
    }
}

/// Makes the glyph of one character of a font: its numbers, and, if `pixels` has room for them, its pixels at the front, row by
/// row from the top: a byte each, or packed, eight a byte. Returns 0; 1 if the font does not have the character; or the number of
/// a refusal, whose fields it puts into `refused`.
#[unsafe(no_mangle)]
pub extern "C" fn proved_mkstrike_glyph(
    at: &FontAt<'_>,
    code: u32,
    pixels: &mut [u8],
    info: &mut GlyphInfo,
    refused: &mut Refused,
) -> u32
    // No bit of the mode is unknown.
    ensures known { result ≤ 1 → is_mode at.now.mode ≡ true }
    // The glyph is that of the character; these are its numbers, and its pixels where there is room.
    ensures shown { result ≡ 0 → IsShown (is_packed at.now.mode) (one_of (file_at at.now) at.now.ppem code (mode_of at.now.mode))
        pixels.old pixels.new info.new }
    // The font does not have the character.
    ensures missing { result ≡ 1 → IsMissing (one_of (file_at at.now) at.now.ppem code (mode_of at.now.mode)) }
    // The mode was named; or the first cause; or memory was refused, after the font and its character map opened.
    ensures refused { 1 < result → IsRefused (is_mode at.now.mode) (opened_one_of (file_at at.now) at.now.ppem code)
        (one_of (file_at at.now) at.now.ppem code (mode_of at.now.mode)) result refused.new }
    // Nothing but what was named is written.
    ensures kept { 0 < result → (pixels.new ≡ pixels.old) × (info.new ≡ info.old) }
    ensures silent { result ≤ 1 → refused.new ≡ refused.old }
{
    if !is_mode(at.mode) {
        return refuse_mode(refused);
    }
    let found = one(at.alloc, &at.file(), at.ppem, code, mode_of(at.mode));
    tell(found, is_packed(at.mode), pixels, info, refused)
}

/// A glyph's number in 16 bits; no font has a glyph of the number 65,535.
pub fn id_of(glyph: u32) -> u16
    ensures { result ≡ min glyph 65535 }
{
    glyph.min(65535) as u16
}

/// A glyph of a font by its number.
fn found_by_id(
    alloc: Global,
    font: &FontFile<'_>,
    ppem: u16,
    glyph: u32,
    mode: Mode,
) -> Result<Option<BitGlyph>, Refusal>
    ensures found { IfOk result (FindsById (by_id font.now ppem glyph mode)) }
    ensures refused { IfErr result (IsReason (opened_at font.now ppem) (by_id font.now ppem glyph mode)) }
{
    let mut striker = Striker::open(alloc, font, ppem, mode)?;
    let id = id_of(glyph);
    let made = striker.numbered(id)?;
    Ok(Some(made))
}

/// Makes a glyph of a font by its number, as `mkstrike_glyph` makes that of a character.
#[unsafe(no_mangle)]
pub extern "C" fn proved_mkstrike_glyph_by_id(
    at: &FontAt<'_>,
    glyph: u32,
    pixels: &mut [u8],
    info: &mut GlyphInfo,
    refused: &mut Refused,
) -> u32
    // No bit of the mode is unknown.
    ensures known { result ≡ 0 → is_mode at.now.mode ≡ true }
    // The glyph is that of the number; these are its numbers, and its pixels where there is room.
    ensures shown { result ≡ 0 → IsShown (is_packed at.now.mode) (by_id (file_at at.now) at.now.ppem glyph (mode_of at.now.mode))
        pixels.old pixels.new info.new }
    // The mode was named; or the first cause; or memory was refused, after the font and its character map opened.
    ensures refused { 0 < result → IsRefused (is_mode at.now.mode) (opened_at (file_at at.now) at.now.ppem)
        (by_id (file_at at.now) at.now.ppem glyph (mode_of at.now.mode)) result refused.new }
    // Nothing but what was named is written.
    ensures kept { 0 < result → (pixels.new ≡ pixels.old) × (info.new ≡ info.old) }
    ensures silent { result ≡ 0 → refused.new ≡ refused.old }
{
    if !is_mode(at.mode) {
        return refuse_mode(refused);
    }
    let found = found_by_id(at.alloc, &at.file(), at.ppem, glyph, mode_of(at.mode));
    tell(found, is_packed(at.mode), pixels, info, refused)
}

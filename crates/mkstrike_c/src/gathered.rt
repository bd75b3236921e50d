//! What became of characters so far, in memory, as much of it as the caller's buffers have room for.
ghost use Rattle.std.specs.Prelude.{◌≡◌, ◌<◌, ◌≤◌, ◌+◌, ◌++◌, ◌∷◌, ◌^◌, [], ℕ, List, Option, OnOk, IfOk, length, take, vec_len};
ghost use Rattle.std.specs.Option.{option_or};
ghost use Rattle.std.specs.List.{flat_map};
ghost use Rattle.fx_request.specs.Limits.{max_characters};
ghost use Rattle.mkstrike_c.specs.Pixels.{row_bytes};
ghost use Rattle.mkstrike_c.specs.Drawn.{Outcome, drawn_of, entry_of, info_in, is_made, is_missing, is_refused, pixels_of};
ghost use Rattle.mkstrike_c.specs.Drawn.{refused_in, status_in};
ghost use Rattle.mkstrike_c.specs.inner.Gathering.{AreCounted, Holds, counted_in, with_one};

use crate::glyph::{GlyphInfo, info_of, size, status_of};
use crate::pixels::put_pixels;
use crate::refused::{Refused, number, refused_at};
use fx_bdf::BitGlyph;
use fx_request::Refusal;
use std::alloc::{AllocError, Global};

/// What became of a character: its glyph, or none if the font does not have it; or why it was refused.
pub type Outcome = Result<Option<BitGlyph>, Refusal>;

/// One of many characters: its glyph, and where its pixels are.
#[repr(C)]
#[derive(Clone, Copy)]
pub struct Placed {
    /// The numbers of its glyph; all are 0 if none was made.
    pub glyph: GlyphInfo,
    /// What `mkstrike_glyph` returns of it: 0; 1 if the font does not have the character; or the number of a refusal.
    pub status: u32,
    /// The offset of its first byte in the pixels of all.
    pub offset: usize,
}

/// What is told of many characters.
#[repr(C)]
#[derive(Clone, Copy)]
pub struct Drawn {
    /// The number of bytes of the pixels of all.
    pub bytes: usize,
    /// The number of characters whose glyphs were made.
    pub glyphs: u32,
    /// The number of characters that the font does not have.
    pub missing: u32,
    /// The number of characters that were refused.
    pub refused: u32,
}

/// The form of pixels, and how many entries and bytes of pixels there is room for.
#[derive(Clone, Copy)]
pub struct Wanted {
    pub packed: bool,
    pub entries: usize,
    pub pixels: usize,
}

/// What became of characters so far.
#[derive(Drop)]
pub struct GlyphBuffers {
    wanted: Wanted,
    entries: Vec<Placed>,
    pixels: Vec<u8>,
    drawn: Drawn,
    first: Option<Refused>,
}

/// The numbers of a character of which no glyph was made.
const NO_INFO: GlyphInfo = GlyphInfo {
    width: 0,
    height: 0,
    left: 0,
    bottom: 0,
    stride: 0,
    dwidth: 0,
    swidth: 0,
};

/// No character.
const NONE_DRAWN: Drawn = Drawn {
    bytes: 0,
    glyphs: 0,
    missing: 0,
    refused: 0,
};

/// The numbers of a character.
fn info_in(outcome: &Outcome, packed: bool) -> GlyphInfo
    ensures { result ≡ info_in packed outcome.now }
{
    match outcome {
        Ok(Some(glyph)) => info_of(glyph, packed),
        _ => NO_INFO,
    }
}

/// What an entry says of a character.
fn status_in(outcome: &Outcome) -> u32
    ensures { result ≡ status_in outcome.now }
{
    match outcome {
        Ok(made) => status_of(made),
        Err(refusal) => number(*refusal),
    }
}

/// The entry of a character whose pixels begin at an offset.
fn entry_of(outcome: &Outcome, packed: bool, offset: usize) -> Placed
    ensures { result ≡ entry_of packed offset outcome.now }
{
    Placed {
        glyph: info_in(outcome, packed),
        status: status_in(outcome),
        offset,
    }
}

/// How many bytes a character's pixels take.
fn size_in(outcome: &Outcome, packed: bool) -> usize
    ensures value { result ≡ length (pixels_of packed outcome.now) }
    ensures small { result ≤ 2 ^ 26 }
{
    match outcome {
        Ok(Some(glyph)) => size(glyph, packed),
        _ => 0,
    }
}

/// The fields of a character, if it was refused.
fn refused_in(outcome: &Outcome, index: u32, code: u32) -> Option<Refused>
    ensures { result ≡ refused_in index code outcome.now }
{
    match outcome {
        Ok(_) => None,
        Err(refusal) => Some(refused_at(index, code, *refusal)),
    }
}

/// Adds an entry to a list, if there is room for one more.
fn push_within(entries: &mut Vec<Placed>, room: usize, entry: Placed) -> Result<(), AllocError>
    requires { vec_len entries.old ≤ room }
    ensures { OnOk result (entries.new.items ≡ take room (entries.old.items ++ entry ∷ [])) }
{
    if entries.len() < room {
        entries.push(entry)?;
    }
    Ok(())
}

/// Adds the pixels of a glyph to a list, as far as there is room.
fn append_within(
    pixels: &mut Vec<u8>,
    room: usize,
    glyph: &BitGlyph,
    packed: bool,
) -> Result<(), AllocError>
    requires { vec_len pixels.old ≤ room }
    ensures { OnOk result (pixels.new.items ≡
        take room (pixels.old.items ++ flat_map (row_bytes packed) glyph.now.rows)) }
{
    let start = pixels.len();
    if start < room {
        pixels.resize(start + size(glyph, packed), 0)?;
        put_pixels(glyph, packed, &mut pixels[start..]);
        pixels.truncate(room);
    }
    Ok(())
}

/// Adds the pixels of a character, as far as there is room.
fn extend_within(
    pixels: &mut Vec<u8>,
    room: usize,
    outcome: &Outcome,
    packed: bool,
) -> Result<(), AllocError>
    requires { vec_len pixels.old ≤ room }
    ensures { OnOk result (pixels.new.items ≡ take room (pixels.old.items ++ pixels_of packed outcome.now)) }
{
    match outcome {
        Ok(Some(glyph)) => append_within(pixels, room, glyph, packed),
        _ => Ok(()),
    }
}

/// How many characters were counted.
fn counted_in(drawn: Drawn) -> u32
    requires { counted_in drawn ≤ max_characters }
    ensures { result ≡ counted_in drawn }
{
    drawn.glyphs + drawn.missing + drawn.refused
}

/// What is told of one character more.
fn with_one(drawn: Drawn, outcome: &Outcome, packed: bool) -> Drawn
    requires counted { AreCounted drawn (counted_in drawn) }
    requires few { counted_in drawn < max_characters }
    ensures value { result ≡ with_one packed drawn outcome.now }
    ensures counted { AreCounted result (counted_in drawn + 1) }
{
    Drawn {
        bytes: drawn.bytes + size_in(outcome, packed),
        glyphs: drawn.glyphs + u32::from(matches!(outcome, Ok(Some(_)))),
        missing: drawn.missing + u32::from(matches!(outcome, Ok(None))),
        refused: drawn.refused + u32::from(outcome.is_err()),
    }
}

impl GlyphBuffers {
    /// No character, before this many are made.
    pub fn new(alloc: Global, wanted: Wanted, most: usize) -> Result<GlyphBuffers, AllocError>
        ensures holds { IfOk result (Holds wanted [] []) }
        ensures counted { IfOk result (λ g. AreCounted g.drawn 0) }
    {
        Ok(GlyphBuffers {
            wanted,
            entries: Vec::with_capacity(alloc, most.min(wanted.entries))?,
            pixels: Vec::new(alloc),
            drawn: NONE_DRAWN,
            first: None,
        })
    }

    /// Adds what became of one more character.
    pub fn add(&mut self, code: u32, outcome: &Outcome) -> Result<(), AllocError>
        requires counted { AreCounted self.old.drawn (counted_in self.old.drawn) }
        requires few { counted_in self.old.drawn < max_characters }
        requires entries { vec_len self.old.entries ≤ self.old.wanted.entries }
        requires pixels { vec_len self.old.pixels ≤ self.old.wanted.pixels }
        ensures counted { OnOk result (AreCounted self.new.drawn (counted_in self.old.drawn + 1)) }
        ensures holds { OnOk result ((wanted : Wanted) (codes : List ℕ) (outcomes : List Outcome) → length codes ≡ length outcomes
            → Holds wanted codes outcomes self.old → Holds wanted (codes ++ code ∷ []) (outcomes ++ outcome.now ∷ []) self.new) }
    {
        let wanted = self.wanted;
        let entry = entry_of(outcome, wanted.packed, self.drawn.bytes);
        push_within(&mut self.entries, wanted.entries, entry)?;
        extend_within(&mut self.pixels, wanted.pixels, outcome, wanted.packed)?;
        let index = counted_in(self.drawn);
        self.first = self.first.or(refused_in(outcome, index, code));
        self.drawn = with_one(self.drawn, outcome, wanted.packed);
        Ok(())
    }

    /// As many entries as there is room for.
    pub fn entries(&self) -> &[Placed]
        ensures { result.now ≡ self.now.entries.items }
    {
        self.entries.as_slice()
    }

    /// As many bytes of pixels as there is room for.
    pub fn pixels(&self) -> &[u8]
        ensures { result.now ≡ self.now.pixels.items }
    {
        self.pixels.as_slice()
    }

    /// What is told of all.
    pub fn drawn(&self) -> Drawn
        ensures { result ≡ self.now.drawn }
    {
        self.drawn
    }

    /// The fields of the first character that was refused.
    pub fn first(&self) -> Option<Refused>
        ensures { result ≡ self.now.first }
    {
        self.first
    }
}

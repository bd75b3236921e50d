//! Blocks: what `fpgm` and `prep` left, as a list of words of 32 bits, so that no program runs when the font is opened again.
//!
//! `specs/Blocks` says which word is what. The first five tell the form of a block, the size and the font; 20 more come before the
//! lists.

ghost use Rattle.std.specs.Prelude.{◌≡◌, ◌+◌, ◌*◌, ◌^◌, ◌≤◌, ◌<◌, ◌++◌, OnOk, codes, length, slice_index, unsigned_abs, option_map, FitsSigned};
ghost use Rattle.std.specs.Prelude.{IfSome, IsSome};
ghost use Rattle.std.specs.Int.{w32};
ghost use Rattle.fx_sfnt.specs.Tables.{table_or_empty};
ghost use Rattle.fx_machine.specs.Words.{number_in};
ghost use Rattle.fx_machine.specs.Blocks.{AreParts, count_of, sizes_in, start_in, flags_in, usage_in, checksum_of, has_origin};
ghost use Rattle.fx_machine.specs.Blocks.{origin_words, after_origin, usage_words, distance_words, width_words, delta_words};
ghost use Rattle.fx_machine.specs.Blocks.{start_words, flags_words, IsStart};
ghost use Rattle.fx_machine.specs.Blocks.{control_in, control_word, type_in, type_word, scan_words};

use crate::state::{InstructControl, table_or_empty};
use crate::usage::Usage;
use fx_fixed::{F26, Ppem};
use fx_gstate::{DeltaShift, GState, ScanType};
use fx_sfnt::{Font, u32_at};
use std::alloc::AllocError;

/// What each block begins with: "mks", and the version of its form.
const FORM: u32 = 0x6D6B_7302;

/// How many words tell the form, the size and the font.
const ORIGIN: usize = 5;

/// How many words there are between those and the lists.
pub(crate) const HEAD: usize = 20;

/// The words of each list.
#[derive(Clone, Copy)]
pub(crate) struct BlockWords<'a> {
    pub storage: &'a [u32],
    pub cvt: &'a [u32],
    pub twilight: &'a [u32],
    pub functions: &'a [u32],
    pub opcodes: &'a [u32],
}

/// The checksum that a font file has in `head`.
fn checksum_of(font: &Font<'_>) -> u32
    ensures { result ≡ checksum_of font.now }
{
    u32_at(table_or_empty(font, *b"head"), 8).unwrap_or(0)
}

/// Whether words begin as those of a font with these programs at a size.
fn has_origin(font: &Font<'_>, fpgm: &[u8], prep: &[u8], ppem: Ppem, words: &[u32]) -> bool
    requires five { 5 ≤ length words.now }
    requires fpgm { fpgm.now ≡ table_or_empty font.now (codes "fpgm") }
    requires prep { prep.now ≡ table_or_empty font.now (codes "prep") }
    ensures { result ≡ has_origin font.now ppem words.now }
{
    words[0] == FORM
        && words[1] == u32::from(ppem.pixels())
        && words[2] == checksum_of(font)
        && words[3] as usize == fpgm.len()
        && words[4] as usize == prep.len()
}

/// The words after the first five, if these are those of a font with these programs at a size.
#[tactic(auto, unfolding(crate::specs::Blocks::after_origin))]
pub(crate) fn after_origin<'a>(
    font: &Font<'_>,
    fpgm: &[u8],
    prep: &[u8],
    ppem: Ppem,
    words: &'a [u32],
) -> Option<&'a [u32]>
    requires fpgm { fpgm.now ≡ table_or_empty font.now (codes "fpgm") }
    requires prep { prep.now ≡ table_or_empty font.now (codes "prep") }
    ensures { option_map (λ w. w.now) result ≡ after_origin font.now ppem words.now }
{
    if words.len() < ORIGIN || !has_origin(font, fpgm, prep, ppem, words) {
        return None;
    }
    Some(&words[ORIGIN..])
}

/// Adds the words that tell the form, the size and the font.
pub(crate) fn push_origin(
    words: &mut Vec<u32>,
    font: &Font<'_>,
    ppem: Ppem,
) -> Result<(), AllocError>
    ensures { OnOk result (words.new.items ≡ words.old.items ++ origin_words font.now ppem) }
{
    words.push(FORM)?;
    words.push(u32::from(ppem.pixels()))?;
    words.push(checksum_of(font))?;
    words.push(table_or_empty(font, *b"fpgm").len() as u32)?;
    words.push(table_or_empty(font, *b"prep").len() as u32)?;
    Ok(())
}

/// How many words there are after the first five, by the counts that they say.
pub(crate) fn count_in(words: &[u32]) -> usize
    requires { 20 ≤ length words.now }
    ensures { result ≡ count_of (sizes_in words.now) }
{
    HEAD + words[0] as usize
        + words[1] as usize
        + 5 * words[2] as usize
        + words[3] as usize
        + words[4] as usize
}

/// The words of each list, by the counts that they say.
pub(crate) fn parts_of<'a>(words: &'a [u32]) -> BlockWords<'a>
    requires head { 20 ≤ length words.now }
    requires enough { count_of (sizes_in words.now) ≤ length words.now }
    ensures { AreParts (sizes_in words.now) words.now result.storage.now result.cvt.now result.twilight.now result.functions.now
        result.opcodes.now }
{
    let (storage, after) = words[HEAD..].split_at(words[0] as usize);
    let (cvt, after) = after.split_at(words[1] as usize);
    let (twilight, after) = after.split_at(5 * words[2] as usize);
    let (functions, after) = after.split_at(words[3] as usize);
    let (opcodes, _) = after.split_at(words[4] as usize);
    BlockWords {
        storage,
        cvt,
        twilight,
        functions,
        opcodes,
    }
}

/// The number of two words, the high one first.
fn long_of(high: u32, low: u32) -> u64
    ensures { result ≡ high * 2 ^ 32 + low }
{
    u64::from(high) * 4_294_967_296 + u64::from(low)
}

/// What `fpgm` and `prep` used up.
pub(crate) fn usage_in(words: &[u32]) -> Usage
    requires { 20 ≤ length words.now }
    ensures { result ≡ usage_in words.now }
{
    Usage {
        steps: long_of(words[5], words[6]),
        strays: long_of(words[7], words[8]),
    }
}

/// Adds the words of what `fpgm` and `prep` used up.
pub(crate) fn push_usage(words: &mut Vec<u32>, usage: Usage) -> Result<(), AllocError>
    ensures { OnOk result (words.new.items ≡ words.old.items ++ usage_words usage) }
{
    words.push((usage.steps >> 32) as u32)?;
    words.push((usage.steps % (1 << 32)) as u32)?;
    words.push((usage.strays >> 32) as u32)?;
    words.push((usage.strays % (1 << 32)) as u32)?;
    Ok(())
}

/// The flags.
pub(crate) fn flags_in(words: &[u32]) -> InstructControl
    requires { 20 ≤ length words.now }
    ensures { result ≡ flags_in words.now }
{
    InstructControl {
        no_programs: words[18] == 1,
        default_state: words[19] == 1,
    }
}

/// Adds the words of the flags.
pub(crate) fn push_flags(words: &mut Vec<u32>, flags: InstructControl) -> Result<(), AllocError>
    ensures { OnOk result (words.new.items ≡ words.old.items ++ flags_words flags) }
{
    words.push(u32::from(flags.no_programs))?;
    words.push(u32::from(flags.default_state))?;
    Ok(())
}

/// The shift of delta instructions; `None` if the word is above 6.
pub(crate) fn shift_in(words: &[u32]) -> Option<DeltaShift>
    requires { 20 ≤ length words.now }
    ensures value { IfSome result (λ s. s ≡ unsigned_abs (number_in (slice_index words.now 15))) }
    ensures small { slice_index words.now 15 ≤ 6 → IsSome result }
{
    DeltaShift::of(words[15].cast_signed()).ok()
}

/// The scan control of a word.
fn control_in(word: u32) -> Option<bool>
    ensures { result ≡ control_in word }
{
    if word == 0 { None } else { Some(word == 2) }
}

/// The word of a scan control: 0 none, 1 off, 2 on.
fn control_word(control: Option<bool>) -> u32
    ensures { result ≡ control_word control }
{
    match control {
        None => 0,
        Some(false) => 1,
        Some(true) => 2,
    }
}

/// The scan type of a word.
fn type_in(word: u32) -> ScanType
    ensures { result ≡ type_in word }
{
    if word == 1 {
        return ScanType::Leftmost;
    }
    if word == 2 {
        return ScanType::Nearest;
    }
    ScanType::Off
}

/// The word of a scan type.
fn type_word(kind: ScanType) -> u32
    ensures { result ≡ type_word kind }
{
    match kind {
        ScanType::Off => 0,
        ScanType::Leftmost => 1,
        ScanType::Nearest => 2,
    }
}

/// The graphics state that programs of glyphs begin with.
pub(crate) fn start_in(words: &[u32], delta_shift: DeltaShift) -> GState
    requires head { 20 ≤ length words.now }
    requires shift { delta_shift ≡ unsigned_abs (number_in (slice_index words.now 15)) }
    ensures { result ≡ start_in words.now }
{
    GState {
        auto_flip: words[9] == 1,
        cut_in: F26(words[10].cast_signed()),
        minimum_distance: F26(words[11].cast_signed()),
        single_width: F26(words[12].cast_signed()),
        single_width_cut_in: F26(words[13].cast_signed()),
        delta_base: words[14].cast_signed(),
        delta_shift,
        scan_control: control_in(words[16]),
        scan_type: type_in(words[17]),
        ..GState::new()
    }
}

/// Adds the words of the cut-in and of the minimum distance.
fn push_distances(words: &mut Vec<u32>, g: &GState) -> Result<(), AllocError>
    ensures words { OnOk result (words.new.items ≡ words.old.items ++ distance_words g.now) }
    ensures cut_in { OnOk result (FitsSigned w32 g.now.cut_in) }
    ensures minimum_distance { OnOk result (FitsSigned w32 g.now.minimum_distance) }
{
    words.push(g.cut_in.0.cast_unsigned())?;
    words.push(g.minimum_distance.0.cast_unsigned())?;
    Ok(())
}

/// Adds the words of the single width and its cut-in.
fn push_widths(words: &mut Vec<u32>, g: &GState) -> Result<(), AllocError>
    ensures words { OnOk result (words.new.items ≡ words.old.items ++ width_words g.now) }
    ensures single_width { OnOk result (FitsSigned w32 g.now.single_width) }
    ensures single_width_cut_in { OnOk result (FitsSigned w32 g.now.single_width_cut_in) }
{
    words.push(g.single_width.0.cast_unsigned())?;
    words.push(g.single_width_cut_in.0.cast_unsigned())?;
    Ok(())
}

/// Adds the words of what delta instructions go by.
fn push_deltas(words: &mut Vec<u32>, g: &GState) -> Result<(), AllocError>
    ensures words { OnOk result (words.new.items ≡ words.old.items ++ delta_words g.now) }
    ensures delta_base { OnOk result (FitsSigned w32 g.now.delta_base) }
    ensures delta_shift { OnOk result (g.now.delta_shift ≤ 6) }
{
    words.push(g.delta_base.cast_unsigned())?;
    words.push(u32::from(g.delta_shift.shift()))?;
    Ok(())
}

/// Adds the words of what was asked of drop-out control.
fn push_scan(words: &mut Vec<u32>, g: &GState) -> Result<(), AllocError>
    ensures { OnOk result (words.new.items ≡ words.old.items ++ scan_words g.now) }
{
    words.push(control_word(g.scan_control))?;
    words.push(type_word(g.scan_type))?;
    Ok(())
}

/// Adds the words of the graphics state that programs of glyphs begin with.
pub(crate) fn push_start(words: &mut Vec<u32>, g: &GState) -> Result<(), AllocError>
    ensures words { OnOk result (words.new.items ≡ words.old.items ++ start_words g.now) }
    ensures numbered { OnOk result (IsStart g.now) }
{
    words.push(u32::from(g.auto_flip))?;
    push_distances(words, g)?;
    push_widths(words, g)?;
    push_deltas(words, g)?;
    push_scan(words, g)
}

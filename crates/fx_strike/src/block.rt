//! Blocks: a font that was opened at a size, as words, so that no program runs when it is opened again.
ghost use Rattle.std.specs.Prelude.{◌≡◌, Bool, Option, Ok, Some, true, IfOk, IfErr, IfSome, IsSome, IsErrOf, OnOk, is_some};
ghost use Rattle.fx_machine.specs.Blocks.{IsBlockOf};
ghost use Rattle.fx_strike.specs.Blocks.{IsBlockFor, IsBlockIn, IsOwn, has_block, opened_in};
ghost use Rattle.fx_strike.specs.Strike.{Setting, checked_chars, machine_for, setting_for, setting_in, setting_of, opened_at};
ghost use Rattle.fx_strike.specs.Strike.{opened_many_of, Known, Fails};
ghost use Rattle.fx_strike.specs.Headline.{Late};

use crate::hinter::FontHinter;
use crate::open::open_many;
use crate::opened::{Basis, Opened};
use crate::striker::Striker;
use fx_machine::Machine;
use fx_raster::{Rows, Scan};
use fx_request::{Mode, Refusal};
use fx_sfnt::FontFile;
use std::alloc::{AllocError, Global};

/// The hinter of an opened font, read from a block; no program runs. None if hinting is on and the words are not a block of this
/// font and size.
#[tactic(auto, unfolding(crate::specs::Strike::machine_for))]
fn hinter_in<'a>(
    alloc: Global,
    opened: &Opened<'a>,
    hinting: bool,
    block: &[u32],
) -> Result<Option<FontHinter<'a>>, AllocError>
    ensures taken { IfOk result (λ made. (machine : Option Known) (careful : Bool)
        → machine_for opened.now.font opened.now.ppem hinting careful ≡ Ok machine
        → IsBlockFor machine block.now → made ≡ Some machine) }
    ensures own { IfOk result (λ made. (known : Known) → IsBlockOf known block.now → hinting ≡ true → IsSome made
        → IsOwn known opened.now.font opened.now.ppem) }
{
    if !hinting {
        return Ok(Some(FontHinter::none(alloc)));
    }
    let Some(machine) = Machine::of_block(alloc, opened.font.shared(), opened.ppem, block)? else {
        return Ok(None);
    };
    let hinter = FontHinter::of(alloc, machine)?;
    Ok(Some(hinter))
}

/// The striker of an opened font, its hinter read from a block.
fn striker_in<'a>(
    alloc: Global,
    opened: Opened<'a>,
    mode: Mode,
    block: &[u32],
) -> Result<Option<Striker<'a, Rows>>, AllocError>
    ensures setting { IfOk result (λ made. (s : Setting) → setting_in opened.entry mode ≡ Ok s → IsBlockIn s block.now
        → made ≡ Some s) }
    ensures opened { IfOk result (λ made. IfSome made (λ s. opened_in s ≡ opened.entry)) }
    ensures own { IfOk result (λ made. (known : Known) → IsBlockOf known block.now → mode.hinting ≡ true → IsSome made
        → IsOwn known opened.entry.font opened.entry.ppem) }
{
    let Some(hinter) = hinter_in(alloc, &opened, mode.hinting, block)? else {
        return Ok(None);
    };
    let basis = Basis::of(opened, mode);
    Ok(Some(Striker::with(alloc, &Rows, basis, hinter)))
}

impl<'a> Striker<'a, Rows> {
    /// Opens a font at a size as `open` does, but with hinting on a block takes the place of the font's programs: none runs.
    ///
    /// None if hinting is on and the words are not a block of this font and size, as far as words can tell
    /// (`fx_machine::Machine::of_block`). A block that `block` returned for this font, size and mode is always taken.
    ///
    /// The first cause is returned, in this order: the size; the font's tables, its character map. `OutOfMemory` may be returned
    /// after these.
    #[tactic(auto, unfolding(crate::specs::Strike::checked_chars, crate::specs::Strike::setting_for, crate::specs::Strike::setting_of))]
    pub fn of_block(
        alloc: Global,
        font: &FontFile<'a>,
        ppem: u16,
        mode: Mode,
        block: &[u32],
    ) -> Result<Option<Striker<'a, Rows>>, Refusal>
        // With a block of the font's setting the striker is in that setting.
        ensures setting { IfOk result (λ made. (s : Setting) → setting_of font.now ppem mode ≡ Ok s → IsBlockIn s block.now
            → made ≡ Some s) }
        // Whatever the words, the font, its map and the size are these.
        ensures opened { IfOk result (λ made. IfSome made (λ s. opened_at font.now ppem ≡ Ok (opened_in s))) }
        // With hinting on, a block of another size or of a font with another checksum is never taken.
        ensures own { IfOk result (λ made. IfSome made (λ s. (known : Known) → IsBlockOf known block.now → mode.hinting ≡ true
            → IsOwn known s.font s.ppem)) }
        // The first cause was named, or memory ran out.
        ensures cause { IfErr result (λ refusal. Fails refusal (opened_at font.now ppem)) }
        // The size is valid, and the font and its character map opened.
        ensures late { IsErrOf result Refusal.OutOfMemory → Late (opened_at font.now ppem) }
    {
        Striker::of_block_for(alloc, font, ppem, &[], mode, block)
    }

    /// Opens a font at a size for characters that are made one by one, as `open_for` does, by a block as `of_block`.
    ///
    /// The first cause is returned, in this order: the size, the characters; then as by `of_block`.
    pub fn of_block_for(
        alloc: Global,
        font: &FontFile<'a>,
        ppem: u16,
        chars: &[u32],
        mode: Mode,
        block: &[u32],
    ) -> Result<Option<Striker<'a, Rows>>, Refusal>
        // With a block of the font's setting the striker is in that setting.
        ensures setting { IfOk result (λ made. (s : Setting) → setting_for font.now ppem chars.now mode ≡ Ok s
            → IsBlockIn s block.now → made ≡ Some s) }
        // The characters are within their limits.
        ensures chars { OnOk result (Ok tt ≡ checked_chars chars.now) }
        // Whatever the words, the font, its map and the size are these.
        ensures opened { IfOk result (λ made. IfSome made (λ s. opened_many_of font.now ppem chars.now ≡ Ok (opened_in s))) }
        // With hinting on, a block of another size or of a font with another checksum is never taken.
        ensures own { IfOk result (λ made. IfSome made (λ s. (known : Known) → IsBlockOf known block.now → mode.hinting ≡ true
            → IsOwn known s.font s.ppem)) }
        // The first cause was named, or memory ran out.
        ensures cause { IfErr result (λ refusal. Fails refusal (opened_many_of font.now ppem chars.now)) }
        // The size is valid, the characters are within their limits, and the font and its character map opened.
        ensures late { IsErrOf result Refusal.OutOfMemory → Late (opened_many_of font.now ppem chars.now) }
    {
        let opened = open_many(font, ppem, chars)?;
        Ok(striker_in(alloc, opened, mode, block)?)
    }
}

impl<'a, S: Scan> Striker<'a, S> {
    /// The block of its font and size, from which `of_block` opens it again; no words with hinting off.
    ///
    /// None if there is no such block (`fx_machine::Machine::block`): the font would have 1 GiB.
    pub fn block(&self) -> Result<Option<Vec<u32>>, AllocError>
        ensures block { IfOk result (λ made. IfSome made (λ words. IsBlockIn self.now words.items)) }
        ensures there { IfOk result (λ made. is_some made ≡ has_block self.now.machine) }
    {
        match &self.hinter.machine {
            Some(machine) => machine.machine.block(self.alloc),
            None => Ok(Some(Vec::new(self.alloc))),
        }
    }
}

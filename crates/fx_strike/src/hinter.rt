//! What hints the glyphs of a strike.
ghost use Rattle.std.specs.Prelude.{◌≡◌, ◌<◌, ◌^◌, length, true, Some, None, is_none, IfOk};
ghost use Rattle.fx_fixed.specs.Chain.{map_fault, GivesUnless};
ghost use Rattle.fx_sfnt.specs.Tables.{table_or_empty};
ghost use Rattle.fx_machine.specs.Known.{machine_of};
ghost use Rattle.fx_request.specs.Faults.{of_machine};
ghost use Rattle.fx_hint.specs.Faults as hint;
ghost use Rattle.fx_hint.specs.Outlines.{view_of_glyph_outline, outline_with};
ghost use Rattle.fx_strike.specs.Careful.{character_work, prelude_size, programs_left, so_much};
ghost use Rattle.fx_strike.specs.Numbered.{is_work_over};
ghost use Rattle.fx_strike.specs.Strike.{hinting_by, machine_for, machine_within, prelude_by, wish_in, Fails};

use crate::census::CHARACTER_WORK;
use crate::opened::Opened;
use fx_gstate::ScanType as ScanType;
use fx_hint::{
    AnyComponent, GlyphOutline, HintFault, KeptGlyphs, NoHinter, RunWatcher, Spare, WatchedMachine,
    outline_in, outline_within,
};
use fx_machine::{Machine, Unwatched, Usage, Watching, WorkBudget};
use fx_request::{Mode, Refusal};
use fx_sfnt::Font;
use std::alloc::{AllocError, Global};
use std::marker::Model;

/// A machine whose programs of glyphs may have a budget of work.
pub(crate) type BudgetedMachine<'a> = WatchedMachine<'a, AnyComponent<WorkBudget>>;

/// A budget of so much work, for the programs of any glyph.
fn so_much(work: usize) -> RunWatcher<AnyComponent<WorkBudget>>
    ensures { result.watcher.watcher ≡ so_much work }
{
    RunWatcher {
        watcher: AnyComponent {
            watcher: WorkBudget::new(work),
        },
        component: None,
    }
}

/// A machine before its first budget.
fn budgeted(machine: Machine<'_>) -> BudgetedMachine<'_>
    ensures { result.machine ≡ machine.entry }
{
    WatchedMachine {
        machine,
        watcher: so_much(0),
    }
}

/// What the programs of a glyph and of its components leave of so much work; none if they do more. Nothing is kept of them.
fn work_left(
    alloc: Global,
    spare: &mut Spare,
    machine: &mut BudgetedMachine<'_>,
    opened: &Opened<'_>,
    g: u16,
    work: usize,
) -> Result<Option<usize>, AllocError>
    ensures known { machine.new.machine.known ≡ machine.old.machine.known }
    ensures left { IfOk result (λ left. left
        ≡ programs_left (Some machine.old.machine.known) opened.now.font opened.now.ppem g work) }
{
    machine.watcher = so_much(work);
    match outline_within(alloc, spare, machine, &opened.font, opened.ppem, g) {
        Ok(Some(outline)) => spare.give_back(outline.outline),
        Ok(None) => {}
        Err(HintFault::OutOfMemory) => return Err(AllocError),
        Err(_) => {}
    }
    Ok(machine.watcher.watcher.watcher.left)
}

/// What hints the glyphs of a font at a size: a machine of the font whose `fpgm` and `prep` ran, or nothing with hinting off.
/// Either way components that come again are kept, if there is to be room for them. The machine lies in a box, so that the
/// functions that hand it on hold little. Contracts see what stays as it is, whatever runs: what is known of the machine.
#[derive(Drop)]
pub(crate) struct FontHinter<'a> {
    pub(crate) machine: Option<Box<BudgetedMachine<'a>>>,
    kept: KeptGlyphs,
}

impl<'a> Model for FontHinter<'a> {
    ghost use Rattle.std.specs.Prelude.{Option, option_map};
    ghost use Rattle.std.specs.List.{All};
    ghost use Rattle.fx_hint.specs.Kept.{IsTrueOf};
    ghost use Rattle.fx_machine.specs.Known.{Known};
    ghost use Rattle.fx_strike.specs.Strike.{hinting_by};

    ghost Value = { Option Known };

    ghost view = { λ h. option_map (λ b. b.value.machine.known) h.machine };

    ghost invariant = { λ h. All (IsTrueOf (hinting_by (option_map (λ b. b.value.machine.known) h.machine))) h.kept.places };
}

impl<'a> FontHinter<'a> {
    /// No machine: nothing is hinted.
    pub(crate) fn none(alloc: Global) -> FontHinter<'a>
        ensures { result ≡ None }
    {
        FontHinter {
            machine: None,
            kept: KeptGlyphs::new(alloc, true),
        }
    }

    /// This machine.
    pub(crate) fn of(alloc: Global, machine: Machine<'a>) -> Result<FontHinter<'a>, AllocError>
        ensures { IfOk result (λ h. h ≡ Some machine.entry.known) }
    {
        let machine = Box::new(alloc, budgeted(machine))?;
        Ok(FontHinter {
            machine: Some(machine),
            kept: KeptGlyphs::new(alloc, true),
        })
    }

    /// Whether lines and components are kept.
    pub(crate) fn has_room(&self) -> bool {
        self.kept.has_room()
    }

    /// Says whether lines and components are kept from now on.
    pub(crate) fn set_room(&mut self, has_room: bool)
        ensures { self.new ≡ self.old }
    {
        self.kept.set_room(has_room);
    }

    /// Makes the outline of a glyph, scaled and hinted. Its lists are those that an outline before left.
    #[inline(always)]
    pub(crate) fn outline(
        &mut self,
        alloc: Global,
        spare: &mut Spare,
        opened: &Opened<'_>,
        g: u16,
    ) -> Result<GlyphOutline, HintFault>
        ensures kept { self.new ≡ self.old }
        ensures outline { GivesUnless hint.Fails view_of_glyph_outline result
            (outline_with (hinting_by self.old) opened.now.font opened.now.ppem g) }
    {
        let Opened { ppem, font, .. } = opened;
        match &mut self.machine {
            Some(machine) => outline_in(
                alloc,
                spare,
                &mut self.kept,
                &mut machine.machine,
                font,
                *ppem,
                g,
            ),
            None => outline_in(alloc, spare, &mut self.kept, &mut NoHinter, font, *ppem, g),
        }
    }

    /// What the programs of a glyph and of its components leave of so much work; none if they do more. Nothing is kept of them.
    pub(crate) fn programs_left(
        &mut self,
        alloc: Global,
        spare: &mut Spare,
        opened: &Opened<'_>,
        g: u16,
        work: usize,
    ) -> Result<Option<usize>, AllocError>
        ensures kept { self.new ≡ self.old }
        ensures left { IfOk result (λ left. left ≡ programs_left self.old opened.now.font opened.now.ppem g work) }
    {
        match &mut self.machine {
            Some(machine) => work_left(alloc, spare, &mut **machine, opened, g, work),
            None => Ok(Some(work)),
        }
    }

    /// What `fpgm` and `prep` used up.
    pub(crate) fn prelude(&self) -> Usage
        ensures { result ≡ prelude_by self.now }
    {
        match &self.machine {
            Some(machine) => machine.machine.prelude(),
            None => Usage::none(),
        }
    }

    /// What `prep` left asked of drop-out control.
    pub(crate) fn wish(&self) -> Option<ScanType>
        ensures { result ≡ wish_in self.now }
    {
        match &self.machine {
            Some(machine) => machine.machine.wish(),
            None => None,
        }
    }
}

/// The machine of an opened font: `fpgm` runs, then `prep`.
pub fn machine_at<'a>(alloc: Global, opened: &Opened<'a>) -> Result<Machine<'a>, Refusal>
    ensures { GivesUnless Fails (λ m. m.known) result (map_fault of_machine (machine_of opened.now.font opened.now.ppem)) }
{
    Ok(Machine::new(alloc, opened.font.shared(), opened.ppem, &mut Unwatched)?)
}

/// The bytes of a table that may be absent.
fn table_size(font: &Font<'_>, tag: [u8; 4]) -> usize
    ensures value { result ≡ length (table_or_empty font.now tag) }
    ensures size { result < 2 ^ 32 }
{
    match font.table(tag) {
        Some(table) => table.len(),
        None => 0,
    }
}

/// The bytes of `fpgm` and `prep`.
fn prelude_size(font: &Font<'_>) -> usize
    ensures { result ≡ prelude_size font.now }
{
    table_size(font, *b"fpgm") + table_size(font, *b"prep")
}

/// The same if `fpgm` and `prep` do no more work than a character's programs may, and their bytes count too.
fn careful_machine<'a>(alloc: Global, opened: &Opened<'a>) -> Result<Machine<'a>, Refusal>
    ensures { GivesUnless Fails (λ m. m.known) result (machine_within opened.now.font opened.now.ppem true) }
{
    let Some(left) = CHARACTER_WORK.checked_sub(prelude_size(&opened.font)) else {
        return Err(Refusal::TooMuchWork);
    };
    let mut budget = WorkBudget::new(left);
    let made = Machine::new(alloc, opened.font.shared(), opened.ppem, &mut budget);
    if budget.stops() {
        return Err(Refusal::TooMuchWork);
    }
    Ok(made?)
}

/// The machine of an opened font. If it is to be careful, the work of `fpgm` and `prep` is bounded.
fn machine_within<'a>(
    alloc: Global,
    opened: &Opened<'a>,
    careful: bool,
) -> Result<Machine<'a>, Refusal>
    ensures { GivesUnless Fails (λ m. m.known) result (machine_within opened.now.font opened.now.ppem careful) }
{
    if careful {
        careful_machine(alloc, opened)
    } else {
        machine_at(alloc, opened)
    }
}

/// Whether the programs of an opened font do more work than they may: `fpgm` and `prep`, or those of a glyph and of its components,
/// if there is one.
pub fn is_work_over(
    alloc: Global,
    opened: &Opened<'_>,
    glyph: Option<u16>,
) -> Result<bool, AllocError>
    ensures { IfOk result (λ over. over ≡ is_work_over opened.now glyph) }
{
    match careful_machine(alloc, opened) {
        Ok(machine) => match glyph {
            Some(g) => is_glyph_over(alloc, opened, machine, g),
            None => Ok(false),
        },
        Err(Refusal::TooMuchWork) => Ok(true),
        Err(Refusal::OutOfMemory) => Err(AllocError),
        Err(_) => Ok(false),
    }
}

/// Whether the programs of a glyph and of its components do more work than they may, run by this machine.
fn is_glyph_over(
    alloc: Global,
    opened: &Opened<'_>,
    machine: Machine<'_>,
    g: u16,
) -> Result<bool, AllocError>
    ensures { IfOk result (λ over. over
        ≡ is_none (programs_left (Some machine.entry.known) opened.now.font opened.now.ppem g character_work)) }
{
    let mut spare = Spare::new(alloc);
    let mut machine = budgeted(machine);
    let left = work_left(alloc, &mut spare, &mut machine, opened, g, CHARACTER_WORK)?;
    Ok(left.is_none())
}

/// The hinter of an opened font: the one place where hinting is on or off. With hinting on, the font's programs run first.
#[tactic(auto, unfolding(crate::specs::Strike::machine_for))]
pub(crate) fn hinter_at<'a>(
    alloc: Global,
    opened: &Opened<'a>,
    mode: Mode,
) -> Result<FontHinter<'a>, Refusal>
    ensures { GivesUnless Fails (λ h. h) result (machine_for opened.now.font opened.now.ppem mode.hinting mode.careful) }
{
    if !mode.hinting {
        return Ok(FontHinter::none(alloc));
    }
    let machine = machine_within(alloc, opened, mode.careful)?;
    Ok(FontHinter::of(alloc, machine)?)
}

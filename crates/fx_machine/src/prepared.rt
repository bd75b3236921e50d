//! The state that programs of glyphs begin with.

ghost use Rattle.std.specs.Prelude.{◌≡◌, ◌++◌, true, length, unsigned_abs, slice_index, IfOk, OnOk, IfSome, IsSome};
ghost use Rattle.fx_machine.specs.Words.{AreNumbers, ArePoints, number_in};
ghost use Rattle.fx_machine.specs.Blocks.{SaysAll, prepared_in, sizes_of, sizes_words, lists_words, state_words, has_words, IsNumbered};
ghost use Rattle.fx_machine.specs.Known.{prepared_from};
ghost use Rattle.fx_machine.specs.Prepared.{Fits, begun, started};

use crate::block::{flags_in, parts_of, push_flags, push_start, push_usage, shift_in, start_in};
use crate::definitions::Definitions;
use crate::sizes::Sizes;
use crate::state::{InstructControl, State};
use crate::usage::Usage;
use crate::words::{push_numbers, push_points, table_of, zone_of};
use fx_gstate::{DeltaShift, GState};
use fx_stackops::Table;
use fx_zone::Zone;
use std::alloc::{AllocError, Global};

/// One more than the greatest word.
const MOST: usize = 4_294_967_296;

/// What `prep` left, which no program of a glyph changes.
#[derive(Drop)]
pub struct Prepared {
    pub storage: Table,
    pub cvt: Table,
    pub twilight: Zone,
    pub graphics: GState,
    pub definitions: Definitions,
    pub flags: InstructControl,
}

impl Prepared {
    /// Tables of the sizes of a state's, for what programs leave.
    pub fn like(alloc: Global, state: &State) -> Result<Prepared, AllocError>
        requires { length state.now.definitions.opcodes ≡ 256 }
        ensures { IfOk result (λ p. Fits p state.now) }
    {
        let storage = Table::zeros(alloc, state.store.storage().len())?;
        let cvt = Table::zeros(alloc, state.store.controls().len())?;
        let twilight = copy_of(alloc, &state.zones.twilight)?;
        let definitions = Definitions::new(alloc, state.definitions.count())?;
        Ok(Prepared {
            storage,
            cvt,
            twilight,
            graphics: state.graphics,
            definitions,
            flags: state.flags,
        })
    }

    /// What words say of lists of these sizes. `None` if they say nothing for them.
    pub(crate) fn of_words(
        alloc: Global,
        sizes: Sizes,
        words: &[u32],
    ) -> Result<Option<Prepared>, AllocError>
        ensures value { IfOk result (λ made. IfSome made (λ p. p ≡ prepared_in sizes words.now)) }
        ensures said { IfOk result (λ made. IfSome made (λ _. SaysAll sizes words.now)) }
        ensures taken { IfOk result (λ made. SaysAll sizes words.now → IsSome made) }
    {
        if !sizes.are_said(words) {
            return Ok(None);
        }
        match shift_in(words) {
            Some(shift) => Ok(Some(Prepared::of_parts(alloc, sizes, words, shift)?)),
            None => Ok(None),
        }
    }

    /// What words say that say something for lists of these sizes, and this delta shift.
    fn of_parts(
        alloc: Global,
        sizes: Sizes,
        words: &[u32],
        shift: DeltaShift,
    ) -> Result<Prepared, AllocError>
        requires said { SaysAll sizes words.now }
        requires shift { shift ≡ unsigned_abs (number_in (slice_index words.now 15)) }
        ensures { IfOk result (λ p. p ≡ prepared_in sizes words.now) }
    {
        let parts = parts_of(words);
        let definitions = Definitions::of_words(alloc, parts.functions, parts.opcodes)?;
        Ok(Prepared {
            storage: table_of(alloc, parts.storage)?,
            cvt: table_of(alloc, parts.cvt)?,
            twilight: zone_of(alloc, sizes.twilight, parts.twilight)?,
            graphics: start_in(words, shift),
            definitions,
            flags: flags_in(words),
        })
    }

    /// Whether its lists' lengths and its functions have words.
    pub(crate) fn has_words(&self) -> bool
        ensures { result ≡ has_words self.now }
    {
        self.storage.len() < MOST
            && self.cvt.len() < MOST
            && self.twilight.len() < MOST
            && self.definitions.count() < MOST
            && self.definitions.opcode_count() < MOST
            && self.definitions.are_near()
    }

    /// Adds the words of how long its lists are.
    fn push_sizes(&self, words: &mut Vec<u32>) -> Result<(), AllocError>
        requires { has_words self.now ≡ true }
        ensures { OnOk result (words.new.items ≡ words.old.items ++ sizes_words (sizes_of self.now)) }
    {
        words.push(self.storage.len() as u32)?;
        words.push(self.cvt.len() as u32)?;
        words.push(self.twilight.len() as u32)?;
        words.push(self.definitions.count() as u32)?;
        words.push(self.definitions.opcode_count() as u32)?;
        Ok(())
    }

    /// Adds the words of its lists.
    fn push_lists(&self, words: &mut Vec<u32>) -> Result<(), AllocError>
        requires { has_words self.now ≡ true }
        ensures words { OnOk result (words.new.items ≡ words.old.items ++ lists_words self.now) }
        ensures storage { OnOk result (AreNumbers self.now.storage) }
        ensures cvt { OnOk result (AreNumbers self.now.cvt) }
        ensures twilight { OnOk result (ArePoints self.now.twilight.points) }
    {
        push_numbers(words, self.storage.numbers())?;
        push_numbers(words, self.cvt.numbers())?;
        push_points(words, self.twilight.points())?;
        self.definitions.push(words)
    }

    /// Adds its words, and those of what `fpgm` and `prep` used up.
    pub(crate) fn push(&self, words: &mut Vec<u32>, usage: Usage) -> Result<(), AllocError>
        requires { has_words self.now ≡ true }
        ensures words { OnOk result (words.new.items ≡ words.old.items ++ state_words self.now usage) }
        ensures numbered { OnOk result (IsNumbered self.now) }
    {
        self.push_sizes(words)?;
        push_usage(words, usage)?;
        push_start(words, &self.graphics)?;
        push_flags(words, self.flags)?;
        self.push_lists(words)?;
        Ok(())
    }

    /// Takes what programs have left of a state.
    pub fn take(&mut self, state: &State)
        requires { Fits self.old state.now }
        ensures { self.new ≡ prepared_from state.now }
    {
        self.storage.copy_from(state.store.storage());
        self.cvt.copy_from(state.store.controls());
        self.twilight.copy_from(&state.zones.twilight);
        self.graphics = begun(state.flags, &state.graphics);
        self.definitions.copy_from(&state.definitions);
        self.flags = state.flags;
    }
}

/// A zone with the same points and contours.
fn copy_of(alloc: Global, zone: &Zone) -> Result<Zone, AllocError>
    ensures { IfOk result (λ z. z ≡ zone.now) }
{
    let points = Vec::from_slice(alloc, zone.points())?;
    let ends = Vec::from_slice(alloc, zone.ends())?;
    Ok(Zone::of(points, ends))
}

/// The graphics state that a program of a glyph begins with.
fn begun(flags: InstructControl, g: &GState) -> GState
    ensures { result ≡ begun flags g.now }
{
    if flags.default_state {
        return GState::new();
    }
    GState {
        auto_flip: g.auto_flip,
        cut_in: g.cut_in,
        minimum_distance: g.minimum_distance,
        single_width: g.single_width,
        single_width_cut_in: g.single_width_cut_in,
        delta_base: g.delta_base,
        delta_shift: g.delta_shift,
        scan_control: g.scan_control,
        scan_type: g.scan_type,
        ..GState::new()
    }
}

impl State {
    /// Begins anew as `prep` left it, with the glyph zone as it is.
    pub fn restart(&mut self, prepared: &Prepared)
        requires { Fits prepared.now self.old }
        ensures { self.new ≡ started prepared.now self.old.scale self.old.store.room self.old.zones.glyph }
    {
        self.store.restart(&prepared.storage, &prepared.cvt);
        self.zones.twilight.copy_from(&prepared.twilight);
        self.zones.strays = 0;
        self.graphics = prepared.graphics;
        self.definitions.copy_from(&prepared.definitions);
        self.flags = prepared.flags;
        self.preparing = false;
    }
}

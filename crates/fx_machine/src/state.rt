//! The state of a machine.

ghost use Rattle.std.specs.Prelude.{◌≡◌, ◌<◌, ◌^◌, [], length, replicate, pos, IfOk};
ghost use Rattle.fx_machine.specs.Limits.{room_of};
ghost use Rattle.fx_scale.specs.declared.scale.Scale.{Scale as TheScale};
ghost use Rattle.fx_sfnt.specs.Tables.{table_or_empty};
ghost use Rattle.fx_machine.specs.Prepared.{strays_of};
ghost use Rattle.fx_machine.specs.Known.{controls_of, first_store, twilight_of, nothing_defined, first_state, second_state};
ghost use Rattle.fx_machine.specs.inner.Blank.{blank_state};

use crate::definitions::Definitions;
use crate::limits::{FEWEST_FUNCTIONS, SPARE_ELEMENTS};
use fx_fixed::Place;
use fx_gstate::GState;
use fx_pointops::Zones;
use fx_scale::{Scale, cvt_of};
use fx_sfnt::Font;
use fx_stackops::{Store, Table};
use fx_zone::{Zone, ZonePoint};
use std::alloc::{AllocError, Global};

/// What `prep` asks for by INSTCTRL.
#[derive(Clone, Copy, Debug, PartialEq, Eq)]
pub struct InstructControl {
    /// No programs of glyphs are run.
    pub no_programs: bool,
    /// They start from the default graphics state.
    pub default_state: bool,
}

/// The state that instructions read and change.
#[derive(Drop)]
pub struct State {
    /// The stack, the storage area and the control values.
    pub store: Store,
    /// The points.
    pub zones: Zones,
    /// The graphics state.
    pub graphics: GState,
    /// The functions, and the definitions of opcodes.
    pub definitions: Definitions,
    /// What INSTCTRL set.
    pub flags: InstructControl,
    /// The size, and the FUnits of an em.
    pub scale: Scale,
    /// Whether `prep` was started, or a function is run for it.
    pub preparing: bool,
}

/// A table of a font's programs, which may be absent.
pub(crate) fn table_or_empty<'a>(font: &Font<'a>, tag: [u8; 4]) -> &'a [u8]
    ensures table { result.now ≡ table_or_empty font.now tag }
    ensures short { length result.now < 2 ^ 32 }
{
    font.table(tag).unwrap_or(&[])
}

/// The control values of a font at a scale.
#[tactic(auto, using(crate::proofs::Starting::controls_are_numbers))]
fn controls(alloc: Global, font: &Font<'_>, scale: &Scale) -> Result<Table, AllocError>
    ensures { IfOk result (λ t. t ≡ controls_of font.now scale.now) }
{
    let controls = cvt_of(alloc, table_or_empty(font, *b"cvt "), scale)?;
    Ok(Table::of(controls))
}

/// How many control values a font has: each has two bytes.
#[tactic(auto, using(crate::proofs::Blanks::controls_count))]
pub(crate) fn control_count(font: &Font<'_>) -> usize
    ensures { (scale : TheScale) → result ≡ length (controls_of font.now scale) }
{
    table_or_empty(font, *b"cvt ").len() / 2
}

/// An empty stack, storage cells of 0, and control values.
fn store_with(alloc: Global, font: &Font<'_>, cvt: Table) -> Result<Store, AllocError>
    ensures { IfOk result (λ s. s ≡ record {
      stack = [];
      room = room_of font.now.maxp.max_stack_elements;
      storage = replicate font.now.maxp.max_storage (pos 0);
      cvt = cvt;
      strays = 0;
    }) }
{
    let maxp = font.maxp();
    Store::new(
        alloc,
        maxp.max_stack_elements,
        SPARE_ELEMENTS,
        maxp.max_storage,
        cvt,
    )
}

/// The twilight zone of a font: its points at (0, 0), without contours.
fn twilight(alloc: Global, count: u16) -> Result<Zone, AllocError>
    ensures { IfOk result (λ z. z ≡ twilight_of count) }
{
    let point = ZonePoint::resting(Place::origin(), false);
    let points = vec![in alloc; point; usize::from(count)]?;
    Ok(Zone::of(points, Vec::new(alloc)))
}

/// No definitions, of as many functions as a font may have.
fn nothing_defined(alloc: Global, font: &Font<'_>) -> Result<Definitions, AllocError>
    ensures { IfOk result (λ d. d ≡ nothing_defined font.now) }
{
    Definitions::new(
        alloc,
        usize::from(font.maxp().max_function_defs.max(FEWEST_FUNCTIONS)),
    )
}

impl State {
    /// The state that `fpgm` begins with: storage and twilight points are 0, control values are scaled, nothing is defined.
    pub fn first(alloc: Global, font: &Font<'_>, scale: Scale) -> Result<State, AllocError>
        ensures { IfOk result (λ s. s ≡ first_state font.now scale) }
    {
        let cvt = controls(alloc, font, &scale)?;
        State::with_controls(alloc, font, scale, cvt)
    }

    /// The same with control values of 0, for a machine that reads what programs left from a block.
    pub(crate) fn blank(alloc: Global, font: &Font<'_>, scale: Scale) -> Result<State, AllocError>
        ensures { IfOk result (λ s. s ≡ blank_state font.now scale) }
    {
        let cvt = Table::zeros(alloc, control_count(font))?;
        State::with_controls(alloc, font, scale, cvt)
    }

    /// The state that `fpgm` begins with, but with these control values.
    fn with_controls(
        alloc: Global,
        font: &Font<'_>,
        scale: Scale,
        cvt: Table,
    ) -> Result<State, AllocError>
        ensures { IfOk result (λ s. s ≡ record (first_state font.now scale) {
          store = record (first_store font.now scale) { cvt = cvt };
        }) }
    {
        let store = store_with(alloc, font, cvt)?;
        let twilight = twilight(alloc, font.maxp().max_twilight_points)?;
        let definitions = nothing_defined(alloc, font)?;
        Ok(State {
            store,
            zones: Zones {
                twilight,
                glyph: Zone::new(alloc),
                strays: 0,
            },
            graphics: GState::new(),
            definitions,
            flags: InstructControl {
                no_programs: false,
                default_state: false,
            },
            scale,
            preparing: false,
        })
    }

    /// How many numbers outside their tables and zones instructions have named since a program began.
    pub fn strays(&self) -> u64
        ensures { result ≡ strays_of self.now }
    {
        self.store.strays().saturating_add(self.zones.strays)
    }

    /// Begins `prep`, after `fpgm`.
    pub fn prepare(&mut self)
        ensures { self.new ≡ second_state self.old }
    {
        self.store.drop_all();
        self.graphics = GState::new();
        self.preparing = true;
    }
}

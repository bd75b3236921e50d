//! The machine of a font at a size.

ghost use Rattle.std.specs.Prelude.{◌≡◌, length, option_map, Some, IfOk, IfSome, IsSome, OnOk, false, is_ok, is_some};
ghost use Rattle.fx_fixed.specs.Chain.{GivesUnless, map_fault};
ghost use Rattle.fx_machine.specs.declared.halt.MachineFault.TheVariants.{Halted};
ghost use Rattle.fx_machine.specs.Programs.{texts};
ghost use Rattle.fx_zone.specs.Figures.{HasShape};
ghost use Rattle.fx_pointops.specs.Zones.{HasShapes};
ghost use Rattle.fx_machine.specs.Shapes.{HasSizes};
ghost use Rattle.fx_machine.specs.Prepared.{Fits, glyph_end, glyph_events, ran_of, stack_after, stack_if, with_zone};
ghost use Rattle.fx_machine.specs.Events.{Watches};
ghost use Rattle.fx_machine.specs.Known.{Fails, with_state, prelude_of, machine_of, final_stack_of, glyph_run, glyph_ran, first_state};
ghost use Rattle.fx_machine.specs.Known.{controls_of, prepared_from, prelude_events, machine_events, seen_by, glyph_run_events};
ghost use Rattle.fx_gstate.specs.Scan.{wish_of};
ghost use Rattle.fx_scale.specs.Scaling.{scale_of};
ghost use Rattle.fx_machine.specs.Known.{Known};
ghost use Rattle.fx_machine.specs.Blocks.{IsBlockOf, SaysAll, checksum_of, known_words, has_words, prepared_in};
ghost use Rattle.fx_machine.specs.inner.Blank.{blank_state};

use crate::block::{after_origin, push_origin, usage_in};
use crate::halt::{Halt, MachineFault};
use crate::limits::STEP_LIMIT;
use crate::prepared::Prepared;
use crate::program::{Program, Programs};
use crate::ran::Ran;
use crate::run::run;
use crate::sizes::Sizes;
use crate::state::{State, table_or_empty};
use crate::usage::Usage;
use crate::watching::Watching;
use fx_code::{Code, Targets};
use fx_fixed::Ppem;
use fx_gstate::ScanType;
use fx_scale::Scale;
use fx_sfnt::Font;
use fx_zone::Zone;
use std::alloc::{AllocError, Global};
use std::marker::Model;
use std::mem::swap;

/// Runs the program of a glyph on its points, from what `prep` left: what it comes to, or where and why it halted. The points
/// keep their number and contours, and the state its sizes, also after a halt; the state's stack is then that of the program.
#[tactic(auto, unfolding(crate::specs::Prepared::glyph_end, crate::specs::Prepared::glyph_events))]
fn run_from<W: Watching>(
    state: &mut State,
    prepared: &Prepared,
    programs: &Programs<'_>,
    targets: &mut Targets<'_>,
    zone: &mut Zone,
    watcher: &mut W,
) -> Result<Ran, Halt>
    requires fits { Fits prepared.now state.old }
    requires targets { targets.old ≡ programs.now.font }
    ensures value { W.stops watcher.new ≡ false → with_zone result zone.new ≡ ran_of
        (glyph_end (texts programs.now) programs.now.number prepared.now state.old.scale state.old.store.room zone.old) }
    ensures stack { W.stops watcher.new ≡ false → stack_if (is_ok result) state.new.store.stack ≡ stack_after
        (glyph_end (texts programs.now) programs.now.number prepared.now state.old.scale state.old.store.room zone.old) }
    ensures unstopped { IfOk result (λ _. W.stops watcher.new ≡ false) }
    ensures watched { Watches W.Sees watcher.old
        (glyph_events (texts programs.now) programs.now.number prepared.now state.old.scale state.old.store.room zone.old)
        watcher.new }
    ensures shape { HasShape zone.old zone.new }
    ensures fits { Fits prepared.now state.new }
    ensures room { state.new.store.room ≡ state.old.store.room }
    ensures scale { state.new.scale ≡ state.old.scale }
    ensures targets { targets.new ≡ targets.old }
{
    swap(&mut state.zones.glyph, zone);
    state.restart(prepared);
    let result = run(
        state,
        programs,
        targets,
        Program::Glyph,
        STEP_LIMIT,
        watcher,
    );
    swap(&mut state.zones.glyph, zone);
    let steps = result?;
    let usage = Usage {
        steps: u64::from(steps),
        strays: state.strays(),
    };
    Ok(Ran {
        usage,
        wish: state.graphics.wish(),
    })
}

/// Runs `fpgm`, then `prep`: what they have used up, or the first halt.
#[tactic(auto, unfolding(crate::specs::Known::prelude_of))]
fn run_prelude<W: Watching>(
    state: &mut State,
    programs: &Programs<'_>,
    targets: &mut Targets<'_>,
    watcher: &mut W,
) -> Result<Usage, Halt>
    requires number { programs.now.number ≡ 0 }
    requires targets { targets.old ≡ programs.now.font }
    ensures value { W.stops watcher.new ≡ false → with_state result state.new ≡ prelude_of (texts programs.now) state.old }
    ensures unstopped { IfOk result (λ _. W.stops watcher.new ≡ false) }
    ensures watched { Watches W.Sees watcher.old (prelude_events (texts programs.now) state.old) watcher.new }
    ensures shapes { HasShapes state.old.zones state.new.zones }
    ensures sizes { HasSizes state.old state.new }
    ensures targets { targets.new ≡ targets.old }
{
    let first = run(state, programs, targets, Program::Font, STEP_LIMIT, watcher)?;
    state.prepare();
    let second = run(state, programs, targets, Program::Prep, STEP_LIMIT, watcher)?;
    Ok(Usage {
        steps: u64::from(first + second),
        strays: state.strays(),
    })
}

/// Runs `fpgm`, then `prep`, and takes what they leave: what they have used up, or the first halt.
fn run_and_take<W: Watching>(
    state: &mut State,
    programs: &Programs<'_>,
    targets: &mut Targets<'_>,
    prepared: &mut Prepared,
    watcher: &mut W,
) -> Result<Usage, Halt>
    requires number { programs.now.number ≡ 0 }
    requires fits { Fits prepared.old state.old }
    requires targets { targets.old ≡ programs.now.font }
    ensures value { W.stops watcher.new ≡ false → with_state result state.new ≡ prelude_of (texts programs.now) state.old }
    ensures unstopped { IfOk result (λ _. W.stops watcher.new ≡ false) }
    ensures watched { Watches W.Sees watcher.old (prelude_events (texts programs.now) state.old) watcher.new }
    ensures prepared { OnOk result (prepared.new ≡ prepared_from state.new) }
    ensures shapes { HasShapes state.old.zones state.new.zones }
    ensures sizes { HasSizes state.old state.new }
    ensures targets { targets.new ≡ targets.old }
{
    let prelude = run_prelude(state, programs, targets, watcher)?;
    prepared.take(state);
    Ok(prelude)
}

/// The state that `fpgm` begins with, on the heap.
fn boxed_state(alloc: Global, font: &Font<'_>, scale: Scale) -> Result<Box<State>, AllocError>
    ensures { IfOk result (λ s. s.value ≡ first_state font.now scale) }
{
    let state = State::first(alloc, font, scale)?;
    Ok(Box::new(alloc, state)?)
}

/// Tables of the sizes of a state's, on the heap.
fn boxed_tables(alloc: Global, state: &State) -> Result<Box<Prepared>, AllocError>
    requires { length state.now.definitions.opcodes ≡ 256 }
    ensures { IfOk result (λ p. Fits p.value state.now) }
{
    let prepared = Prepared::like(alloc, state)?;
    Ok(Box::new(alloc, prepared)?)
}

/// The state that `fpgm` and `prep` left, what programs of glyphs take over of it, and what the two have used up.
#[derive(Drop)]
struct FirstRun {
    state: Box<State>,
    prepared: Box<Prepared>,
    prelude: Usage,
}

/// Makes the state that `fpgm` begins with, and runs `fpgm`, then `prep`. It takes all its memory before the first instruction.
fn first_run<W: Watching>(
    alloc: Global,
    font: &Font<'_>,
    scale: Scale,
    programs: &Programs<'_>,
    targets: &mut Targets<'_>,
    watcher: &mut W,
) -> Result<FirstRun, MachineFault>
    requires number { programs.now.number ≡ 0 }
    requires targets { targets.old ≡ programs.now.font }
    ensures value { W.stops watcher.new ≡ false → GivesUnless Fails (λ first. (first.prelude, first.state.value)) result
        (map_fault Halted (prelude_of (texts programs.now) (first_state font.now scale))) }
    ensures unstopped { IfOk result (λ _. W.stops watcher.new ≡ false) }
    ensures watched { Watches W.Sees watcher.old
        (seen_by result (prelude_events (texts programs.now) (first_state font.now scale))) watcher.new }
    ensures prepared { IfOk result (λ first. first.prepared.value ≡ prepared_from first.state.value) }
    ensures shapes { IfOk result (λ first. HasShapes (first_state font.now scale).zones first.state.value.zones) }
    ensures sizes { IfOk result (λ first. HasSizes (first_state font.now scale) first.state.value) }
    ensures targets { targets.new ≡ targets.old }
{
    let mut state = boxed_state(alloc, font, scale)?;
    let mut prepared = boxed_tables(alloc, &state)?;
    let prelude = run_and_take(&mut state, programs, targets, &mut prepared, watcher)?;
    Ok(FirstRun {
        state,
        prepared,
        prelude,
    })
}

/// What words say that programs left, on the heap. `None` if they say nothing for lists of these sizes.
fn boxed_block(
    alloc: Global,
    sizes: Sizes,
    words: &[u32],
) -> Result<Option<Box<Prepared>>, AllocError>
    ensures value { IfOk result (λ made. IfSome made (λ p. p.value ≡ prepared_in sizes words.now)) }
    ensures said { IfOk result (λ made. IfSome made (λ _. SaysAll sizes words.now)) }
    ensures taken { IfOk result (λ made. SaysAll sizes words.now → IsSome made) }
{
    let Some(prepared) = Prepared::of_words(alloc, sizes, words)? else {
        return Ok(None);
    };
    Ok(Some(Box::new(alloc, prepared)?))
}

/// A state that holds nothing yet, on the heap.
fn boxed_blank(alloc: Global, font: &Font<'_>, scale: Scale) -> Result<Box<State>, AllocError>
    ensures { IfOk result (λ s. s.value ≡ blank_state font.now scale) }
{
    let state = State::blank(alloc, font, scale)?;
    Ok(Box::new(alloc, state)?)
}

/// The machine of a font at a size: what its programs left, and the state that programs of glyphs run in. Both are large, and lie
/// on the heap, so that a machine is small to hold.
#[derive(Drop)]
pub struct Machine<'a> {
    font: Font<'a>,
    targets: Targets<'a>,
    prep: &'a [u8],
    prepared: Box<Prepared>,
    prelude: Usage,
    state: Box<State>,
    ended_well: bool,
}

impl<'a> Model for Machine<'a> {
    ghost use Rattle.std.specs.Prelude.{◌≡◌, codes};
    ghost use Rattle.fx_sfnt.specs.Tables.{table_or_empty};
    ghost use Rattle.fx_scale.specs.Scaling.{scale_of};
    ghost use Rattle.fx_machine.specs.Prepared.{Fits, stack_if};
    ghost use Rattle.fx_machine.specs.Known.{MachineView};
    ghost use Rattle.fx_machine.specs.Blocks.{IsOfFont};
    ghost use Rattle.fx_machine.specs.Limits.{room_of};

    ghost Value = { MachineView };

    ghost view = { λ m. record {
      known = record { face = m.font; ppem = m.state.value.scale.ppem; prepared = m.prepared.value; prelude = m.prelude };
      final_stack = stack_if m.ended_well m.state.value.store.stack;
    } };

    ghost invariant = { λ m. (Fits m.prepared.value m.state.value)
        × (m.state.value.store.room ≡ room_of m.font.maxp.max_stack_elements)
        × (m.targets ≡ table_or_empty m.font (codes "fpgm"))
        × (m.prep.now ≡ table_or_empty m.font (codes "prep"))
        × (m.state.value.scale ≡ scale_of m.font m.state.value.scale.ppem)
        × IsOfFont m.font m.state.value.scale.ppem m.prepared.value };
}

impl<'a> Machine<'a> {
    /// The machine of a font at a size: `fpgm` runs, then `prep`. It takes all its memory before the first instruction. The watcher
    /// sees both programs.
    pub fn new<W: Watching>(
        alloc: Global,
        font: Font<'a>,
        ppem: Ppem,
        watcher: &mut W,
    ) -> Result<Machine<'a>, MachineFault>
        ensures value { W.stops watcher.new ≡ false → GivesUnless Fails (λ m. m.known) result (machine_of font.entry ppem) }
        ensures stack { W.stops watcher.new ≡ false
            → GivesUnless Fails (λ m. m.final_stack) result (final_stack_of font.entry ppem) }
        ensures unstopped { IfOk result (λ _. W.stops watcher.new ≡ false) }
        ensures font { IfOk result (λ m. m.known.face ≡ font.entry) }
        ensures size { IfOk result (λ m. m.known.ppem ≡ ppem) }
        ensures storage { IfOk result (λ m. length m.known.prepared.storage ≡ font.entry.maxp.max_storage) }
        ensures controls { IfOk result
            (λ m. length m.known.prepared.cvt ≡ length (controls_of font.entry (scale_of font.entry ppem))) }
        ensures twilight { IfOk result (λ m. length m.known.prepared.twilight.points ≡ font.entry.maxp.max_twilight_points) }
        ensures watched { Watches W.Sees watcher.old (seen_by result (machine_events font.entry ppem)) watcher.new }
    {
        let font_program = table_or_empty(&font, *b"fpgm");
        let prep = table_or_empty(&font, *b"prep");
        let programs = Programs {
            font: Code::new(font_program),
            prep: Code::new(prep),
            glyph: Code::new(&[]),
            number: 0,
        };
        let scale = Scale::of(&font, ppem);
        let mut targets = Targets::new(alloc, Code::new(font_program))?;
        let first = first_run(alloc, &font, scale, &programs, &mut targets, watcher)?;
        Ok(Machine {
            font,
            targets,
            prep,
            prepared: first.prepared,
            prelude: first.prelude,
            state: first.state,
            ended_well: true,
        })
    }

    /// The machine of a font at a size, read from a block. It knows what the machine knew that wrote the block; no program runs.
    ///
    /// `None` if the words are not a block of this font and size, as far as words can tell: a block begins with its form, the size,
    /// the checksum in `head` and the lengths of `fpgm` and `prep`, and then says how long its lists are. A block that was written
    /// for this font and size is always taken.
    pub fn of_block(
        alloc: Global,
        font: Font<'a>,
        ppem: Ppem,
        block: &[u32],
    ) -> Result<Option<Machine<'a>>, AllocError>
        ensures known { IfOk result (λ made. (known : Known) → known.face ≡ font.entry → known.ppem ≡ ppem
            → IsBlockOf known block.now → option_map (λ m. m.known) made ≡ Some known) }
        ensures own { IfOk result (λ made. (known : Known) → IsBlockOf known block.now → IsSome made → (known.ppem ≡ ppem)
            × (checksum_of known.face ≡ checksum_of font.entry)) }
        ensures font { IfOk result (λ made. IfSome made (λ m. m.known.face ≡ font.entry)) }
        ensures size { IfOk result (λ made. IfSome made (λ m. m.known.ppem ≡ ppem)) }
    {
        let font_program = table_or_empty(&font, *b"fpgm");
        let prep = table_or_empty(&font, *b"prep");
        let Some(words) = after_origin(&font, font_program, prep, ppem, block) else {
            return Ok(None);
        };
        let sizes = Sizes::of(&font);
        let Some(prepared) = boxed_block(alloc, sizes, words)? else {
            return Ok(None);
        };
        let prelude = usage_in(words);
        let scale = Scale::of(&font, ppem);
        let targets = Targets::new(alloc, Code::new(font_program))?;
        let state = boxed_blank(alloc, &font, scale)?;
        Ok(Some(Machine {
            font,
            targets,
            prep,
            prepared,
            prelude,
            state,
            ended_well: true,
        }))
    }

    /// The block of what the machine knows, from which `of_block` makes such a machine again. `None` if there is no such block: a
    /// function begins at an address of 2^30 or more, or a list has 2^32 entries.
    pub fn block(&self, alloc: Global) -> Result<Option<Vec<u32>>, AllocError>
        ensures block { IfOk result (λ made. IfSome made (λ words. IsBlockOf self.now.known words.items)) }
        ensures words { IfOk result (λ made. IfSome made (λ words. words.items ≡ known_words self.now.known)) }
        ensures there { IfOk result (λ made. is_some made ≡ has_words self.now.known.prepared) }
    {
        if !self.prepared.has_words() {
            return Ok(None);
        }
        let mut words = Vec::new(alloc);
        push_origin(&mut words, &self.font, self.ppem())?;
        self.prepared.push(&mut words, self.prelude)?;
        Ok(Some(words))
    }

    /// The font.
    pub fn font(&self) -> Font<'a>
        ensures { result ≡ self.now.known.face }
    {
        self.font.shared()
    }

    /// The size.
    pub fn ppem(&self) -> Ppem
        ensures { result ≡ self.now.known.ppem }
    {
        self.state.scale.ppem
    }

    /// What `prep` left.
    pub fn prepared(&self) -> &Prepared
        ensures { result.now ≡ self.now.known.prepared }
    {
        &self.prepared
    }

    /// Whether `prep` asked for no programs of glyphs.
    pub fn skips_programs(&self) -> bool
        ensures { result ≡ self.now.known.prepared.flags.no_programs }
    {
        self.prepared.flags.no_programs
    }

    /// The drop-out control that `prep` asked for, if it did.
    pub fn wish(&self) -> Option<ScanType>
        ensures { result ≡ wish_of self.now.known.prepared.graphics }
    {
        self.prepared.graphics.wish()
    }

    /// What `fpgm` and `prep` used up.
    pub fn prelude(&self) -> Usage
        ensures { result ≡ self.now.known.prelude }
    {
        self.prelude
    }

    /// The stack that the last program left, `prep` or that of a glyph, the deepest number first; none if it halted.
    pub fn final_stack(&self) -> Option<&[i32]>
        ensures { option_map (λ s. s.now) result ≡ self.now.final_stack }
    {
        self.ended_well.then_some(self.state.store.numbers())
    }

    /// Runs the program of glyph `g` on its points, from what `prep` left: what it comes to, or where and why it halted. The
    /// points keep their number and contours, also after a halt. Nothing passes from one glyph to another. The watcher sees
    /// the program.
    #[tactic(auto, unfolding(crate::specs::Known::glyph_ran, crate::specs::Known::glyph_run, crate::specs::Known::glyph_run_events))]
    pub fn run_glyph<W: Watching>(
        &mut self,
        g: u16,
        code: Code<'_>,
        zone: &mut Zone,
        watcher: &mut W,
    ) -> Result<Ran, Halt>
        ensures value { W.stops watcher.new ≡ false → with_zone result zone.new ≡ glyph_ran self.old.known g code.entry zone.old }
        ensures unstopped { IfOk result (λ _. W.stops watcher.new ≡ false) }
        ensures shape { HasShape zone.old zone.new }
        ensures kept { self.new.known ≡ self.old.known }
        ensures stack { W.stops watcher.new ≡ false
            → self.new.final_stack ≡ stack_after (glyph_run self.old.known g code.entry zone.old) }
        ensures watched { Watches W.Sees watcher.old (glyph_run_events self.old.known g code.entry zone.old) watcher.new }
    {
        let programs = Programs {
            font: Code::new(self.targets.bytes()),
            prep: Code::new(self.prep),
            glyph: code,
            number: g,
        };
        let Machine {
            prepared,
            targets,
            state,
            ended_well,
            ..
        } = self;
        let result = run_from(state, prepared, &programs, targets, zone, watcher);
        *ended_well = result.is_ok();
        result
    }
}

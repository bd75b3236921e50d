//! Hinting by the programs of a font.

ghost use Rattle.std.specs.Prelude.{◌≡◌, ◌≤◌, length};
ghost use Rattle.fx_fixed.specs.Chain.{GivesUnless};
ghost use Rattle.fx_hint.specs.Faults.{Fails};
ghost use Rattle.fx_hint.specs.Programmed.{point_or, point_at, phantoms_at, hinted, hinted_events, HasSeen};

use crate::component::ComponentOf;
use crate::fault::HintFault;
use crate::hinter::Hinter;
use crate::made::Made;
use crate::watcher::{RunWatcher, RunWatching};
use fx_code::Code;
use fx_fixed::Place;
use fx_machine::{Machine, Unwatched, Usage, Watching};
use fx_scale::PhantomPoints;
use fx_zone::{Zone, ZonePoint};

/// The point of a number, which is inside.
fn point_at(zone: &Zone, number: usize) -> ZonePoint
    ensures { result ≡ point_at zone.now.points number }
{
    match zone.point(number) {
        Some(point) => point,
        None => ZonePoint::resting(Place::origin(), false),
    }
}

/// The four points from a number on.
fn phantoms_at(zone: &Zone, first: usize) -> PhantomPoints
    requires { first ≤ length zone.now.points }
    ensures { result ≡ phantoms_at zone.now.points first }
{
    // For the prover: how many points there are.
    let _count = zone.points().len();
    PhantomPoints {
        origin: point_at(zone, first),
        advance: point_at(zone, first + 1),
        ascender: point_at(zone, first + 2),
        descender: point_at(zone, first + 3),
    }
}

/// The program of a glyph runs on its points, with the phantom points after them; unless there is none, or `prep` asked for none.
/// `OutOfMemory` also says that the watcher stopped it.
#[tactic(auto, unfolding(crate::specs::Programmed::hinted, crate::specs::Programmed::hinted_events, crate::specs::Programmed::program_run, crate::specs::Programmed::program_events))]
pub(crate) fn hint<W: Watching>(
    machine: &mut Machine<'_>,
    g: u16,
    code: &[u8],
    made: &mut Made,
    watcher: &mut W,
) -> Result<Usage, HintFault>
    ensures kept { machine.new.known ≡ machine.old.known }
    ensures value { GivesUnless Fails (λ usage. (made.new, usage)) result (hinted machine.old.known g code.now made.old) }
    ensures watched { HasSeen W.Sees watcher.old watcher.new result (hinted_events machine.old.known g code.now made.old) }
{
    if machine.skips_programs() || code.is_empty() {
        made.wish = machine.wish();
        return Ok(Usage::none());
    }
    let count = made.zone.len();
    // For the prover: where the contours end.
    let _ends = made.zone.ends();
    let phantoms = made.phantoms.in_order();
    made.zone.append(&phantoms, &[])?;
    let result = machine.run_glyph(g, Code::new(code), &mut made.zone, watcher);
    if watcher.stops() {
        return Err(HintFault::OutOfMemory);
    }
    let ran = result?;
    made.phantoms = phantoms_at(&made.zone, count);
    made.zone.truncate(count);
    made.wish = ran.wish;
    Ok(ran.usage)
}

impl<'a> Hinter for Machine<'a> {
    ghost use Rattle.fx_machine.specs.Known.{Known};
    ghost use Rattle.fx_hint.specs.Programmed.{hinting_of};

    ghost Known = { Known };

    ghost known = { λ m. m.known };

    ghost hinting = { λ m. hinting_of m.known };

    ghost Leads = { λ _ _ _. Unit {0} };

    fn is_on(&self) -> bool {
        true
    }

    #[tactic(auto, using(crate::proofs::RunLaws::leads_anywhere))]
    fn run(
        &mut self,
        _component: Option<ComponentOf>,
        g: u16,
        code: &[u8],
        made: &mut Made,
    ) -> Result<Usage, HintFault> {
        hint(self, g, code, made, &mut Unwatched)
    }

    fn law_keeps_shape(&self) {}

    ghost leads_same = { λ _. tt };

    ghost leads_then = { λ _ _ _ _ _ _ _. tt };
}

/// A machine whose programs of glyphs are watched.
#[derive(Drop)]
pub struct WatchedMachine<'a, W> {
    pub machine: Machine<'a>,
    pub watcher: RunWatcher<W>,
}

impl<'a, W: RunWatching> Hinter for WatchedMachine<'a, W> {
    ghost use Rattle.fx_machine.specs.Known.{Known};
    ghost use Rattle.fx_hint.specs.Programmed.{hinting_of};
    ghost use Rattle.fx_hint.specs.Watched.{WatchesRuns, watched_none, watched_then};

    ghost Known = { Known };

    ghost known = { λ m. m.machine.known };

    ghost hinting = { λ m. hinting_of m.machine.known };

    ghost Leads = { λ a runs b. WatchesRuns W.Sees a.machine.known a.watcher.watcher runs b.machine.known b.watcher.watcher };

    fn run(
        &mut self,
        component: Option<ComponentOf>,
        g: u16,
        code: &[u8],
        made: &mut Made,
    ) -> Result<Usage, HintFault> {
        self.watcher.component = component;
        hint(&mut self.machine, g, code, made, &mut self.watcher)
    }

    fn is_on(&self) -> bool {
        true
    }

    fn law_keeps_shape(&self) {}

    ghost leads_same = { λ x. watched_none W.Sees x.machine.known x.watcher.watcher };

    ghost leads_then = { λ x y z some more h k. watched_then W.Sees x.machine.known y.machine.known z.machine.known
        x.watcher.watcher y.watcher.watcher z.watcher.watcher some more h k };
}

//! Who watches the programs of glyphs run.

use crate::component::ComponentOf;
use fx_code::Code;
use fx_machine::{FontProgram, State, Watching};

/// A program that runs, and the component that it is for; none for a root, and for `fpgm` and `prep`.
#[derive(Clone, Copy, Debug, PartialEq, Eq)]
pub struct RunningProgram {
    pub component: Option<ComponentOf>,
    pub program: FontProgram,
}

/// Sees which programs begin, for which component of which composite, and each instruction that they execute.
pub trait RunWatching {
    ghost use Rattle.fx_machine.specs.Events.{Begins, Executed};
    ghost use Rattle.fx_hint.specs.Watched.{RunEvent, event_for};
    ghost use Rattle.std.specs.Prelude.{◌≡◌, Bool, true};

    // What becomes of the watcher when it sees an event.
    ghost Sees: { Self → RunEvent → Self → Type 0 };

    // Whether it stops the program, as by `Watching`.
    ghost stops: { Self → Bool };

    /// Whether the program has to stop before its next instruction.
    fn stops(&self) -> bool
        ensures { result ≡ stops self.now };

    // A watcher that stops the program stays as it is, whatever else there would be to see.
    ghost sees_no_more: { (w : Self) → stops w ≡ true → (x : RunEvent) → Sees w x w };

    /// Sees that a program begins, in this state.
    fn begin(&mut self, running: RunningProgram, state: &State)
        ensures { Sees self.old (event_for running.component (Begins running.program state.now)) self.new };

    /// Sees an instruction after it was executed, as `Watching` does.
    fn see(
        &mut self,
        running: RunningProgram,
        code: &Code<'_>,
        address: usize,
        calls: usize,
        state: &State,
    )
        ensures { Sees self.old
            (event_for running.component (Executed running.program code.now address calls state.now)) self.new };
}

/// A watcher, and the component whose program it sees; none for a root, and for `fpgm` and `prep`.
#[derive(Drop)]
pub struct RunWatcher<W> {
    pub watcher: W,
    pub component: Option<ComponentOf>,
}

impl<W: RunWatching> Watching for RunWatcher<W> {
    ghost use Rattle.std.specs.Prelude.{◌≡◌};
    ghost use Rattle.fx_hint.specs.Watched.{event_for};
    ghost use Rattle.std.specs.Prelude.{refl};

    ghost Sees = { λ was x now. W.Sees was.watcher (event_for was.component x) now.watcher × (now.component ≡ was.component) };

    ghost stops = { λ w. W.stops w.watcher };

    fn stops(&self) -> bool {
        self.watcher.stops()
    }

    ghost sees_no_more = { λ w e x. (W.sees_no_more w.watcher e (event_for w.component x), refl) };

    fn begin(&mut self, program: FontProgram, state: &State) {
        let running = RunningProgram {
            component: self.component,
            program,
        };
        self.watcher.begin(running, state)
    }

    fn see(
        &mut self,
        program: FontProgram,
        code: &Code<'_>,
        address: usize,
        calls: usize,
        state: &State,
    ) {
        let running = RunningProgram {
            component: self.component,
            program,
        };
        self.watcher.see(running, code, address, calls, state)
    }
}

/// A watcher that does not ask which component a program is for.
#[derive(Drop)]
pub struct AnyComponent<W> {
    pub watcher: W,
}

impl<W: Watching> RunWatching for AnyComponent<W> {
    ghost Sees = { λ was x now. W.Sees was.watcher x.event now.watcher };

    ghost stops = { λ w. W.stops w.watcher };

    fn stops(&self) -> bool {
        self.watcher.stops()
    }

    ghost sees_no_more = { λ w e x. W.sees_no_more w.watcher e x.event };

    fn begin(&mut self, running: RunningProgram, state: &State) {
        self.watcher.begin(running.program, state)
    }

    fn see(
        &mut self,
        running: RunningProgram,
        code: &Code<'_>,
        address: usize,
        calls: usize,
        state: &State,
    ) {
        self.watcher
            .see(running.program, code, address, calls, state)
    }
}

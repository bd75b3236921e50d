//! Who watches programs run.

use crate::program::FontProgram;
use crate::state::State;
use fx_code::Code;

/// Sees which programs begin, and each instruction that they execute. It may stop them.
pub trait Watching {
    ghost use Rattle.std.specs.Prelude.{◌≡◌, Bool, true};
    ghost use Rattle.fx_machine.specs.Events.{Event, Begins, Executed};

    // What becomes of the watcher when it sees an event.
    ghost Sees: { Self → Event → Self → Type 0 };

    // Whether it stops the program.
    ghost stops: { Self → Bool };

    /// Whether the program has to stop before its next instruction.
    fn stops(&self) -> bool
        ensures { result ≡ stops self.now };

    // A watcher that stops the program stays as it is, whatever else there would be to see.
    ghost sees_no_more: { (w : Self) → stops w ≡ true → (x : Event) → Sees w x w };

    /// Sees that a program begins, in this state.
    fn begin(&mut self, program: FontProgram, state: &State)
        ensures { Sees self.old (Begins program state.now) self.new };

    /// Sees an instruction after it was executed: its program and the bytes of that, its address, how many calls are open then, and
    /// the state then.
    fn see(
        &mut self,
        program: FontProgram,
        code: &Code<'_>,
        address: usize,
        calls: usize,
        state: &State,
    )
        ensures { Sees self.old (Executed program code.now address calls state.now) self.new };
}

/// Sees nothing, stops nothing, and compiles to nothing.
#[derive(Clone, Copy)]
pub struct Unwatched;

impl Watching for Unwatched {
    ghost use Rattle.std.specs.Prelude.{false};

    ghost Sees = { λ _ _ _. Unit {0} };

    ghost stops = { λ _. false };

    #[inline(always)]
    fn stops(&self) -> bool {
        false
    }

    ghost sees_no_more = { λ _ _ _. tt };

    #[inline(always)]
    fn begin(&mut self, _program: FontProgram, _state: &State) {}

    #[inline(always)]
    fn see(
        &mut self,
        _program: FontProgram,
        _code: &Code<'_>,
        _address: usize,
        _calls: usize,
        _state: &State,
    ) {}
}

//! The open calls, and where a run is.

ghost use Rattle.std.specs.Prelude.{◌≡◌, ◌<◌, MatchResult, IfOk, false};
ghost use Rattle.arrayvec.specs.ArrayVec.{array_vec_len};
ghost use Rattle.fx_machine.specs.declared.state.State as the_state;
ghost use Rattle.fx_machine.specs.Table.{effect_of};
ghost use Rattle.fx_machine.specs.Machine.{moved_by, Moves, Stops, turned};
ghost use Rattle.fx_machine.specs.Configs.{calls_of, config_of};

use crate::action::Action;
use crate::definitions::Function;
use crate::halt::Cause;
use crate::limits::CALL_LIMIT;
use crate::program::Program;
use arrayvec::ArrayVec;

/// An open call: the turns of its function that are left after this one, and where it continues.
#[derive(Clone, Copy, Default)]
pub struct OpenCall {
    pub function: Function,
    pub left: u32,
    pub program: Program,
    pub next: usize,
}

/// Where a run is.
#[derive(Drop)]
pub struct Cursor {
    pub program: Program,
    pub address: usize,
}

/// The open calls.
#[derive(Drop)]
pub struct Calls {
    pub open_calls: ArrayVec<OpenCall, CALL_LIMIT>,
}

impl Cursor {
    /// Begins another turn of a function, or continues after the last.
    fn leave(&mut self, calls: &mut Calls, open_call: OpenCall)
        requires { array_vec_len calls.old.open_calls < CALL_LIMIT }
        ensures { (s : the_state.State) → config_of self.new calls.new s
            ≡ turned open_call.left open_call.function open_call.next (calls_of calls.old) open_call.program s }
    {
        if open_call.left == 0 {
            self.program = open_call.program;
            self.address = open_call.next;
        } else {
            self.program = open_call.function.program;
            self.address = open_call.function.address;
            calls.open_calls.push(OpenCall {
                left: open_call.left - 1,
                ..open_call
            });
        }
    }

    /// Goes where an action leads, and says whether the program may have changed.
    pub fn follow(&mut self, calls: &mut Calls, action: Action) -> Result<bool, Cause>
        ensures moved { MatchResult result
            (λ _. (s : the_state.State) → moved_by (effect_of action s) (calls_of calls.old) self.old.program
            ≡ Moves (config_of self.new calls.new s))
            (λ cause. (s : the_state.State) → moved_by (effect_of action s) (calls_of calls.old) self.old.program ≡ Stops cause) }
        ensures stays { IfOk result (λ left. left ≡ false → self.new.program ≡ self.old.program) }
    {
        let depth = calls.open_calls.len();
        match action {
            Action::Went(address) => {
                self.address = address;
                Ok(false)
            }
            Action::Called {
                turns,
                function,
                next,
            } => {
                if depth == CALL_LIMIT {
                    return Err(Cause::CallDepth);
                }
                let open_call = OpenCall {
                    function,
                    left: turns,
                    program: self.program,
                    next,
                };
                self.leave(calls, open_call);
                Ok(true)
            }
            Action::Returned => match calls.open_calls.pop() {
                None => Err(Cause::StrayEnd),
                Some(open_call) => {
                    self.leave(calls, open_call);
                    Ok(true)
                }
            },
        }
    }
}

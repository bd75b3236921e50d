//! One instruction.

ghost use Rattle.std.specs.Prelude.{◌≡◌, ◌<◌, length, MatchResult, OnErr, IfOk, false};
ghost use Rattle.fx_machine.specs.Table.{row_in, settled};
ghost use Rattle.fx_machine.specs.Actions.{acts};
ghost use Rattle.fx_pointops.specs.Zones.{HasShapes};
ghost use Rattle.fx_machine.specs.Shapes.{HasSizes};
ghost use Rattle.fx_machine.specs.Machine.{moved_by, Moves, Stops};
ghost use Rattle.fx_machine.specs.Configs.{calls_of, config_of};

use crate::action::Action;
use crate::calls::{Calls, Cursor};
use crate::halt::Cause;
use crate::program::Program;
use crate::state::State;
use fx_code::Targets;

/// Executes the instruction at an address of a program with these bytes; if that faults, the points are as they were.
#[inline(always)]
#[tactic(auto, using(crate::proofs::Reading::row_there))]
fn execute(
    state: &mut State,
    bytes: &[u8],
    targets: &mut Targets<'_>,
    program: Program,
    address: usize,
) -> Result<Action, Cause>
    requires inside { address < length bytes.now }
    requires targets { program ≡ Program.Font → targets.old ≡ bytes.now }
    ensures value { settled (acts result state.new) ≡ row_in bytes.now program address state.old }
    ensures kept { OnErr result (state.new.zones ≡ state.old.zones) }
    ensures sizes { HasSizes state.old state.new }
    ensures targets { targets.new ≡ targets.old }
{
    state.row(bytes, targets, bytes[address], program, address)
}

/// Executes the instruction at the cursor, and says whether the program may have changed. It and what it calls are inlined into
/// the loop of each run, watched or not: a call for each instruction would cost a third of a strike.
#[inline(always)]
pub fn advance(
    cursor: &mut Cursor,
    calls: &mut Calls,
    state: &mut State,
    bytes: &[u8],
    targets: &mut Targets<'_>,
) -> Result<bool, Cause>
    requires inside { cursor.old.address < length bytes.now }
    requires targets { cursor.old.program ≡ Program.Font → targets.old ≡ bytes.now }
    ensures moved { MatchResult result
        (λ _. moved_by (row_in bytes.now cursor.old.program cursor.old.address state.old) (calls_of calls.old) cursor.old.program
        ≡ Moves (config_of cursor.new calls.new state.new))
        (λ cause. moved_by (row_in bytes.now cursor.old.program cursor.old.address state.old) (calls_of calls.old)
        cursor.old.program ≡ Stops cause) }
    ensures stays { IfOk result (λ left. left ≡ false → cursor.new.program ≡ cursor.old.program) }
    ensures shapes { HasShapes state.old.zones state.new.zones }
    ensures sizes { HasSizes state.old state.new }
    ensures targets { targets.new ≡ targets.old }
{
    let action = execute(state, bytes, targets, cursor.program, cursor.address)?;
    cursor.follow(calls, action)
}

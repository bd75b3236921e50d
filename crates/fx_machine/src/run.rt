//! Runs, one instruction after the other.

ghost use Rattle.std.specs.Prelude.{◌≡◌, ◌-◌, ◌≤◌, ◌<◌, IfOk, true, false, length};
ghost use Rattle.fx_machine.specs.declared.state.State as the_state;
ghost use Rattle.fx_machine.specs.Programs.{texts};
ghost use Rattle.fx_machine.specs.Table.{row_at};
ghost use Rattle.fx_pointops.specs.Zones.{HasShapes};
ghost use Rattle.fx_machine.specs.Shapes.{HasSizes};
ghost use Rattle.fx_machine.specs.Machine.{answer_from, answer_of};
ghost use Rattle.fx_machine.specs.Configs.{answered, config_of, sees};
ghost use Rattle.fx_machine.specs.Events.{Watches, StopsIn, Executed, events_of};

use crate::calls::{Calls, Cursor};
use crate::halt::{Cause, Halt, halted};
use crate::program::{FontProgram, Program, Programs};
use crate::state::State;
use crate::step::advance;
use crate::watching::Watching;
use arrayvec::ArrayVec;
use fx_code::{Code, Targets};

/// The bytes of a program, which are those at hand if it was not left.
fn bytes_then<'a>(
    programs: &Programs<'a>,
    bytes: &'a [u8],
    program: Program,
    left: bool,
) -> &'a [u8]
    requires { left ≡ false → bytes.now ≡ texts programs.now program }
    ensures { result.now ≡ texts programs.now program }
{
    if left {
        programs.code(program).bytes()
    } else {
        bytes
    }
}

/// Shows a watcher an instruction that was executed.
#[inline(always)]
fn tell<W: Watching>(
    watcher: &mut W,
    program: FontProgram,
    bytes: &[u8],
    address: usize,
    calls: &Calls,
    state: &State,
)
    ensures { W.Sees watcher.old (Executed program bytes.now address (length calls.now.open_calls.items) state.now) watcher.new }
{
    let code = Code::new(bytes);
    watcher.see(program, &code, address, calls.open_calls.len(), state);
}

/// What a run comes to that has reached the end of a program, is past it, or has executed all that it may.
#[inline(never)]
fn at_end(
    programs: &Programs<'_>,
    start: Program,
    cursor: &Cursor,
    calls: &Calls,
    limit: u32,
    left: u32,
) -> Result<u32, Halt>
    requires past { 0 < left → length (texts programs.now cursor.now.program) ≤ cursor.now.address }
    requires counted { left ≤ limit }
    ensures value { (s : the_state.State) → sees result s ≡ answered (texts programs.now) programs.now.number start
        (answer_from (row_at (texts programs.now)) left (limit - left) (config_of cursor.now calls.now s)) }
    ensures few { IfOk result (λ n. n ≤ limit) }
{
    let program = cursor.program;
    let address = cursor.address;
    let ended = address == programs.code(program).len();
    if ended && calls.open_calls.is_empty() {
        return Ok(limit - left);
    }
    if left == 0 {
        return Err(halted(programs, start, program, address, Cause::StepLimit));
    }
    if ended {
        return Err(halted(programs, start, program, address, Cause::StrayEnd));
    }
    Err(halted(programs, start, program, address, Cause::CodeEnd))
}

/// Runs a program from its first byte, for at most `limit` instructions: how many it executed, or where and why it halted. The
/// watcher sees it begin, and each instruction after it was executed. A program that the watcher stops executes nothing more, and
/// has no more instructions left, as at the limit.
pub fn run<W: Watching>(
    state: &mut State,
    programs: &Programs<'_>,
    targets: &mut Targets<'_>,
    start: Program,
    limit: u32,
    watcher: &mut W,
) -> Result<u32, Halt>
    requires { targets.old ≡ programs.now.font }
    ensures value { W.stops watcher.new ≡ false → sees result state.new
        ≡ answered (texts programs.now) programs.now.number start (answer_of (row_at (texts programs.now)) limit start state.old) }
    ensures unstopped { IfOk result (λ _. W.stops watcher.new ≡ false) }
    ensures watched { Watches W.Sees watcher.old (events_of
        (texts programs.now) programs.now.number limit start state.old) watcher.new }
    ensures early { W.stops watcher.new ≡ true → StopsIn W.Sees W.stops watcher.old (events_of
        (texts programs.now) programs.now.number limit start state.old) state.new watcher.new }
    ensures few { IfOk result (λ steps. steps ≤ limit) }
    ensures shapes { HasShapes state.old.zones state.new.zones }
    ensures sizes { HasSizes state.old state.new }
    ensures targets { targets.new ≡ targets.old }
{
    let mut cursor = Cursor {
        program: start,
        address: 0,
    };
    let mut calls = Calls {
        open_calls: ArrayVec::new(),
    };
    let mut bytes = programs.code(start).bytes();
    let mut left = limit;
    watcher.begin(programs.name(start), state);
    // The program's result is what comes of the cursor, the calls and the state if `left` more instructions may be executed. Once
    // the watcher sees the instructions that are left, it has seen all. If it stops the program now, it does so in this state.
    'steps: loop {
        if watcher.stops() {
            return Err(halted(
                programs,
                start,
                cursor.program,
                cursor.address,
                Cause::StepLimit,
            ));
        }
        // The limit is asked first, so that the test takes part in the count.
        if left == 0 || cursor.address >= bytes.len() {
            return at_end(programs, start, &cursor, &calls, limit, left);
        }
        let program = cursor.program;
        let address = cursor.address;
        left -= 1;
        let name = programs.name(program);
        let has_left = match advance(&mut cursor, &mut calls, state, bytes, targets) {
            Ok(has_left) => has_left,
            Err(cause) => return Err(halted(programs, start, program, address, cause)),
        };
        tell(watcher, name, bytes, address, &calls, state);
        bytes = bytes_then(programs, bytes, cursor.program, has_left);
    }
}

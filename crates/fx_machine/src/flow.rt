//! The rows that may continue elsewhere.
//!
//! Each doc has the opcode, the mnemonic, its name in the Apple TrueType Reference Manual ("Instruction set"), what becomes of the
//! stack, whose top is written last, and what the row sets.

ghost use Rattle.std.specs.Prelude.{◌≡◌, ◌<◌, ◌≤◌, ◌+ℤ◌, pos, length};
ghost use Rattle.fx_code.specs.Chain.{opcode_at, stops_at_false, stops_at_else};
ghost use Rattle.fx_code.specs.Past.{past_of};
ghost use Rattle.fx_machine.specs.Actions.{acts, Leads};
ghost use Rattle.fx_machine.specs.Flow.{number_below, jumped, if_row, jmpr_row, jrot_row, jrof_row, call_row, loopcall_row, fdef_row, idef_row, undefined_row};
ghost use Rattle.fx_machine.specs.Table.{push_at};
ghost use Rattle.fx_machine.specs.inner.Bytes.{bytes_then};

use crate::action::Action;
use crate::definitions::Function;
use crate::halt::Cause;
use crate::program::Program;
use crate::state::State;
use fx_code::opcode::{PUSHB_1, PUSHB_8};
use fx_code::{Code, CodeFault, Instr, Targets};

/// A number below a count.
fn number_below(count: usize, number: i32) -> Result<usize, Cause>
    ensures { result ≡ number_below count number }
{
    if number < 0 || number as usize >= count {
        return Err(Cause::BadArgument);
    }
    Ok(number as usize)
}

/// Where a false `IF` of a program continues. In `fpgm` it is remembered: functions are called again and again, and with them the
/// same `IF`s.
#[inline(always)]
fn past_false(
    code: &Code<'_>,
    targets: &mut Targets<'_>,
    program: Program,
    next: usize,
) -> Result<usize, CodeFault>
    requires { program ≡ Program.Font → targets.old ≡ code.now }
    ensures value { result ≡ past_of stops_at_false code.now next }
    ensures targets { targets.new ≡ targets.old }
{
    match program {
        Program::Font => targets.skip_false(next),
        _ => code.skip_false(next),
    }
}

/// Where an executed `ELSE` of a program continues, remembered in the same way.
#[inline(always)]
pub(crate) fn past_else(
    code: &Code<'_>,
    targets: &mut Targets<'_>,
    program: Program,
    next: usize,
) -> Result<usize, CodeFault>
    requires { program ≡ Program.Font → targets.old ≡ code.now }
    ensures value { result ≡ past_of stops_at_else code.now next }
    ensures targets { targets.new ≡ targets.old }
{
    match program {
        Program::Font => targets.skip_else(next),
        _ => code.skip_else(next),
    }
}

impl State {
    /// A jump from an address of a program of a size.
    #[tactic(auto, unfolding(crate::specs::Flow::jumped))]
    fn jumped(&self, size: usize, address: usize, offset: i32) -> Result<Action, Cause>
        ensures { acts result self.now ≡ jumped size (pos address +ℤ offset) self.now }
    {
        let target = address as i128 + i128::from(offset);
        if target < 0 || target > size as i128 {
            return Err(Cause::BadJump);
        }
        Ok(Action::Went(target as usize))
    }

    /// 58 IF, IF test: `e ->`. Continues, or if e is 0 after the ELSE or EIF of its level.
    #[inline(always)]
    #[tactic(auto, unfolding(crate::specs::Flow::if_row))]
    pub(crate) fn if_else(
        &mut self,
        code: &Code<'_>,
        targets: &mut Targets<'_>,
        program: Program,
        next: usize,
    ) -> Result<Action, Cause>
        requires targets { program ≡ Program.Font → targets.old ≡ code.now }
        ensures does { Leads (if_row code.now next) self.old self.new result }
        ensures targets { targets.new ≡ targets.old }
    {
        if self.store.one()? != 0 {
            return Ok(Action::Went(next));
        }
        let address = past_false(code, targets, program, next)?;
        Ok(Action::Went(address))
    }

    /// 1C JMPR, JuMP Relative: `o ->`. Continues o bytes on from its own address.
    #[tactic(auto, unfolding(crate::specs::Flow::jmpr_row))]
    pub(crate) fn jmpr(&mut self, size: usize, address: usize) -> Result<Action, Cause>
        ensures { Leads (jmpr_row size address) self.old self.new result }
    {
        let offset = self.store.one()?;
        self.jumped(size, address, offset)
    }

    /// 78 JROT, Jump Relative On True: `o e ->`. Jumps if e is not 0.
    #[inline(always)]
    #[tactic(auto, unfolding(crate::specs::Flow::jrot_row))]
    pub(crate) fn jrot(&mut self, size: usize, address: usize, next: usize) -> Result<Action, Cause>
        ensures { Leads (jrot_row size address next) self.old self.new result }
    {
        let (offset, test) = self.store.two()?;
        if test == 0 {
            return Ok(Action::Went(next));
        }
        self.jumped(size, address, offset)
    }

    /// 79 JROF, Jump Relative On False: `o e ->`. Jumps if e is 0.
    #[inline(always)]
    #[tactic(auto, unfolding(crate::specs::Flow::jrof_row))]
    pub(crate) fn jrof(&mut self, size: usize, address: usize, next: usize) -> Result<Action, Cause>
        ensures { Leads (jrof_row size address next) self.old self.new result }
    {
        let (offset, test) = self.store.two()?;
        if test != 0 {
            return Ok(Action::Went(next));
        }
        self.jumped(size, address, offset)
    }

    /// 2B CALL, CALL function: `f ->`.
    #[tactic(auto, unfolding(crate::specs::Flow::call_row, crate::specs::Flow::called))]
    pub(crate) fn call(&mut self, next: usize) -> Result<Action, Cause>
        ensures { Leads (call_row next) self.old self.new result }
    {
        let number = self.store.one()?;
        match self.definitions.function(number) {
            Some(function) => Ok(Action::Called {
                turns: 1,
                function,
                next,
            }),
            None => Err(Cause::NoFunction),
        }
    }

    /// 2A LOOPCALL, LOOP and CALL function: `n f ->`. Calls f n times.
    #[tactic(auto, unfolding(crate::specs::Flow::loopcall_row, crate::specs::Flow::times, crate::specs::Flow::called))]
    pub(crate) fn loopcall(&mut self, next: usize) -> Result<Action, Cause>
        ensures { Leads (loopcall_row next) self.old self.new result }
    {
        let (turns, number) = self.store.two()?;
        if turns < 1 {
            return Ok(Action::Went(next));
        }
        match self.definitions.function(number) {
            Some(function) => Ok(Action::Called {
                turns: turns as u32,
                function,
                next,
            }),
            None => Err(Cause::NoFunction),
        }
    }

    /// 2C FDEF, Function DEFinition: `f ->`. Function f is what follows up to its ENDF.
    #[inline(always)]
    #[tactic(auto, unfolding(crate::specs::Flow::fdef_row))]
    pub(crate) fn fdef(
        &mut self,
        code: &Code<'_>,
        program: Program,
        next: usize,
    ) -> Result<Action, Cause>
        ensures { Leads (fdef_row code.now program next) self.old self.new result }
    {
        let number = self.store.one()?;
        let number = number_below(self.definitions.count(), number)?;
        let function = Function {
            program,
            address: next,
        };
        self.definitions.define(number, function);
        let address = code.skip_def(next)?;
        Ok(Action::Went(address))
    }

    /// 89 IDEF, Instruction DEFinition: `o ->`. Opcode o is what follows up to its ENDF.
    #[inline(always)]
    #[tactic(auto, unfolding(crate::specs::Flow::idef_row))]
    pub(crate) fn idef(
        &mut self,
        code: &Code<'_>,
        program: Program,
        next: usize,
    ) -> Result<Action, Cause>
        ensures { Leads (idef_row code.now program next) self.old self.new result }
    {
        let number = self.store.one()?;
        let number = number_below(256, number)?;
        let function = Function {
            program,
            address: next,
        };
        self.definitions.define_opcode(number, function);
        let address = code.skip_def(next)?;
        Ok(Action::Went(address))
    }

    /// 28, 7B, 83, 84, 8F to AF, opcodes without a row: calls what an IDEF has defined.
    #[tactic(auto, unfolding(crate::specs::Flow::undefined_row, crate::specs::Flow::called))]
    pub(crate) fn undefined(&mut self, opcode: u8, next: usize) -> Result<Action, Cause>
        ensures { Leads (undefined_row opcode next) self.old self.new result }
    {
        match self.definitions.opcode(opcode) {
            Some(function) => Ok(Action::Called {
                turns: 1,
                function,
                next,
            }),
            None => Err(Cause::BadOpcode),
        }
    }

    /// Pushes bytes, and continues at an address.
    fn push_bytes(&mut self, bytes: &[u8], next: usize) -> Result<Action, Cause>
        ensures { Leads (bytes_then next bytes.now) self.old self.new result }
    {
        let instr = Instr {
            opcode: PUSHB_1,
            pushed: bytes,
            next,
        };
        self.store.push_all(&instr)?;
        Ok(Action::Went(next))
    }

    /// B0-B7 PUSHB[abc], PUSH Bytes: `-> ..`, 1 to 8 bytes. Programs push few bytes more often than they do anything else, so
    /// this is not left to `push`, which reads an instruction of any kind.
    #[tactic(auto, using(crate::proofs::Reading::bytes_whole, crate::proofs::Reading::bytes_cut))]
    pub(crate) fn pushb(
        &mut self,
        bytes: &[u8],
        opcode: u8,
        address: usize,
    ) -> Result<Action, Cause>
        requires inside { address < length bytes.now }
        requires opcode { opcode ≡ opcode_at bytes.now address }
        requires first { PUSHB_1 ≤ opcode }
        requires last { opcode ≤ PUSHB_8 }
        ensures { Leads (push_at bytes.now address) self.old self.new result }
    {
        let first = address + 1;
        let next = first + usize::from(opcode - PUSHB_1) + 1;
        if next > bytes.len() {
            return Err(Cause::CodeEnd);
        }
        self.push_bytes(&bytes[first..next], next)
    }

    /// 40 NPUSHB, 41 NPUSHW, B0-B7 PUSHB[abc], B8-BF PUSHW[abc], PUSH Bytes or Words: `-> ..`, the data in order.
    pub(crate) fn push(&mut self, bytes: &[u8], address: usize) -> Result<Action, Cause>
        ensures { Leads (push_at bytes.now address) self.old self.new result }
    {
        self.push_apart(&Code::new(bytes), address)
    }

    /// The same, not inlined. Its result goes through memory, which `push` clears, so that no other instruction waits for it.
    #[inline(never)]
    #[tactic(auto, unfolding(crate::specs::Table::push_at, fx_code::specs::Chain::IsWhole))]
    fn push_apart(&mut self, code: &Code<'_>, address: usize) -> Result<Action, Cause>
        ensures { Leads (push_at code.now address) self.old self.new result }
    {
        let instr = code.at(address)?;
        self.store.push_all(&instr)?;
        Ok(Action::Went(instr.next))
    }
}

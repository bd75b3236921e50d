//! Why and where a program halts.

ghost use Rattle.std.specs.Prelude.{◌≡◌};
ghost use Rattle.fx_machine.specs.Causes.{of_stack, of_state, of_code, number_of, name_of};
ghost use Rattle.fx_machine.specs.Programs.{texts};
ghost use Rattle.fx_machine.specs.Configs.{halt_at};

use crate::program::{FontProgram, Program, Programs};
use fx_code::CodeFault;
use fx_gstate::BadArgument;
use fx_stackops::StackFault;
use std::alloc::AllocError;
use thiserror::Error;

/// Why a program halts.
#[derive(Clone, Copy, Debug, PartialEq, Eq)]
pub enum Cause {
    /// The stack holds too few numbers.
    StackUnder,
    /// The stack has no more room.
    StackOver,
    /// The opcode is not defined.
    BadOpcode,
    /// The program ends too early.
    CodeEnd,
    /// A jump leads out of the program.
    BadJump,
    /// The function is not defined.
    NoFunction,
    /// Too many calls are open.
    CallDepth,
    /// Too many instructions were executed.
    StepLimit,
    /// A division by zero.
    DivideByZero,
    /// An argument is out of range.
    BadArgument,
    /// A definition begins inside a definition.
    NestedDefinition,
    /// A definition ends outside a call.
    StrayEnd,
}

impl From<StackFault> for Cause {
    ghost from_gives = { λ f e. e ≡ of_stack f };

    fn from(fault: StackFault) -> Cause {
        match fault {
            StackFault::StackUnder => Cause::StackUnder,
            StackFault::StackOver => Cause::StackOver,
            StackFault::DivideByZero => Cause::DivideByZero,
            StackFault::BadArgument => Cause::BadArgument,
        }
    }
}

impl From<BadArgument> for Cause {
    ghost from_gives = { λ f e. e ≡ of_state f };

    fn from(_fault: BadArgument) -> Cause {
        Cause::BadArgument
    }
}

impl From<CodeFault> for Cause {
    ghost from_gives = { λ f e. e ≡ of_code f };

    fn from(fault: CodeFault) -> Cause {
        match fault {
            CodeFault::CodeEnd => Cause::CodeEnd,
            CodeFault::NestedDefinition => Cause::NestedDefinition,
        }
    }
}

impl Cause {
    /// The number and the name, in one table.
    fn entry(self) -> (u8, &'static str)
        ensures number { result.0 ≡ number_of self }
        ensures name { result.1.now ≡ name_of self }
    {
        match self {
            Cause::StackUnder => (30, "StackUnder"),
            Cause::StackOver => (31, "StackOver"),
            Cause::BadOpcode => (32, "BadOpcode"),
            Cause::CodeEnd => (33, "CodeEnd"),
            Cause::BadJump => (34, "BadJump"),
            Cause::NoFunction => (35, "NoFunction"),
            Cause::CallDepth => (36, "CallDepth"),
            Cause::StepLimit => (37, "StepLimit"),
            Cause::DivideByZero => (38, "DivideByZero"),
            Cause::BadArgument => (39, "BadArgument"),
            Cause::NestedDefinition => (40, "NestedDefinition"),
            Cause::StrayEnd => (41, "StrayEnd"),
        }
    }

    /// The cause's number among the refusals of a strike.
    pub fn number(self) -> u8
        ensures { result ≡ number_of self }
    {
        self.entry().0
    }

    /// The cause's name.
    pub fn name(self) -> &'static str
        ensures { result.now ≡ name_of self }
    {
        self.entry().1
    }
}

/// Where and why a program halted; the opcode is the one at that address, 0 past the end.
#[derive(Clone, Copy, Debug, PartialEq, Eq, Error)]
#[error("{number} {name} during {during} in {program} at {address} opcode {opcode:02X}", number = self.cause.number(), name = self.cause.name())]
pub struct Halt {
    pub cause: Cause,
    /// The program that was started.
    pub during: FontProgram,
    /// The one whose bytes hold the address.
    pub program: FontProgram,
    pub address: usize,
    pub opcode: u8,
}

/// A halt at an address of a program.
pub(crate) fn halted(
    programs: &Programs<'_>,
    during: Program,
    program: Program,
    address: usize,
    cause: Cause,
) -> Halt
    ensures { result ≡ halt_at (texts programs.now) programs.now.number during program address cause }
{
    Halt {
        cause,
        during: programs.name(during),
        program: programs.name(program),
        address,
        opcode: programs.code(program).opcode(address),
    }
}

/// Why there is no machine of a font at a size.
#[derive(Clone, Copy, Debug, PartialEq, Eq, Error)]
pub enum MachineFault {
    /// `fpgm` or `prep` halted.
    #[error("{0}")]
    Halted(Halt),
    /// Memory ran out.
    #[error("out of memory")]
    OutOfMemory,
}

impl From<Halt> for MachineFault {
    ghost use Rattle.fx_machine.specs.declared.halt.MachineFault.TheVariants.{Halted};

    ghost from_gives = { λ f e. e ≡ Halted f };

    fn from(halt: Halt) -> MachineFault {
        MachineFault::Halted(halt)
    }
}

impl From<AllocError> for MachineFault {
    ghost use Rattle.fx_machine.specs.declared.halt.MachineFault.TheVariants.{OutOfMemory};

    ghost from_gives = { λ _ e. e ≡ OutOfMemory };

    fn from(_fault: AllocError) -> MachineFault {
        MachineFault::OutOfMemory
    }
}

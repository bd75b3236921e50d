//! The fields of a refusal.
ghost use Rattle.std.specs.Prelude.{◌≡◌, ◌≤◌};
ghost use Rattle.fx_request.specs.Refusals.{number_of};
ghost use Rattle.mkstrike_c.specs.Refused.{at_character, bad_block, bad_mode, fields, halted, no_fields, program_number, refused_of};

use fx_machine::{FontProgram, Halt};
use fx_request::{Location, Refusal};

/// No glyph, no program, no character.
pub const NONE: u32 = 0xFFFF_FFFF;

/// The font program; the program of a glyph has the glyph's number, which is below.
pub const FPGM: u32 = 0x1_0000;

/// The control value program.
pub const PREP: u32 = 0x1_0001;

/// The number of a refusal that only C has: a bit of the mode is not known.
pub const BAD_MODE: u32 = 64;

/// The number of another: words are not a block of the font at this size.
pub const BAD_BLOCK: u32 = 65;

/// Why a call was refused, and where.
#[repr(C)]
#[derive(Clone, Copy)]
pub struct Refused {
    /// The refusal's number.
    pub number: u32,
    /// The tag of the table that is missing or short, its first byte the highest; or 0.
    pub table: u32,
    /// The glyph at fault; or `NONE`.
    pub glyph: u32,
    /// Of a halt: the program that was started, and the one whose bytes hold the instruction; or `NONE`.
    pub during: u32,
    pub program: u32,
    /// Of a halt: the instruction's opcode, 0 past the end; or 0.
    pub opcode: u32,
    /// Of many characters, the index of the first that was refused, and its code point; or `NONE`.
    pub index: u32,
    pub code: u32,
    /// Of a halt: the instruction's address; or 0.
    pub address: u64,
}

/// The number of a refusal.
pub fn number(refusal: Refusal) -> u32
    ensures value { result ≡ number_of refusal }
    ensures least { 10 ≤ result }
{
    u32::from(refusal.number())
}

/// A refusal without fields.
fn no_fields(number: u32) -> Refused
    ensures { result ≡ no_fields number }
{
    Refused {
        number,
        table: 0,
        glyph: NONE,
        during: NONE,
        program: NONE,
        opcode: 0,
        index: NONE,
        code: NONE,
        address: 0,
    }
}

/// The number of a program.
fn program_number(program: FontProgram) -> u32
    ensures { result ≡ program_number program }
{
    match program {
        FontProgram::Fpgm => FPGM,
        FontProgram::Prep => PREP,
        FontProgram::Glyph(g) => u32::from(g),
    }
}

/// The fields of a halt.
fn halted(number: u32, halt: Halt) -> Refused
    ensures { result ≡ halted number halt }
{
    Refused {
        during: program_number(halt.during),
        program: program_number(halt.program),
        opcode: u32::from(halt.opcode),
        address: halt.address as u64,
        ..no_fields(number)
    }
}

/// The fields of a refusal of this number.
fn fields(number: u32, location: Location) -> Refused
    ensures { result ≡ fields number location }
{
    match location {
        Location::Table(tag) => Refused {
            table: u32::from_be_bytes(tag),
            ..no_fields(number)
        },
        Location::Glyph(g) => Refused {
            glyph: u32::from(g),
            ..no_fields(number)
        },
        Location::Halt(halt) => halted(number, halt),
        Location::Nowhere | Location::Property(_) | Location::Bytes(_) => no_fields(number),
    }
}

/// The fields of the refusal of one of many characters.
pub fn refused_at(index: u32, code: u32, refusal: Refusal) -> Refused
    ensures { result ≡ at_character index code (refused_of refusal) }
{
    Refused {
        index,
        code,
        ..fields(number(refusal), refusal.location())
    }
}

/// Puts the fields of a refused mode, and returns its number.
pub fn refuse_mode(refused: &mut Refused) -> u32
    ensures value { result ≡ bad_mode }
    ensures fields { refused.new ≡ no_fields bad_mode }
{
    *refused = no_fields(BAD_MODE);
    BAD_MODE
}

/// Puts the fields of a refused block, and returns its number.
pub fn refuse_block(refused: &mut Refused) -> u32
    ensures value { result ≡ bad_block }
    ensures fields { refused.new ≡ no_fields bad_block }
{
    *refused = no_fields(BAD_BLOCK);
    BAD_BLOCK
}

/// Puts the fields of a refusal, and returns its number.
pub fn refuse(refusal: Refusal, refused: &mut Refused) -> u32
    ensures value { result ≡ number_of refusal }
    ensures least { 10 ≤ result }
    ensures fields { refused.new ≡ refused_of refusal }
{
    let number = number(refusal);
    *refused = fields(number, refusal.location());
    number
}

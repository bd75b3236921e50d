//! The bytes of a program, and how a program continues from an address.

ghost use Rattle.std.specs.Prelude.{◌≡◌, ℕ, ◌+◌, ◌<◌, ◌≤◌, List, MatchResult, MatchOption, IfOk, IfErr, IfSome, ◌^◌, length};
ghost use Rattle.std.specs.Prelude.{if◌then◌else◌};
ghost use Rattle.fx_code.specs.Chain.{next_address, opcode_at, head_len, data_len, has_data, data_at, IsWhole};
ghost use Rattle.fx_code.specs.Chain.{IsFirst, HasNone, stops_at_false, stops_at_else, LeadsPast, LeadsPastDefinition};
ghost use Rattle.fx_code.specs.Past.{past_of, past_definition_of};
ghost use Rattle.fx_code.specs.Numbers.{numbers, pushes_words};
ghost use Rattle.fx_code.specs.Seek.{stops};

use crate::fault::CodeFault;
use crate::instruction::Instr;
use crate::opcode::{ENDF, NPUSHB, NPUSHW, PUSHB_1, PUSHB_8, PUSHW_1, PUSHW_8};
use crate::seek::{Seek, ends, level_past};
use std::marker::Model;

/// The bytes of a program.
#[derive(Drop)]
pub struct Code<'a> {
    bytes: &'a [u8],
}

impl<'a> Model for Code<'a> {
    ghost Value = { List ℕ };

    ghost view = { λ c. c.bytes.now };
}

/// How many bytes come before an opcode's data: itself, and a count if it has one.
fn head_of(opcode: u8) -> usize
    ensures { result ≡ head_len opcode }
{
    if opcode == NPUSHB || opcode == NPUSHW {
        2
    } else {
        1
    }
}

/// How many bytes of data an opcode has, with the byte after it.
fn data_of(opcode: u8, count: u8) -> usize
    ensures value { result ≡ data_len opcode count }
    ensures few { result ≤ (if pushes_words opcode then 510 else 255) }
{
    match opcode {
        NPUSHB => count as usize,
        NPUSHW => 2 * count as usize,
        PUSHB_1..=PUSHB_8 => (opcode - PUSHB_1 + 1) as usize,
        PUSHW_1..=PUSHW_8 => 2 * (opcode - PUSHW_1 + 1) as usize,
        _ => 0,
    }
}

/// Whether data may follow an opcode.
fn has_data(opcode: u8) -> bool
    ensures { result ≡ has_data opcode }
{
    opcode == NPUSHB || opcode == NPUSHW || (PUSHB_1 <= opcode && opcode <= PUSHW_8)
}

impl<'a> Code<'a> {
    /// The program of these bytes.
    pub fn new(bytes: &'a [u8]) -> Code<'a>
        ensures { result ≡ bytes.now }
    {
        Code { bytes }
    }

    /// Its bytes.
    pub fn bytes(&self) -> &'a [u8]
        ensures { result.now ≡ self.now }
    {
        self.bytes
    }

    /// How many bytes it has.
    pub fn len(&self) -> usize
        ensures { result ≡ length self.now }
    {
        self.bytes.len()
    }

    /// The opcode at an address, 0 past the end.
    pub fn opcode(&self, address: usize) -> u8
        ensures { result ≡ opcode_at self.now address }
    {
        match self.bytes.get(address) {
            Some(opcode) => *opcode,
            None => 0,
        }
    }

    /// The instruction at an address, if it is there whole; `CodeEnd` if its data are cut, and at or past the program's
    /// end (Apple TrueType Reference Manual, "NPUSHB", "NPUSHW", "PUSHB", "PUSHW").
    #[tactic(auto, unfolding(crate::specs::Chain::IsWhole, crate::specs::Chain::size_at))]
    pub fn at(&self, address: usize) -> Result<Instr<'a>, CodeFault>
        ensures whole { MatchResult result (λ i. IsWhole self.now address) (λ e. ¬ (IsWhole self.now address)) }
        ensures opcode { IfOk result (λ i. i.opcode ≡ opcode_at self.now address) }
        ensures next { IfOk result (λ i. i.next ≡ next_address self.now address) }
        ensures fits { IfOk result (λ i. i.next < 2 ^ 63) }
        ensures pushed { IfOk result (λ i. i.pushed.now ≡ data_at self.now address) }
        ensures few { IfOk result (λ i. length (numbers i.opcode i.pushed.now) ≤ 255) }
        ensures fault { IfErr result (λ e. e ≡ CodeFault.CodeEnd) }
    {
        let Some(opcode) = self.bytes.get(address) else {
            return Err(CodeFault::CodeEnd);
        };
        if !has_data(*opcode) {
            return Ok(Instr {
                opcode: *opcode,
                pushed: &self.bytes[address + 1..address + 1],
                next: address + 1,
            });
        }
        let rest = self.bytes.len() - address;
        let count = if rest > 1 { self.bytes[address + 1] } else { 0 };
        let head = head_of(*opcode);
        let size = head + data_of(*opcode, count);
        if size > rest {
            return Err(CodeFault::CodeEnd);
        }
        Ok(Instr {
            opcode: *opcode,
            pushed: &self.bytes[address + head..address + size],
            next: address + size,
        })
    }

    /// The least member of the chain from an address that ends the search.
    #[tactic(auto, using(crate::proofs::Onward::next_above, crate::proofs::Onward::whole_inside))]
    fn find(&self, from: usize, seek: Seek) -> Option<usize>
        ensures inside { IfSome result (λ address. address < length self.now) }
        ensures bound { IfSome result (λ address. address + 1 < 2 ^ 64) }
        ensures first { MatchOption result (HasNone (stops seek) self.now from)
            (λ address. IsFirst (stops seek) self.now from address) }
    {
        let mut address = from;
        let mut level: usize = 0;
        // No member of the chain before this address ends the search.
        'chain: while let Ok(instr) = self.at(address) {
            if ends(seek, instr.opcode, level) {
                return Some(address);
            }
            level = level_past(instr.opcode, level);
            address = instr.next;
        }
        None
    }

    /// Where a false `IF` continues, whose next instruction is at `address`: after the first `ELSE` or `EIF` of its own level;
    /// `CodeEnd` if there is none (Apple TrueType Reference Manual, "IF").
    #[tactic(auto, using(crate::proofs::Exists::same_past))]
    pub fn skip_false(&self, address: usize) -> Result<usize, CodeFault>
        ensures past { LeadsPast stops_at_false self.now address result }
        ensures value { result ≡ past_of stops_at_false self.now address }
    {
        self.skip_false_inner(address)
    }

    /// The same, with one clause.
    fn skip_false_inner(&self, address: usize) -> Result<usize, CodeFault>
        ensures { LeadsPast stops_at_false self.now address result }
    {
        match self.find(address, Seek::False) {
            Some(end) => Ok(end + 1),
            None => Err(CodeFault::CodeEnd),
        }
    }

    /// Where an executed `ELSE` continues, whose next instruction is at `address`: after the `EIF` of its level; `CodeEnd` if there
    /// is none (Apple TrueType Reference Manual, "ELSE").
    #[tactic(auto, using(crate::proofs::Exists::same_past))]
    pub fn skip_else(&self, address: usize) -> Result<usize, CodeFault>
        ensures past { LeadsPast stops_at_else self.now address result }
        ensures value { result ≡ past_of stops_at_else self.now address }
    {
        self.skip_else_inner(address)
    }

    /// The same, with one clause.
    fn skip_else_inner(&self, address: usize) -> Result<usize, CodeFault>
        ensures { LeadsPast stops_at_else self.now address result }
    {
        match self.find(address, Seek::Else) {
            Some(end) => Ok(end + 1),
            None => Err(CodeFault::CodeEnd),
        }
    }

    /// Where a definition continues, whose next instruction is at `address`: after its `ENDF`; `NestedDefinition` if another
    /// definition begins before that, whether it ends or not, and `CodeEnd` if neither comes (Apple TrueType Reference Manual,
    /// "FDEF", "IDEF").
    #[tactic(auto, using(crate::proofs::Exists::same_past_definition))]
    pub fn skip_def(&self, address: usize) -> Result<usize, CodeFault>
        ensures past { LeadsPastDefinition self.now address result }
        ensures value { result ≡ past_definition_of self.now address }
    {
        self.skip_def_inner(address)
    }

    /// The same, with one clause.
    fn skip_def_inner(&self, address: usize) -> Result<usize, CodeFault>
        ensures { LeadsPastDefinition self.now address result }
    {
        match self.find(address, Seek::Definition) {
            Some(end) if self.opcode(end) == ENDF => Ok(end + 1),
            Some(_) => Err(CodeFault::NestedDefinition),
            None => Err(CodeFault::CodeEnd),
        }
    }
}

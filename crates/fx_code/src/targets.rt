//! Skips of a program, remembered.

ghost use Rattle.std.specs.Prelude.{◌≡◌, ℕ, Bool, List, Ok, IfOk, IfSome};
ghost use Rattle.fx_code.specs.Chain.{stops_at_false, stops_at_else};
ghost use Rattle.fx_code.specs.Past.{past_of};
ghost use Rattle.fx_code.specs.Targets.{IsTarget};

use crate::code::Code;
use crate::fault::CodeFault;
use std::alloc::{AllocError, Global};
use std::marker::Model;

/// How many skips of each kind are remembered at a time.
const PLACES: usize = 512;

/// Where the search from an address ended: at the byte before `after`. An `after` of 0 says nothing. Addresses of 2^16 and more
/// are not remembered: fonts have none, and this halves the memory.
#[derive(Clone, Copy)]
pub struct Target {
    pub from: u16,
    pub after: u16,
}

/// What is remembered of an address: of a false `IF`, and of an executed `ELSE`.
#[derive(Clone, Copy)]
pub struct Skips {
    pub false_if: Target,
    pub executed_else: Target,
}

/// A program that remembers where its latest `IF`s and `ELSE`s continued, so that a function that is called often does not search
/// for them each time. Contracts see it as its bytes.
#[derive(Drop)]
pub struct Targets<'a> {
    code: Code<'a>,
    skips: Vec<Skips>,
}

impl<'a> Model for Targets<'a> {
    ghost use Rattle.std.specs.Prelude.{◌≡◌, ℕ, List, length};
    ghost use Rattle.std.specs.List.{All};
    ghost use Rattle.fx_code.specs.Targets.{AreSkips};

    ghost Value = { List ℕ };

    ghost view = { λ t. t.code };

    ghost invariant = { λ t. All (AreSkips t.code) t.skips.items × (length t.skips.items ≡ 512) };
}

/// Where the search from an address ended, if that is remembered.
fn recalled(target: Target, from: usize) -> Option<usize>
    ensures { IfSome result (λ after. (stops : ℕ → ℕ → Bool) (code : List ℕ) → IsTarget stops code target
        → past_of stops code from ≡ Ok after) }
{
    if target.from as usize == from && target.after != 0 {
        return Some(target.after as usize);
    }
    None
}

/// What is remembered of where the search from an address ended.
fn target_of(from: usize, after: usize) -> Target
    ensures { (stops : ℕ → ℕ → Bool) (code : List ℕ) → past_of stops code from ≡ Ok after → IsTarget stops code result }
{
    if let (Ok(from), Ok(after)) = (u16::try_from(from), u16::try_from(after)) {
        return Target { from, after };
    }
    Target { from: 0, after: 0 }
}

impl<'a> Targets<'a> {
    /// A program whose jumps are not remembered yet.
    pub fn new(alloc: Global, code: Code<'a>) -> Result<Targets<'a>, AllocError>
        ensures { IfOk result (λ t. t ≡ code.entry) }
    {
        let none = Target { from: 0, after: 0 };
        let nothing = Skips {
            false_if: none,
            executed_else: none,
        };
        let skips = vec![in alloc; nothing; PLACES]?;
        Ok(Targets { code, skips })
    }

    /// The program's bytes.
    pub fn bytes(&self) -> &'a [u8]
        ensures { result.now ≡ self.now }
    {
        self.code.bytes()
    }

    /// Where a false `IF` continues, as `Code::skip_false` says.
    #[inline(always)]
    pub fn skip_false(&mut self, address: usize) -> Result<usize, CodeFault>
        ensures value { result ≡ past_of stops_at_false self.old address }
        ensures kept { self.new ≡ self.old }
    {
        if let Some(after) = recalled(self.skips[address % PLACES].false_if, address) {
            return Ok(after);
        }
        self.search_false(address)
    }

    /// Searches where a false `IF` continues, and remembers it.
    #[inline(never)]
    fn search_false(&mut self, address: usize) -> Result<usize, CodeFault>
        ensures value { result ≡ past_of stops_at_false self.old address }
        ensures kept { self.new ≡ self.old }
    {
        let after = self.code.skip_false(address)?;
        self.skips[address % PLACES].false_if = target_of(address, after);
        Ok(after)
    }

    /// Where an executed `ELSE` continues, as `Code::skip_else` says.
    pub fn skip_else(&mut self, address: usize) -> Result<usize, CodeFault>
        ensures value { result ≡ past_of stops_at_else self.old address }
        ensures kept { self.new ≡ self.old }
    {
        let place = address % PLACES;
        if let Some(after) = recalled(self.skips[place].executed_else, address) {
            return Ok(after);
        }
        let after = self.code.skip_else(address)?;
        self.skips[place].executed_else = target_of(address, after);
        Ok(after)
    }
}

//! How much work programs do, bounded for a caller.

ghost use Rattle.std.specs.Prelude.{◌≡◌, Some, None, is_none};
ghost use Rattle.fx_code.specs.Chain.{opcode_at};
ghost use Rattle.fx_machine.specs.Work.{visited, searches, searched, apart, paid, budget_after, spent_stays};

use crate::program::FontProgram;
use crate::state::State;
use crate::watching::Watching;
use fx_code::{Code, opcode};

/// What is remembered of the instruction before.
#[derive(Clone, Copy, Debug, PartialEq, Eq)]
pub struct Trail {
    /// How many numbers lay on the stack after it.
    pub depth: usize,
    /// Its address, if it may have searched for where it continues.
    pub searched_from: Option<usize>,
}

/// The work that programs may still do, in instructions, numbers of the stack, points visited and bytes searched; none once they
/// wanted more. It watches them, and stops them then.
#[derive(Clone, Copy, Debug, PartialEq, Eq)]
pub struct WorkBudget {
    pub left: Option<usize>,
    pub trail: Trail,
}

/// How far two counts are apart.
fn apart(m: usize, n: usize) -> usize
    ensures { result ≡ apart m n }
{
    m.abs_diff(n)
}

/// The bytes between an instruction that may have searched and the next one, which is at this address.
fn searched(from: Option<usize>, address: usize) -> usize
    ensures { result ≡ searched from address }
{
    match from {
        Some(from) => address.saturating_sub(from).saturating_sub(1),
        None => 0,
    }
}

/// Whether an instruction may search for where it continues.
fn searches(op: u8) -> bool
    ensures { result ≡ searches op }
{
    matches!(op, opcode::IF | opcode::ELSE | opcode::FDEF | opcode::IDEF)
}

impl WorkBudget {
    /// So much work may be done.
    pub fn new(work: usize) -> WorkBudget
        ensures { result ≡ record { left = Some work; trail = record { depth = 0; searched_from = None } } }
    {
        WorkBudget {
            left: Some(work),
            trail: Trail {
                depth: 0,
                searched_from: None,
            },
        }
    }

    /// Pays for some work.
    fn pay(&mut self, work: usize)
        ensures { self.new ≡ record self.old { left = paid work self.old.left } }
    {
        self.left = match self.left {
            Some(left) if work <= left => Some(left - work),
            _ => None,
        };
    }

    /// Pays for what an instruction visits beside the numbers that it takes and leaves.
    fn pay_visited(&mut self, op: u8, state: &State)
        ensures { self.new ≡ record self.old { left = paid (visited op state.now) self.old.left } }
    {
        match op {
            opcode::IUP_Y
            | opcode::IUP_X
            | opcode::SHC_0
            | opcode::SHC_1
            | opcode::SHZ_0
            | opcode::SHZ_1
            | opcode::FLIPRGON
            | opcode::FLIPRGOFF => {
                self.pay(state.zones.glyph.len());
                self.pay(state.zones.twilight.len());
            }
            opcode::MINDEX => self.pay(state.store.stack_len()),
            _ => self.pay(0),
        }
    }
}

impl Watching for WorkBudget {
    ghost Sees = { λ was x now. now ≡ budget_after x was.left was };

    ghost stops = { λ b. is_none b.left };

    fn stops(&self) -> bool {
        self.left.is_none()
    }

    ghost sees_no_more = { λ b e x. spent_stays b.left b e x };

    fn begin(&mut self, _program: FontProgram, state: &State) {
        if self.stops() {
            return;
        }
        self.pay(1);
        self.pay(state.store.storage().len());
        self.pay(state.store.controls().len());
        self.pay(state.zones.twilight.len());
        self.trail = Trail {
            depth: state.store.stack_len(),
            searched_from: None,
        };
    }

    fn see(
        &mut self,
        _program: FontProgram,
        code: &Code<'_>,
        address: usize,
        _calls: usize,
        state: &State,
    ) {
        if self.stops() {
            return;
        }
        let op = code.opcode(address);
        let depth = state.store.stack_len();
        self.pay(1);
        self.pay(apart(self.trail.depth, depth));
        self.pay_visited(op, state);
        self.pay(searched(self.trail.searched_from, address));
        self.trail = Trail {
            depth,
            searched_from: searches(op).then_some(address),
        };
    }
}

//! The stack, the storage area and the control values.

ghost use Rattle.std.specs.Prelude.{◌≡◌, ◌+◌, ◌*◌, ◌<◌, ◌≤◌, ◌^◌, [], ◌∷◌, ◌++◌, length, reverse, take, drop, replicate, pos, IfOk};
ghost use Rattle.std.specs.Prelude.{OnOk, OnErr, Ok};
ghost use Rattle.fx_fixed.specs.Chain.{map_ok};
ghost use Rattle.fx_code.specs.Numbers.{numbers};
ghost use Rattle.fx_stackops.specs.Table.{read_of, written_of, stray_of};
ghost use Rattle.fx_stackops.specs.Store.{one, two, two_from, three, index_of, element_of, moved_up, top_numbers};
ghost use Rattle.fx_stackops.specs.Store.{pushed, with_stack, with_strays, HasSizes, DoesToStore};
ghost use Rattle.fx_stackops.specs.Store.{restarted, five, with_rest, with_rest_two, with_rest_three, with_rest_five};
ghost use Rattle.fx_stackops.specs.Store.{delta_pairs, with_pairs, on_top};
ghost use Rattle.fx_stackops.specs.inner.Tops.{below_top};

use crate::fault::StackFault;
use crate::table::Table;
use fx_code::Instr;
use std::alloc::{AllocError, Global};
use std::marker::Model;

/// The stack, the storage area, the control values, and how many numbers outside their tables instructions have named.
#[derive(Drop)]
pub struct Store {
    cells: Table,
    depth: usize,
    storage: Table,
    cvt: Table,
    strays: u64,
}

impl Model for Store {
    ghost use Rattle.std.specs.Prelude.{◌≤◌, ◌<◌, ◌^◌, length};
    ghost use Rattle.fx_stackops.specs.Store.{StoreView, view_of};

    ghost Value = { StoreView };

    ghost view = { λ s. view_of s.depth s.cells s.storage s.cvt s.strays };

    ghost invariant = { λ s. (s.depth ≤ length s.cells) × (length s.cells < 2 ^ 31) };
}

impl Store {
    /// An empty stack for as many elements as the font says and some to spare, cells of storage, all 0, and these control values.
    pub fn new(
        alloc: Global,
        elements: u16,
        spare: u16,
        cells: u16,
        cvt: Table,
    ) -> Result<Store, AllocError>
        ensures { IfOk result (λ s. s ≡ restarted (elements + spare) (replicate cells (pos 0)) cvt) }
    {
        let stack = Table::zeros(alloc, usize::from(elements) + usize::from(spare))?;
        let storage = Table::zeros(alloc, usize::from(cells))?;
        Ok(Store {
            cells: stack,
            depth: 0,
            storage,
            cvt,
            strays: 0,
        })
    }

    /// Pops one operand, if there is one.
    #[tactic(auto, unfolding(crate::specs::Store::one))]
    pub fn one(&mut self) -> Result<i32, StackFault>
        ensures value { with_rest result self.new ≡ one self.old }
        ensures kept { OnErr result (self.new ≡ self.old) }
        ensures room { OnOk result (length self.new.stack + 1 ≤ self.new.room) }
        ensures sizes { HasSizes self.old self.new }
    {
        if self.depth == 0 {
            return Err(StackFault::StackUnder);
        }
        self.depth -= 1;
        Ok(self.cells.at(self.depth))
    }

    /// The operand on top, if there is one. It stays there, for an instruction that puts its result in its place: the next
    /// instruction waits for the depth if this one writes it.
    #[tactic(auto, unfolding(crate::specs::Store::one), using(crate::proofs::Stacks::last_at))]
    pub(crate) fn last(&self) -> Result<i32, StackFault>
        ensures value { with_rest result (below_top self.now) ≡ one self.now }
        ensures whole { IfOk result (λ x. on_top x (below_top self.now) ≡ self.now) }
        ensures there { OnOk result (1 ≤ length self.now.stack) }
    {
        if self.depth == 0 {
            return Err(StackFault::StackUnder);
        }
        Ok(self.cells.at(self.depth - 1))
    }

    /// Pops the top one of two operands, if there are two: the deeper one, which stays, and the top.
    #[tactic(auto, unfolding(crate::specs::Store::two))]
    pub(crate) fn fold(&mut self) -> Result<(i32, i32), StackFault>
        ensures value { with_rest_two result (below_top self.new) ≡ two self.old }
        ensures there { OnOk result (1 ≤ length self.new.stack) }
        ensures room { OnOk result (length self.new.stack + 1 ≤ self.new.room) }
        ensures sizes { HasSizes self.old self.new }
    {
        if self.depth < 2 {
            return Err(StackFault::StackUnder);
        }
        self.depth -= 1;
        Ok((self.cells.at(self.depth - 1), self.cells.at(self.depth)))
    }

    /// Replaces the number on top.
    pub(crate) fn set_last(&mut self, x: i32)
        requires { 1 ≤ length self.old.stack }
        ensures { self.new ≡ on_top x (below_top self.old) }
    {
        self.cells.put(self.depth - 1, x);
    }

    /// Pops two operands, if there are two: the deeper one and the top.
    #[tactic(auto, unfolding(crate::specs::Store::two))]
    pub fn two(&mut self) -> Result<(i32, i32), StackFault>
        ensures value { with_rest_two result self.new ≡ two self.old }
        ensures kept { OnErr result (self.new ≡ self.old) }
        ensures room { OnOk result (length self.new.stack + 2 ≤ self.new.room) }
        ensures sizes { HasSizes self.old self.new }
    {
        if self.depth < 2 {
            return Err(StackFault::StackUnder);
        }
        self.depth -= 2;
        Ok((self.cells.at(self.depth), self.cells.at(self.depth + 1)))
    }

    /// Pops three operands, if there are three: the deepest one first.
    #[tactic(auto, unfolding(crate::specs::Store::three))]
    pub fn three(&mut self) -> Result<(i32, i32, i32), StackFault>
        ensures value { with_rest_three result self.new ≡ three self.old }
        ensures kept { OnErr result (self.new ≡ self.old) }
        ensures room { OnOk result (length self.new.stack + 3 ≤ self.new.room) }
        ensures sizes { HasSizes self.old self.new }
    {
        if self.depth < 3 {
            return Err(StackFault::StackUnder);
        }
        self.depth -= 3;
        Ok((
            self.cells.at(self.depth),
            self.cells.at(self.depth + 1),
            self.cells.at(self.depth + 2),
        ))
    }

    /// Pops five operands, if there are five: the deepest one first.
    #[tactic(auto, unfolding(crate::specs::Store::five))]
    pub fn five(&mut self) -> Result<(i32, i32, i32, i32, i32), StackFault>
        ensures value { with_rest_five result self.new ≡ five self.old }
        ensures sizes { HasSizes self.old self.new }
    {
        let (d, e) = self.two()?;
        let (a, b, c) = self.three()?;
        Ok((a, b, c, d, e))
    }

    /// The top numbers of the stack, the deepest first, if there are as many.
    #[tactic(auto, unfolding(crate::specs::Store::top_numbers))]
    pub fn top(&self, count: u32) -> Result<&[i32], StackFault>
        ensures value { map_ok (λ numbers. numbers.now) result ≡ top_numbers count self.now }
        ensures inside { OnOk result (count ≤ length self.now.stack) }
    {
        if self.depth < count as usize {
            return Err(StackFault::StackUnder);
        }
        Ok(self.top_there(count))
    }

    /// The top numbers of the stack, the deepest first, which are there.
    #[tactic(auto, using(crate::proofs::Stacks::top_at))]
    pub fn top_there(&self, count: u32) -> &[i32]
        requires { count ≤ length self.now.stack }
        ensures { result.now ≡ reverse (take count self.now.stack) }
    {
        &self.cells.numbers()[self.depth - count as usize..self.depth]
    }

    /// Pops how many pairs a delta instruction has, `.. argument number n ->`, if they are there.
    #[tactic(auto, unfolding(crate::specs::Store::delta_pairs, crate::specs::Store::top_numbers))]
    pub fn pairs(&mut self) -> Result<u32, StackFault>
        ensures value { with_pairs result self.new ≡ delta_pairs self.old }
        ensures inside { IfOk result (λ n. 2 * n ≤ length self.new.stack) }
        ensures few { IfOk result (λ n. n < 2 ^ 31) }
        ensures sizes { HasSizes self.old self.new }
    {
        let n = self.one()?;
        if n < 0 {
            return Err(StackFault::BadArgument);
        }
        let pairs = n.unsigned_abs();
        if self.depth < 2 * pairs as usize {
            return Err(StackFault::StackUnder);
        }
        Ok(pairs)
    }

    /// The numbers of the stack, the deepest first.
    pub fn numbers(&self) -> &[i32]
        ensures value { result.now ≡ reverse self.now.stack }
        ensures most { length result.now ≤ self.now.room }
    {
        &self.cells.numbers()[..self.depth]
    }

    /// Pops numbers that are there.
    #[tactic(auto, using(crate::proofs::Stacks::dropped_at))]
    pub fn drop_top(&mut self, count: u32)
        requires { count ≤ length self.old.stack }
        ensures { self.new ≡ with_stack (drop count self.old.stack) self.old }
    {
        self.depth -= count as usize;
    }

    /// Pops all numbers.
    pub fn drop_all(&mut self)
        ensures { self.new ≡ with_stack [] self.old }
    {
        self.depth = 0;
    }

    /// Pops two operands that are there: the deeper one and the top.
    pub fn pair(&mut self) -> (i32, i32)
        requires { 2 ≤ length self.old.stack }
        ensures value { Ok (result.0, result.1, self.new) ≡ two_from self.old.stack self.old }
        ensures sizes { HasSizes self.old self.new }
    {
        self.depth -= 2;
        (self.cells.at(self.depth), self.cells.at(self.depth + 1))
    }

    /// How many numbers are above the k-th from the top, counted from 1; `BadArgument` if there is no k-th.
    #[tactic(auto, unfolding(crate::specs::Store::index_of))]
    pub fn index(&self, k: i32) -> Result<usize, StackFault>
        ensures value { result ≡ index_of k self.now.stack }
        ensures inside { IfOk result (λ i. i < length self.now.stack) }
    {
        if k <= 0 || i64::from(k) > self.depth as i64 {
            return Err(StackFault::BadArgument);
        }
        Ok(k.unsigned_abs() as usize - 1)
    }

    /// The k-th number from the top, counted from 1; `BadArgument` if there is none.
    #[tactic(auto, unfolding(crate::specs::Store::element_of))]
    pub fn element(&self, k: i32) -> Result<i32, StackFault>
        ensures { result ≡ element_of k self.now.stack }
    {
        let index = self.index(k)?;
        Ok(self.cells.at(self.depth - 1 - index))
    }

    /// Moves the number below `index` others to the top.
    #[tactic(auto, using(crate::proofs::Stacks::moved_at))]
    pub fn move_up(&mut self, index: usize)
        requires { index < length self.old.stack }
        ensures { self.new ≡ with_stack (moved_up index self.old.stack) self.old }
    {
        self.cells.rotate(self.depth - 1 - index, self.depth);
    }

    /// Puts a number on the stack, which has room for it.
    pub fn put(&mut self, x: i32)
        requires { length self.old.stack + 1 ≤ self.old.room }
        ensures { self.new ≡ with_stack (x ∷ self.old.stack) self.old }
    {
        self.cells.put(self.depth, x);
        self.depth += 1;
    }

    /// Puts the numbers that an instruction pushes on the stack, which has room for them.
    #[inline(always)]
    #[tactic(auto, using(crate::proofs::Stacks::pushed_at))]
    pub(crate) fn put_all(&mut self, instr: &Instr<'_>)
        requires { length self.old.stack + length (numbers instr.now.opcode instr.now.pushed.now) ≤ self.old.room }
        ensures { self.new ≡ with_stack (reverse (numbers instr.now.opcode instr.now.pushed.now) ++ self.old.stack) self.old }
    {
        self.cells.put_numbers(self.depth, instr);
        self.depth += instr.count();
    }

    /// Puts a number on the stack, if there is room.
    #[tactic(auto, unfolding(crate::specs::Store::pushed))]
    pub fn push(&mut self, x: i32) -> Result<(), StackFault>
        ensures does { DoesToStore (pushed x) self.old self.new result }
        ensures kept { OnErr result (self.new ≡ self.old) }
    {
        if self.depth == self.cells.len() {
            return Err(StackFault::StackOver);
        }
        self.put(x);
        Ok(())
    }

    /// How many numbers the stack holds.
    pub fn stack_len(&self) -> usize
        ensures value { result ≡ length self.now.stack }
        ensures most { result ≤ self.now.room }
        ensures few { result < 2 ^ 31 }
    {
        self.depth
    }

    /// How many numbers the stack has room for.
    pub fn stack_room(&self) -> usize
        ensures { result ≡ self.now.room }
    {
        self.cells.len()
    }

    /// Counts strays.
    pub fn add_strays(&mut self, count: u64)
        ensures { self.new ≡ with_strays count self.old }
    {
        self.strays = self.strays.saturating_add(count);
    }

    /// How many strays were counted.
    pub fn strays(&self) -> u64
        ensures { result ≡ self.now.strays }
    {
        self.strays
    }

    /// The storage area.
    pub fn storage(&self) -> &Table
        ensures { result.now ≡ self.now.storage }
    {
        &self.storage
    }

    /// The control values.
    pub fn controls(&self) -> &Table
        ensures { result.now ≡ self.now.cvt }
    {
        &self.cvt
    }

    /// Writes the storage area; nothing if the number is outside.
    pub fn put_storage(&mut self, number: i32, x: i32)
        ensures value { self.new ≡ record self.old { storage = written_of self.old.storage number x } }
        ensures sizes { HasSizes self.old self.new }
    {
        self.storage.write(number, x);
    }

    /// A control value, 0 if the number is outside.
    pub fn control(&self, number: i32) -> i32
        ensures { result ≡ read_of self.now.cvt number }
    {
        self.cvt.read(number)
    }

    /// 1 if a number is outside the control values, which is a stray, else 0.
    pub fn control_stray(&self, number: i32) -> u64
        ensures { result ≡ stray_of self.now.cvt number }
    {
        self.cvt.stray(number)
    }

    /// Writes a control value; nothing if the number is outside.
    pub fn put_control(&mut self, number: i32, x: i32)
        ensures value { self.new ≡ record self.old { cvt = written_of self.old.cvt number x } }
        ensures sizes { HasSizes self.old self.new }
    {
        self.cvt.write(number, x);
    }

    /// Begins anew with an empty stack, no strays, and this storage area and these control values, which have its own sizes.
    pub fn restart(&mut self, storage: &Table, cvt: &Table)
        requires storage { length self.old.storage ≡ length storage.now }
        requires cvt { length self.old.cvt ≡ length cvt.now }
        ensures { self.new ≡ restarted self.old.room storage.now cvt.now }
    {
        self.depth = 0;
        self.storage.copy_from(storage);
        self.cvt.copy_from(cvt);
        self.strays = 0;
    }
}

//! Instructions that arrange the stack.

ghost use Rattle.std.specs.Prelude.{◌≡◌, OnErr, Ok};
ghost use Rattle.fx_code.specs.Numbers.{numbers};
ghost use Rattle.fx_stackops.specs.Store.{DoesToStore};
ghost use Rattle.fx_stackops.specs.Rows.{dup_row, pop_row, clear_row, swap_row, depth_row, cindex_row, mindex_row, push_row, roll_row};

use crate::fault::StackFault;
use crate::store::Store;
use fx_code::Instr;

impl Store {
    /// 40 NPUSHB, 41 NPUSHW, B0-B7 PUSHB[abc], B8-BF PUSHW[abc]: `-> ..`, the numbers that an instruction pushes.
    #[tactic(auto, unfolding(crate::specs::Store::pushed_all))]
    pub fn push_all(&mut self, instr: &Instr<'_>) -> Result<(), StackFault>
        ensures does { DoesToStore (push_row (numbers instr.now.opcode instr.now.pushed.now)) self.old self.new result }
        ensures kept { OnErr result (self.new ≡ self.old) }
    {
        // Fields that stay in registers: for the compiler, the cells may lie where the instruction does.
        let instr = Instr {
            opcode: instr.opcode,
            pushed: instr.pushed,
            next: instr.next,
        };
        if instr.count() > self.stack_room() - self.stack_len() {
            return Err(StackFault::StackOver);
        }
        self.put_all(&instr);
        Ok(())
    }

    /// 20 DUP, DUPlicate top: `a -> a a`.
    #[inline(always)]
    #[tactic(auto, unfolding(crate::specs::Rows::dup_row))]
    pub fn dup(&mut self) -> Result<(), StackFault>
        ensures { DoesToStore dup_row self.old self.new result }
    {
        let a = self.last()?;
        self.push(a)
    }

    /// 21 POP, POP top: `a ->`.
    #[tactic(auto, unfolding(crate::specs::Rows::pop_row))]
    pub fn pop(&mut self) -> Result<(), StackFault>
        ensures { DoesToStore pop_row self.old self.new result }
    {
        self.one()?;
        Ok(())
    }

    /// 22 CLEAR, CLEAR the stack: `.. ->`.
    pub fn clear(&mut self)
        ensures { Ok self.new ≡ clear_row self.old }
    {
        self.drop_all();
    }

    /// 23 SWAP, SWAP the top two: `a b -> b a`.
    #[inline(always)]
    #[tactic(auto, unfolding(crate::specs::Rows::swap_row))]
    pub fn swap(&mut self) -> Result<(), StackFault>
        ensures { DoesToStore swap_row self.old self.new result }
    {
        let (a, b) = self.fold()?;
        self.set_last(b);
        self.put(a);
        Ok(())
    }

    /// 24 DEPTH, DEPTH of the stack: `-> n`, the number of elements before.
    #[tactic(auto, unfolding(crate::specs::Rows::depth_row))]
    pub fn depth(&mut self) -> Result<(), StackFault>
        ensures { DoesToStore depth_row self.old self.new result }
    {
        let depth = self.stack_len() as i32;
        self.push(depth)
    }

    /// 25 CINDEX, Copy the INDEXed element: `.. k -> .. x`, a copy of the k-th element from the top after k is popped.
    #[inline(always)]
    #[tactic(auto, unfolding(crate::specs::Rows::cindex_row))]
    pub fn cindex(&mut self) -> Result<(), StackFault>
        ensures { DoesToStore cindex_row self.old self.new result }
    {
        let k = self.one()?;
        let element = self.element(k)?;
        self.put(element);
        Ok(())
    }

    /// 26 MINDEX, Move the INDEXed element: `.. x .. k -> .. .. x`, which was the k-th from the top after k is popped.
    #[tactic(auto, unfolding(crate::specs::Rows::mindex_row))]
    pub fn mindex(&mut self) -> Result<(), StackFault>
        ensures { DoesToStore mindex_row self.old self.new result }
    {
        let k = self.one()?;
        let index = self.index(k)?;
        self.move_up(index);
        Ok(())
    }

    /// 8A ROLL, ROLL the top three: `a b c -> b c a`.
    #[tactic(auto, unfolding(crate::specs::Rows::roll_row))]
    pub fn roll(&mut self) -> Result<(), StackFault>
        ensures { DoesToStore roll_row self.old self.new result }
    {
        let (a, b, c) = self.three()?;
        self.put(b);
        self.put(c);
        self.put(a);
        Ok(())
    }
}

//! Instructions on the storage area and the control values.

ghost use Rattle.std.specs.Prelude.{◌≡◌, ◌+◌, ◌*◌, ◌≤◌, length};
ghost use Rattle.fx_stackops.specs.Store.{HasSizes, DoesToStore};
ghost use Rattle.fx_stackops.specs.Rows.{ws_row, rs_row, wcvtp_row, rcvt_row, with_control, moved_control, deltac_row};
ghost use Rattle.fx_stackops.specs.inner.Pairs.{control_pair, control_pairs};

use crate::fault::StackFault;
use crate::store::Store;
use fx_fixed::{F26, Ppem};
use fx_gstate::{Delta, DeltaForm, GState};

impl Store {
    /// 42 WS, Write Store: `i v ->`. Storage cell i becomes v.
    #[inline(always)]
    #[tactic(auto, unfolding(crate::specs::Rows::ws_row))]
    pub fn ws(&mut self) -> Result<(), StackFault>
        ensures { DoesToStore ws_row self.old self.new result }
    {
        let (i, value) = self.two()?;
        let strays = self.storage().stray(i);
        self.add_strays(strays);
        self.put_storage(i, value);
        Ok(())
    }

    /// 43 RS, Read Store: `i -> v`.
    #[inline(always)]
    #[tactic(auto, unfolding(crate::specs::Rows::rs_row))]
    pub fn rs(&mut self) -> Result<(), StackFault>
        ensures { DoesToStore rs_row self.old self.new result }
    {
        let i = self.last()?;
        let strays = self.storage().stray(i);
        self.add_strays(strays);
        let value = self.storage().read(i);
        self.set_last(value);
        Ok(())
    }

    /// 44 WCVTP, Write Control Value Table in Pixel units: `i v ->`. Control value i becomes v, in 26.6.
    #[inline(always)]
    #[tactic(auto, unfolding(crate::specs::Rows::wcvtp_row))]
    pub fn wcvtp(&mut self) -> Result<(), StackFault>
        ensures { DoesToStore wcvtp_row self.old self.new result }
    {
        let (i, value) = self.two()?;
        self.set_control(i, value);
        Ok(())
    }

    /// 45 RCVT, Read Control Value Table: `i -> v`.
    #[inline(always)]
    #[tactic(auto, unfolding(crate::specs::Rows::rcvt_row))]
    pub fn rcvt(&mut self) -> Result<(), StackFault>
        ensures { DoesToStore rcvt_row self.old self.new result }
    {
        let i = self.last()?;
        let strays = self.control_stray(i);
        self.add_strays(strays);
        let value = self.control(i);
        self.set_last(value);
        Ok(())
    }

    /// 73 DELTAC1, 74 DELTAC2, 75 DELTAC3, DELTA exception C: `.. argument number n ->`, n pairs. Changes the control values
    /// whose arguments act at this size.
    #[tactic(auto, unfolding(crate::specs::Rows::deltac_row, crate::specs::inner::Pairs::control_pairs))]
    pub fn deltac(&mut self, form: DeltaForm, g: &GState, ppem: Ppem) -> Result<(), StackFault>
        ensures { DoesToStore (deltac_row form g.now ppem) self.old self.new result }
    {
        let pairs = self.pairs()?;
        self.move_controls(form, g, ppem, pairs);
        Ok(())
    }

    /// Pops pairs that are there, and moves the control values whose arguments act.
    #[tactic(auto, using(crate::proofs::Pairs::pair_next, crate::proofs::Pairs::pairs_done))]
    fn move_controls(&mut self, form: DeltaForm, g: &GState, ppem: Ppem, pairs: u32)
        requires { 2 * pairs ≤ length self.old.stack }
        ensures value { self.new ≡ control_pairs form g.now ppem pairs self.old }
        ensures sizes { HasSizes self.old self.new }
    {
        let mut left = pairs;
        // The pairs that are left give the rest of the result.
        'pairs: while left > 0 {
            self.move_control(form, g, ppem);
            left -= 1;
        }
    }

    /// Pops one pair that is there, and moves its control value if its argument acts.
    #[tactic(auto, unfolding(crate::specs::inner::Pairs::control_pair, crate::specs::Rows::control_delta))]
    fn move_control(&mut self, form: DeltaForm, g: &GState, ppem: Ppem)
        requires { 2 ≤ length self.old.stack }
        ensures value { self.new ≡ control_pair form g.now ppem self.old }
        ensures sizes { HasSizes self.old self.new }
        ensures left { length self.new.stack + 2 ≡ length self.old.stack }
    {
        let (argument, number) = self.pair();
        self.act(g.delta(form, argument), ppem, number);
    }

    /// Moves a control value, if its argument acts at this size.
    fn act(&mut self, delta: Delta, ppem: Ppem, number: i32)
        ensures value { self.new ≡ moved_control ppem delta number self.old }
        ensures sizes { HasSizes self.old self.new }
    {
        let amount = delta.amount;
        if delta.acts_at(ppem) {
            let value = F26(self.control(number)).plus(amount);
            self.set_control(number, value.0);
        }
    }

    /// Writes a control value, or counts a stray, as WCVTP and WCVTF do.
    pub fn set_control(&mut self, number: i32, x: i32)
        ensures value { self.new ≡ with_control number x self.old }
        ensures sizes { HasSizes self.old self.new }
    {
        let strays = self.control_stray(number);
        self.add_strays(strays);
        self.put_control(number, x);
    }
}

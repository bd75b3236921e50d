//! Comparisons and logic.
ghost use Rattle.fx_stackops.specs.Store.{DoesToStore};
ghost use Rattle.fx_stackops.specs.Rows.{lt_row, lteq_row, gt_row, gteq_row, eq_row, neq_row, and_row, or_row, not_row, odd_row, even_row};

use crate::fault::StackFault;
use crate::store::Store;
use fx_fixed::F26;
use fx_gstate::GState;

impl Store {
    /// 50 LT, Less Than: `a b ->` 1 if a is below b, else 0.
    #[inline(always)]
    #[tactic(auto, unfolding(crate::specs::Rows::lt_row))]
    pub fn lt(&mut self) -> Result<(), StackFault>
        ensures { DoesToStore lt_row self.old self.new result }
    {
        let (a, b) = self.fold()?;
        self.set_last(i32::from(a < b));
        Ok(())
    }

    /// 51 LTEQ, Less Than or EQual: `a b ->` 1 if a is not above b, else 0.
    #[tactic(auto, unfolding(crate::specs::Rows::lteq_row))]
    pub fn lteq(&mut self) -> Result<(), StackFault>
        ensures { DoesToStore lteq_row self.old self.new result }
    {
        let (a, b) = self.fold()?;
        self.set_last(i32::from(a <= b));
        Ok(())
    }

    /// 52 GT, Greater Than: `a b ->` 1 if a is above b, else 0.
    #[inline(always)]
    #[tactic(auto, unfolding(crate::specs::Rows::gt_row))]
    pub fn gt(&mut self) -> Result<(), StackFault>
        ensures { DoesToStore gt_row self.old self.new result }
    {
        let (a, b) = self.fold()?;
        self.set_last(i32::from(a > b));
        Ok(())
    }

    /// 53 GTEQ, Greater Than or EQual: `a b ->` 1 if a is not below b, else 0.
    #[tactic(auto, unfolding(crate::specs::Rows::gteq_row))]
    pub fn gteq(&mut self) -> Result<(), StackFault>
        ensures { DoesToStore gteq_row self.old self.new result }
    {
        let (a, b) = self.fold()?;
        self.set_last(i32::from(a >= b));
        Ok(())
    }

    /// 54 EQ, EQual: `a b ->` 1 if both are equal, else 0.
    #[tactic(auto, unfolding(crate::specs::Rows::eq_row))]
    pub fn eq(&mut self) -> Result<(), StackFault>
        ensures { DoesToStore eq_row self.old self.new result }
    {
        let (a, b) = self.fold()?;
        self.set_last(i32::from(a == b));
        Ok(())
    }

    /// 55 NEQ, Not EQual: `a b ->` 1 if they differ, else 0.
    #[inline(always)]
    #[tactic(auto, unfolding(crate::specs::Rows::neq_row))]
    pub fn neq(&mut self) -> Result<(), StackFault>
        ensures { DoesToStore neq_row self.old self.new result }
    {
        let (a, b) = self.fold()?;
        self.set_last(i32::from(a != b));
        Ok(())
    }

    /// 5A AND, logical AND: `a b ->` 1 if both are not 0, else 0.
    #[tactic(auto, unfolding(crate::specs::Rows::and_row))]
    pub fn and(&mut self) -> Result<(), StackFault>
        ensures { DoesToStore and_row self.old self.new result }
    {
        let (a, b) = self.fold()?;
        self.set_last(i32::from(a != 0 && b != 0));
        Ok(())
    }

    /// 5B OR, logical OR: `a b ->` 1 if one is not 0, else 0.
    #[tactic(auto, unfolding(crate::specs::Rows::or_row))]
    pub fn or(&mut self) -> Result<(), StackFault>
        ensures { DoesToStore or_row self.old self.new result }
    {
        let (a, b) = self.fold()?;
        self.set_last(i32::from(a != 0 || b != 0));
        Ok(())
    }

    /// 5C NOT, logical NOT: `a ->` 1 if it is 0, else 0.
    #[tactic(auto, unfolding(crate::specs::Rows::not_row))]
    pub fn not(&mut self) -> Result<(), StackFault>
        ensures { DoesToStore not_row self.old self.new result }
    {
        let a = self.last()?;
        self.set_last(i32::from(a == 0));
        Ok(())
    }

    /// 56 ODD: `a ->` 1 if it is an odd number of pixels after rounding by the round state, else 0.
    #[tactic(auto, unfolding(crate::specs::Rows::odd_row))]
    pub fn odd(&mut self, g: &GState) -> Result<(), StackFault>
        ensures { DoesToStore (odd_row g.now) self.old self.new result }
    {
        let a = self.last()?;
        self.set_last(i32::from(g.round(F26(a)).0.rem_euclid(128) == 64));
        Ok(())
    }

    /// 57 EVEN: `a ->` 1 if it is an even number of pixels after rounding by the round state, else 0.
    #[tactic(auto, unfolding(crate::specs::Rows::even_row))]
    pub fn even(&mut self, g: &GState) -> Result<(), StackFault>
        ensures { DoesToStore (even_row g.now) self.old self.new result }
    {
        let a = self.last()?;
        self.set_last(i32::from(g.round(F26(a)).0.rem_euclid(128) == 0));
        Ok(())
    }
}

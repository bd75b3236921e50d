//! Arithmetic in 26.6.

ghost use Rattle.std.specs.Prelude.{◌≡◌, ◌≢◌, ◌≤◌, ◌^◌, pos, neg_ℤ, ◌*ℤ◌, unsigned_abs};
ghost use Rattle.fx_fixed.specs.Numbers.{near_of, cut_of, wrapped_of};
ghost use Rattle.fx_stackops.specs.Store.{DoesToStore};
ghost use Rattle.fx_stackops.specs.Rows.{add_row, sub_row, div_row, mul_row, abs_row, neg_row, floor_row, ceiling_row, floored};
ghost use Rattle.fx_stackops.specs.Rows.{round_row, nround_row, max_row, min_row};

use crate::fault::StackFault;
use crate::store::Store;
use fx_fixed::{F26, near_64, product, w32};
use fx_gstate::GState;

impl Store {
    /// 60 ADD: `a b -> a + b`, modulo 2^32.
    #[tactic(auto, unfolding(crate::specs::Rows::add_row))]
    pub fn add(&mut self) -> Result<(), StackFault>
        ensures { DoesToStore add_row self.old self.new result }
    {
        let (a, b) = self.fold()?;
        self.set_last(F26(a).plus(F26(b)).0);
        Ok(())
    }

    /// 61 SUB, SUBtract: `a b -> a - b`, modulo 2^32.
    #[tactic(auto, unfolding(crate::specs::Rows::sub_row))]
    pub fn sub(&mut self) -> Result<(), StackFault>
        ensures { DoesToStore sub_row self.old self.new result }
    {
        let (a, b) = self.fold()?;
        self.set_last(F26(a).minus(F26(b)).0);
        Ok(())
    }

    /// 62 DIV, DIVide: `a b -> a / b` in 26.6, without its fraction; `DivideByZero` if b is 0.
    #[tactic(auto, unfolding(crate::specs::Rows::div_row))]
    pub fn div(&mut self) -> Result<(), StackFault>
        ensures { DoesToStore div_row self.old self.new result }
    {
        let (a, b) = self.fold()?;
        if b == 0 {
            return Err(StackFault::DivideByZero);
        }
        self.set_last(quotient(a, b));
        Ok(())
    }

    /// 63 MUL, MULtiply: `a b -> a b` in 26.6, to the nearest.
    #[tactic(auto, unfolding(crate::specs::Rows::mul_row))]
    pub fn mul(&mut self) -> Result<(), StackFault>
        ensures { DoesToStore mul_row self.old self.new result }
    {
        let (a, b) = self.fold()?;
        self.set_last(rounded_product(a, b));
        Ok(())
    }

    /// 64 ABS, ABSolute value: `a ->` its size, modulo 2^32.
    #[tactic(auto, unfolding(crate::specs::Rows::abs_row))]
    pub fn abs(&mut self) -> Result<(), StackFault>
        ensures { DoesToStore abs_row self.old self.new result }
    {
        let a = self.last()?;
        self.set_last(w32(i128::from(a.unsigned_abs())));
        Ok(())
    }

    /// 65 NEG, NEGate: `a -> -a`, modulo 2^32.
    #[tactic(auto, unfolding(crate::specs::Rows::neg_row))]
    pub fn neg(&mut self) -> Result<(), StackFault>
        ensures { DoesToStore neg_row self.old self.new result }
    {
        let a = self.last()?;
        self.set_last(w32(-i128::from(a)));
        Ok(())
    }

    /// 66 FLOOR: `a ->` the greatest whole number of pixels not above it.
    #[tactic(auto, unfolding(crate::specs::Rows::floor_row))]
    pub fn floor(&mut self) -> Result<(), StackFault>
        ensures { DoesToStore floor_row self.old self.new result }
    {
        let a = self.last()?;
        self.set_last(w32(i128::from(floor_64(i64::from(a)))));
        Ok(())
    }

    /// 67 CEILING: `a ->` the least whole number of pixels not below it, modulo 2^32.
    #[tactic(auto, unfolding(crate::specs::Rows::ceiling_row))]
    pub fn ceiling(&mut self) -> Result<(), StackFault>
        ensures { DoesToStore ceiling_row self.old self.new result }
    {
        let a = self.last()?;
        self.set_last(w32(i128::from(ceiling_64(a))));
        Ok(())
    }

    /// 68-6B ROUND[ab], ROUND value: `a ->` rounded by the round state.
    #[tactic(auto, unfolding(crate::specs::Rows::round_row))]
    pub fn round(&mut self, g: &GState) -> Result<(), StackFault>
        ensures { DoesToStore (round_row g.now) self.old self.new result }
    {
        let a = self.last()?;
        self.set_last(g.round(F26(a)).0);
        Ok(())
    }

    /// 6C-6F NROUND[ab], No ROUNDing of value: `a -> a`.
    #[tactic(auto, unfolding(crate::specs::Rows::nround_row))]
    pub fn nround(&mut self) -> Result<(), StackFault>
        ensures { DoesToStore nround_row self.old self.new result }
    {
        self.last()?;
        Ok(())
    }

    /// 8B MAX, MAXimum: `a b ->` the greater.
    #[tactic(auto, unfolding(crate::specs::Rows::max_row))]
    pub fn max(&mut self) -> Result<(), StackFault>
        ensures { DoesToStore max_row self.old self.new result }
    {
        let (a, b) = self.fold()?;
        self.set_last(if a < b { b } else { a });
        Ok(())
    }

    /// 8C MIN, MINimum: `a b ->` the lesser.
    #[tactic(auto, unfolding(crate::specs::Rows::min_row))]
    pub fn min(&mut self) -> Result<(), StackFault>
        ensures { DoesToStore min_row self.old self.new result }
    {
        let (a, b) = self.fold()?;
        self.set_last(if b < a { b } else { a });
        Ok(())
    }
}

/// The product of two numbers in 26.6.
fn rounded_product(a: i32, b: i32) -> i32
    ensures { result ≡ wrapped_of (near_of (a *ℤ b) (pos 64)) }
{
    w32(i128::from(near_64(product(a, b))))
}

/// The quotient of two numbers in 26.6, without its fraction.
fn quotient(a: i32, b: i32) -> i32
    requires { b ≢ pos 0 }
    ensures { result ≡ wrapped_of (cut_of (pos 64 *ℤ a) b) }
{
    w32(i128::from(exact_quotient(a, b)))
}

/// The quotient of two numbers in 26.6, without its fraction, before it is made 32 bits.
fn exact_quotient(a: i32, b: i32) -> i64
    requires { b ≢ pos 0 }
    ensures { result ≡ cut_of (pos 64 *ℤ a) b }
{
    64 * i64::from(a) / i64::from(b)
}

/// The least multiple of 64 not below a number.
fn ceiling_64(a: i32) -> i64
    ensures { result ≡ neg_ℤ (floored (neg_ℤ a)) }
{
    -floor_64(-i64::from(a))
}

/// The greatest multiple of 64 not above a number.
fn floor_64(a: i64) -> i64
    requires { unsigned_abs a ≤ 2 ^ 40 }
    ensures value { result ≡ floored a }
    ensures size { unsigned_abs result ≤ 2 ^ 41 }
{
    a - a.rem_euclid(64)
}

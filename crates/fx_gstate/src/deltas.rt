//! Arguments of delta instructions.

ghost use Rattle.std.specs.Prelude.{◌≡◌, ◌≤◌, ◌<◌, pos, unsigned_abs};
ghost use Rattle.fx_gstate.specs.Deltas.{form_start, steps_of, acting_size, amount_of};

use crate::fault::BadArgument;
use crate::rounding::low_byte;
use fx_fixed::{F26, Ppem};
use std::marker::Model;

/// A step of deltas is 64 / 2^shift, in 26.6; contracts see the shift, 0 to 6 (Apple TrueType Reference Manual, SDS).
#[derive(Clone, Copy, Debug, PartialEq, Eq)]
pub struct DeltaShift {
    shift: u8,
}

impl Model for DeltaShift {
    ghost use Rattle.std.specs.Prelude.{ℕ, ◌≤◌};

    ghost Value = { ℕ };

    ghost view = { λ d. d.shift };

    ghost invariant = { λ d. d.shift ≤ 6 };

    ghost inverse = { λ n. record { shift = n } };
}

impl DeltaShift {
    ghost use Rattle.fx_gstate.specs.States.{delta_shift_of};
    ghost use Rattle.fx_gstate.specs.Deltas.{step_of};

    /// The default, 3: a step is 1/8 of a pixel.
    pub fn three() -> DeltaShift
        ensures { result ≡ 3 }
    {
        DeltaShift { shift: 3 }
    }

    /// The shift of a stack number: 0 to 6, or `BadArgument`.
    pub fn of(number: i32) -> Result<DeltaShift, BadArgument>
        ensures { result ≡ delta_shift_of number }
    {
        if number < 0 || number > 6 {
            return Err(BadArgument);
        }
        Ok(DeltaShift {
            shift: number as u8,
        })
    }

    /// The shift, 0 to 6.
    pub fn shift(self) -> u8
        ensures value { result ≡ self }
        ensures most { result ≤ 6 }
    {
        self.shift
    }

    /// A step, in 26.6.
    fn step(self) -> i32
        ensures value { result ≡ pos (step_of self) }
        ensures most { unsigned_abs result ≤ 64 }
    {
        match self.shift {
            0 => 64,
            1 => 32,
            2 => 16,
            3 => 8,
            4 => 4,
            5 => 2,
            _ => 1,
        }
    }
}

/// The three forms of a delta instruction, DELTAP1 to 3 or DELTAC1 to 3: each covers 16 sizes.
#[derive(Clone, Copy, Debug, PartialEq, Eq)]
pub enum DeltaForm {
    /// The sizes from the delta base on.
    First,
    /// The sizes from 16 above the delta base on.
    Second,
    /// The sizes from 32 above the delta base on.
    Third,
}

/// What an argument of a delta instruction says: by how much it moves, and at which size.
#[derive(Clone, Copy, Debug, PartialEq, Eq)]
pub struct Delta {
    /// The size at which it acts, in pixels per em; any number.
    pub ppem: i64,
    /// By how much it moves.
    pub amount: F26,
}

impl Delta {
    ghost use Rattle.std.specs.Ordering.{int_eq};
    ghost use Rattle.fx_gstate.specs.Deltas.{delta_of};

    /// What the low byte of an argument says in a form, at a delta base and a delta shift.
    #[tactic(auto, unfolding(crate::specs::Deltas::delta_of))]
    pub fn of(form: DeltaForm, base: i32, shift: DeltaShift, argument: i32) -> Delta
        ensures { result ≡ delta_of form base shift argument }
    {
        let low = low_byte(argument);
        Delta {
            ppem: acting_size(form, base, low),
            amount: F26(amount(shift, low)),
        }
    }

    /// Whether it acts at a size.
    pub fn acts_at(self, ppem: Ppem) -> bool
        ensures { result ≡ int_eq self.ppem (pos ppem) }
    {
        self.ppem == i64::from(ppem.pixels())
    }
}

/// The size at which an argument with this low byte acts.
fn acting_size(form: DeltaForm, base: i32, low: u8) -> i64
    ensures { result ≡ acting_size form base low }
{
    i64::from(base) + form_start(form) + i64::from(low / 16)
}

/// By how much it moves, in 26.6.
fn amount(shift: DeltaShift, low: u8) -> i32
    ensures { result ≡ amount_of shift low }
{
    steps(low) * shift.step()
}

/// How many pixels per em above the delta base the sizes of a form begin.
fn form_start(form: DeltaForm) -> i64
    ensures value { result ≡ pos (form_start form) }
    ensures most { unsigned_abs result ≤ 32 }
{
    match form {
        DeltaForm::First => 0,
        DeltaForm::Second => 16,
        DeltaForm::Third => 32,
    }
}

/// The steps of a low nibble: -8 to -1, or 1 to 8.
fn steps(low: u8) -> i32
    ensures value { result ≡ steps_of low }
    ensures most { unsigned_abs result ≤ 8 }
{
    let nibble = i32::from(low % 16);
    if nibble < 8 { nibble - 8 } else { nibble - 7 }
}

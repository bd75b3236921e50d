//! The least and the greatest value that a quadratic takes, from its control values.

ghost use Rattle.std.specs.Prelude.{◌≡◌, ℕ, ℤ, ◌^◌, pos, ◌+ℤ◌, ◌*ℤ◌, ◌<ℤ◌, ◌≤ℤ◌};
ghost use Rattle.fx_fixed.specs.Ranges.{IsWithin};
ghost use Rattle.fx_winding.specs.Winding.{IsBeforeTurn, IsAboveLow, IsBelowHigh};
ghost use Rattle.fx_rows.specs.inner.Heights.{AreNear};

use crate::slope::{Slope, below_zero};
use fx_winding::difference;

/// The distance that a quadratic keeps from its middle control value, from the distances of the others.
fn stays_off(a: i64, c: i64) -> i32
    requires near { IsWithin (2 ^ 31) a × IsWithin (2 ^ 31) c }
    requires apart { (pos 0 <ℤ a) × (pos 0 <ℤ c) }
    ensures size { (pos 0 ≤ℤ result) × (result ≤ℤ pos (2 ^ 30)) × (result ≤ℤ a) × (result ≤ℤ c) }
    ensures off { (k : ℕ) → pos k <ℤ result → (pos k *ℤ (a +ℤ c)) <ℤ (a *ℤ c) }
    ensures on { (k : ℕ) → result ≤ℤ pos k → (a *ℤ c) ≤ℤ (pos k *ℤ (a +ℤ c)) }
{
    let slope = Slope {
        start: -(a * c),
        step: a + c,
    };
    below_zero(slope, 1 << 30) as i32
}

/// The least value, rounded up, of a quadratic whose middle control value is below the others. Few pieces need it, so its code is
/// kept out of its callers.
#[inline(never)]
fn least_of(a: i32, b: i32, c: i32) -> i32
    requires near { AreNear a b c }
    requires below { (b <ℤ a) × (b <ℤ c) }
    ensures size { (b ≤ℤ result) × (result ≤ℤ a) × (result ≤ℤ c) }
    ensures before { (x : ℤ) → x <ℤ result → ¬ (IsBeforeTurn a b c x) }
    ensures from { (x : ℤ) → result ≤ℤ x → IsBeforeTurn a b c x }
{
    b + stays_off(difference(a, b), difference(c, b))
}

/// The greatest value, rounded down, of a quadratic whose middle control value is above the others.
#[inline(never)]
fn greatest_of(a: i32, b: i32, c: i32) -> i32
    requires near { AreNear a b c }
    requires above { (a <ℤ b) × (c <ℤ b) }
    ensures size { (result ≤ℤ b) × (a ≤ℤ result) × (c ≤ℤ result) }
    ensures to { (x : ℤ) → x ≤ℤ result → IsBeforeTurn a b c x }
    ensures after { (x : ℤ) → result <ℤ x → ¬ (IsBeforeTurn a b c x) }
{
    b - stays_off(difference(b, a), difference(b, c))
}

/// The least value of a quadratic, rounded up.
#[inline(always)]
pub(crate) fn low_of(a: i32, b: i32, c: i32) -> i32
    requires { AreNear a b c }
    ensures near { IsWithin (2 ^ 30) result }
    ensures below { (x : ℤ) → x <ℤ result → ¬ (IsAboveLow a b c x) }
    ensures from { (x : ℤ) → result ≤ℤ x → IsAboveLow a b c x }
{
    let ends = a.min(c);
    if b >= ends {
        return ends;
    }
    least_of(a, b, c)
}

/// The greatest value of a quadratic, rounded down.
#[inline(always)]
pub(crate) fn high_of(a: i32, b: i32, c: i32) -> i32
    requires { AreNear a b c }
    ensures near { IsWithin (2 ^ 30) result }
    ensures to { (x : ℤ) → x ≤ℤ result → IsBelowHigh a b c x }
    ensures above { (x : ℤ) → result <ℤ x → ¬ (IsBelowHigh a b c x) }
{
    let ends = a.max(c);
    if b <= ends {
        return ends;
    }
    greatest_of(a, b, c)
}

//! Numbers in 26.6 and 2.14, and the rounding of exact numbers.

ghost use Rattle.std.specs.Prelude.{◌≡◌, ◌≢◌, ◌^◌, ◌≤◌, pos, unsigned_abs};
ghost use Rattle.fx_fixed.specs.Numbers.{Cut, CutIsFunctional, CutOfIsCut, IsWrapped, NearIsFunctional, NearOfIsNear, Nearest};
ghost use Rattle.fx_fixed.specs.Numbers.{Wrapped, WrappedIsFunctional, WrappedOfIsWrapped, cut_of, difference_of, near_of, near_size};
ghost use Rattle.fx_fixed.specs.Numbers.{sum_of, wrapped_of};

use std::marker::Model;

/// A number in 26.6: it counts 1/64 pixel (Apple TrueType Reference Manual, "Data types").
#[derive(Clone, Copy, Debug, PartialEq, Eq)]
pub struct F26(pub i32);

impl Model for F26 {
    ghost use Rattle.std.specs.Prelude.{ℤ};

    ghost Value = { ℤ };

    ghost view = { λ n. n.0 };

    ghost inverse = { λ z. record { 0 = z } };
}

impl F26 {
    /// The sum, modulo 2^32.
    pub fn plus(self, by: F26) -> F26
        ensures { result ≡ sum_of self by }
    {
        F26(w32(i128::from(self.0) + i128::from(by.0)))
    }

    /// The difference, modulo 2^32.
    pub fn minus(self, by: F26) -> F26
        ensures { result ≡ difference_of self by }
    {
        F26(w32(i128::from(self.0) - i128::from(by.0)))
    }
}

/// A number in 2.14: it counts 1/16384 (Apple TrueType Reference Manual, "Data types").
#[derive(Clone, Copy, Debug, PartialEq, Eq)]
pub struct F2(pub i16);

impl Model for F2 {
    ghost use Rattle.std.specs.Prelude.{ℤ};

    ghost Value = { ℤ };

    ghost view = { λ n. n.0 };

    ghost inverse = { λ z. record { 0 = z } };
}

impl F2 {
    /// 1.0, as `one_in_2_14` of the definitions.
    pub const ONE: F2 = F2(16384);
}

/// `n / d` rounded to the nearest whole number, halves away from zero.
#[tactic(auto, using(crate::proofs::Rounding::is_nearest))]
pub fn near(n: i128, d: i128) -> i128
    requires nonzero { d ≢ pos 0 }
    requires size { unsigned_abs n ≤ 2 ^ 100 }
    requires divisor_size { unsigned_abs d ≤ 2 ^ 100 }
    ensures rounded { Nearest n d result }
    ensures value { result ≡ near_of n d }
    ensures bound { unsigned_abs result ≤ unsigned_abs n }
{
    nearest(n, d)
}

/// The quotient by its sign and its size.
#[tactic(auto, unfolding(crate::specs::Numbers::near_of))]
fn nearest(n: i128, d: i128) -> i128
    requires nonzero { d ≢ pos 0 }
    requires size { unsigned_abs n ≤ 2 ^ 100 }
    requires divisor_size { unsigned_abs d ≤ 2 ^ 100 }
    ensures value { result ≡ near_of n d }
    ensures bound { unsigned_abs result ≤ unsigned_abs n }
{
    let size = nearest_size(n.unsigned_abs(), d.unsigned_abs()) as i128;
    if (n < 0) == (d < 0) { size } else { -size }
}

/// The same of sizes.
#[tactic(auto, using(crate::proofs::Dividing::size_bound))]
fn nearest_size(n: u128, d: u128) -> u128
    requires nonzero { d ≢ 0 }
    requires size { n ≤ 2 ^ 100 }
    requires divisor_size { d ≤ 2 ^ 100 }
    ensures value { result ≡ near_size n d }
    ensures bound { result ≤ n }
{
    (2 * n + d) / (2 * d)
}

/// `n / d` without its fraction, toward zero.
pub fn cut(n: i128, d: i128) -> i128
    requires nonzero { d ≢ pos 0 }
    requires size { unsigned_abs n ≤ 2 ^ 100 }
    requires divisor_size { unsigned_abs d ≤ 2 ^ 100 }
    ensures cut { Cut n d result }
    ensures value { result ≡ cut_of n d }
{
    quotient(n, d)
}

/// The quotient of the language.
#[tactic(auto, unfolding(crate::specs::Numbers::cut_of))]
fn quotient(n: i128, d: i128) -> i128
    requires nonzero { d ≢ pos 0 }
    requires size { unsigned_abs n ≤ 2 ^ 100 }
    ensures { result ≡ cut_of n d }
{
    n / d
}

/// The number of 32 bits that equals `n` modulo 2^32.
#[tactic(auto, using(crate::proofs::Rounding::same_wrapped), unfolding(crate::specs::Numbers::Wrapped))]
pub fn w32(n: i128) -> i32
    ensures wrapped { Wrapped n result }
    ensures value { result ≡ wrapped_of n }
{
    wrapped(n)
}

/// The remainder, from -2^31 on.
fn wrapped(n: i128) -> i32
    ensures { IsWrapped n result }
{
    let low = n.rem_euclid(1 << 32);
    if low < 1 << 31 {
        low as i32
    } else {
        (low - (1 << 32)) as i32
    }
}

/// `n / 64` rounded to the nearest whole number, halves away from zero: from 26.6 to whole pixels.
#[tactic(auto, unfolding(crate::specs::Numbers::near_of))]
pub fn near_64(n: i64) -> i64
    requires { unsigned_abs n ≤ 2 ^ 62 }
    ensures value { result ≡ near_of n (pos 64) }
    ensures bound { unsigned_abs result ≤ unsigned_abs n }
{
    if n < 0 {
        -((32 - n) / 64)
    } else {
        (n + 32) / 64
    }
}

/// `n / 2^14` rounded to the nearest whole number, halves away from zero: what a product with a 2.14 number counts.
#[tactic(auto, unfolding(crate::specs::Numbers::near_of))]
pub fn near_16384(n: i64) -> i64
    requires { unsigned_abs n ≤ 2 ^ 62 }
    ensures value { result ≡ near_of n (pos (2 ^ 14)) }
    ensures bound { unsigned_abs result ≤ unsigned_abs n }
{
    if n < 0 {
        -((8192 - n) / 16384)
    } else {
        (n + 8192) / 16384
    }
}

/// `near`, `cut` and `w32` each have one value.
pub fn rounding_laws()
    ensures near { NearIsFunctional }
    ensures cut { CutIsFunctional }
    ensures wrapped { WrappedIsFunctional }
{}

/// The functions meet their relations.
pub fn rounding_functions()
    ensures near { NearOfIsNear }
    ensures cut { CutOfIsCut }
    ensures wrapped { WrappedOfIsWrapped }
{}

//! Rounding of exact quotients.

ghost use Rattle.std.specs.Prelude.{◌≡◌, ◌≢◌, ◌≤◌, ◌^◌, unsigned_abs};
ghost use Rattle.fx_fixed.specs.Numbers.{near_size};
ghost use Rattle.fx_axes.specs.Rounding.{near_down_size, near_up_of};

/// `n / d` rounded to the nearest whole number, halves up.
#[tactic(auto, unfolding(crate::specs::Rounding::near_up_of))]
pub fn near_up(n: i128, d: u64) -> i128
    requires nonzero { d ≢ 0 }
    requires size { unsigned_abs n ≤ 2 ^ 120 }
    ensures value { result ≡ near_up_of n d }
    ensures bound { unsigned_abs result ≤ unsigned_abs n }
{
    if n < 0 {
        -(size_down(n.unsigned_abs(), u128::from(d)) as i128)
    } else {
        size_up(n.unsigned_abs(), u128::from(d)) as i128
    }
}

/// The same of sizes.
#[tactic(auto, using(fx_fixed::proofs::Dividing::size_bound))]
fn size_up(n: u128, d: u128) -> u128
    requires nonzero { d ≢ 0 }
    requires size { n ≤ 2 ^ 120 }
    requires divisor_size { d ≤ 2 ^ 64 }
    ensures value { result ≡ near_size n d }
    ensures bound { result ≤ n }
{
    (2 * n + d) / (2 * d)
}

/// The size of a rounded quotient of a negative number.
#[tactic(auto, using(crate::proofs::Quotients::down_bound))]
fn size_down(n: u128, d: u128) -> u128
    requires nonzero { d ≢ 0 }
    requires size { n ≤ 2 ^ 120 }
    requires divisor_size { d ≤ 2 ^ 64 }
    ensures value { result ≡ near_down_size n d }
    ensures bound { result ≤ n }
{
    (2 * n + (d - 1)) / (2 * d)
}

//! Rounded quotients in 64 bits.

ghost use Rattle.std.specs.Prelude.{◌≡◌, ◌≢◌, ◌≤◌, ◌<◌, ◌^◌, pos, unsigned_abs};
ghost use Rattle.fx_fixed.specs.Numbers.{near_of, near_size};

/// `n / d` rounded to the nearest whole number, halves away from zero: `near` for numbers of which 64 bits hold the
/// double.
#[tactic(auto, unfolding(crate::specs::Numbers::near_of))]
pub fn near_quotient(n: i64, d: i64) -> i64
    requires nonzero { d ≢ pos 0 }
    requires size { unsigned_abs n ≤ 2 ^ 62 }
    requires divisor_size { unsigned_abs d ≤ 2 ^ 32 }
    ensures value { result ≡ near_of n d }
    ensures bound { unsigned_abs result ≤ unsigned_abs n }
{
    let size = quotient_size(n.unsigned_abs(), d.unsigned_abs()) as i64;
    if (n < 0) == (d < 0) { size } else { -size }
}

/// The same of sizes.
#[tactic(auto, using(crate::proofs::Dividing::size_bound))]
fn quotient_size(n: u64, d: u64) -> u64
    requires nonzero { d ≢ 0 }
    requires size { n ≤ 2 ^ 62 }
    requires divisor_size { d ≤ 2 ^ 32 }
    ensures value { result ≡ near_size n d }
    ensures bound { result ≤ n }
{
    (2 * n + d) / (2 * d)
}

//! A coordinate of an instance: a whole number of FUnits.

ghost use Rattle.std.specs.Prelude.{◌≡◌, ◌≤◌, ◌^◌, ◌+ℤ◌, unsigned_abs};
ghost use Rattle.fx_vary.specs.Settling.{whole_move, settled};

use fx_axes::near_up;

/// A coordinate and how far a sum moves it.
fn moved_to(at: i32, sum: i128) -> i128
    requires { unsigned_abs sum ≤ 2 ^ 117 }
    ensures { result ≡ at +ℤ whole_move sum }
{
    i128::from(at) + near_up(sum, 1 << 58)
}

/// A coordinate and what its tuples add, as a whole number of FUnits; none if it does not have 16 bits.
#[tactic(auto, unfolding(crate::specs::Settling::settled))]
pub fn settled(at: i32, sum: i128) -> Option<i16>
    requires { unsigned_abs sum ≤ 2 ^ 117 }
    ensures { result ≡ settled at sum }
{
    let to = moved_to(at, sum);
    if -32768 <= to && to <= 32767 {
        Some(to as i16)
    } else {
        None
    }
}

//! What tuples add to the sums of points.

ghost use Rattle.std.specs.Prelude.{◌≡◌, ◌+◌, ◌≤◌, ◌<◌, ℕ, length};
ghost use Rattle.std.specs.List.{All};
ghost use Rattle.fx_fixed.specs.Chain.{map_ok};
ghost use Rattle.fx_tuples.specs.Regions.{whole};
ghost use Rattle.fx_moves.specs.Adding.{AreWithin, sums};
ghost use Rattle.fx_moves.specs.Moves.{numbered_added, tuple_added, tuples_added};

use crate::adding::add;
use crate::moving::{delta_count, move_points};
use crate::point::GivenPoint;
use fx_tuples::{
    PointNumbers, Tuple, TupleCursor, TupleFault, TupleSetting, deltas_in, next_tuple,
};

/// Adds what a tuple with these numbers moves, as far as it counts.
#[tactic(auto, unfolding(crate::specs::Moves::numbered_added))]
fn add_numbered(
    points: &mut [GivenPoint],
    ends: &[u16],
    second: bool,
    scalar: u64,
    numbers: &PointNumbers<'_>,
    bytes: &[u8],
) -> Result<(), TupleFault>
    requires ends { All (λ e. e < length points.old) ends.now }
    requires scalar { scalar ≤ whole }
    requires room { AreWithin 32767 (sums points.old) }
    ensures value { map_ok (λ _. points.new) result ≡ numbered_added ends.now second scalar numbers.now bytes.now points.old }
    ensures grown { (n : ℕ) → AreWithin n (sums points.old) → AreWithin (n + 1) (sums points.new) }
{
    let count = delta_count(numbers, points);
    let deltas = deltas_in(second, count, bytes)?;
    move_points(points, ends, numbers, deltas);
    add(points, scalar as i64);
    Ok(())
}

/// Adds what a tuple moves, as far as it counts. One without numbers has no effect.
#[tactic(auto, unfolding(crate::specs::Moves::tuple_added))]
fn add_tuple(
    points: &mut [GivenPoint],
    ends: &[u16],
    second: bool,
    tuple: &Tuple<'_>,
) -> Result<(), TupleFault>
    requires ends { All (λ e. e < length points.old) ends.now }
    requires room { AreWithin 32767 (sums points.old) }
    ensures value { map_ok (λ _. points.new) result ≡ tuple_added ends.now second tuple.now points.old }
    ensures grown { (n : ℕ) → AreWithin n (sums points.old) → AreWithin (n + 1) (sums points.new) }
{
    match tuple.numbers() {
        None => Ok(()),
        Some(numbers) => add_numbered(
            points,
            ends,
            second,
            tuple.scalar(),
            &numbers,
            tuple.deltas(),
        ),
    }
}

/// Adds what the next `count` tuples move a coordinate of points, x or the second one, y; or returns the first fault.
///
/// After a fault the sums are those of the tuples before it.
pub fn add_tuples<'a>(
    points: &mut [GivenPoint],
    ends: &[u16],
    second: bool,
    setting: &TupleSetting<'a>,
    numbers: &Option<PointNumbers<'a>>,
    count: u16,
    cursor: TupleCursor<'a>,
) -> Result<(), TupleFault>
    requires ends { All (λ e. e < length points.old) ends.now }
    requires count { count < 4096 }
    requires begun { AreWithin 0 (sums points.old) }
    ensures value { map_ok (λ _. points.new) result ≡
        tuples_added setting.now ends.now second numbers.now count cursor.entry points.old }
    ensures room { AreWithin 4095 (sums points.new) }
{
    let mut cursor = cursor;
    // The tuples that are left add to the points what all do.
    'tuples: for k in 0..count {
        let (tuple, next) = next_tuple(setting, numbers, cursor)?;
        add_tuple(points, ends, second, &tuple)?;
        cursor = next;
    }
    Ok(())
}

//! What the tuples of bytes add to points.

ghost use Rattle.std.specs.Prelude.{◌≡◌, ◌≤◌, ◌<◌, length};
ghost use Rattle.std.specs.List.{All};
ghost use Rattle.fx_fixed.specs.Chain.{map_ok};
ghost use Rattle.fx_moves.specs.Adding.{AreWithin, sums};
ghost use Rattle.fx_moves.specs.Stores.{store_added, glyph_added};

use crate::folding::add_tuples;
use crate::point::GivenPoint;
use fx_tuples::{TupleFault, TupleSetting, TupleStore};

/// Adds what tuples move a coordinate of points; how many they are is at an offset of the bytes.
#[tactic(auto, using(crate::proofs::Sums::within_more), unfolding(crate::specs::Stores::store_added))]
pub fn add_store<'a>(
    points: &mut [GivenPoint],
    ends: &[u16],
    second: bool,
    setting: &TupleSetting<'a>,
    bytes: &'a [u8],
    at: usize,
) -> Result<(), TupleFault>
    requires ends { All (λ e. e < length points.old) ends.now }
    requires begun { AreWithin 0 (sums points.old) }
    requires at { at ≤ 4 }
    ensures value { map_ok (λ _. points.new) result ≡ store_added setting.now ends.now second bytes.now at points.old }
    ensures room { AreWithin 4095 (sums points.new) }
{
    let store = TupleStore::read(bytes, at)?;
    let count = store.count();
    let (numbers, cursor) = store.into_parts();
    add_tuples(points, ends, second, setting, &numbers, count, cursor)
}

/// Adds what the tuples of a glyph's data move a coordinate of its points.
#[tactic(auto, using(crate::proofs::Sums::within_more), unfolding(crate::specs::Stores::glyph_added))]
pub fn add_glyph<'a>(
    points: &mut [GivenPoint],
    ends: &[u16],
    second: bool,
    setting: &TupleSetting<'a>,
    bytes: &'a [u8],
) -> Result<(), TupleFault>
    requires ends { All (λ e. e < length points.old) ends.now }
    requires begun { AreWithin 0 (sums points.old) }
    ensures value { map_ok (λ _. points.new) result ≡ glyph_added setting.now ends.now second bytes.now points.old }
    ensures room { AreWithin 4095 (sums points.new) }
{
    if bytes.is_empty() {
        return Ok(());
    }
    add_store(points, ends, second, setting, bytes, 0)
}

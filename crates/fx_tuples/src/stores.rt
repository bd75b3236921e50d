//! Tuples in bytes.

ghost use Rattle.std.specs.Prelude.{◌≡◌, ◌≤◌, ◌<◌};
ghost use Rattle.fx_fixed.specs.Chain.{map_ok};
ghost use Rattle.fx_tuples.specs.Stores.{shared_numbers_of, store_of};

use crate::fault::TupleFault;
use crate::headers::has;
use crate::tuples::{PointNumbers, TupleCursor};
use fx_fixed::after;
use fx_sfnt::u16_in;
use std::marker::Model;

/// Tuples share point numbers.
const SHARED_POINT_NUMBERS: u16 = 0x8000;

/// The point numbers that tuples share, if they do, and the bytes after them.
#[tactic(auto, unfolding(crate::specs::Stores::shared_numbers_of))]
fn shared_numbers(
    is_shared: bool,
    bytes: &[u8],
) -> Result<(Option<PointNumbers<'_>>, &[u8]), TupleFault>
    ensures { map_ok (λ n. (n.0, n.1.now)) result ≡ shared_numbers_of is_shared bytes.now }
{
    if !is_shared {
        return Ok((None, bytes));
    }
    let (numbers, rest) = PointNumbers::read(bytes)?;
    Ok((Some(numbers), rest))
}

/// Tuples in bytes: the point numbers that they share, how many they are, and where reading them begins.
#[derive(Drop)]
pub struct TupleStore<'a> {
    numbers: Option<PointNumbers<'a>>,
    count: u16,
    cursor: TupleCursor<'a>,
}

impl<'a> Model for TupleStore<'a> {
    ghost use Rattle.std.specs.Prelude.{◌<◌};
    ghost use Rattle.fx_tuples.specs.Stores.{TupleStoreView};

    ghost Value = { TupleStoreView };

    ghost view = { λ s. record { numbers = s.numbers; count = s.count; cursor = s.cursor } };

    ghost invariant = { λ s. s.count < 4096 };
}

impl<'a> TupleStore<'a> {
    /// Reads where tuples begin; how many they are is at an offset of the bytes. Offsets of data count from the first byte.
    #[tactic(auto, unfolding(crate::specs::Stores::store_of))]
    pub fn read(bytes: &'a [u8], at: usize) -> Result<TupleStore<'a>, TupleFault>
        requires { at ≤ 4 }
        ensures { result ≡ store_of bytes.entry.now at }
    {
        if bytes.len() < at + 4 {
            return Err(TupleFault::HeaderShort);
        }
        let counts = u16_in(bytes, at);
        let start = usize::from(u16_in(bytes, at + 2));
        if bytes.len() < start {
            return Err(TupleFault::DataShort);
        }
        let (numbers, rest) = shared_numbers(
            has(counts, SHARED_POINT_NUMBERS),
            after(bytes, start),
        )?;
        Ok(TupleStore {
            numbers,
            count: counts % 4096,
            cursor: TupleCursor {
                headers: after(bytes, at + 4),
                bytes: rest,
            },
        })
    }

    /// How many tuples there are.
    pub fn count(&self) -> u16
        ensures value { result ≡ self.now.count }
        ensures small { result < 4096 }
    {
        self.count
    }

    /// The point numbers that they share, and where reading them begins.
    pub fn into_parts(self) -> (Option<PointNumbers<'a>>, TupleCursor<'a>)
        ensures { result ≡ (self.entry.numbers, self.entry.cursor) }
    {
        (self.numbers, self.cursor)
    }
}

//! A tuple: how far it counts, the points that it names, and the bytes of its deltas.

ghost use Rattle.std.specs.Prelude.{◌≡◌, ◌+◌, ◌*◌, ◌≤◌, ◌<◌, ◌^◌, Some, IfOk, IsTrue, option_map, length};
ghost use Rattle.fx_fixed.specs.Chain.{map_ok};
ghost use Rattle.fx_tuples.specs.Regions.{whole};
ghost use Rattle.fx_tuples.specs.Tuples.{point_numbers_of, tuple_by, tuple_of, next_tuple};
ghost use Rattle.fx_tuples.specs.Headers.{HasRegion};

use crate::fault::TupleFault;
use crate::headers::{Header, header_of};
use crate::numbers::{Numbers, count_of, skip_numbers};
use crate::regions::scalar;
use fx_fixed::{F2, after, before};
use std::marker::Model;

/// Point numbers in their bytes, which are complete; a count of 0 stands for all points.
#[derive(Drop)]
pub struct PointNumbers<'a> {
    count: u16,
    bytes: &'a [u8],
}

impl<'a> Model for PointNumbers<'a> {
    ghost use Rattle.std.specs.Prelude.{◌<◌, IsSome};
    ghost use Rattle.fx_glyf.specs.Words.{list_in};
    ghost use Rattle.fx_tuples.specs.Numbers.{numbers_from, start};
    ghost use Rattle.fx_tuples.specs.Tuples.{PointNumbersView};

    ghost Value = { PointNumbersView };

    ghost view = { λ n. record { count = n.count; list = list_in (numbers_from n.count (start n.bytes.now)) } };

    ghost invariant = { λ n. (n.count < 32768) × IsSome (numbers_from n.count (start n.bytes.now)) };
}

impl<'a> PointNumbers<'a> {
    /// The point numbers at the front of bytes, and the bytes after them.
    #[tactic(auto, using(crate::proofs::NumberLists::read_steps), unfolding(crate::specs::Tuples::point_numbers_of))]
    pub(crate) fn read(bytes: &'a [u8]) -> Result<(PointNumbers<'a>, &'a [u8]), TupleFault>
        ensures { map_ok (λ n. (n.0, n.1.now)) result ≡ point_numbers_of bytes.entry.now }
    {
        let Some((count, bytes)) = count_of(bytes) else {
            return Err(TupleFault::NumbersShort);
        };
        let Some(rest) = skip_numbers(count, bytes) else {
            return Err(TupleFault::NumbersShort);
        };
        Ok((PointNumbers { count, bytes }, rest))
    }

    /// How many there are; 0 stands for all points.
    pub fn count(&self) -> u16
        ensures { result ≡ self.now.count }
    {
        self.count
    }

    /// The numbers.
    pub fn list(&self) -> Numbers<'a>
        ensures { result ≡ self.now.list }
    {
        Numbers::new(self.count, self.bytes)
    }

    /// The same again.
    fn shared(&self) -> PointNumbers<'a>
        ensures { result ≡ self.now }
    {
        PointNumbers {
            count: self.count,
            bytes: self.bytes,
        }
    }
}

/// The same again, if there are any.
fn shared<'a>(numbers: &Option<PointNumbers<'a>>) -> Option<PointNumbers<'a>>
    ensures { result ≡ numbers.now }
{
    match numbers {
        None => None,
        Some(numbers) => Some(numbers.shared()),
    }
}

/// A tuple: how far it counts, in 1/2^42, the points that it names, and the bytes of its deltas. One without numbers has no
/// effect.
#[derive(Drop)]
pub struct Tuple<'a> {
    scalar: u64,
    numbers: Option<PointNumbers<'a>>,
    deltas: &'a [u8],
}

impl<'a> Model for Tuple<'a> {
    ghost use Rattle.std.specs.Prelude.{◌≤◌};
    ghost use Rattle.fx_tuples.specs.Regions.{whole};
    ghost use Rattle.fx_tuples.specs.Tuples.{TupleView};

    ghost Value = { TupleView };

    ghost view = { λ t. record { scalar = t.scalar; numbers = t.numbers; deltas = t.deltas.now } };

    ghost invariant = { λ t. t.scalar ≤ whole };
}

impl<'a> Tuple<'a> {
    /// How far it counts.
    pub fn scalar(&self) -> u64
        ensures value { result ≡ self.now.scalar }
        ensures bound { result ≤ whole }
    {
        self.scalar
    }

    /// The points that it names.
    pub fn numbers(&self) -> Option<PointNumbers<'a>>
        ensures { result ≡ self.now.numbers }
    {
        shared(&self.numbers)
    }

    /// The bytes of its deltas.
    pub fn deltas(&self) -> &'a [u8]
        ensures { result.now ≡ self.now.deltas }
    {
        self.deltas
    }

    /// The tuple of data that counts: its own point numbers, or those that tuples share.
    #[tactic(auto, unfolding(crate::specs::Tuples::tuple_by))]
    fn counting(
        is_private: bool,
        shared_numbers: &Option<PointNumbers<'a>>,
        scalar: u64,
        bytes: &'a [u8],
    ) -> Result<Tuple<'a>, TupleFault>
        requires { scalar ≤ whole }
        ensures { result ≡ tuple_by is_private shared_numbers.now scalar bytes.entry.now }
    {
        if !is_private {
            return Ok(Tuple {
                scalar,
                numbers: shared(shared_numbers),
                deltas: bytes,
            });
        }
        let (numbers, deltas) = PointNumbers::read(bytes)?;
        Ok(Tuple {
            scalar,
            numbers: Some(numbers),
            deltas,
        })
    }
    /// The tuple of a header and of its data. One that does not count at the place is not read further.
    #[tactic(auto, unfolding(crate::specs::Tuples::tuple_of, crate::specs::Tuples::scalar_at))]
    fn read(
        place: &[F2],
        numbers: &Option<PointNumbers<'a>>,
        header: &Header<'a>,
        bytes: &'a [u8],
    ) -> Result<Tuple<'a>, TupleFault>
        requires { HasRegion (2 * length place.now) header.now }
        ensures { result ≡ tuple_of place.now numbers.now header.now bytes.entry.now }
    {
        let scalar = scalar(&header.region, place);
        if scalar == 0 {
            return Ok(Tuple {
                scalar: 0,
                numbers: None,
                deltas: &[],
            });
        }
        Tuple::counting(header.is_private, numbers, scalar, bytes)
    }
}

/// What tuples are read with: the tuples that a font shares, and the place.
#[derive(Drop)]
pub struct TupleSetting<'a> {
    shared: &'a [u8],
    place: &'a [F2],
}

impl<'a> Model for TupleSetting<'a> {
    ghost use Rattle.std.specs.Prelude.{length, ◌<◌, ◌^◌};
    ghost use Rattle.fx_tuples.specs.Tuples.{TupleSettingView};

    ghost Value = { TupleSettingView };

    ghost view = { λ s. record { shared = s.shared.now; place = s.place.now } };

    ghost invariant = { λ s. length s.place.now < 2 ^ 16 };
}

impl<'a> TupleSetting<'a> {
    /// The tuples that a font shares, in bytes, and a place, which has a coordinate for each axis.
    pub fn new(shared: &'a [u8], place: &'a [F2]) -> TupleSetting<'a>
        requires { length place.now < 2 ^ 16 }
        ensures { result ≡ record { shared = shared.now; place = place.now } }
    {
        TupleSetting { shared, place }
    }
}

/// Where reading tuples stands: the headers and the data that are left.
#[derive(Drop)]
pub struct TupleCursor<'a> {
    pub(crate) headers: &'a [u8],
    pub(crate) bytes: &'a [u8],
}

impl<'a> Model for TupleCursor<'a> {
    ghost use Rattle.fx_tuples.specs.Tuples.{TupleCursorView};

    ghost Value = { TupleCursorView };

    ghost view = { λ c. record { headers = c.headers.now; bytes = c.bytes.now } };
}

/// The next tuple, and what is left: its header, then its data, which are as many bytes as the header says.
#[tactic(auto, using(crate::proofs::Sizes::header_sizes), unfolding(crate::specs::Tuples::next_tuple))]
pub fn next_tuple<'a>(
    setting: &TupleSetting<'a>,
    numbers: &Option<PointNumbers<'a>>,
    cursor: TupleCursor<'a>,
) -> Result<(Tuple<'a>, TupleCursor<'a>), TupleFault>
    ensures { result ≡ next_tuple setting.now numbers.now cursor.entry }
{
    let width = 2 * setting.place.len();
    let Some(header) = header_of(setting.shared, width, cursor.headers) else {
        return Err(TupleFault::HeaderShort);
    };
    let size = usize::from(header.size);
    if cursor.bytes.len() < size {
        return Err(TupleFault::DataShort);
    }
    let bytes = before(cursor.bytes, size);
    let tuple = Tuple::read(setting.place, numbers, &header, bytes)?;
    Ok((
        tuple,
        TupleCursor {
            headers: header.rest,
            bytes: after(cursor.bytes, size),
        },
    ))
}

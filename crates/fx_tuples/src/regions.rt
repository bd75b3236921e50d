//! How far a tuple counts at an instance.

ghost use Rattle.std.specs.Prelude.{◌≡◌, ◌≢◌, ◌+◌, ◌*◌, ◌≤◌, ◌<◌, ◌^◌, ◌≤ℤ◌, ◌-ℤ◌, unsigned_abs, length, IsTrue, pos};
ghost use Rattle.std.specs.Prelude.{slice_index_or};
ghost use Rattle.fx_tuples.specs.Regions.{is_disordered, straddles, is_at_peak, counts_fully, factor_of, scaled_of, tent_of};
ghost use Rattle.fx_tuples.specs.Regions.{scalar_of, whole};

use fx_fixed::F2;
use fx_sfnt::i16_in;

/// A tuple's region along an axis, in normalized coordinates of 2.14: where it begins to count, where it counts fully, and where
/// it ends to count.
#[derive(Clone, Copy, Debug, PartialEq, Eq)]
pub struct Tent {
    pub start: i16,
    pub peak: i16,
    pub end: i16,
}

/// How far apart two coordinates are.
fn apart(a: i16, b: i16) -> u32
    requires { a ≤ℤ b }
    ensures value { result ≡ unsigned_abs (b -ℤ a) }
    ensures small { result < 2 ^ 16 }
{
    (i32::from(b) - i32::from(a)) as u32
}

/// Whether the peak is not between the begin and the end.
fn is_disordered(tent: Tent) -> bool
    ensures { result ≡ is_disordered tent }
{
    tent.peak < tent.start || tent.end < tent.peak
}

/// Whether 0 is between the begin and the end.
fn straddles(tent: Tent) -> bool
    ensures { result ≡ straddles tent }
{
    tent.start < 0 && 0 < tent.end
}

/// Whether the peak is 0 or where the coordinate is.
fn is_at_peak(tent: Tent, v: i16) -> bool
    ensures { result ≡ is_at_peak tent v }
{
    tent.peak == 0 || v == tent.peak
}

/// Whether a tuple counts fully along an axis at a normalized coordinate: at its peak, and where the axis does not matter.
fn counts_fully(tent: Tent, v: i16) -> bool
    ensures { result ≡ counts_fully tent v }
{
    is_at_peak(tent, v) || (is_disordered(tent) || straddles(tent))
}

/// How far a tuple counts along an axis at a normalized coordinate: a numerator and a denominator.
#[tactic(auto, unfolding(crate::specs::Regions::factor_of))]
pub fn factor(tent: Tent, v: i16) -> (u32, u32)
    ensures value { result ≡ factor_of tent v }
    ensures nonzero { result.1 ≢ 0 }
    ensures at_most_one { result.0 ≤ result.1 }
    ensures small { result.1 < 2 ^ 16 }
{
    if counts_fully(tent, v) {
        return (1, 1);
    }
    if v <= tent.start {
        return (0, 1);
    }
    if tent.end <= v {
        return (0, 1);
    }
    if v < tent.peak {
        (apart(tent.start, v), apart(tent.start, tent.peak))
    } else {
        (apart(v, tent.end), apart(tent.peak, tent.end))
    }
}

/// A scalar times a factor.
#[tactic(auto, using(crate::proofs::Quotients::scaled_bound), unfolding(crate::specs::Regions::scaled_of))]
pub fn scaled(scalar: u64, factor: (u32, u32)) -> u64
    requires scalar { scalar ≤ 2 ^ 42 }
    requires nonzero { factor.1 ≢ 0 }
    requires at_most_one { factor.0 ≤ factor.1 }
    requires small { factor.1 < 2 ^ 16 }
    ensures value { result ≡ scaled_of scalar factor }
    ensures bound { result ≤ scalar }
{
    let divisor = u64::from(factor.1);
    (2 * (scalar * u64::from(factor.0)) + divisor) / (2 * divisor)
}

/// A tuple's region: the bytes of its peaks, two for each axis, and if it has them those of where it begins and ends.
#[derive(Clone, Copy, Drop)]
pub struct Region<'a> {
    pub is_intermediate: bool,
    pub peaks: &'a [u8],
    pub starts: &'a [u8],
    pub ends: &'a [u8],
}

/// The tent of an axis.
fn tent_along(region: &Region<'_>, k: usize) -> Tent
    requires peaks { 2 * k + 2 ≤ length region.now.peaks.now }
    requires starts { IsTrue region.now.is_intermediate → 2 * k + 2 ≤ length region.now.starts.now }
    requires ends { IsTrue region.now.is_intermediate → 2 * k + 2 ≤ length region.now.ends.now }
    ensures { result ≡ tent_of region.now.is_intermediate region.now.peaks.now region.now.starts.now region.now.ends.now k }
{
    let peak = i16_in(region.peaks, 2 * k);
    if region.is_intermediate {
        Tent {
            start: i16_in(region.starts, 2 * k),
            peak,
            end: i16_in(region.ends, 2 * k),
        }
    } else {
        Tent {
            start: peak.min(0),
            peak,
            end: peak.max(0),
        }
    }
}

/// The coordinate of an axis.
fn coordinate(coordinates: &[F2], k: usize) -> i16
    requires { k < length coordinates.now }
    ensures { result ≡ slice_index_or coordinates.now k (pos 0) }
{
    let coordinate = coordinates[k];
    coordinate.0
}

/// How far a tuple counts along an axis at an instance.
fn factor_along(region: &Region<'_>, coordinates: &[F2], k: usize) -> (u32, u32)
    requires coordinates { k < length coordinates.now }
    requires peaks { 2 * k + 2 ≤ length region.now.peaks.now }
    requires starts { IsTrue region.now.is_intermediate → 2 * k + 2 ≤ length region.now.starts.now }
    requires ends { IsTrue region.now.is_intermediate → 2 * k + 2 ≤ length region.now.ends.now }
    ensures value { result ≡ factor_of
        (tent_of region.now.is_intermediate region.now.peaks.now region.now.starts.now region.now.ends.now k)
        (slice_index_or coordinates.now k (pos 0)) }
    ensures nonzero { result.1 ≢ 0 }
    ensures at_most_one { result.0 ≤ result.1 }
    ensures small { result.1 < 2 ^ 16 }
{
    factor(tent_along(region, k), coordinate(coordinates, k))
}

/// How far a tuple counts at an instance, in 1/2^42: the product over all axes.
#[tactic(auto, using(crate::proofs::Scalars::scalar_first, crate::proofs::Scalars::scalar_next))]
pub fn scalar(region: &Region<'_>, coordinates: &[F2]) -> u64
    requires peaks { 2 * length coordinates.now ≤ length region.now.peaks.now }
    requires starts { IsTrue region.now.is_intermediate → 2 * length coordinates.now ≤ length region.now.starts.now }
    requires ends { IsTrue region.now.is_intermediate → 2 * length coordinates.now ≤ length region.now.ends.now }
    ensures value { result ≡ scalar_of
        (tent_of region.now.is_intermediate region.now.peaks.now region.now.starts.now region.now.ends.now) coordinates.now
        (length coordinates.now) }
    ensures bound { result ≤ whole }
{
    let mut scalar = 1 << 42;
    // The scalar is that of the axes before k.
    'axes: for k in 0..coordinates.len() {
        scalar = scaled(scalar, factor_along(region, coordinates, k));
    }
    scalar
}

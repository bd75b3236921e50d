//! Normalized coordinates (OpenType, "OpenType Font Variations Overview", "Coordinate scales and normalization").

ghost use Rattle.std.specs.Prelude.{◌≡◌, ◌≢◌, ◌*◌, ◌≤◌, ◌<◌, ◌^◌, ◌≤ℤ◌, ◌<ℤ◌, ◌+ℤ◌, ◌-ℤ◌, ◌*ℤ◌, pos, unsigned_abs};
ghost use Rattle.fx_fixed.specs.Numbers.{near_size};
ghost use Rattle.fx_axes.specs.Coordinates.{part_of, straight, from_least, on_segment};

use crate::records::{Extent, Mapping};
use crate::rounding::near_up;
use fx_fixed::F2;

/// An exact difference.
fn difference(a: i32, b: i32) -> i64
    ensures value { result ≡ a -ℤ b }
    ensures bound { unsigned_abs result ≤ 2 ^ 32 }
{
    i64::from(a) - i64::from(b)
}

/// How far a value is from a lower one.
fn distance(lo: i32, hi: i32) -> u32
    requires { lo <ℤ hi }
    ensures value { result ≡ unsigned_abs (hi -ℤ lo) }
    ensures nonzero { result ≢ 0 }
{
    (i64::from(hi) - i64::from(lo)) as u32
}

/// How far a value is from the default, as a part of how far the end on its side is.
#[tactic(auto, unfolding(crate::specs::Coordinates::part_of))]
pub fn part_of(extent: Extent, v: i32) -> (i64, u32)
    requires low { extent.min ≤ℤ v }
    requires high { v ≤ℤ extent.max }
    ensures value { result ≡ part_of extent v }
    ensures nonzero { result.1 ≢ 0 }
    ensures part { unsigned_abs result.0 ≤ result.1 }
{
    if v < extent.default {
        (
            difference(v, extent.default),
            distance(extent.min, extent.default),
        )
    } else if extent.default < v {
        (
            difference(v, extent.default),
            distance(extent.default, extent.max),
        )
    } else {
        (0, 1)
    }
}

/// A number, in 1/16384.
fn raised(n: i64) -> i128
    requires { unsigned_abs n ≤ 2 ^ 32 }
    ensures value { result ≡ n *ℤ pos 16384 }
    ensures bound { unsigned_abs result ≤ 2 ^ 46 }
{
    i128::from(n) * 16384
}

/// A part of an axis, in 2.14.
#[tactic(auto, using(crate::proofs::Quotients::straight_bound))]
pub fn straight(part: i64, whole: u32) -> F2
    requires nonzero { whole ≢ 0 }
    requires part { unsigned_abs part ≤ whole }
    ensures value { result ≡ straight part whole }
    ensures within { unsigned_abs result ≤ 16384 }
{
    F2(near_up(raised(part), u64::from(whole)) as i16)
}

/// How far a part of an axis is past -1, in 1/16384 of the part's whole.
pub fn from_least(part: i64, whole: u32) -> u64
    requires part { unsigned_abs part ≤ whole }
    ensures value { result ≡ from_least part whole }
    ensures bound { result ≤ 2 ^ 47 }
{
    (part + i64::from(whole)) as u64 * 16384
}

/// How far the second of two pairs goes past the first.
fn rise(p: Mapping, q: Mapping) -> u32
    requires { p.to ≤ℤ q.to }
    ensures value { result ≡ unsigned_abs (q.to -ℤ p.to) }
    ensures small { result < 2 ^ 16 }
{
    (i32::from(q.to) - i32::from(p.to)) as u32
}

/// A part of a number: the nearest whole number, halves up.
#[tactic(auto, using(crate::proofs::Quotients::part_bound))]
fn part_of_rise(rise: u64, r: u64, w: u64) -> u64
    requires rise { rise < 2 ^ 16 }
    requires nonzero { w ≢ 0 }
    requires part { r ≤ w }
    requires small { w ≤ 2 ^ 48 }
    ensures value { result ≡ near_size (rise * r) w }
    ensures bound { result ≤ rise }
{
    let w = u128::from(w);
    ((2 * (u128::from(rise) * u128::from(r)) + w) / (2 * w)) as u64
}

/// Where a pair goes, and more.
fn goes_on(p: Mapping, by: u64) -> F2
    requires small { by ≤ 2 ^ 16 }
    requires fits { (p.to +ℤ pos by) ≤ℤ pos 32767 }
    ensures { result ≡ p.to +ℤ pos by }
{
    F2((i64::from(p.to) + by as i64) as i16)
}

/// Where a coordinate goes that is r / w of the way from a pair to the next one, in 2.14.
#[tactic(auto, unfolding(crate::specs::Coordinates::on_segment))]
pub fn on_segment(r: u64, w: u64, p: Mapping, q: Mapping) -> F2
    requires rising { p.to ≤ℤ q.to }
    requires nonzero { w ≢ 0 }
    requires part { r ≤ w }
    requires small { w ≤ 2 ^ 48 }
    ensures value { result ≡ on_segment r w p q }
    ensures least { p.to ≤ℤ result }
    ensures most { result ≤ℤ q.to }
{
    let rise = u64::from(rise(p, q));
    goes_on(p, part_of_rise(rise, r, w))
}

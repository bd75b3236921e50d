//! The maps of `avar` (OpenType, "avar").

ghost use Rattle.std.specs.Prelude.{◌≡◌, ◌≢◌, ◌+◌, ◌-◌, ◌*◌, ◌≤◌, ◌<◌, ◌^◌, ◌≤ℤ◌, ◌<ℤ◌, IsTrue, true, pos, unsigned_abs, length};
ghost use Rattle.std.specs.Prelude.{drop};
ghost use Rattle.fx_sfnt.specs.Fields.{field};
ghost use Rattle.fx_axes.specs.Avar.{mapping_of, least, is_same, is_step, are_steps, has_pair, are_pairs, map_size, is_map};
ghost use Rattle.fx_axes.specs.Avar.{are_maps};
ghost use Rattle.fx_axes.specs.Avar.{is_avar, gap_of, mapped_of, mapped_by};

use crate::coordinates::{from_least, on_segment, straight};
use crate::records::Mapping;
use fx_fixed::{F2, after};
use fx_sfnt::{i16_in, u16_in, u32_in};

/// The pair at the front of bytes.
#[tactic(auto, unfolding(crate::specs::Avar::mapping_of))]
fn mapping_of(bytes: &[u8]) -> Mapping
    requires { 4 ≤ length bytes.now }
    ensures { result ≡ mapping_of bytes.now }
{
    Mapping {
        from: i16_in(bytes, 0),
        to: i16_in(bytes, 2),
    }
}

/// -1, 0 and 1, where they are.
const LEAST: Mapping = Mapping {
    from: -16384,
    to: -16384,
};

const ZERO: Mapping = Mapping { from: 0, to: 0 };

const GREATEST: Mapping = Mapping {
    from: 16384,
    to: 16384,
};

/// Whether two pairs are the same.
fn is_same(a: Mapping, p: Mapping) -> bool
    ensures { result ≡ is_same a p }
{
    p.from == a.from && p.to == a.to
}

/// Whether the second of two neighbours is after the first, and goes neither before where that goes nor past 1.
fn is_step(p: Mapping, q: Mapping) -> bool
    ensures { result ≡ is_step p q }
{
    (p.from < q.from && p.to <= q.to) && (q.from <= 16384 && q.to <= 16384)
}

/// Whether the neighbours of the first n + 1 pairs are steps.
fn are_steps(n: u16, pairs: &[u8]) -> bool
    requires { 4 * n + 4 ≤ length pairs.now }
    ensures { result ≡ are_steps n pairs.now }
{
    let mut rest = pairs;
    // All neighbours are steps if those in `rest` are.
    'pairs: for k in 0..n {
        let next = after(rest, 4);
        let p = mapping_of(rest);
        let q = mapping_of(next);
        if !is_step(p, q) {
            return false;
        }
        rest = next;
    }
    true
}

/// Whether one of the first n pairs is this one.
fn has_pair(a: Mapping, n: u16, pairs: &[u8]) -> bool
    requires { 4 * n ≤ length pairs.now }
    ensures { result ≡ has_pair a n pairs.now }
{
    let mut rest = pairs;
    // The pair is among all pairs if it is in `rest`.
    'pairs: for k in 0..n {
        let p = mapping_of(rest);
        if is_same(a, p) {
            return true;
        }
        rest = after(rest, 4);
    }
    false
}

/// Whether n pairs are a map.
#[tactic(auto, unfolding(crate::specs::Avar::are_pairs))]
fn are_pairs(n: u16, pairs: &[u8]) -> bool
    requires { 4 * n ≤ length pairs.now }
    ensures { result ≡ are_pairs n pairs.now }
{
    if n == 0 {
        return true;
    }
    if !is_same(LEAST, mapping_of(pairs)) {
        return false;
    }
    if !are_steps(n - 1, pairs) {
        return false;
    }
    has_pair(ZERO, n, pairs) && has_pair(GREATEST, n, pairs)
}

/// The bytes of the map at the front of bytes.
fn map_size(bytes: &[u8]) -> usize
    requires { 2 ≤ length bytes.now }
    ensures { result ≡ map_size bytes.now }
{
    2 + 4 * usize::from(u16_in(bytes, 0))
}

/// Whether a whole map is at the front of bytes.
#[tactic(auto, unfolding(crate::specs::Avar::is_map))]
fn is_map(bytes: &[u8]) -> bool
    ensures value { result ≡ is_map bytes.now }
    ensures header { IsTrue result → 2 ≤ length bytes.now }
    ensures inside { IsTrue result → map_size bytes.now ≤ length bytes.now }
{
    if bytes.len() < 2 {
        return false;
    }
    if bytes.len() < map_size(bytes) {
        return false;
    }
    are_pairs(u16_in(bytes, 0), after(bytes, 2))
}

/// Whether n maps are at the front of bytes, one after the other.
fn are_maps(n: u16, bytes: &[u8]) -> bool
    ensures { result ≡ are_maps n bytes.now }
{
    let mut rest = bytes;
    // All are maps if those in `rest` are.
    'maps: for k in 0..n {
        if !is_map(rest) {
            return false;
        }
        let size = map_size(rest);
        rest = after(rest, size);
    }
    true
}

/// Whether a table has version 1.0 and a map for each axis.
#[tactic(auto, unfolding(crate::specs::Avar::is_avar))]
pub fn is_avar(axes: u16, avar: &[u8]) -> bool
    ensures value { result ≡ is_avar axes avar.now }
    ensures header { IsTrue result → 8 ≤ length avar.now }
    ensures maps { IsTrue result → are_maps axes (drop 8 avar.now) ≡ true }
{
    if avar.len() < 8 {
        return false;
    }
    if u32_in(avar, 0) != 0x0001_0000 {
        return false;
    }
    if u16_in(avar, 6) != axes {
        return false;
    }
    are_maps(axes, after(avar, 8))
}

/// Where a pair goes.
fn to_of(p: Mapping) -> F2
    ensures { result ≡ p.to }
{
    F2(p.to)
}

/// How far apart two pairs are in what they map.
fn gap_of(whole: u32, p: Mapping, q: Mapping) -> u64
    requires nonzero { whole ≢ 0 }
    requires rising { p.from <ℤ q.from }
    ensures value { result ≡ gap_of whole p q }
    ensures some { result ≢ 0 }
    ensures small { result ≤ 2 ^ 48 }
{
    u64::from(whole) * u64::from((i32::from(q.from) - i32::from(p.from)) as u32)
}

/// Where a coordinate goes by n + 1 pairs, of which it is `past` after the first, in 2.14.
fn mapped_of(whole: u32, past: u64, n: u16, pairs: &[u8]) -> F2
    requires nonzero { whole ≢ 0 }
    requires inside { 4 * n + 4 ≤ length pairs.now }
    requires steps { are_steps n pairs.now ≡ true }
    requires least { least ≤ℤ (mapping_of pairs.now).to }
    requires most { (mapping_of pairs.now).to ≤ℤ pos 16384 }
    ensures value { result ≡ mapped_of whole past n pairs.now }
    ensures within { unsigned_abs result ≤ 16384 }
{
    let mut rest = pairs;
    let mut past = past;
    // The coordinate goes where it does by `rest`, whose first pair it is `past` after.
    'pairs: for k in 0..n {
        let next = after(rest, 4);
        let p = mapping_of(rest);
        let q = mapping_of(next);
        let gap = gap_of(whole, p, q);
        if past <= gap {
            return on_segment(past, gap, p, q);
        }
        past -= gap;
        rest = next;
    }
    to_of(mapping_of(rest))
}

/// The maps after the one at the front of bytes.
#[tactic(auto, using(crate::proofs::Maps::map_header, crate::proofs::Maps::map_inside))]
pub fn maps_after(bytes: &[u8]) -> &[u8]
    requires { is_map bytes.now ≡ true }
    ensures { result.now ≡ drop (map_size bytes.now) bytes.now }
{
    after(bytes, map_size(bytes))
}

/// Where a part of an axis goes by the map at the front of bytes, in 2.14.
#[tactic(auto, using(crate::proofs::Maps::map_facts), unfolding(crate::specs::Avar::mapped_by))]
pub fn mapped_by(part: i64, whole: u32, bytes: &[u8]) -> F2
    requires nonzero { whole ≢ 0 }
    requires part { unsigned_abs part ≤ whole }
    requires valid { is_map bytes.now ≡ true }
    ensures value { result ≡ mapped_by part whole bytes.now }
    ensures within { unsigned_abs result ≤ 16384 }
{
    let n = u16_in(bytes, 0);
    if n == 0 {
        return straight(part, whole);
    }
    mapped_of(whole, from_least(part, whole), n - 1, after(bytes, 2))
}

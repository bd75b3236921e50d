//! The place of values along axes (OpenType, "OpenType Font Variations Overview", "Coordinate scales and normalization").

ghost use Rattle.std.specs.Prelude.{◌≡◌, ◌<◌, ◌≤◌, ◌≤ℤ◌, true, [], IsTrue, IfOk, OnOk, option_map, unsigned_abs, length, take};
ghost use Rattle.std.specs.Prelude.{slice_index_or, slice_set};
ghost use Rattle.std.specs.List.{All, list_any};
ghost use Rattle.fx_fixed.specs.Chain.{map_ok};
ghost use Rattle.fx_axes.specs.Fvar.{axis_count, holds_records};
ghost use Rattle.fx_axes.specs.Avar.{IsMap, AreMaps};
ghost use Rattle.fx_axes.specs.Places.{is_of, check_value, check_values, value_of, lies_in, coordinate_by, coordinate_of};
ghost use Rattle.fx_axes.specs.Places.{IsNormalized, maps_after, coordinates_from};

use crate::avar::{mapped_by, maps_after};
use crate::coordinates::{part_of, straight};
use crate::fault::AxesFault;
use crate::fvar::{axis_count, axis_in, has_axis};
use crate::records::{Axis, AxisValue, Extent};
use fx_fixed::F2;

/// Whether a value before has a tag.
fn is_given(tag: u32, before: &[AxisValue]) -> bool
    ensures { result ≡ list_any (is_of tag) before.now }
{
    before.iter().any(|value| value.tag == tag)
}

/// Checks the tag of a value.
#[tactic(auto, unfolding(crate::specs::Places::check_value))]
fn check_value(fvar: &[u8], before: &[AxisValue], value: AxisValue) -> Result<(), AxesFault>
    requires header { 16 ≤ length fvar.now }
    requires records { holds_records fvar.now ≡ true }
    ensures { result ≡ check_value fvar.now before.now value }
{
    if !has_axis(fvar, value.tag) {
        return Err(AxesFault::UnknownAxis(value.tag));
    }
    if is_given(value.tag, before) {
        return Err(AxesFault::RepeatedAxis(value.tag));
    }
    Ok(())
}

/// The values before one.
fn first(values: &[AxisValue], k: usize) -> &[AxisValue]
    requires { k ≤ length values.now }
    ensures { result.now ≡ take k values.now }
{
    &values[..k]
}

/// The value of a number.
fn numbered(values: &[AxisValue], k: usize) -> AxisValue
    requires { k < length values.now }
    ensures { result ≡ slice_index_or values.now k result }
{
    values[k]
}

/// Checks the tags of all values in order.
pub fn check_values(fvar: &[u8], values: &[AxisValue]) -> Result<(), AxesFault>
    requires header { 16 ≤ length fvar.now }
    requires records { holds_records fvar.now ≡ true }
    ensures { result ≡ check_values fvar.now [] values.now }
{
    let count = values.len();
    // No value before k has a fault.
    'values: for k in 0..count {
        let before = first(values, k);
        let value = numbered(values, k);
        check_value(fvar, before, value)?;
    }
    Ok(())
}

/// The value of an axis: that given for its tag, else its default.
#[tactic(auto, unfolding(crate::specs::Places::value_of))]
fn value_of(axis: Axis, values: &[AxisValue]) -> i32
    ensures { result ≡ value_of axis values.now }
{
    // No value before this one has the tag.
    'values: for value in values {
        if value.tag == axis.tag {
            return value.value;
        }
    }
    axis.extent.default
}

/// Whether a value is not below the least and not above the greatest one.
fn lies_in(extent: Extent, v: i32) -> bool
    ensures value { result ≡ lies_in extent v }
    ensures low { IsTrue result → extent.min ≤ℤ v }
    ensures high { IsTrue result → v ≤ℤ extent.max }
{
    extent.min <= v && v <= extent.max
}

/// The normalized coordinate of a value, in 2.14; the axis's map is at the front of the maps, if there are any.
#[tactic(auto, unfolding(crate::specs::Places::coordinate_by))]
fn coordinate_by(maps: Option<&[u8]>, extent: Extent, v: i32) -> F2
    requires low { extent.min ≤ℤ v }
    requires high { v ≤ℤ extent.max }
    requires valid { IsMap (option_map (λ m. m.now) maps) }
    ensures value { result ≡ coordinate_by (option_map (λ m. m.now) maps.entry) extent v }
    ensures within { unsigned_abs result ≤ 16384 }
{
    let (part, whole) = part_of(extent, v);
    match maps {
        None => straight(part, whole),
        Some(maps) => mapped_by(part, whole, maps),
    }
}

/// The coordinate of an axis.
#[tactic(auto, unfolding(crate::specs::Places::coordinate_of))]
fn coordinate_of(values: &[AxisValue], maps: Option<&[u8]>, axis: Axis) -> Result<F2, AxesFault>
    requires valid { IsMap (option_map (λ m. m.now) maps) }
    ensures value { result ≡ coordinate_of values.now (option_map (λ m. m.now) maps.entry) axis }
    ensures within { IfOk result (λ c. unsigned_abs c ≤ 16384) }
{
    let v = value_of(axis, values);
    if !lies_in(axis.extent, v) {
        return Err(AxesFault::OutOfRange(axis.tag));
    }
    Ok(coordinate_by(maps, axis.extent, v))
}

/// The maps of the axes after the first.
fn others(maps: Option<&[u8]>) -> Option<&[u8]>
    requires valid { IsMap (option_map (λ m. m.now) maps) }
    ensures { option_map (λ m. m.now) result ≡ maps_after (option_map (λ m. m.now) maps.entry) }
{
    match maps {
        None => None,
        Some(maps) => Some(maps_after(maps)),
    }
}

/// Writes a coordinate.
fn put(coordinates: &mut [F2], k: usize, c: F2)
    requires { k < length coordinates.old }
    ensures { coordinates.new ≡ slice_set coordinates.old k c }
{
    coordinates[k] = c;
}

/// Fills a list with the coordinates of all axes.
pub fn fill(
    fvar: &[u8],
    values: &[AxisValue],
    maps: Option<&[u8]>,
    coordinates: &mut [F2],
) -> Result<(), AxesFault>
    requires header { 16 ≤ length fvar.now }
    requires records { holds_records fvar.now ≡ true }
    requires valid { AreMaps (axis_count fvar.now) (option_map (λ m. m.now) maps) }
    requires size { length coordinates.old ≡ axis_count fvar.now }
    ensures value { map_ok (λ _. coordinates.new) result ≡
        coordinates_from fvar.now values.now (option_map (λ m. m.now) maps.entry) 0 (axis_count fvar.now) }
    ensures within { OnOk result (All IsNormalized coordinates.new) }
{
    let count = axis_count(fvar);
    let mut maps = maps;
    // The coordinates of the axes before k are there and within -1 and 1, and the maps are those of the others.
    'axes: for k in 0..count {
        let axis = axis_in(fvar, k);
        let c = coordinate_of(values, maps, axis)?;
        put(coordinates, usize::from(k), c);
        maps = others(maps);
    }
    Ok(())
}

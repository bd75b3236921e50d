//! The records of `fvar` (OpenType, "fvar").

ghost use Rattle.std.specs.Prelude.{◌≡◌, ◌+◌, ◌*◌, ◌≤◌, ◌<◌, ◌^◌, IsTrue, true, length};
ghost use Rattle.fx_axes.specs.Sweeps.{all_from, any_from};
ghost use Rattle.fx_axes.specs.Fvar.{axis_count, axis_size, instance_count, instance_size, axis_offset, instance_offset};
ghost use Rattle.fx_axes.specs.Fvar.{fixed_field, extent_at};
ghost use Rattle.fx_axes.specs.Fvar.{axis_of, instance_name_of, instance_value_of, has_tag, is_in_order, is_ordered};
ghost use Rattle.fx_axes.specs.Fvar.{holds_records, is_fvar};

use crate::records::{Axis, Extent};
use fx_sfnt::{u16_in, u32_in};

/// A number in 16.16 at an offset.
fn fixed_in(bytes: &[u8], at: usize) -> i32
    requires { at + 4 ≤ length bytes.now }
    ensures { result ≡ fixed_field bytes.now at }
{
    u32_in(bytes, at).cast_signed()
}

/// How many axes the header counts.
pub fn axis_count(fvar: &[u8]) -> u16
    requires { 16 ≤ length fvar.now }
    ensures { result ≡ axis_count fvar.now }
{
    u16_in(fvar, 8)
}

/// How many named instances the header counts.
pub fn instance_count(fvar: &[u8]) -> u16
    requires { 16 ≤ length fvar.now }
    ensures { result ≡ instance_count fvar.now }
{
    u16_in(fvar, 12)
}

/// Where the record of an axis begins.
fn axis_offset(fvar: &[u8], k: u16) -> usize
    requires { 16 ≤ length fvar.now }
    ensures value { result ≡ axis_offset fvar.now k }
    ensures small { result < 2 ^ 33 }
{
    usize::from(u16_in(fvar, 4)) + usize::from(u16_in(fvar, 10)) * usize::from(k)
}

/// Where the record of a named instance begins.
fn instance_offset(fvar: &[u8], k: u16) -> usize
    requires { 16 ≤ length fvar.now }
    ensures value { result ≡ instance_offset fvar.now k }
    ensures small { result < 2 ^ 34 }
{
    axis_offset(fvar, axis_count(fvar)) + usize::from(u16_in(fvar, 14)) * usize::from(k)
}

/// The values of the axis whose record begins at an offset.
fn extent_at(fvar: &[u8], at: usize) -> Extent
    requires small { at < 2 ^ 33 }
    requires inside { at + 20 ≤ length fvar.now }
    ensures { result ≡ extent_at fvar.now at }
{
    Extent {
        min: fixed_in(fvar, at + 4),
        default: fixed_in(fvar, at + 8),
        max: fixed_in(fvar, at + 12),
    }
}

/// An axis.
#[tactic(auto, unfolding(crate::specs::Fvar::axis_of))]
pub fn axis_in(fvar: &[u8], k: u16) -> Axis
    requires header { 16 ≤ length fvar.now }
    requires inside { axis_offset fvar.now k + 20 ≤ length fvar.now }
    ensures { result ≡ axis_of fvar.now k }
{
    let at = axis_offset(fvar, k);
    Axis {
        tag: u32_in(fvar, at),
        extent: extent_at(fvar, at),
        name: u16_in(fvar, at + 18),
        flags: u16_in(fvar, at + 16),
    }
}

/// The number of a named instance's name.
#[tactic(auto, unfolding(crate::specs::Fvar::instance_name_of))]
pub fn instance_name_in(fvar: &[u8], k: u16) -> u16
    requires header { 16 ≤ length fvar.now }
    requires inside { instance_offset fvar.now k + 4 ≤ length fvar.now }
    ensures { result ≡ instance_name_of fvar.now k }
{
    u16_in(fvar, instance_offset(fvar, k))
}

/// The value of a named instance along an axis.
#[tactic(auto, unfolding(crate::specs::Fvar::instance_value_of))]
pub fn instance_value_in(fvar: &[u8], k: u16, axis: u16) -> i32
    requires header { 16 ≤ length fvar.now }
    requires inside { instance_offset fvar.now k + (4 + 4 * axis) + 4 ≤ length fvar.now }
    ensures { result ≡ instance_value_of fvar.now k axis }
{
    fixed_in(fvar, instance_offset(fvar, k) + (4 + 4 * usize::from(axis)))
}

/// Whether an axis's default is between its least and its greatest value.
fn is_in_order(axis: Axis) -> bool
    ensures { result ≡ is_in_order axis }
{
    axis.extent.min <= axis.extent.default && axis.extent.default <= axis.extent.max
}

/// Whether records have the size of what is read of them, and all lie in the table.
#[tactic(auto, unfolding(crate::specs::Fvar::holds_records))]
fn holds_records(fvar: &[u8]) -> bool
    requires { 16 ≤ length fvar.now }
    ensures { result ≡ holds_records fvar.now }
{
    let instances = instance_count(fvar);
    let least = 4 + 4 * usize::from(axis_count(fvar));
    20 <= u16_in(fvar, 10)
        && (least <= usize::from(u16_in(fvar, 14)) || instances == 0)
        && instance_offset(fvar, instances) <= fvar.len()
}

/// Whether all axes are in order.
fn are_in_order(fvar: &[u8]) -> bool
    requires header { 16 ≤ length fvar.now }
    requires records { holds_records fvar.now ≡ true }
    ensures { result ≡ all_from (is_ordered fvar.now) 0 (axis_count fvar.now) }
{
    let count = axis_count(fvar);
    // All axes before k are in order.
    'axes: for k in 0..count {
        if !is_in_order(axis_in(fvar, k)) {
            return false;
        }
    }
    true
}

/// Whether the table has a header of version 1.0, its records, and axes in order.
#[tactic(auto, unfolding(crate::specs::Fvar::is_fvar))]
pub fn is_fvar(fvar: &[u8]) -> bool
    ensures value { result ≡ is_fvar fvar.now }
    ensures header { IsTrue result → 16 ≤ length fvar.now }
    ensures records { IsTrue result → holds_records fvar.now ≡ true }
{
    if fvar.len() < 16 {
        return false;
    }
    if u32_in(fvar, 0) != 0x0001_0000 {
        return false;
    }
    if !holds_records(fvar) {
        return false;
    }
    are_in_order(fvar)
}

/// Whether an axis has a tag.
pub fn has_axis(fvar: &[u8], tag: u32) -> bool
    requires header { 16 ≤ length fvar.now }
    requires records { holds_records fvar.now ≡ true }
    ensures { result ≡ any_from (has_tag fvar.now tag) 0 (axis_count fvar.now) }
{
    let count = axis_count(fvar);
    // No axis before k has the tag.
    'axes: for k in 0..count {
        if axis_in(fvar, k).tag == tag {
            return true;
        }
    }
    false
}

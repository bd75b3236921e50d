//! The axes of a font.

ghost use Rattle.std.specs.Prelude.{◌≡◌, ◌<◌, option_map, IfOk, OnOk, length};
ghost use Rattle.std.specs.List.{All};
ghost use Rattle.fx_fixed.specs.Chain.{map_ok};
ghost use Rattle.fx_axes.specs.Fvar.{axis_count, instance_count, axis_of, instance_name_of, instance_value_of};
ghost use Rattle.fx_axes.specs.Avar.{AreMaps, maps_in};
ghost use Rattle.fx_axes.specs.Places.{IsNormalized, axes_of, place_of};

use crate::avar::is_avar;
use crate::fault::AxesFault;
use crate::fvar::{
    axis_count, axis_in, instance_count, instance_name_in, instance_value_in, is_fvar,
};
use crate::places::{check_values, fill};
use crate::records::{Axis, AxisValue};
use fx_fixed::{F2, after};
use fx_sfnt::Font;
use std::marker::Model;

/// The axes of a font, and its named instances: a view over the bytes of `fvar` and `avar`.
#[derive(Drop)]
pub struct Axes<'a> {
    fvar: &'a [u8],
    maps: Option<&'a [u8]>,
}

impl<'a> Model for Axes<'a> {
    ghost use Rattle.std.specs.Prelude.{◌≡◌, ◌≤◌, true, option_map, length};
    ghost use Rattle.fx_axes.specs.Fvar.{axis_count, holds_records};
    ghost use Rattle.fx_axes.specs.Avar.{AreMaps};
    ghost use Rattle.fx_axes.specs.Places.{AxesView};

    ghost Value = { AxesView };

    ghost view = { λ a. record { fvar = a.fvar.now; maps = option_map (λ m. m.now) a.maps } };

    ghost invariant = { λ a. (16 ≤ length a.fvar.now) × (holds_records a.fvar.now ≡ true)
        × AreMaps (axis_count a.fvar.now) (option_map (λ m. m.now) a.maps) };
}

/// The maps of a font by its number of axes.
fn maps_in(axes: u16, avar: Option<&[u8]>) -> Result<Option<&[u8]>, AxesFault>
    ensures value { map_ok (λ m. option_map (λ b. b.now) m) result ≡ maps_in axes (option_map (λ b. b.now) avar.entry) }
    ensures valid { IfOk result (λ m. AreMaps axes (option_map (λ b. b.now) m)) }
{
    let Some(avar) = avar else {
        return Ok(None);
    };
    if !is_avar(axes, avar) {
        return Err(AxesFault::BadAvar);
    }
    Ok(Some(after(avar, 8)))
}

impl<'a> Axes<'a> {
    /// Reads `fvar` and `avar` of a font, or returns the first fault: of `fvar`, then of `avar`, which may be absent.
    #[tactic(auto, unfolding(crate::specs::Places::axes_of, crate::specs::Fvar::fvar_of))]
    pub fn open(font: &Font<'a>) -> Result<Axes<'a>, AxesFault>
        ensures { result ≡ axes_of font.now }
    {
        let Some(fvar) = font.table(*b"fvar") else {
            return Err(AxesFault::NotVariable);
        };
        if !is_fvar(fvar) {
            return Err(AxesFault::BadFvar);
        }
        let maps = maps_in(axis_count(fvar), font.table(*b"avar"))?;
        Ok(Axes { fvar, maps })
    }

    /// How many axes there are.
    pub fn count(&self) -> u16
        ensures { result ≡ axis_count self.now.fvar }
    {
        axis_count(self.fvar)
    }

    /// An axis, counted from 0.
    #[tactic(auto, using(crate::proofs::Inside::axis_inside))]
    pub fn axis(&self, k: u16) -> Axis
        requires { k < axis_count self.now.fvar }
        ensures { result ≡ axis_of self.now.fvar k }
    {
        axis_in(self.fvar, k)
    }

    /// How many named instances there are.
    pub fn instance_count(&self) -> u16
        ensures { result ≡ instance_count self.now.fvar }
    {
        instance_count(self.fvar)
    }

    /// The number in `name` of a named instance's name; instances are counted from 0.
    #[tactic(auto, using(crate::proofs::Inside::name_inside))]
    pub fn instance_name(&self, k: u16) -> u16
        requires { k < instance_count self.now.fvar }
        ensures { result ≡ instance_name_of self.now.fvar k }
    {
        instance_name_in(self.fvar, k)
    }

    /// The value of a named instance along an axis, in 16.16.
    #[tactic(auto, using(crate::proofs::Inside::instance_inside))]
    pub fn instance_value(&self, k: u16, axis: u16) -> i32
        requires instance { k < instance_count self.now.fvar }
        requires axis { axis < axis_count self.now.fvar }
        ensures { result ≡ instance_value_of self.now.fvar k axis }
    {
        instance_value_in(self.fvar, k, axis)
    }

    /// Fills a list of as many coordinates as there are axes with the place of values, in 2.14, each within -1 and 1; or returns
    /// the first fault.
    ///
    /// An axis without a value is at its default. First all tags are checked in order: `UnknownAxis`, or `RepeatedAxis` if a value
    /// before has it. Then `OutOfRange` is the fault of the first axis whose value is not between its least and its greatest one.
    /// After a fault the coordinates are not those of any place.
    #[tactic(auto, unfolding(crate::specs::Places::place_of))]
    pub fn place(&self, values: &[AxisValue], coordinates: &mut [F2]) -> Result<(), AxesFault>
        requires { length coordinates.old ≡ axis_count self.now.fvar }
        ensures value { map_ok (λ _. coordinates.new) result ≡ place_of self.now values.now }
        ensures within { OnOk result (All IsNormalized coordinates.new) }
    {
        check_values(self.fvar, values)?;
        fill(self.fvar, values, self.maps, coordinates)
    }
}

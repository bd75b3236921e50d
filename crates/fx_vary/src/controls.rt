//! The control values of a font at a place.

ghost use Rattle.std.specs.Prelude.{◌≡◌, ◌+◌, ◌*◌, ◌≤◌, ◌<◌, ◌/◌, ◌^◌, IfOk, option_map, length};
ghost use Rattle.fx_fixed.specs.Chain.{map_ok, wanted, GivesUnless};
ghost use Rattle.fx_moves.specs.Adding.{AreWithin, sums};
ghost use Rattle.fx_vary.specs.Controls.{controls_added, any_added, no_sums, entries_from, control_moved, controls_by, controls_of};
ghost use Rattle.fx_sfnt.specs.Fields.{signed_field};
ghost use Rattle.fx_vary.specs.Settling.{settled};
ghost use Rattle.fx_vary.specs.Shape.{all_moved, sum_at};
ghost use Rattle.fx_vary.specs.declared.fault.ShapeFault.TheVariants.{BadCvar as BadCvarOf};
ghost use Rattle.fx_vary.specs.Faults.{Fails};

use crate::fault::ShapeFault;
use crate::instance::Instance;
use crate::lists::{append, point_at};
use crate::settling::settled;
use crate::shape::sum_at;
use fx_fixed::F2;
use fx_moves::{GivenPoint, add_store};
use fx_sfnt::{Font, i16_in, u32_in};
use fx_tuples::{TupleFault, TupleSetting};
use std::alloc::{AllocError, Global};

/// Adds what the tuples of `cvar` move control values; or returns the first fault.
#[tactic(auto, using(fx_moves::proofs::Sums::within_more, crate::proofs::Listing::no_ends), unfolding(crate::specs::Controls::controls_added))]
fn add_controls<'a>(
    place: &'a [F2],
    cvar: &'a [u8],
    points: &mut [GivenPoint],
) -> Result<(), TupleFault>
    requires place { length place.now < 2 ^ 16 }
    requires begun { AreWithin 0 (sums points.old) }
    ensures value { map_ok (λ _. points.new) result ≡ controls_added place.now cvar.now points.old }
    ensures room { AreWithin 4095 (sums points.new) }
{
    if cvar.len() < 8 {
        return Err(TupleFault::HeaderShort);
    }
    if u32_in(cvar, 0) != 0x0001_0000 {
        return Err(TupleFault::BadVersion);
    }
    let setting = TupleSetting::new(&[], place);
    add_store(points, &[], false, &setting, cvar, 4)
}

/// The same of a font that may lack the table.
#[tactic(auto, using(fx_moves::proofs::Sums::within_more), unfolding(crate::specs::Controls::any_added))]
fn add_any(place: &[F2], cvar: Option<&[u8]>, points: &mut [GivenPoint]) -> Result<(), ShapeFault>
    requires place { length place.now < 2 ^ 16 }
    requires begun { AreWithin 0 (sums points.old) }
    ensures value { map_ok (λ _. points.new) result ≡ any_added place.now (option_map (λ b. b.now) cvar.entry) points.old }
    ensures room { AreWithin 4095 (sums points.new) }
{
    let Some(cvar) = cvar else {
        return Ok(());
    };
    match add_controls(place, cvar, points) {
        Ok(()) => Ok(()),
        Err(_) => Err(ShapeFault::BadCvar),
    }
}

/// A sum of 0 for each of some control values.
#[tactic(auto, using(crate::proofs::Controlling::sums_filled))]
fn no_sums(alloc: Global, count: usize) -> Result<Vec<GivenPoint>, AllocError>
    ensures { IfOk result (λ v. v.items ≡ no_sums count) }
{
    let mut points = Vec::new(alloc);
    points.resize(count, point_at(0))?;
    Ok(points)
}

/// The control value of a number, by its sum.
fn control_by(cvt: &[u8], points: &[GivenPoint], k: usize) -> Option<i16>
    requires inside { 2 * k + 2 ≤ length cvt.now }
    requires room { AreWithin 4095 (sums points.now) }
    ensures { result ≡ settled (signed_field cvt.now (2 * k)) (sum_at points.now k) }
{
    settled(i32::from(i16_in(cvt, 2 * k)), sum_at(points, k))
}

/// The control values in whole FUnits, by their sums.
fn whole_controls(alloc: Global, cvt: &[u8], points: &[GivenPoint]) -> Result<Vec<i16>, ShapeFault>
    requires { AreWithin 4095 (sums points.now) }
    ensures { GivesUnless Fails (λ v. v.items) result
        (wanted (all_moved control_moved points.now points.now 0 (entries_from cvt.now 0 (length cvt.now / 2))) BadCvarOf) }
{
    let mut values = Vec::new(alloc);
    // The entries from k on, moved, are the rest of all values.
    'entries: for k in 0..cvt.len() / 2 {
        let Some(value) = control_by(cvt, points, k) else {
            return Err(ShapeFault::BadCvar);
        };
        append(&mut values, value)?;
    }
    Ok(values)
}

/// The control values by the bytes of `cvt ` and of `cvar`, if there is one.
#[tactic(auto, using(crate::proofs::Controlling::sums_within), unfolding(crate::specs::Controls::controls_by))]
fn controls_by(
    alloc: Global,
    place: &[F2],
    cvt: &[u8],
    cvar: Option<&[u8]>,
) -> Result<Vec<i16>, ShapeFault>
    requires { length place.now < 2 ^ 16 }
    ensures { GivesUnless Fails (λ v. v.items) result
        (controls_by place.now cvt.now (option_map (λ b. b.now) cvar.entry)) }
{
    let mut points = no_sums(alloc, cvt.len() / 2)?;
    add_any(place, cvar, &mut points)?;
    whole_controls(alloc, cvt, &points)
}

impl<'a> Instance<'a> {
    /// The control values of the font at the place, in whole FUnits: the entries of `cvt ` and what the tuples of `cvar` add. Or
    /// `BadCvar` is the fault of `cvar`, and of a control value that has not 16 bits.
    #[tactic(auto, unfolding(crate::specs::Controls::controls_of))]
    pub fn controls(&self, alloc: Global, font: &Font<'_>) -> Result<Vec<i16>, ShapeFault>
        ensures { GivesUnless Fails (λ v. v.items) result (controls_of font.now self.now.place) }
    {
        let cvt = match font.table(*b"cvt ") {
            Some(bytes) => bytes,
            None => &[],
        };
        controls_by(alloc, self.place(), cvt, font.table(*b"cvar"))
    }
}

//! Control values.

ghost use Rattle.std.specs.Prelude.{◌≡◌, ◌<◌, ◌+◌, ◌*◌, ◌≤◌, ◌/◌, IfOk, length, map, take};
ghost use Rattle.fx_scale.specs.Controls.{control_values};
ghost use Rattle.fx_sfnt.specs.Fields.{signed_field};
ghost use Rattle.fx_scale.specs.Scaling.{scaled_of};

use crate::factor::Factor;
use crate::scale::Scale;
use fx_sfnt::i16_in;
use std::alloc::{AllocError, Global};

/// The control values of a `cvt ` table's bytes, numbers in 26.6: each `int16` entry scaled; a last odd byte is no entry
/// (OpenType, `cvt `).
#[tactic(auto, unfolding(crate::specs::Controls::control_values))]
pub fn cvt_of(alloc: Global, bytes: &[u8], scale: &Scale) -> Result<Vec<i32>, AllocError>
    ensures { IfOk result (λ v. v.items ≡ control_values scale.now bytes.now) }
{
    let factor = scale.factor();
    let mut values = Vec::with_capacity(alloc, bytes.len() / 2)?;
    // The values are those of the entries before k, and there is room for those that are left.
    'entries: for k in 0..bytes.len() / 2 {
        let value = entry(&factor, bytes, k);
        values.push(value)?;
    }
    Ok(values)
}

/// The control value of a number.
fn entry(factor: &Factor, bytes: &[u8], k: usize) -> i32
    requires { 2 * k + 2 ≤ length bytes.now }
    ensures { result ≡ scaled_of (signed_field bytes.now (2 * k)) factor.now.ppem factor.now.units_per_em }
{
    factor.apply(i32::from(i16_in(bytes, 2 * k))).0
}

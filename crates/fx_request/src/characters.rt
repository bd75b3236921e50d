//! The characters of a request.
ghost use Rattle.std.specs.Prelude.{◌≡◌, nat_eq, IsTrue, IfOk};
ghost use Rattle.std.specs.List.{dedup};
ghost use Rattle.std.specs.List.Sorted.{IsPermutation, IsSorted, IsStrictlyIncreasing};
ghost use Rattle.std.specs.Ordering.{nat_cmp};
ghost use Rattle.fx_request.specs.Characters.{rising};

use std::alloc::{AllocError, Global};

/// The code points in order, each as often as in the request.
fn sorted(alloc: Global, chars: &[u32]) -> Result<Vec<u32>, AllocError>
    ensures same { IfOk result (λ v. IsPermutation chars.now v.items) }
    ensures sorted { IfOk result (λ v. IsSorted nat_cmp v.items) }
{
    let mut codes = Vec::from_slice(alloc, chars)?;
    codes.sort_unstable();
    Ok(codes)
}

/// Code points with each run of equal ones replaced by one.
fn each_once(codes: Vec<u32>) -> Vec<u32>
    ensures { result.items ≡ dedup nat_eq codes.items }
{
    let mut codes = codes;
    codes.dedup();
    codes
}

/// Whether each code point is above the one before it. Those of ranges are, and need not be sorted. It looks at all of them, since
/// the compiler then takes several at once.
fn is_rising(chars: &[u32]) -> bool
    ensures { IsTrue result → IsStrictlyIncreasing chars.now }
{
    let mut rises = true;
    // `rises` says whether the code points before this one rise.
    'codes: for k in 1..chars.len() {
        rises &= chars[k - 1] < chars[k];
    }
    rises
}

/// The code points in rising order, each once.
pub fn rising_codes(alloc: Global, chars: &[u32]) -> Result<Vec<u32>, AllocError>
    ensures { IfOk result (λ v. v.items ≡ rising chars.now) }
{
    if is_rising(chars) {
        let codes = Vec::from_slice(alloc, chars)?;
        return Ok(codes);
    }
    Ok(each_once(sorted(alloc, chars)?))
}

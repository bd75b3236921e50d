//! The characters of a strike that the font has.
ghost use Rattle.std.specs.Prelude.{◌≡◌, ◌<◌, ◌≤◌, ℕ, length, slice_index, IfOk, IfErr};
ghost use Rattle.std.specs.List.Sorted.{IsStrictlyIncreasing};
ghost use Rattle.fx_request.specs.Limits.{max_characters};
ghost use Rattle.fx_request.specs.Characters.{rising};
ghost use Rattle.fx_strike.specs.inner.Mapping.{AreCharactersOf, mapped_of};

use crate::striker::Striker;
use fx_cmap::CharMap;
use fx_raster::Scan;
use fx_request::{Refusal, rising_codes};
use std::alloc::{AllocError, Global};

/// A character that the font has: its code point, and the number of its glyph.
#[derive(Clone, Copy)]
pub(crate) struct Mapped {
    pub code: u32,
    pub glyph: u16,
}

/// The characters of a strike that the font has, in rising order, and how many others there are.
#[derive(Drop)]
pub(crate) struct Characters {
    pub mapped: Vec<Mapped>,
    pub missing: u32,
}

/// Where a run of code points from the one with the index `from` ends, each of which but the first is below `end`. It is found by
/// halving, and is the longest if the code points have no holes.
fn run_below(codes: &[u32], from: usize, end: u32) -> usize
    requires inside { from < length codes.now }
    requires rise { IsStrictlyIncreasing codes.now }
    ensures further { from < result }
    ensures within { result ≤ length codes.now }
    ensures below { (i : ℕ) → from < i → i < result → slice_index codes.now i < end }
{
    let far = end.saturating_sub(codes[from]) as usize;
    let mut count = far.min(codes.len() - from).max(1);
    // The code points after `from + count` are left for a later run.
    'halving: while 1 < count {
        let last = codes[from + count - 1];
        if last < end {
            return from + count;
        }
        count /= 2;
    }
    from + 1
}

/// Those code points, in rising order, that have a glyph, with its number. Code points in a gap of the map are not looked up one by
/// one.
fn look_up(alloc: Global, map: &CharMap<'_>, codes: &[u32]) -> Result<Vec<Mapped>, AllocError>
    requires rise { IsStrictlyIncreasing codes.now }
    ensures { IfOk result (λ v. v.items ≡ mapped_of map.now codes.now) }
{
    let mut mapped = Vec::new(alloc);
    let mut cursor = map.cursor();
    let mut k = 0;
    // `mapped` has those of the code points before `k`.
    'codes: while k < codes.len() {
        let code = codes[k];
        let glyph = cursor.glyph(code);
        if glyph == 0 {
            let end = cursor.gap_end(code);
            k = run_below(codes, k, end);
        } else {
            mapped.push(Mapped { code, glyph })?;
            k += 1;
        }
    }
    Ok(mapped)
}

impl<'a, S: Scan> Striker<'a, S> {
    /// The characters of a strike.
    pub(crate) fn characters(&self, chars: &[u32]) -> Result<Characters, Refusal>
        requires few { length chars.now ≤ max_characters }
        ensures characters { IfOk result (λ c. AreCharactersOf self.now.map (rising chars.now) c) }
        ensures fault { IfErr result (λ e. e ≡ Refusal.OutOfMemory) }
    {
        let codes = rising_codes(self.alloc, chars)?;
        let mapped = look_up(self.alloc, &self.basis.opened.map, &codes)?;
        let requested = codes.len();
        let found = mapped.len();
        let missing = (requested - found) as u32;
        Ok(Characters { mapped, missing })
    }
}

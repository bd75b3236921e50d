//! Character codes in rising order, and the search among them.

ghost use Rattle.std.specs.Prelude.{◌≡◌, ◌<◌, length, nat_le, IfSome, IsTrue, false};
ghost use Rattle.std.specs.List.{position, position_or_len};
ghost use Rattle.fx_cmap.specs.Subtables.{falls};

use crate::codes::Codes;
use std::marker::Model;

/// The last codes of a subtable's ranges, none below the one before it. Contracts see the list of them.
#[derive(Drop)]
pub struct RisingCodes<'a> {
    codes: Codes<'a>,
}

impl<'a> Model for RisingCodes<'a> {
    ghost use Rattle.std.specs.Prelude.{◌≡◌, ℕ, List, false};
    ghost use Rattle.fx_cmap.specs.Subtables.{falls};

    ghost Value = { List ℕ };

    ghost view = { λ r. r.codes };

    ghost invariant = { λ r. falls 0 r.codes ≡ false };
}

impl<'a> RisingCodes<'a> {
    /// The same codes; none is below the one before it.
    pub fn of(codes: Codes<'a>) -> RisingCodes<'a>
        requires { falls 0 codes ≡ false }
        ensures { result ≡ codes.entry }
    {
        RisingCodes { codes }
    }

    /// The number of codes.
    pub fn len(&self) -> u32
        ensures { result ≡ length self.now }
    {
        self.codes.len()
    }

    /// The number of the first code that is at least the given one, if there is one. The search begins at the number `near`, which
    /// becomes the one that is found, or that of all codes.
    #[inline]
    pub fn find(&self, near: &mut u32, code: u32) -> Option<u32>
        ensures value { result ≡ position (nat_le code) self.now }
        ensures within { IfSome result (λ k. k < length self.now) }
    {
        let k = self.first_reaching(*near, code);
        *near = k;
        if k < self.len() { Some(k) } else { None }
    }

    /// The number of the first code that is at least the given one, or that of all codes if none is. It is looked for at the number
    /// `near`, then at the next one, then by halving.
    #[inline]
    fn first_reaching(&self, near: u32, code: u32) -> u32
        ensures { result ≡ position_or_len (nat_le code) self.now }
    {
        if self.is_first_reaching(near, code) {
            return near;
        }
        if near < self.len() && self.is_first_reaching(near + 1, code) {
            return near + 1;
        }
        self.halved(code)
    }

    /// Whether a number is the one that `first_reaching` returns.
    #[inline]
    fn is_first_reaching(&self, k: u32, code: u32) -> bool
        ensures { IsTrue result → position_or_len (nat_le code) self.now ≡ k }
    {
        if k > self.len() {
            return false;
        }
        if k < self.len() && self.codes.at(k) < code {
            return false;
        }
        k == 0 || self.codes.at(k - 1) < code
    }

    /// The number that `first_reaching` returns, by halving.
    #[tactic(auto, using(crate::proofs::Searching::rising_between, crate::proofs::Searching::first_is))]
    fn halved(&self, code: u32) -> u32
        ensures { position_or_len (nat_le code) self.now ≡ result }
    {
        let mut low = 0;
        let mut high = self.len();
        // The codes before `low` are below the given one, and that at `high` is not, if there is one.
        'halving: while low < high {
            let middle = low + (high - low) / 2;
            if self.codes.at(middle) < code {
                low = middle + 1;
            } else {
                high = middle;
            }
        }
        low
    }
}

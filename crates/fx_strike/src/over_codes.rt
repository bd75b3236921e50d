//! The code points of characters that take too much work.
ghost use Rattle.std.specs.Prelude.{◌≡◌, ◌==◌, ◌<◌, ◌++◌, ◌∷◌, [], All, OnOk};
ghost use Rattle.std.specs.List.{list_any};

use std::alloc::{AllocError, Global};
use std::marker::Model;

/// Code points in rising order, so that one is found by halving. Contracts see it as their list.
#[derive(Drop)]
pub(crate) struct OverCodes {
    codes: Vec<u32>,
}

impl Model for OverCodes {
    ghost use Rattle.std.specs.Prelude.{ℕ, List};
    ghost use Rattle.std.specs.List.Sorted.{IsStrictlyIncreasing};

    ghost Value = { List ℕ };

    ghost view = { λ o. o.codes.items };

    ghost invariant = { λ o. IsStrictlyIncreasing o.codes.items };
}

impl OverCodes {
    /// No code point.
    pub(crate) fn none(alloc: Global) -> OverCodes
        ensures { result ≡ [] }
    {
        OverCodes {
            codes: Vec::new(alloc),
        }
    }

    /// Adds a code point above all of them.
    pub(crate) fn push(&mut self, code: u32) -> Result<(), AllocError>
        requires { All (λ c. c < code) self.old }
        ensures { OnOk result (self.new ≡ self.old ++ code ∷ []) }
    {
        self.codes.push(code)?;
        Ok(())
    }

    /// Whether a code point is one of them.
    pub(crate) fn has(&self, code: u32) -> bool
        ensures { result ≡ list_any (λ c. c == code) self.now }
    {
        self.codes.binary_search(&code).is_ok()
    }
}

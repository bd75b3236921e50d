//! Character codes in the bytes of a subtable.

ghost use Rattle.std.specs.Prelude.{◌≡◌, ℕ, ◌+◌, ◌*◌, ◌<◌, ◌≤◌, length, get_or};
ghost use Rattle.fx_cmap.specs.Subtables.{falls};
ghost use Rattle.fx_cmap.specs.inner.Codes.{codes_at};

use fx_sfnt::{u16_in, u32_in};
use std::marker::Model;

/// Character codes in the bytes of a subtable, all of two bytes or all of four, and each the same number of bytes after the one
/// before it. Contracts see the list of them.
#[derive(Drop)]
pub struct Codes<'a> {
    bytes: &'a [u8],
    // The offset of the first code.
    first: usize,
    // The number of bytes from the begin of a code to that of the next.
    stride: usize,
    // Whether a code has four bytes, and not two.
    is_wide: bool,
    // The number of codes.
    count: u32,
}

impl<'a> Model for Codes<'a> {
    ghost use Rattle.std.specs.Prelude.{List, ℕ, ◌+◌, ◌*◌, ◌<◌, ◌≤◌, length};
    ghost use Rattle.fx_cmap.specs.inner.Codes.{width, codes_at};

    ghost Value = { List ℕ };

    ghost view = { λ c. codes_at (width c.is_wide) c.bytes.now c.first c.stride c.count };

    ghost invariant = { λ c. (k : ℕ) → k < c.count → c.first + c.stride * k + width c.is_wide ≤ length c.bytes.now };
}

impl<'a> Codes<'a> {
    /// Codes of two bytes.
    pub fn short(bytes: &'a [u8], first: usize, stride: usize, count: u32) -> Codes<'a>
        requires { (k : ℕ) → k < count → first + stride * k + 2 ≤ length bytes.now }
        ensures { result ≡ codes_at 2 bytes.now first stride count }
    {
        Codes {
            bytes,
            first,
            stride,
            is_wide: false,
            count,
        }
    }

    /// Codes of four bytes.
    pub fn wide(bytes: &'a [u8], first: usize, stride: usize, count: u32) -> Codes<'a>
        requires { (k : ℕ) → k < count → first + stride * k + 4 ≤ length bytes.now }
        ensures { result ≡ codes_at 4 bytes.now first stride count }
    {
        Codes {
            bytes,
            first,
            stride,
            is_wide: true,
            count,
        }
    }

    /// The number of codes.
    #[tactic(auto, using(crate::proofs::Searching::count_of_codes))]
    pub fn len(&self) -> u32
        ensures { result ≡ length self.now }
    {
        self.count
    }

    /// The code with a number.
    #[tactic(auto, using(crate::proofs::Searching::count_of_codes, crate::proofs::Searching::code_at))]
    #[inline]
    pub fn at(&self, k: u32) -> u32
        requires { k < length self.now }
        ensures { result ≡ get_or self.now k 0 }
    {
        let at = self.first + self.stride * k as usize;
        if self.is_wide {
            u32_in(self.bytes, at)
        } else {
            u32::from(u16_in(self.bytes, at))
        }
    }

    /// Whether some code is below the one before it. It looks at all of them, since the compiler then takes several at once.
    pub fn fall(&self) -> bool
        ensures { result ≡ falls 0 self.now }
    {
        let mut falls = false;
        let mut before = 0;
        // `falls` says whether one of the codes before number k is below the one before it; `before` is the last of them.
        'codes: for k in 0..self.len() {
            let code = self.at(k);
            falls |= code < before;
            before = code;
        }
        falls
    }
}

//! Short texts that are made from their last byte to their first.

ghost use Rattle.std.specs.Prelude.{◌≡◌, ◌≤◌, ◌+◌, ◌++◌, [], length, drop};
ghost use Rattle.std.specs.Fmt.{decimal, signed_decimal};
ghost use Rattle.fx_fixed.specs.Lines.{hexadecimal};
ghost use Rattle.fx_fixed.specs.declared.backward.TheConstants.{CAPACITY};

use crate::digits::{put_decimal, put_hexadecimal, put_signed};
use crate::slices::put_over;
use std::marker::Model;

/// How many bytes such a text can have.
pub const CAPACITY: usize = 256;

/// A short text that is made from its last byte to its first, seen as its bytes. A number's digits are made in that order, so each
/// part is written once, in its place.
#[derive(Drop)]
pub struct Backward {
    buffer: [u8; CAPACITY],
    at: usize,
}

impl Model for Backward {
    ghost use Rattle.std.specs.Prelude.{List, ℕ, drop, ◌≤◌};
    ghost use Rattle.fx_fixed.specs.declared.backward.TheConstants.{CAPACITY};

    ghost Value = { List ℕ };

    ghost view = { λ b. drop b.at b.buffer };

    ghost invariant = { λ b. b.at ≤ CAPACITY };
}

impl Backward {
    /// An empty text.
    pub fn new() -> Backward
        ensures { result ≡ [] }
    {
        Backward {
            buffer: [0; CAPACITY],
            at: CAPACITY,
        }
    }

    /// Puts a piece before what there is.
    #[inline]
    pub fn put(&mut self, piece: &[u8])
        requires { length self.old + length piece.now ≤ CAPACITY }
        ensures text { self.new ≡ piece.now ++ self.old }
        ensures long { length self.new ≡ length self.old + length piece.now }
    {
        self.at -= piece.len();
        put_over(&mut self.buffer, self.at, piece);
    }

    /// Puts a number in decimal, and a piece after it, before what there is.
    #[inline]
    pub fn put_unsigned(&mut self, number: u64, after: &[u8])
        requires { length self.old + length after.now + 20 ≤ CAPACITY }
        ensures text { self.new ≡ decimal number ++ (after.now ++ self.old) }
        ensures long { length self.new ≤ length self.old + length after.now + 20 }
    {
        self.put(after);
        self.at = put_decimal(number, &mut self.buffer, self.at);
    }

    /// Puts a signed number in decimal, and a piece after it, before what there is.
    #[inline]
    pub fn put_signed(&mut self, number: i32, after: &[u8])
        requires { length self.old + length after.now + 20 ≤ CAPACITY }
        ensures text { self.new ≡ signed_decimal number ++ (after.now ++ self.old) }
        ensures long { length self.new ≤ length self.old + length after.now + 20 }
    {
        self.put(after);
        self.at = put_signed(number, &mut self.buffer, self.at);
    }

    /// Puts a number in at least `least` upper case hexadecimal digits, and a piece after it, before what there is.
    #[inline]
    pub fn put_hexadecimal(&mut self, number: u64, least: usize, after: &[u8])
        requires least { least ≤ 20 }
        requires room { length self.old + length after.now + 20 ≤ CAPACITY }
        ensures text { self.new ≡ hexadecimal least number ++ (after.now ++ self.old) }
        ensures long { length self.new ≤ length self.old + length after.now + 20 }
    {
        self.put(after);
        self.at = put_hexadecimal(number, least, &mut self.buffer, self.at);
    }

    /// The text.
    pub fn text(&self) -> &[u8]
        ensures value { result.now ≡ self.now }
        ensures short { length result.now ≤ CAPACITY }
    {
        &self.buffer[self.at..]
    }
}

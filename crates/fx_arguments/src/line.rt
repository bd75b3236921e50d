//! A line for people, made in a fixed buffer: so `OutOfMemory` can have its line, and one call writes each.
ghost use Rattle.std.specs.Prelude.{◌≡◌, ◌∷◌, [], ◌++◌, ◌+◌, ◌<◌, ◌≤◌, codes, length};
ghost use Rattle.std.specs.Fmt.{decimal};
ghost use Rattle.fx_arguments.specs.Lines.{spaced};

use fx_fixed::Digits;
use std::marker::Model;

/// The most bytes of a line.
pub const CAPACITY: usize = 256;

/// A line so far, seen as its bytes.
#[derive(Drop)]
pub struct MessageLine {
    bytes: [u8; CAPACITY],
    used: usize,
}

impl Model for MessageLine {
    ghost use Rattle.std.specs.Prelude.{ℕ, List, ◌≤◌, take};
    ghost use Rattle.fx_arguments.specs.declared.line.TheConstants.{CAPACITY};

    ghost Value = { List ℕ };

    ghost view = { λ l. take l.used l.bytes };

    ghost invariant = { λ l. l.used ≤ CAPACITY };
}

impl MessageLine {
    /// The program's name.
    pub fn new() -> MessageLine
        ensures { result ≡ codes "mkstrike:" }
    {
        let mut line = MessageLine {
            bytes: [0; CAPACITY],
            used: 0,
        };
        line.put(b"mkstrike:");
        line
    }

    /// Adds a word after a space.
    pub fn word(&mut self, word: &[u8])
        requires { length self.old + length word.now < CAPACITY }
        ensures text { self.new ≡ self.old ++ spaced (word.now ∷ []) }
        ensures long { length self.new ≡ length self.old + 1 + length word.now }
    {
        self.put(b" ");
        self.put(word);
    }

    /// Adds a number in decimal after a space.
    pub fn number(&mut self, number: u64)
        requires { length self.old + 20 < CAPACITY }
        ensures text { self.new ≡ self.old ++ spaced (decimal number ∷ []) }
        ensures short { length self.new ≤ length self.old + 21 }
    {
        self.word(Digits::unsigned(number).text());
    }

    /// Adds bytes.
    pub fn put(&mut self, bytes: &[u8])
        requires { length self.old + length bytes.now ≤ CAPACITY }
        ensures { self.new ≡ self.old ++ bytes.now }
    {
        let end = self.used + bytes.len();
        let over = &mut self.bytes[self.used..end];
        over.copy_from_slice(bytes);
        self.used = end;
    }

    /// The bytes.
    pub fn text(&self) -> &[u8]
        ensures { result.now ≡ self.now }
    {
        &self.bytes[..self.used]
    }
}

//! Texts of one line.
ghost use Rattle.std.specs.Prelude.{◌≡◌, ◌==◌, ◌<◌, ◌∷◌, ◌++◌, [], Some, None, IfSome, length, map, option_map, if◌then◌else◌};
ghost use Rattle.std.specs.Char.{to_ascii_lowercase};
ghost use Rattle.std.specs.Fmt.{decimal};
ghost use Rattle.fx_fixed.specs.Lines.{hexadecimal};
ghost use Rattle.fx_front.specs.Lines.{IsLine, Says, shown, shown_pieces, shown_text, shown_with};

use fx_fixed::Digits;
use std::alloc::Global;
use std::marker::Model;

/// A text of one line, which shows control characters as `?`. Once memory runs out it takes nothing more, and contracts see `None`
/// in place of its bytes.
#[derive(Drop)]
pub struct Text {
    bytes: Vec<u8>,
    is_whole: bool,
}

impl Model for Text {
    ghost use Rattle.std.specs.Prelude.{ℕ, List, Option, Some, None, if◌then◌else◌};
    ghost use Rattle.fx_front.specs.Lines.{IsLine};

    ghost Value = { Option (List ℕ) };

    ghost view = { λ t. if t.is_whole then Some t.bytes.items else None };

    ghost invariant = { λ t. IsLine t.bytes.items };
}

impl Text {
    /// A text without bytes.
    pub fn new(alloc: Global) -> Text
        ensures { result ≡ Some [] }
    {
        Text {
            bytes: Vec::new(alloc),
            is_whole: true,
        }
    }

    /// The text of pieces.
    pub fn of(alloc: Global, pieces: &[&str]) -> Text
        ensures { Says (Some []) result (shown_pieces pieces.now) }
    {
        let mut text = Text::new(alloc);
        text.add_all(pieces);
        text
    }

    /// Adds pieces.
    pub fn add_all(&mut self, pieces: &[&str])
        ensures { Says self.old self.new (shown_pieces pieces.now) }
    {
        // The pieces so far were added.
        'pieces: for piece in pieces {
            self.add_text(piece);
        }
    }

    /// Adds a text.
    pub fn add_text(&mut self, text: &str)
        ensures { Says self.old self.new (shown_text text.now) }
    {
        self.add(text.as_bytes());
    }

    /// Adds a text if it is due.
    pub(crate) fn add_if(&mut self, is_due: bool, text: &str)
        ensures { Says self.old self.new (if is_due then shown_text text.now else []) }
    {
        if is_due {
            self.add_text(text);
        }
    }

    /// Adds a pattern with a text in place of its first `%`.
    pub(crate) fn add_with(&mut self, pattern: &str, text: &str)
        ensures { Says self.old self.new (shown_with pattern.now text.now) }
    {
        let (before, after) = pattern.split_once('%').unwrap_or((pattern, ""));
        self.add_all(&[before, text, after]);
    }

    /// Adds bytes.
    pub fn add(&mut self, bytes: &[u8])
        ensures { Says self.old self.new (shown_text bytes.now) }
    {
        // The bytes so far were added.
        'bytes: for byte in bytes {
            self.put(*byte);
        }
    }

    /// Adds a byte.
    fn put(&mut self, byte: u8)
        ensures { Says self.old self.new (shown byte ∷ []) }
    {
        if self.is_whole {
            self.is_whole = self.bytes.push(shown(byte)).is_ok();
        }
    }

    /// Adds a number in decimal.
    pub fn add_number(&mut self, number: u64)
        ensures { Says self.old self.new (shown_text (decimal number)) }
    {
        self.add(Digits::unsigned(number).text());
    }

    /// Adds a number in hexadecimal digits of lower case.
    pub fn add_code(&mut self, code: u32)
        ensures { Says self.old self.new (shown_text (map to_ascii_lowercase (hexadecimal 1 code))) }
    {
        // The digits so far were added.
        'digits: for digit in Digits::hexadecimal(u64::from(code), 1).text() {
            self.put(digit.to_ascii_lowercase());
        }
    }

    /// Stops, since memory ran out for the next piece.
    pub fn stop(&mut self)
        ensures { self.new ≡ None }
    {
        self.is_whole = false;
    }

    /// The bytes; `None` once memory ran out.
    pub fn bytes(&self) -> Option<&[u8]>
        ensures text { option_map (λ bytes. bytes.now) result ≡ self.now }
        ensures line { IfSome result (λ bytes. IsLine bytes.now) }
    {
        if self.is_whole {
            Some(&self.bytes)
        } else {
            None
        }
    }
}

/// The byte that shows a byte.
pub fn shown(byte: u8) -> u8
    ensures value { result ≡ shown byte }
    ensures above { 31 < result }
{
    if byte < 32 || byte == 127 { b'?' } else { byte }
}

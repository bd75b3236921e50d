//! A name of a font.

ghost use Rattle.std.specs.Prelude.{◌≡◌, ◌≤◌, ◌++◌, length, drop};
ghost use Rattle.fx_names.specs.Names.{name_of, text_of};

use crate::kinds::RecordKind;
use crate::records::name_in;
use crate::utf16::{put_utf8, utf8_len};
use fx_fixed::put_over;
use fx_sfnt::Font;
use std::marker::Model;

/// A name of a font: a view over its string in the table, which contracts see as its text in UTF-8.
#[derive(Drop)]
pub struct Name<'a> {
    kind: RecordKind,
    string: &'a [u8],
}

impl<'a> Model for Name<'a> {
    ghost use Rattle.std.specs.Prelude.{ℕ, List};
    ghost use Rattle.fx_names.specs.Names.{text_of};

    ghost Value = { List ℕ };

    ghost view = { λ n. text_of n.kind n.string.now };
}

impl<'a> Name<'a> {
    /// The name of a number, as 1 for the family and 2 for the style (OpenType, "name", "Name IDs"); `None` if the font has none
    /// that can be read.
    ///
    /// A record counts if its string lies in the table, is not empty, and is whole code units of UTF-16BE, or ASCII if it is of the
    /// Macintosh. The first record wins of Windows in English of the United States; else of Unicode; else of Windows; else of the
    /// Macintosh.
    pub fn of(font: &Font<'a>, id: u32) -> Option<Name<'a>>
        ensures { result ≡ name_of font.now id }
    {
        name_in(font.table(*b"name").unwrap_or(&[]), id)
    }

    /// The name of a string of a kind.
    pub(crate) fn new(kind: RecordKind, string: &'a [u8]) -> Name<'a>
        ensures { result ≡ text_of kind string.entry.now }
    {
        Name { kind, string }
    }

    /// How many bytes its text has in UTF-8.
    pub fn len(&self) -> usize
        ensures { result ≡ length self.now }
    {
        match self.kind {
            RecordKind::Macintosh => self.string.len(),
            RecordKind::English | RecordKind::Unicode | RecordKind::Windows => utf8_len(
                self.string,
            ),
        }
    }

    /// Puts its text in UTF-8 at the front of a buffer that has room for it; what lies after it stays.
    pub fn put(&self, text: &mut [u8])
        requires { length self.now ≤ length text.old }
        ensures { text.new ≡ self.now ++ drop (length self.now) text.old }
    {
        match self.kind {
            RecordKind::Macintosh => put_over(text, 0, self.string),
            RecordKind::English | RecordKind::Unicode | RecordKind::Windows => put_utf8(
                self.string,
                text,
            ),
        }
    }
}

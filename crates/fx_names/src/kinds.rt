//! The kinds of name records that are read.

ghost use Rattle.std.specs.Prelude.{◌≡◌, ◌≤◌, length};
ghost use Rattle.std.specs.Char.{is_ascii};
ghost use Rattle.std.specs.List.{list_all};
ghost use Rattle.fx_names.specs.Names.{is_of_kind, is_text};

use fx_sfnt::u16_in;

/// A kind of name records (OpenType, "name", "Platform IDs").
#[derive(Clone, Copy, Debug, PartialEq, Eq)]
pub enum RecordKind {
    /// Of Windows, in English of the United States.
    English,
    /// Of Unicode.
    Unicode,
    /// Of Windows, in any language.
    Windows,
    /// Of the Macintosh, in Roman.
    Macintosh,
}

/// The kinds, in order of preference.
pub const KINDS: [RecordKind; 4] = [
    RecordKind::English,
    RecordKind::Unicode,
    RecordKind::Windows,
    RecordKind::Macintosh,
];

/// Whether a record is of a kind.
pub fn is_of_kind(kind: RecordKind, entry: &[u8]) -> bool
    requires { 12 ≤ length entry.now }
    ensures { result ≡ is_of_kind kind entry.now }
{
    let platform = u16_in(entry, 0);
    match kind {
        RecordKind::English => platform == 3 && u16_in(entry, 4) == 0x409,
        RecordKind::Unicode => platform == 0,
        RecordKind::Windows => platform == 3,
        RecordKind::Macintosh => platform == 1 && u16_in(entry, 2) == 0,
    }
}

/// Whether all bytes are ASCII.
fn all_ascii(string: &[u8]) -> bool
    ensures { result ≡ list_all is_ascii string.now }
{
    string.iter().all(|byte| *byte < 128)
}

/// Whether a string of a kind can be read.
pub fn is_text(kind: RecordKind, string: &[u8]) -> bool
    ensures { result ≡ is_text kind string.now }
{
    match kind {
        RecordKind::Macintosh => all_ascii(string),
        RecordKind::English | RecordKind::Unicode | RecordKind::Windows => string.len() % 2 == 0,
    }
}

//! The records of `name`.

ghost use Rattle.std.specs.Prelude.{◌≡◌, ◌+◌, ◌*◌, ◌≤◌, length, option_map};
ghost use Rattle.fx_sfnt.specs.Fields.{field};
ghost use Rattle.fx_names.specs.Names.{is_inside, is_name, name_by, name_by_first, name_in, start_of, string_of};

use crate::kinds::{KINDS, RecordKind, is_of_kind, is_text};
use crate::name::Name;
use fx_fixed::{after, part};
use fx_sfnt::u16_in;

/// Where the string of a record begins in the table.
fn start_of(table: &[u8], entry: &[u8]) -> usize
    requires table { 6 ≤ length table.now }
    requires entry { 12 ≤ length entry.now }
    ensures value { result ≡ start_of table.now entry.now }
    ensures small { result ≤ 131070 }
{
    usize::from(u16_in(table, 4)) + usize::from(u16_in(entry, 10))
}

/// Whether the string of a record lies in the table, and is not empty.
fn is_inside(table: &[u8], entry: &[u8]) -> bool
    requires table { 6 ≤ length table.now }
    requires entry { 12 ≤ length entry.now }
    ensures { result ≡ is_inside table.now entry.now }
{
    let length = usize::from(u16_in(entry, 8));
    0 < length && start_of(table, entry) + length <= table.len()
}

/// The string of a record.
fn string_of<'a>(table: &'a [u8], entry: &[u8]) -> &'a [u8]
    requires table { 6 ≤ length table.now }
    requires entry { 12 ≤ length entry.now }
    ensures { result.now ≡ string_of table.now entry.now }
{
    part(table, start_of(table, entry), usize::from(u16_in(entry, 8)))
}

/// Whether a record is one of a kind, for a name's number, whose string can be read.
fn is_name(kind: RecordKind, id: u32, table: &[u8], entry: &[u8]) -> bool
    requires table { 6 ≤ length table.now }
    requires entry { 12 ≤ length entry.now }
    ensures { result ≡ is_name kind id table.now entry.now }
{
    (u32::from(u16_in(entry, 6)) == id && is_of_kind(kind, entry))
        && (is_inside(table, entry) && is_text(kind, string_of(table, entry)))
}

/// The first record of a kind that has the name of a number.
fn name_by(table: &[u8], id: u32, kind: RecordKind) -> Option<Name<'_>>
    requires header { 6 ≤ length table.now }
    requires inside { 6 + 12 * field 2 table.now 2 ≤ length table.now }
    ensures { result ≡ name_by table.now id kind }
{
    let count = u16_in(table, 2);
    let mut rest = after(table, 6);
    // The first such record among the records that are left is that among all.
    'records: for k in 0..count {
        if is_name(kind, id, table, rest) {
            return Some(Name::new(kind, string_of(table, rest)));
        }
        rest = after(rest, 12);
    }
    None
}

/// The record of the first kind that has one.
fn name_by_first<'a>(table: &'a [u8], id: u32, kinds: &[RecordKind]) -> Option<Name<'a>>
    requires header { 6 ≤ length table.now }
    requires inside { 6 + 12 * field 2 table.now 2 ≤ length table.now }
    ensures { result ≡ name_by_first table.now id kinds.now }
{
    // The first kind with a record among those that are left is that among all.
    'kinds: for kind in kinds {
        if let Some(name) = name_by(table, id, *kind) {
            return Some(name);
        }
    }
    None
}

/// The name of a number; none if the table ends before its records do.
#[tactic(auto, unfolding(crate::specs::Names::name_in))]
pub fn name_in(table: &[u8], id: u32) -> Option<Name<'_>>
    ensures { result ≡ name_in table.now id }
{
    if table.len() < 6 || table.len() < 6 + 12 * usize::from(u16_in(table, 2)) {
        return None;
    }
    name_by_first(table, id, &KINDS)
}

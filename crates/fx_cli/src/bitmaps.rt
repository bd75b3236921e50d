//! The bitmaps that a font has of its own.
ghost use Rattle.std.specs.Prelude.{◌≡◌};
ghost use Rattle.fx_cli.specs.Bitmaps.{has_bitmaps, has_record, has_size};

use fx_sfnt::{Font, u32_at};

/// Whether a font has bitmaps of its own at a size.
pub(crate) fn has_bitmaps(font: &Font<'_>, ppem: u16) -> bool
    ensures { result ≡ has_bitmaps font.now ppem }
{
    match font.table(*b"EBLC").or(font.table(*b"bloc")) {
        Some(table) => has_size(table, ppem),
        None => false,
    }
}

/// Whether a table of bitmaps by size has a record of a size.
fn has_size(table: &[u8], ppem: u16) -> bool
    ensures { result ≡ has_size table.now ppem }
{
    let count = u32_at(table, 4).unwrap_or(0);
    has_record(count, table.get(8..).unwrap_or(&[]), ppem)
}

/// Whether one of the first records, as many as counted, is of a size. A record has 48 bytes, and its size in the 45th.
fn has_record(count: u32, records: &[u8], ppem: u16) -> bool
    ensures { result ≡ has_record count records.now ppem }
{
    let mut rest = records;
    // No record before the rest is of this size.
    'records: for i in 0..count {
        let (Some(size), Some(after)) = (rest.get(44), rest.get(48..)) else {
            return false;
        };
        if u16::from(*size) == ppem {
            return true;
        }
        rest = after;
    }
    false
}

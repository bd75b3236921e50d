//! Fonts with tables added: the programs of a font and its control values.
use crate::fonts::{bytes, patch};
use fx_sfnt::u32_at;
use std::alloc::Global;
use std::test::Fail;

/// The tables that are added to a font of seven tables, as hexadecimal text.
#[derive(Clone, Copy, Drop)]
pub struct Tables {
    pub fpgm: &'static str,
    pub prep: &'static str,
    pub cvt: &'static str,
}

pub const NO_TABLES: Tables = Tables {
    fpgm: "",
    prep: "",
    cvt: "",
};

/// A number in four bytes, the highest first.
fn put(bytes: &mut Vec<u8>, number: usize) -> Result<(), Fail> {
    bytes.extend_from_slice(&u32::try_from(number)?.to_be_bytes())?;
    Ok(())
}

/// The directory of a font, of seven records, as it is when three more are added at its end.
fn directory(alloc: Global, font: &[u8]) -> Result<Vec<u8>, Fail> {
    let mut directory = Vec::from_slice(alloc, font.get(..124).ok_or("no directory")?)?;
    patch(&mut directory, 5, &[10])?;
    for k in 0..7 {
        let at = 20 + 16 * k;
        let offset = u32_at(font, at).ok_or("no record")?;
        patch(&mut directory, at, &offset.saturating_add(48).to_be_bytes())?;
    }
    Ok(directory)
}

/// Adds a table's record to the directory in `font`, and the table itself to `rest`, which comes after it.
fn add_table(
    alloc: Global,
    tag: &str,
    text: &str,
    font: &mut Vec<u8>,
    rest: &mut Vec<u8>,
) -> Result<(), Fail> {
    let table = bytes(alloc, text)?;
    font.extend_from_slice(tag.as_bytes())?;
    put(font, 0)?;
    put(font, rest.len().saturating_add(124 + 48))?;
    put(font, table.len())?;
    rest.extend_from_slice(table.as_slice())?;
    Ok(())
}

/// A font with further tables: their records come after the others, they themselves at the end.
pub fn with_tables(alloc: Global, base: &[u8], tables: &Tables) -> Result<Vec<u8>, Fail> {
    let mut font = directory(alloc, base)?;
    let mut rest = Vec::from_slice(alloc, base.get(124..).ok_or("no tables")?)?;
    add_table(alloc, "fpgm", tables.fpgm, &mut font, &mut rest)?;
    add_table(alloc, "prep", tables.prep, &mut font, &mut rest)?;
    add_table(alloc, "cvt ", tables.cvt, &mut font, &mut rest)?;
    font.extend_from_slice(rest.as_slice())?;
    Ok(font)
}

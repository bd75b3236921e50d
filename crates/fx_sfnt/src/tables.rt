//! The fields of `head`, `maxp` and `hhea`.

ghost use Rattle.std.specs.Prelude.{◌≡◌};
ghost use Rattle.fx_sfnt.specs.Tables.{fields_of, loc_format_of, head_of, maxp_of, hhea_of};

use crate::fault::FontFault;
use crate::fields::{i16_in, u16_in, u32_in};
use crate::records::{Head, Hhea, LocFormat, Maxp};
use crate::units::UnitsPerEm;

/// The format of `loca`, by its number.
fn loc_format(number: u16) -> Option<LocFormat>
    ensures { result ≡ loc_format_of number }
{
    match number {
        0 => Some(LocFormat::Short),
        1 => Some(LocFormat::Long),
        _ => None,
    }
}

/// Reads `head`.
#[tactic(auto, unfolding(crate::specs::Tables::head_of))]
fn read_head(table: &[u8]) -> Result<Head, FontFault>
    ensures { result ≡ head_of table.now }
{
    if table.len() < 54 {
        return Err(FontFault::TableShort(*b"head"));
    }
    if u32_in(table, 12) != 0x5F0F_3CF5 {
        return Err(FontFault::BadHead);
    }
    let units_per_em = UnitsPerEm::new(u16_in(table, 18)).ok_or(FontFault::BadHead)?;
    let index_to_loc_format = loc_format(u16_in(table, 50)).ok_or(FontFault::BadHead)?;
    Ok(Head {
        units_per_em,
        index_to_loc_format,
    })
}

/// Reads `maxp`.
#[tactic(auto, unfolding(crate::specs::Tables::maxp_of))]
fn read_maxp(table: &[u8]) -> Result<Maxp, FontFault>
    ensures { result ≡ maxp_of table.now }
{
    if table.len() < 32 {
        return Err(FontFault::TableShort(*b"maxp"));
    }
    let num_glyphs = u16_in(table, 4);
    if u32_in(table, 0) != 0x0001_0000 || num_glyphs == 0 {
        return Err(FontFault::BadMaxp);
    }
    Ok(Maxp {
        num_glyphs,
        max_twilight_points: u16_in(table, 16),
        max_storage: u16_in(table, 18),
        max_function_defs: u16_in(table, 20),
        max_stack_elements: u16_in(table, 24),
    })
}

/// Reads `hhea`.
#[tactic(auto, unfolding(crate::specs::Tables::hhea_of))]
fn read_hhea(table: &[u8]) -> Result<Hhea, FontFault>
    ensures { result ≡ hhea_of table.now }
{
    if table.len() < 36 {
        return Err(FontFault::TableShort(*b"hhea"));
    }
    Ok(Hhea {
        ascender: i16_in(table, 4),
        descender: i16_in(table, 6),
        number_of_h_metrics: u16_in(table, 34),
    })
}

/// Reads the fields of these tables. `hmtx` has the pairs that `hhea` counts.
#[tactic(auto, unfolding(crate::specs::Tables::fields_of))]
pub fn read_fields(
    head: &[u8],
    maxp: &[u8],
    hhea: &[u8],
    hmtx: &[u8],
) -> Result<(Head, Maxp, Hhea), FontFault>
    ensures { result ≡ fields_of head.now maxp.now hhea.now hmtx.now }
{
    let head = read_head(head)?;
    let maxp = read_maxp(maxp)?;
    let hhea = read_hhea(hhea)?;
    if hhea.number_of_h_metrics == 0 || hmtx.len() < 4 * hhea.number_of_h_metrics as usize {
        return Err(FontFault::TableShort(*b"hmtx"));
    }
    Ok((head, maxp, hhea))
}

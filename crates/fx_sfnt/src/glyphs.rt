//! A glyph's metrics in `hmtx`, and its part of `glyf`.

ghost use Rattle.std.specs.Prelude.{◌≡◌, ◌*◌, ◌^◌, ◌<◌, ◌≤◌, length};
ghost use Rattle.fx_fixed.specs.Chain.{map_ok};
ghost use Rattle.fx_sfnt.specs.Glyphs.{advance_width_of, lsb_of, loca_offset_of, glyph_data_of};

use crate::fault::FontFault;
use crate::fields::{i16_at, u16_at, u16_in, u32_at};
use crate::records::LocFormat;
use fx_fixed::part;

/// The advance of a glyph, by the number of pairs in `hmtx`.
pub fn advance_width(hmtx: &[u8], pairs: u16, glyph: u16) -> u16
    requires some { 0 < pairs }
    requires inside { 4 * pairs ≤ length hmtx.now }
    ensures { result ≡ advance_width_of hmtx.now pairs glyph }
{
    u16_in(hmtx, 4 * glyph.min(pairs - 1) as usize)
}

/// The left side bearing of a glyph, by the number of pairs in `hmtx`.
pub fn lsb(hmtx: &[u8], pairs: u16, glyph: u16) -> i16
    ensures { result ≡ lsb_of hmtx.now pairs glyph }
{
    let at = if glyph < pairs {
        4 * glyph as usize + 2
    } else {
        4 * pairs as usize + 2 * (glyph - pairs) as usize
    };
    i16_at(hmtx, at).unwrap_or(0)
}

/// One of the offsets in `loca`.
fn loca_offset(format: LocFormat, loca: &[u8], number: usize) -> Option<usize>
    requires { number < 2 ^ 32 }
    ensures { result ≡ loca_offset_of format loca.now number }
{
    match format {
        LocFormat::Short => {
            let half = u16_at(loca, 2 * number)?;
            Some(2 * half as usize)
        }
        LocFormat::Long => {
            let offset = u32_at(loca, 4 * number)?;
            Some(offset as usize)
        }
    }
}

/// A glyph's part of `glyf`.
#[tactic(auto, unfolding(crate::specs::Glyphs::glyph_data_of))]
pub fn glyph_data<'a>(
    format: LocFormat,
    loca: &[u8],
    glyf: &'a [u8],
    glyph: u16,
) -> Result<&'a [u8], FontFault>
    ensures { map_ok (λ b. b.now) result ≡ glyph_data_of format loca.now glyf.now glyph }
{
    let start = loca_offset(format, loca, glyph as usize).ok_or(FontFault::BadLoca(glyph))?;
    let end = loca_offset(format, loca, glyph as usize + 1).ok_or(FontFault::BadLoca(glyph))?;
    if end < start {
        return Err(FontFault::BadLoca(glyph));
    }
    if start > glyf.len() && start != end {
        return Err(FontFault::BadLoca(glyph));
    }
    Ok(part(glyf, start, end - start))
}

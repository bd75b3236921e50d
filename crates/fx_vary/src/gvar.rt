//! The table `gvar` (OpenType, "gvar", "gvar header").

ghost use Rattle.std.specs.Prelude.{◌≡◌, ◌+◌, ◌*◌, ◌≤◌, ◌<◌, ◌^◌, IsTrue, true, nat_le, length};
ghost use Rattle.fx_sfnt.specs.Fields.{field};
ghost use Rattle.fx_axes.specs.Sweeps.{all_from};
ghost use Rattle.fx_vary.specs.Gvar.{is_long, data_offset, data_start, shared_tuples_of, glyph_data_of, holds_offsets, is_gvar};
ghost use Rattle.fx_vary.specs.Gvar.{is_header};
ghost use Rattle.fx_vary.specs.Gvar.{offset_size, rises};

use fx_fixed::part;
use fx_sfnt::{u16_in, u32_in};

/// Whether offsets take four bytes each, else two.
fn is_long(gvar: &[u8]) -> bool
    requires { 20 ≤ length gvar.now }
    ensures { result ≡ is_long gvar.now }
{
    u16_in(gvar, 14) & 1 != 0
}

/// Where the data of a glyph begin in the table's part for data.
#[tactic(auto, unfolding(crate::specs::Gvar::data_offset))]
fn data_offset(gvar: &[u8], g: usize) -> usize
    requires header { 20 ≤ length gvar.now }
    requires small { g < 2 ^ 17 }
    requires inside { 20 + offset_size gvar.now * (g + 1) ≤ length gvar.now }
    ensures value { result ≡ data_offset gvar.now g }
    ensures small { result < 2 ^ 32 }
{
    if is_long(gvar) {
        u32_in(gvar, 20 + 4 * g) as usize
    } else {
        2 * usize::from(u16_in(gvar, 20 + 2 * g))
    }
}

/// Whether an offset for each glyph, and one more, lie in the table.
fn holds_offsets(glyphs: u16, gvar: &[u8]) -> bool
    requires { 20 ≤ length gvar.now }
    ensures { result ≡ holds_offsets glyphs gvar.now }
{
    let size = if is_long(gvar) { 4 } else { 2 };
    20 + size * (usize::from(glyphs) + 1) <= gvar.len()
}

/// Whether the data of a glyph do not end before they begin.
fn rises(gvar: &[u8], g: usize) -> bool
    requires header { 20 ≤ length gvar.now }
    requires small { g < 2 ^ 16 }
    requires inside { 20 + offset_size gvar.now * (g + 2) ≤ length gvar.now }
    ensures { result ≡ rises gvar.now g }
{
    data_offset(gvar, g) <= data_offset(gvar, g + 1)
}

/// Whether the data of no glyph end before they begin.
fn all_rise(glyphs: u16, gvar: &[u8]) -> bool
    requires header { 20 ≤ length gvar.now }
    requires offsets { holds_offsets glyphs gvar.now ≡ true }
    ensures { result ≡ all_from (rises gvar.now) 0 glyphs }
{
    // The data of all glyphs before g rise.
    'glyphs: for g in 0..glyphs {
        if !rises(gvar, usize::from(g)) {
            return false;
        }
    }
    true
}

/// Whether the header is of version 1.0, and has these numbers of axes and glyphs.
#[tactic(auto, unfolding(crate::specs::Gvar::is_header))]
fn is_header(axes: u16, glyphs: u16, gvar: &[u8]) -> bool
    requires { 20 ≤ length gvar.now }
    ensures { result ≡ is_header axes glyphs gvar.now }
{
    u32_in(gvar, 0) == 0x0001_0000 && u16_in(gvar, 4) == axes && u16_in(gvar, 12) == glyphs
}

/// How many bytes the shared tuples take.
fn shared_size(axes: u16, gvar: &[u8]) -> usize
    requires { 20 ≤ length gvar.now }
    ensures value { result ≡ 2 * axes * field 2 gvar.now 6 }
    ensures small { result < 2 ^ 33 }
{
    2 * usize::from(axes) * usize::from(u16_in(gvar, 6))
}

/// Whether the data of all glyphs end within the table.
#[tactic(auto, using(crate::proofs::Offsets::last_inside))]
fn ends_inside(glyphs: u16, gvar: &[u8]) -> bool
    requires header { 20 ≤ length gvar.now }
    requires offsets { holds_offsets glyphs gvar.now ≡ true }
    ensures { result ≡ nat_le (data_start gvar.now glyphs) (length gvar.now) }
{
    u32_in(gvar, 16) as usize + data_offset(gvar, usize::from(glyphs)) <= gvar.len()
}

/// Whether a table has version 1.0, these numbers of axes and glyphs, and all of what it points to.
#[tactic(auto, unfolding(crate::specs::Gvar::is_gvar))]
pub fn is_gvar(axes: u16, glyphs: u16, gvar: &[u8]) -> bool
    ensures value { result ≡ is_gvar axes glyphs gvar.now }
    ensures header { IsTrue result → 20 ≤ length gvar.now }
    ensures offsets { IsTrue result → holds_offsets glyphs gvar.now ≡ true }
{
    if gvar.len() < 20 {
        return false;
    }
    if !is_header(axes, glyphs, gvar) {
        return false;
    }
    if gvar.len() < u32_in(gvar, 8) as usize + shared_size(axes, gvar) {
        return false;
    }
    if !holds_offsets(glyphs, gvar) {
        return false;
    }
    if !all_rise(glyphs, gvar) {
        return false;
    }
    ends_inside(glyphs, gvar)
}

/// The shared tuples.
#[tactic(auto, unfolding(crate::specs::Gvar::shared_tuples_of))]
pub fn shared_tuples(axes: u16, gvar: &[u8]) -> &[u8]
    requires { 20 ≤ length gvar.now }
    ensures { result.now ≡ shared_tuples_of axes gvar.now }
{
    part(gvar, u32_in(gvar, 8) as usize, shared_size(axes, gvar))
}

/// The data of a glyph; none if its offset is the next one's.
#[tactic(auto, unfolding(crate::specs::Gvar::glyph_data_of))]
pub fn glyph_data(gvar: &[u8], g: u16) -> &[u8]
    requires header { 20 ≤ length gvar.now }
    requires inside { 20 + offset_size gvar.now * (g + 2) ≤ length gvar.now }
    ensures { result.now ≡ glyph_data_of gvar.now g }
{
    let g = usize::from(g);
    let start = data_offset(gvar, g);
    let len = data_offset(gvar, g + 1).saturating_sub(start);
    part(gvar, u32_in(gvar, 16) as usize + start, len)
}

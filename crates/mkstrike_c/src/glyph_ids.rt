//! The numbers of characters' glyphs, for C.
ghost use Rattle.std.specs.Prelude.{◌≡◌, ◌<◌, map};
ghost use Rattle.fx_cmap.specs.Lookup.{glyph_for};
ghost use Rattle.fx_sfnt.specs.Collections.{face_in};
ghost use Rattle.fx_views.specs.Numbers.{map_for};
ghost use Rattle.mkstrike_c.specs.Drawn.{HasFront};
ghost use Rattle.mkstrike_c.specs.Fonts.{AreFound};
ghost use Rattle.mkstrike_c.specs.Refused.{IsNamed};

use crate::refused::{Refused, refuse};
use fx_cmap::CharMap;
use fx_sfnt::FontFile;
use fx_views::map_for;

/// Puts the numbers of characters' glyphs at the front of a buffer, as far as there is room.
fn put_ids(char_map: &CharMap<'_>, chars: &[u32], glyphs: &mut [u16])
    ensures { HasFront (map (glyph_for char_map.now) chars.now) glyphs.old glyphs.new }
{
    let n = chars.len().min(glyphs.len());
    // The numbers before i are in their places.
    'chars: for i in 0..n {
        glyphs[i] = char_map.glyph(chars[i]);
    }
}

/// Tells the numbers of the glyphs of characters, in their order, 0 for one that the font does not have: as many of them as fit, at
/// the front of `glyphs`. Returns 0; or the number of a refusal, whose fields it puts into `refused`. It takes no memory.
#[unsafe(no_mangle)]
pub extern "C" fn proved_mkstrike_glyph_ids(
    font: &[u8],
    face: u32,
    chars: &[u32],
    glyphs: &mut [u16],
    refused: &mut Refused,
) -> u32
    // These are the numbers.
    ensures found { result ≡ 0 → AreFound (map_for (face_in font.now face) chars.now) chars.now glyphs.old glyphs.new }
    // The first cause was named.
    ensures refused { 0 < result → IsNamed (map_for (face_in font.now face) chars.now) result refused.new }
    // Nothing but what was named is written.
    ensures kept { 0 < result → glyphs.new ≡ glyphs.old }
    ensures silent { result ≡ 0 → refused.new ≡ refused.old }
{
    match map_for(&FontFile::new(font, face), chars) {
        Ok(char_map) => {
            put_ids(&char_map, chars, glyphs);
            0
        }
        Err(refusal) => refuse(refusal, refused),
    }
}

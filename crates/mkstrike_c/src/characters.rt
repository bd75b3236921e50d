//! All characters of a font, for C.
ghost use Rattle.std.specs.Prelude.{◌≡◌, ◌<◌, ◌+◌, [], length};
ghost use Rattle.fx_cmap.specs.Mapped.{mapped_below};
ghost use Rattle.fx_request.specs.Limits.{max_code};
ghost use Rattle.fx_sfnt.specs.Collections.{face_in};
ghost use Rattle.fx_views.specs.Numbers.{map_for};
ghost use Rattle.mkstrike_c.specs.Drawn.{HasFront};
ghost use Rattle.mkstrike_c.specs.Fonts.{AreCharacters};
ghost use Rattle.mkstrike_c.specs.Refused.{IsNamed};

use crate::refused::{Refused, refuse};
use fx_cmap::CharMap;
use fx_request::MAX_CODE;
use fx_sfnt::FontFile;
use fx_views::map_for;

/// Puts the characters of a map at the front of a buffer, as far as there is room. Returns how many there are.
fn put_characters(char_map: &CharMap<'_>, chars: &mut [u32]) -> usize
    ensures front { HasFront (mapped_below char_map.now (max_code + 1)) chars.old chars.new }
    ensures count { result ≡ length (mapped_below char_map.now (max_code + 1)) }
{
    char_map.mapped_below(MAX_CODE + 1, chars)
}

/// Tells the characters of a font in rising order, as many as fit at the front of `chars`, and how many there are. Returns 0; or
/// the number of a refusal, whose fields it puts into `refused`. It takes no memory.
#[unsafe(no_mangle)]
pub extern "C" fn proved_mkstrike_characters(
    font: &[u8],
    face: u32,
    chars: &mut [u32],
    count: &mut usize,
    refused: &mut Refused,
) -> u32
    // These are the characters.
    ensures found { result ≡ 0 → AreCharacters (map_for (face_in font.now face) []) chars.old chars.new count.new }
    // The first cause was named.
    ensures refused { 0 < result → IsNamed (map_for (face_in font.now face) []) result refused.new }
    // Nothing but what was named is written.
    ensures kept { 0 < result → (chars.new ≡ chars.old) × (count.new ≡ count.old) }
    ensures silent { result ≡ 0 → refused.new ≡ refused.old }
{
    match map_for(&FontFile::new(font, face), &[]) {
        Ok(char_map) => {
            *count = put_characters(&char_map, chars);
            0
        }
        Err(refusal) => refuse(refusal, refused),
    }
}

//! The names of a font, for C.
ghost use Rattle.std.specs.Prelude.{◌≡◌, ◌<◌, ◌≤◌, length, Ok, None};
ghost use Rattle.fx_fixed.specs.Chain.{map_fault};
ghost use Rattle.fx_request.specs.Faults.{of_font};
ghost use Rattle.fx_sfnt.specs.Collections.{face_in};
ghost use Rattle.mkstrike_c.specs.Fonts.{HasName, HasText, name_at};
ghost use Rattle.mkstrike_c.specs.Refused.{IsNamed};

use crate::glyph::MISSING;
use crate::refused::{Refused, refuse};
use fx_names::Name;
use fx_request::Refusal;
use fx_sfnt::{Font, FontFile};

/// Puts a name and a 0 at the front of a buffer, if both fit. Returns the length of the name.
fn put_name(name: &Name<'_>, text: &mut [u8]) -> usize
    ensures text { HasText name.now text.old text.new }
    ensures count { result ≡ length name.now }
{
    let length = name.len();
    if length < text.len() {
        name.put(text);
        text[length] = 0;
    }
    length
}

/// Tells a name of a font by its number: if its text in UTF-8 and a 0 after it fit, they go to the front of `text`; else nothing
/// does. `count` tells how long the text is. Returns 0; 1 if the font has no such name; or the number of a refusal, whose fields it
/// puts into `refused`. It takes no memory.
#[unsafe(no_mangle)]
pub extern "C" fn proved_mkstrike_name(
    font: &[u8],
    face: u32,
    id: u32,
    text: &mut [u8],
    count: &mut usize,
    refused: &mut Refused,
) -> u32
    // This is the name.
    ensures found { result ≡ 0 → HasName (name_at (face_in font.now face) id) text.old text.new count.new }
    // The font has no such name.
    ensures missing { result ≡ 1 → name_at (face_in font.now face) id ≡ Ok None }
    // The cause was named.
    ensures refused { 1 < result → IsNamed (map_fault of_font (name_at (face_in font.now face) id)) result refused.new }
    // Nothing but what was named is written.
    ensures kept { 0 < result → (text.new ≡ text.old) × (count.new ≡ count.old) }
    ensures silent { result ≤ 1 → refused.new ≡ refused.old }
{
    match Font::open(&FontFile::new(font, face)) {
        Ok(font) => match Name::of(&font, id) {
            Some(name) => {
                *count = put_name(&name, text);
                0
            }
            None => MISSING,
        },
        Err(fault) => refuse(Refusal::from(fault), refused),
    }
}

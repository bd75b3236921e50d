//! All characters of a font's map.
ghost use Rattle.std.specs.Prelude.{◌≡◌, IfOk};
ghost use Rattle.fx_cli.specs.Mapped.{mapped_in, mapped_of};

use fx_cmap::CharMap;
use fx_request::{MAX_CHARACTERS, MAX_CODE};
use fx_sfnt::{Font, FontFile};
use std::alloc::{AllocError, Global};

/// The characters of a font's map in rising order, the first `MAX_CHARACTERS` of them. None if the font or its map can't be opened.
#[tactic(auto, unfolding(fx_strike::specs::Strike::font_with_map))]
pub(crate) fn mapped_of(alloc: Global, font: &FontFile<'_>) -> Result<Vec<u32>, AllocError>
    ensures { IfOk result (λ codes. codes.items ≡ mapped_of font.now) }
{
    let Ok(opened) = Font::open(font) else {
        return Ok(Vec::new(alloc));
    };
    let Ok(map) = CharMap::open(&opened) else {
        return Ok(Vec::new(alloc));
    };
    mapped_in(alloc, &map, MAX_CHARACTERS)
}

/// The characters of a map, up to a limit.
fn mapped_in(alloc: Global, map: &CharMap<'_>, limit: usize) -> Result<Vec<u32>, AllocError>
    ensures { IfOk result (λ codes. codes.items ≡ mapped_in map.now limit) }
{
    let count = map.mapped_below(MAX_CODE + 1, &mut []).min(limit);
    let mut codes = vec![in alloc; 0u32; count]?;
    map.mapped_below(MAX_CODE + 1, &mut codes);
    Ok(codes)
}

//! What a font is at a size, and the numbers of characters' glyphs.
ghost use Rattle.std.specs.Prelude.{◌≡◌};
ghost use Rattle.fx_views.specs.Numbers.{font_metrics_of, line_gap_of, map_for, metrics_in};

use fx_cmap::CharMap;
use fx_request::Refusal;
use fx_sfnt::{Font, FontFile, i16_at};
use fx_strike::{Opened, check_chars, font_with_map, open_at};

/// What a font is at a size.
#[derive(Clone, Copy, Debug, PartialEq, Eq)]
pub struct FontMetrics {
    /// The ascent and the descent in pixels: `FONT_ASCENT` and `FONT_DESCENT` of each of its strikes.
    pub ascent: i32,
    pub descent: i32,
    /// The space between the descent of a line and the ascent of the next one that the font asks for, in pixels.
    pub line_gap: i32,
    /// The number of its glyphs, not 0.
    pub glyphs: u16,
}

/// The line gap of a font in FUnits (OpenType, "hhea", lineGap).
fn line_gap_of(font: &Font<'_>) -> i16
    ensures { result ≡ line_gap_of font.now }
{
    let hhea = font.table(*b"hhea").unwrap_or(&[]);
    i16_at(hhea, 8).unwrap_or(0)
}

/// What an opened font is at its size.
fn metrics_in(opened: &Opened<'_>) -> FontMetrics
    ensures { result ≡ metrics_in opened.now }
{
    let line_gap = i32::from(line_gap_of(&opened.font));
    FontMetrics {
        ascent: opened.ascent(),
        descent: opened.descent(),
        line_gap: opened.pixels_of(line_gap),
        glyphs: opened.font.maxp().num_glyphs,
    }
}

/// Tells what a font is at a size, or the first cause why it cannot: the size; the font's tables, its character map. It takes no
/// memory.
#[tactic(auto, unfolding(crate::specs::Numbers::font_metrics_of))]
pub fn font_metrics(font: &FontFile<'_>, ppem: u16) -> Result<FontMetrics, Refusal>
    ensures { result ≡ font_metrics_of font.now ppem }
{
    let opened = open_at(font, ppem)?;
    Ok(metrics_in(&opened))
}

/// The character map of a font, for characters within their limits, or the first cause why there is none: the characters; the
/// font's tables, its character map. It takes no memory.
#[tactic(auto, unfolding(crate::specs::Numbers::map_for))]
pub fn map_for<'a>(font: &FontFile<'a>, chars: &[u32]) -> Result<CharMap<'a>, Refusal>
    ensures { result ≡ map_for font.now chars.now }
{
    check_chars(chars)?;
    let (_font, map) = font_with_map(font)?;
    Ok(map)
}

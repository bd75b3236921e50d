//! A font at a size, for C.
ghost use Rattle.std.specs.Prelude.{◌≡◌, ◌<◌, Ok};
ghost use Rattle.fx_fixed.specs.Chain.{map_fault, map_ok};
ghost use Rattle.fx_request.specs.Faults.{of_font};
ghost use Rattle.fx_sfnt.specs.Collections.{face_count_of, face_in};
ghost use Rattle.fx_views.specs.Numbers.{font_metrics_of};
ghost use Rattle.mkstrike_c.specs.Fonts.{font_info_of};
ghost use Rattle.mkstrike_c.specs.Refused.{IsNamed};

use crate::refused::{Refused, refuse};
use fx_request::Refusal;
use fx_sfnt::FontFile;
use fx_views::{FontMetrics, font_metrics};

/// A font at a size.
#[repr(C)]
#[derive(Clone, Copy)]
pub struct FontInfo {
    /// The ascent and the descent in pixels: `FONT_ASCENT` and `FONT_DESCENT` of each of its strikes.
    pub ascent: i32,
    pub descent: i32,
    /// The space between two lines that the font asks for, in pixels.
    pub line_gap: i32,
    /// The number of its glyphs.
    pub glyphs: u32,
}

/// What C is told of a font at a size.
fn font_info_of(metrics: FontMetrics) -> FontInfo
    ensures { result ≡ font_info_of metrics }
{
    FontInfo {
        ascent: metrics.ascent,
        descent: metrics.descent,
        line_gap: metrics.line_gap,
        glyphs: u32::from(metrics.glyphs),
    }
}

/// Tells about a font at a size. Returns 0; or the number of a refusal, whose fields it puts into `refused`. It takes no memory.
#[unsafe(no_mangle)]
pub extern "C" fn proved_mkstrike_font(
    font: &[u8],
    face: u32,
    ppem: u16,
    info: &mut FontInfo,
    refused: &mut Refused,
) -> u32
    // This is the font at the size.
    ensures info { result ≡ 0 → map_ok font_info_of (font_metrics_of (face_in font.now face) ppem) ≡ Ok info.new }
    // The first cause was named.
    ensures refused { 0 < result → IsNamed (font_metrics_of (face_in font.now face) ppem) result refused.new }
    // Nothing but what was named is written.
    ensures kept { 0 < result → info.new ≡ info.old }
    ensures silent { result ≡ 0 → refused.new ≡ refused.old }
{
    match font_metrics(&FontFile::new(font, face), ppem) {
        Ok(metrics) => {
            *info = font_info_of(metrics);
            0
        }
        Err(refusal) => refuse(refusal, refused),
    }
}

/// Tells how many faces a file has. Returns 0; or the number of a refusal, whose fields it puts into `refused`. It takes no memory.
#[unsafe(no_mangle)]
pub extern "C" fn proved_mkstrike_faces(font: &[u8], faces: &mut u32, refused: &mut Refused) -> u32
    // This is how many faces the file has.
    ensures faces { result ≡ 0 → face_count_of font.now ≡ Ok faces.new }
    // The cause was named.
    ensures refused { 0 < result → IsNamed (map_fault of_font (face_count_of font.now)) result refused.new }
    // Nothing but what was named is written.
    ensures kept { 0 < result → faces.new ≡ faces.old }
    ensures silent { result ≡ 0 → refused.new ≡ refused.old }
{
    match FontFile::of(font).face_count() {
        Ok(count) => {
            *faces = count;
            0
        }
        Err(fault) => refuse(Refusal::from(fault), refused),
    }
}

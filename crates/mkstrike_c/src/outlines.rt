//! The outline of one glyph for C.
ghost use Rattle.std.specs.Prelude.{◌≡◌, ◌<◌, map, min, true, IfOk, IfErr};
ghost use Rattle.fx_hint.specs.Outlines.{view_of_glyph_outline};
ghost use Rattle.fx_strike.specs.Strike.{opened_at};
ghost use Rattle.mkstrike_c.specs.Drawn.{HasFront};
ghost use Rattle.mkstrike_c.specs.FontAt.{file_at};
ghost use Rattle.mkstrike_c.specs.Modes.{is_mode, mode_of};
ghost use Rattle.mkstrike_c.specs.Outlines.{IsOutlined, outline_by_id, outlined_of, point_of};
ghost use Rattle.mkstrike_c.specs.Refused.{IsReason, IsRefused};

use crate::buffer::put_front;
use crate::font_at::FontAt;
use crate::glyph::id_of;
use crate::mode::{is_mode, mode_of};
use crate::refused::{Refused, refuse, refuse_mode};
use fx_hint::GlyphOutline;
use fx_outline::OutlinePoint as Point;
use fx_request::{Mode, Refusal};
use fx_sfnt::FontFile;
use fx_views::outline_numbered;
use std::alloc::Global;

/// A point of an outline.
#[repr(C)]
#[derive(Clone, Copy)]
pub struct OutlinePoint {
    /// Its place in 1/64 pixels, to the right of the origin and above it.
    pub x: i32,
    pub y: i32,
    /// 1 on the curve, 0 off it.
    pub on_curve: u32,
}

/// What is told of an outline.
#[repr(C)]
#[derive(Clone, Copy)]
pub struct Outlined {
    /// How many points and contours it has.
    pub points: usize,
    pub contours: usize,
    /// The advance in 1/64 pixels.
    pub advance: i32,
}

/// A point for C.
fn point_of(point: &Point) -> OutlinePoint
    ensures { result ≡ point_of point.now }
{
    OutlinePoint {
        x: point.x.0,
        y: point.y.0,
        on_curve: if point.on_curve { 1 } else { 0 },
    }
}

/// Puts points at the front of a buffer, as far as there is room.
fn put_points(points: &[Point], buffer: &mut [OutlinePoint])
    ensures { HasFront (map point_of points.now) buffer.old buffer.new }
{
    let n = points.len().min(buffer.len());
    // The points before i are in their places.
    'points: for i in 0..n {
        buffer[i] = point_of(&points[i]);
    }
}

/// What is told of an outline.
fn outlined_of(outline: &GlyphOutline) -> Outlined
    ensures { result ≡ outlined_of (view_of_glyph_outline outline.now) }
{
    Outlined {
        points: outline.outline.points.len(),
        contours: outline.outline.ends.len(),
        advance: outline.advance.0,
    }
}

/// The outline of a glyph of a font, by its number in C.
fn outline_by_id(
    alloc: Global,
    font: &FontFile<'_>,
    ppem: u16,
    glyph: u32,
    mode: Mode,
) -> Result<GlyphOutline, Refusal>
    ensures found { IfOk result (λ o. outline_by_id font.now ppem glyph mode ≡ Ok (view_of_glyph_outline o)) }
    ensures refused { IfErr result (IsReason (opened_at font.now ppem) (outline_by_id font.now ppem glyph mode)) }
{
    outline_numbered(alloc, font, ppem, id_of(glyph), mode)
}

/// Makes the outline of a glyph of a font, by its number: as many of its points as fit at the front of `points`, as many of the
/// numbers of its contours' last points as fit at the front of `ends`, and how many there are in all. Returns 0; or the number of a
/// refusal, whose fields it puts into `refused`.
#[unsafe(no_mangle)]
pub extern "C" fn proved_mkstrike_outline(
    at: &FontAt<'_>,
    glyph: u32,
    points: &mut [OutlinePoint],
    ends: &mut [u16],
    told: &mut Outlined,
    refused: &mut Refused,
) -> u32
    // No bit of the mode is unknown.
    ensures known { result ≡ 0 → is_mode at.now.mode ≡ true }
    // The outline is that of the glyph: these are its points, the last points of its contours, and its counts.
    ensures outlined { result ≡ 0 → IsOutlined (outline_by_id (file_at at.now) at.now.ppem glyph (mode_of at.now.mode))
        points.old points.new ends.old ends.new told.new }
    // The mode was named; or the first cause; or memory was refused, after the font and its character map opened.
    ensures refused { 0 < result → IsRefused (is_mode at.now.mode) (opened_at (file_at at.now) at.now.ppem)
        (outline_by_id (file_at at.now) at.now.ppem glyph (mode_of at.now.mode)) result refused.new }
    // Nothing but what was named is written.
    ensures kept { 0 < result → (points.new ≡ points.old) × (ends.new ≡ ends.old) × (told.new ≡ told.old) }
    ensures silent { result ≡ 0 → refused.new ≡ refused.old }
{
    if !is_mode(at.mode) {
        return refuse_mode(refused);
    }
    match outline_by_id(at.alloc, &at.file(), at.ppem, glyph, mode_of(at.mode)) {
        Ok(outline) => {
            put_points(&outline.outline.points, points);
            put_front(ends, &outline.outline.ends);
            *told = outlined_of(&outline);
            0
        }
        Err(refusal) => refuse(refusal, refused),
    }
}

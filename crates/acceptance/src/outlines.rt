//! Outlines of glyphs with components that come again.
ghost use Rattle.std.specs.List.{All};
ghost use Rattle.fx_hint.specs.Kept.{IsTrueOf};
ghost use Rattle.fx_hint.specs.Programmed.{hinting_of};

use crate::fonts::{font, patch};
use crate::worked::machine;
use fx_fixed::{F26, Ppem};
use fx_hint::{GlyphOutline, KeptGlyphs, Spare, outline_in, outline_with};
use fx_machine::{Machine, Usage};
use fx_outline::OutlinePoint;
use fx_sfnt::{Font, FontFile};
use std::alloc::Global;
use std::test::Fail;

/// A point on the curve, in 1/64 pixel.
pub fn on(x: i32, y: i32) -> OutlinePoint {
    OutlinePoint {
        x: F26(x),
        y: F26(y),
        on_curve: true,
    }
}

/// Whether an outline has these points, ends of contours and advance width, and no strays.
pub fn is_outline(
    made: &GlyphOutline,
    points: &[OutlinePoint],
    ends: &[u16],
    advance: i32,
) -> bool {
    made.outline.points.as_slice() == points
        && made.outline.ends.as_slice() == ends
        && made.advance == F26(advance)
        && made.usage.strays == 0
}

/// Glyph 3 twice, the second time moved.
const TWICE: &str = "ffff 0000 0000 0080 0080 0022 0003 00 00 0002 0003 40 20";

/// The arc with a program that reads a cell that the storage area does not have, and moves point 1 by half a pixel.
const READING_A_STRAY: &str =
    "0001 0000 0000 0080 0080 0002 0008 B0 63 43 21 B1 01 20 38 31 36 17 40 40 80 80 00";

/// The outline of glyph 2 of a font by a machine that keeps nothing.
fn made_plainly(alloc: Global, file: &[u8], ppem: Ppem) -> Result<GlyphOutline, Fail> {
    let mut machine = machine(alloc, file, 16)?;
    let font = machine.font();
    Ok(outline_with(alloc, &mut machine, &font, ppem, 2)?)
}

/// Whether two outlines are the same.
fn is_same(a: &GlyphOutline, b: &GlyphOutline) -> bool {
    a.outline.points.as_slice() == b.outline.points.as_slice()
        && a.outline.ends.as_slice() == b.outline.ends.as_slice()
        && a.advance == b.advance
        && a.usage == b.usage
}

/// What the programs of glyph 2 used up.
const TEN_STEPS: Usage = Usage {
    steps: 10,
    strays: 2,
};

/// Whether a machine that keeps components makes the outline of glyph 2 of a font as one that does not. Its programs name two
/// numbers outside their tables, and execute ten instructions.
fn is_made_by_both(
    alloc: Global,
    kept: &mut KeptGlyphs,
    machine: &mut Machine<'_>,
    file: &[u8],
    pixels: u16,
) -> Result<bool, Fail>
    requires { All (IsTrueOf (hinting_of machine.old.known)) kept.old.places }
    ensures { All (IsTrueOf (hinting_of machine.new.known)) kept.new.places }
{
    let ppem = Ppem::new(pixels).ok_or("no size")?;
    let made = made_plainly(alloc, file, ppem)?;
    let font = Font::open(&FontFile::of(file))?;
    let again = outline_in(alloc, &mut Spare::new(alloc), kept, machine, &font, ppem, 2)?;
    Ok(is_same(&again, &made) && made.usage == TEN_STEPS)
}

/// A font with another byte at a place.
fn changed(alloc: Global, file: &[u8], at: usize, new: u8) -> Result<Vec<u8>, Fail> {
    let mut changed = Vec::from_slice(alloc, file)?;
    patch(&mut changed, at, &[new])?;
    Ok(changed)
}

/// Whether glyph 3 is made once for each outline of glyph 2, and then kept, but neither another size nor another bearing nor other
/// bytes recall it.
fn are_made_by_both(
    alloc: Global,
    kept: &mut KeptGlyphs,
    machine: &mut Machine<'_>,
    file: &[u8],
) -> Result<bool, Fail>
    requires { All (IsTrueOf (hinting_of machine.old.known)) kept.old.places }
{
    // What is kept is true of what the machine knows. The first byte stays. Of glyph 3 these are its left bearing, its last point's
    // y, the cell that its program reads.
    'changes: for (pixels, at, new) in [
        (16, 0, 0),
        (16, 0, 0),
        (33, 0, 0),
        (16, 0, 0),
        (16, 258, 9),
        (16, 374, 0x60),
        (16, 361, 98),
    ] {
        let changed = changed(alloc, file, at, new)?;
        if !is_made_by_both(alloc, kept, machine, changed.as_slice(), pixels)? {
            return Ok(false);
        }
    }
    Ok(true)
}

#[test]
fn a_component_that_comes_again(rt: HostRuntime) -> Result<(), Fail> {
    let file = font(rt.alloc(), TWICE, READING_A_STRAY)?;
    let mut kept = KeptGlyphs::new(rt.alloc(), true);
    let mut machine = machine(rt.alloc(), file.as_slice(), 16)?;
    assert!(rt; are_made_by_both(rt.alloc(), &mut kept, &mut machine, file.as_slice())?);
    Ok(())
}

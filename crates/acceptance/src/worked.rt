//! Worked rows of calls of a machine: the stack that a program leaves, and an outline.
ghost use Rattle.std.specs.Prelude.{◌<◌, length};

use crate::fonts::{RING, ROUNDED, bytes, fixture, font};
use crate::outlines::{is_outline, on};
use fx_code::Code;
use fx_fixed::{F26, Place, Ppem};
use fx_hint::{GlyphOutline, outline};
use fx_machine::{Machine, Unwatched};
use fx_outline::OutlinePoint;
use fx_sfnt::{Font, FontFile};
use fx_zone::{Zone, ZonePoint};
use std::alloc::{AllocError, Global};
use std::test::Fail;

/// The machine of a font of which no program halts, at a size.
pub fn machine<'a>(alloc: Global, file: &'a [u8], pixels: u16) -> Result<Machine<'a>, Fail> {
    let font = Font::open(&FontFile::of(file))?;
    let ppem = Ppem::new(pixels).ok_or("no size")?;
    Ok(Machine::new(alloc, font, ppem, &mut Unwatched)?)
}

/// A point at rest on the curve.
fn at(x: i32, y: i32) -> ZonePoint {
    let place = Place {
        x: F26(x),
        y: F26(y),
    };
    ZonePoint::resting(place, true)
}

/// A zone of points, of which the first four are one contour.
fn zone_of(alloc: Global, points: &[ZonePoint]) -> Result<Zone, AllocError>
    requires { 3 < length points.now }
{
    let mut zone = Zone::new(alloc);
    zone.append(points, &[3])?;
    Ok(zone)
}

/// The square from (0, 0) to (90, 90), with its phantom points.
fn square(alloc: Global) -> Result<Zone, AllocError> {
    let points = [
        at(0, 0),
        at(90, 0),
        at(90, 90),
        at(0, 90),
        at(0, 0),
        at(384, 0),
        at(0, 800),
        at(0, -224),
    ];
    zone_of(alloc, &points)
}

/// Whether the program of a glyph, run on a square, leaves a stack.
fn leaves(
    alloc: Global,
    machine: &mut Machine<'_>,
    program: &str,
    stack: &[i32],
) -> Result<bool, Fail> {
    let code = bytes(alloc, program)?;
    let mut zone = square(alloc)?;
    let ran = machine.run_glyph(3, Code::new(code.as_slice()), &mut zone, &mut Unwatched);
    Ok(ran.is_ok() && machine.final_stack() == Some(stack))
}

/// A false IF passes over pushed bytes that look like EIF and ELSE; what comes after its ELSE pushes 7, with the last EIF and
/// without.
#[test]
fn the_stack_that_a_program_leaves(rt: HostRuntime) -> Result<(), Fail> {
    let file = fixture(rt.alloc())?;
    let mut machine = machine(rt.alloc(), file.as_slice(), 16)?;
    for program in [
        "b0 00 58 b1 59 1b 1b b0 07 59",
        "b0 00 58 b1 59 1b 1b b0 07",
    ] {
        assert!(rt;
            leaves(rt.alloc(), &mut machine, program, &[7])?,
            "{program}"
        );
    }
    Ok(())
}

/// The outline of glyph 3 by a machine of its font and size.
fn outline_by(alloc: Global, machine: &mut Machine<'_>) -> Result<GlyphOutline, Fail> {
    Ok(outline(alloc, &machine.font(), machine.ppem(), Some(machine), 3)?)
}

/// The outline of glyph 3 of a font by a machine.
fn hinted_outline(alloc: Global, file: &[u8]) -> Result<GlyphOutline, Fail> {
    let mut machine = machine(alloc, file, 16)?;
    outline_by(alloc, &mut machine)
}

/// Whether an outline has these points, in one contour, after five instructions.
fn is_rounded(made: &GlyphOutline, points: &[OutlinePoint]) -> bool {
    is_outline(made, points, &[3], 384) && made.usage.steps == 5
}

/// A square of 90 units at 16 pixels an em, whose program rounds its right side up to the grid.
#[test]
fn an_outline_by_a_machine(rt: HostRuntime) -> Result<(), Fail> {
    let file = font(rt.alloc(), RING, ROUNDED)?;
    let made = hinted_outline(rt.alloc(), file.as_slice())?;
    let points = [on(0, 0), on(128, 0), on(128, 90), on(0, 90)];
    assert!(rt; is_rounded(&made, &points));
    Ok(())
}

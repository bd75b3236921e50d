//! Glyphs of a font at values along its axis. The expected numbers are worked out by hand, and `suite/reference` finds the same.
use fx_axes::{Axes, AxesFault, AxisValue};
use fx_fixed::F2;
use fx_glyf::GlyphPoint;
use fx_sfnt::{Font, FontFault, FontFile};
use fx_vary::{Bearings, Instance, Moved, ShapeFault, shape_at};
use std::alloc::Global;
use std::test::Fail;

/// A font with one axis, `wght` from 100 over 400 to 900. Glyph 0 is empty; glyph 1 has the points (100, 0), (200, 100), (300, 0);
/// glyph 2 has glyph 1 at (10, 20), and once more with its point 2 at point 1.
///
/// Two tuples move glyph 1. At 900 the first one moves its points 0 and 2 by (10, 0) and (31, -20). The second one counts from 525
/// to 900, fully at 650, and moves the first two phantom points by 5 and 106. Glyph 2 has one tuple: at 900 it moves the components
/// by (7, 3) and (9, 5), and the second phantom point by 11. The control values are 50 and -7; at 900 `cvar` moves them by 3 and
/// -9.
const FONT: &[u8; 528] = b"\0\x01\0\0\0\x0A\0\0\0\0\0\0\
    cvar\0\0\0\0\0\0\0\xAC\0\0\0\x15\
    cvt\x20\0\0\0\0\0\0\0\xC4\0\0\0\x04\
    fvar\0\0\0\0\0\0\0\xC8\0\0\0$\
    glyf\0\0\0\0\0\0\0\xEC\0\0\08\
    gvar\0\0\0\0\0\0\x01$\0\0\0Z\
    head\0\0\0\0\0\0\x01\x80\0\0\06\
    hhea\0\0\0\0\0\0\x01\xB8\0\0\0$\
    hmtx\0\0\0\0\0\0\x01\xDC\0\0\0\x0C\
    loca\0\0\0\0\0\0\x01\xE8\0\0\0\x08\
    maxp\0\0\0\0\0\0\x01\xF0\0\0\0\x20\
    \0\x01\0\0\0\x01\0\x0E\0\x07\xA0\0@\0\x02\x01\0\x01\x01\x03\xF7\0\0\0\
    \02\xFF\xF9\
    \0\x01\0\0\0\x10\0\x02\0\x01\0\x14\0\0\0\x08wght\0d\0\0\x01\x90\0\0\x03\x84\
    \0\0\0\0\x01\0\
    \0\x01\0d\0\0\x01,\0d\0\x02\0\0\x01\x01\x01\0d\0d\0d\0\0\0d\xFF\x9C\0\
    \0\0\xFF\xFF\0n\0\0\x016\0x\0#\0\x01\0\x0A\0\x14\0\0\0\x01\x01\x02\
    \0\x01\0\0\0\x01\0\0\0\0\0\x1C\0\x03\0\0\0\0\0\x1C\0\0\0\0\0\x13\0\x1F\0\x02\
    \0\x14\0\x0A\xA0\0@\0\0\x08\xE0\0\x20\0\x10\0@\0\x02\x01\0\x02\x01\x0A\x1F\x01\0\xEC\x02\x01\
    \x03\x01\x01\x05j\x81\0\x01\0\x0A\0\x0D\xA0\0@\0\x03\x02\0\x01\x02\x02\x07\x09\x0B\x02\x03\x05\0\0\
    \0\0\
    \0\x01\0\0\0\0\0\0\0\0\0\0_\x0F<\xF5\0\0\x04\0\0\0\0\0\0\0\0\0\0\0\
    \0\0\0\0\0\0\0\0\0\0\0\0\0\0\0\0\0\0\0\0\0\0\0\0\0\0\
    \0\x01\0\0\0\0\0\0\0\0\0\0\0\0\0\0\0\0\0\0\0\0\0\0\0\0\0\0\0\0\
    \0\0\0\0\0\x03\
    \x01\xF4\0\0\x01\x90\0<\x01\xA4\0n\
    \0\0\0\0\0\x10\0\x1C\
    \0\x01\0\0\0\x03\0\0\0\0\0\0\0\0\0\0\0\0\0\0\0\0\0\0\0\0\0\0\0\0\
    \0\0";

/// The tag as a number.
const WGHT: u32 = 0x7767_6874;

/// A point on the curve.
fn on_curve(x: i16, y: i16) -> GlyphPoint {
    GlyphPoint {
        x,
        y,
        on_curve: true,
    }
}

/// A value along the axis.
fn at_weight(weight: i16) -> AxisValue {
    AxisValue {
        tag: WGHT,
        value: i32::from(weight) * 65536,
    }
}

/// What comes of a glyph of a font with one axis.
fn shaped(
    font: &Font<'_>,
    values: &[AxisValue],
    g: u16,
    moved: &mut Moved,
) -> Result<Bearings, ShapeFault> {
    let axes = Axes::open(font)?;
    if axes.count() != 1 {
        return Err(ShapeFault::BadVariations(g));
    }
    let mut place = [F2(0)];
    let (_, bearings) = shape_at(font, values, &mut place, g, moved)?;
    Ok(bearings)
}

/// The origin and the advance of a glyph at a weight.
fn made(weight: i16, g: u16, moved: &mut Moved) -> Result<Bearings, Fail> {
    let font = Font::open(&FontFile::of(FONT))?;
    let bearings = shaped(&font, &[at_weight(weight)], g, moved)?;
    Ok(bearings)
}

/// Whether a glyph at a value has this fault.
fn fails(
    alloc: Global,
    bytes: &[u8],
    value: AxisValue,
    g: u16,
    fault: ShapeFault,
) -> Result<bool, Fail> {
    let font = Font::open(&FontFile::of(bytes))?;
    let mut moved = Moved::new(alloc);
    match shaped(&font, &[value], g, &mut moved) {
        Ok(_) => Ok(false),
        Err(found) => Ok(found == fault),
    }
}

/// Half way, where 315.5 goes to 316, at 525, where 307.75 goes to 308 and 205.25 to 205, and at the default, whatever came before.
#[test]
fn a_simple_glyph(rt: HostRuntime) -> Result<(), Fail> {
    let mut moved = Moved::new(rt.alloc());
    let half = made(650, 1, &mut moved)?;
    assert!(rt;
        half == Bearings {
            origin: 45,
            advance: 501
        }
    );
    let points = [on_curve(105, 0), on_curve(210, 100), on_curve(316, -10)];
    assert!(rt; moved.points.as_slice() == points.as_slice());
    let quarter = made(525, 1, &mut moved)?;
    assert!(rt;
        quarter
            == Bearings {
                origin: 40,
                advance: 400
            }
    );
    let points = [on_curve(103, 0), on_curve(205, 100), on_curve(308, -5)];
    assert!(rt; moved.points.as_slice() == points.as_slice());
    let default = made(400, 1, &mut moved)?;
    assert!(rt;
        default
            == Bearings {
                origin: 40,
                advance: 400
            }
    );
    let points = [on_curve(100, 0), on_curve(200, 100), on_curve(300, 0)];
    assert!(rt; moved.points.as_slice() == points.as_slice());
    Ok(())
}

/// The component that is placed by the numbers of points stays as it is.
#[test]
fn a_composite(rt: HostRuntime) -> Result<(), Fail> {
    let mut moved = Moved::new(rt.alloc());
    let whole = made(900, 2, &mut moved)?;
    assert!(rt;
        whole
            == Bearings {
                origin: 0,
                advance: 431
            }
    );
    assert!(rt; moved.components.len() == 2);
    assert!(rt; moved.components[0].args == (17, 23));
    assert!(rt; moved.components[1].args == (1, 2));
    let half = made(650, 2, &mut moved)?;
    assert!(rt;
        half == Bearings {
            origin: 0,
            advance: 426
        }
    );
    assert!(rt; moved.components.len() == 2);
    assert!(rt; moved.components[0].args == (14, 22));
    Ok(())
}

/// An empty glyph has its metrics alone.
#[test]
fn an_empty_glyph(rt: HostRuntime) -> Result<(), Fail> {
    let mut moved = Moved::new(rt.alloc());
    let whole = made(900, 0, &mut moved)?;
    assert!(rt;
        whole
            == Bearings {
                origin: 0,
                advance: 500
            }
    );
    Ok(())
}

/// The control values at a weight.
fn controls(alloc: Global, bytes: &[u8], weight: i16) -> Result<Vec<i16>, Fail> {
    let font = Font::open(&FontFile::of(bytes))?;
    let axes = Axes::open(&font)?;
    let mut place = [F2(0)];
    if axes.count() != 1 {
        return Ok(Vec::new(alloc));
    }
    axes.place(&[at_weight(weight)], &mut place)?;
    let instance = Instance::open(&font, &place)?;
    let controls = instance.controls(alloc, &font)?;
    Ok(controls)
}

/// Half way 51.5 goes to 52, and -11.5 to -11. Without `cvar`, which another tag hides, the values are those of `cvt `.
#[test]
fn control_values(rt: HostRuntime) -> Result<(), Fail> {
    let half = controls(rt.alloc(), FONT, 650)?;
    assert!(rt; half.as_slice() == [52, -11].as_slice());
    let whole = controls(rt.alloc(), FONT, 900)?;
    assert!(rt; whole.as_slice() == [53, -16].as_slice());
    let mut bytes = *FONT;
    bytes[12] = b'C';
    let static_values = controls(rt.alloc(), &bytes, 900)?;
    assert!(rt; static_values.as_slice() == [50, -7].as_slice());
    Ok(())
}

/// Values and numbers of glyphs have their own faults. A coordinate past 32,767 and a run of point numbers past the count are
/// faults of their glyph alone.
#[test]
fn glyphs_with_faults(rt: HostRuntime) -> Result<(), Fail> {
    let high = ShapeFault::Axes(AxesFault::OutOfRange(WGHT));
    assert!(rt; fails(rt.alloc(), FONT, at_weight(901), 1, high)?);
    let number = ShapeFault::Font(FontFault::BadGlyphNumber(3));
    assert!(rt; fails(rt.alloc(), FONT, at_weight(650), 3, number)?);
    let wrong = ShapeFault::BadVariations(1);
    let mut bytes = *FONT;
    bytes[253] = 0x7F;
    bytes[254] = 0xFF;
    assert!(rt; fails(rt.alloc(), &bytes, at_weight(650), 1, wrong)?);
    assert!(rt; !fails(rt.alloc(), &bytes, at_weight(650), 0, wrong)?);
    let mut bytes = *FONT;
    bytes[341] = 2;
    assert!(rt; fails(rt.alloc(), &bytes, at_weight(650), 1, wrong)?);
    Ok(())
}

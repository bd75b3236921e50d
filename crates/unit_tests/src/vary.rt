//! Places along axes, and the parts of tuples. The expected numbers are worked out by hand.
use fx_axes::{Axes, AxesFault, AxisValue};
use fx_fixed::F2;
use fx_moves::{Named, inferred};
use fx_sfnt::{Font, FontFile};
use fx_tuples::{Tent, factor, skip_deltas, skip_numbers};
use fx_vary::is_gvar;
use std::test::Fail;

/// A font of one empty glyph with two axes: `wght` from 100 over 400 to 900, and `slnt` from -10 to 0, its default. `avar` moves
/// 0.5 of `wght` to 0.75, and leaves `slnt` alone. One instance is named.
const FONT: &[u8] = b"\0\x01\0\0\0\x08\0\0\0\0\0\0\
    avar\0\0\0\0\0\0\x01\x0E\0\0\0\x1C\
    fvar\0\0\0\0\0\0\x01\x2A\0\0\0\x44\
    glyf\0\0\0\0\0\0\x01\x2A\0\0\0\0\
    head\0\0\0\0\0\0\0\x8C\0\0\0\x36\
    hhea\0\0\0\0\0\0\0\xE2\0\0\0\x24\
    hmtx\0\0\0\0\0\0\x01\x06\0\0\0\x04\
    loca\0\0\0\0\0\0\x01\x0A\0\0\0\x04\
    maxp\0\0\0\0\0\0\0\xC2\0\0\0\x20\
    \0\x01\0\0\0\0\0\0\0\0\0\0\x5F\x0F\x3C\xF5\0\0\x04\0\
    \0\0\0\0\0\0\0\0\0\0\0\0\0\0\0\0\0\0\0\0\0\0\0\0\0\0\0\0\0\0\0\0\0\0\
    \0\x01\0\0\0\x01\0\0\0\0\0\0\0\0\0\0\0\0\0\0\0\0\0\0\0\0\0\0\0\0\0\0\
    \0\x01\0\0\0\0\0\0\0\0\0\0\0\0\0\0\0\0\0\0\0\0\0\0\0\0\0\0\0\0\0\0\0\0\0\x01\
    \0\0\0\0\0\0\0\0\
    \0\x01\0\0\0\0\0\x02\
    \0\x04\xC0\0\xC0\0\0\0\0\0\x20\0\x30\0\x40\0\x40\0\
    \0\0\
    \0\x01\0\0\0\x10\0\x02\0\x02\0\x14\0\x01\0\x0C\
    wght\0\x64\0\0\x01\x90\0\0\x03\x84\0\0\0\0\x01\0\
    slnt\xFF\xF6\0\0\0\0\0\0\0\0\0\0\0\0\x01\x01\
    \x01\x02\0\0\x02\xBC\0\0\0\0\0\0";

/// The tags as numbers.
const WGHT: u32 = 0x7767_6874;

const SLNT: u32 = 0x736C_6E74;

const ITAL: u32 = 0x6974_616C;

/// A value in 16.16.
fn value(tag: u32, value: i32) -> AxisValue {
    AxisValue { tag, value }
}

/// Whether values have this place.
fn goes_to(values: &[AxisValue], x: i16, y: i16) -> Result<bool, Fail> {
    let font = Font::open(&FontFile::of(FONT))?;
    let axes = Axes::open(&font)?;
    let mut place = [F2(0), F2(0)];
    if axes.count() != 2 {
        return Ok(false);
    }
    axes.place(values, &mut place)?;
    let first = place[0];
    let second = place[1];
    Ok(first == F2(x) && second == F2(y))
}

/// Whether values have this fault.
fn fails(values: &[AxisValue], fault: AxesFault) -> Result<bool, Fail> {
    let font = Font::open(&FontFile::of(FONT))?;
    let axes = Axes::open(&font)?;
    let mut place = [F2(0), F2(0)];
    if axes.count() != 2 {
        return Ok(false);
    }
    match axes.place(values, &mut place) {
        Ok(()) => Ok(false),
        Err(found) => Ok(found == fault),
    }
}

/// 700 is 0.6 of the way to 900, which `avar` moves to 0.8. -20 and -60 are half way between two coordinates of `slnt`.
#[test]
fn places(rt: HostRuntime) -> Result<(), Fail> {
    assert!(rt; goes_to(&[], 0, 0)?);
    assert!(rt; goes_to(&[value(WGHT, 700 * 65536)], 13107, 0)?);
    assert!(rt; goes_to(&[value(WGHT, 650 * 65536)], 12288, 0)?);
    assert!(rt; goes_to(&[value(WGHT, 401 * 65536)], 49, 0)?);
    assert!(rt; goes_to(&[value(WGHT, 250 * 65536)], -8192, 0)?);
    assert!(rt;
        goes_to(
            &[value(SLNT, -5 * 65536), value(WGHT, 100 * 65536)],
            -16384,
            -8192
        )?
    );
    assert!(rt; goes_to(&[value(SLNT, -20)], 0, 0)?);
    assert!(rt; goes_to(&[value(SLNT, -60)], 0, -1)?);
    Ok(())
}

/// All tags are checked before any value is.
#[test]
fn values_with_faults(rt: HostRuntime) -> Result<(), Fail> {
    let high = value(WGHT, 900 * 65536 + 1);
    assert!(rt; fails(&[high], AxesFault::OutOfRange(WGHT))?);
    assert!(rt; fails(&[high, value(ITAL, 0)], AxesFault::UnknownAxis(ITAL))?);
    assert!(rt; fails(&[high, high], AxesFault::RepeatedAxis(WGHT))?);
    assert!(rt; fails(&[value(SLNT, 1), high], AxesFault::OutOfRange(WGHT))?);
    Ok(())
}

/// One axis, one glyph with four bytes, one shared tuple.
const GVAR: &[u8] = &[
    0, 1, 0, 0, 0, 1, 0, 1, 0, 0, 0, 24, 0, 1, 0, 0, 0, 0, 0, 26, // header
    0, 0, 0, 2, // halves of the offsets 0 and 4
    0x40, 0, // the shared tuple
    0, 0, 0, 4, // no tuple
];

#[test]
fn heads_of_gvar(rt: HostRuntime) -> Result<(), Fail> {
    assert!(rt; is_gvar(1, 1, GVAR));
    assert!(rt; !is_gvar(2, 1, GVAR));
    assert!(rt; !is_gvar(1, 2, GVAR));
    assert!(rt; !is_gvar(1, 1, &GVAR[..29]));
    Ok(())
}

/// A run of three numbers, one past the count, a run of two zeros before one of a byte; half of a tent; half way between points.
#[test]
fn parts_of_tuples(rt: HostRuntime) -> Result<(), Fail> {
    assert!(rt; skip_numbers(3, &[2, 1, 2, 3, 9]) == Some(&[9]));
    assert!(rt; skip_numbers(2, &[2, 1, 2, 3, 9]).is_none());
    assert!(rt; skip_deltas(3, &[0x81, 0, 5, 9]) == Some(&[9]));
    let tent = Tent {
        start: 0,
        peak: 16384,
        end: 16384,
    };
    assert!(rt; factor(tent, 8192) == (8192, 16384));
    let before = Named { at: 0, delta: 10 };
    let after = Named { at: 10, delta: 20 };
    assert!(rt; inferred(5, before, after) == 15 * 65536);
    Ok(())
}

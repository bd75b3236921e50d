//! Scans by pixels and by rows: by hand, with small and with large frames.
ghost use Rattle.std.specs.Prelude.{◌≤◌};
ghost use Rattle.fx_winding.specs.Frames.{HasMargin};

use crate::covering::{INNER_OTHER_WAY, UNIT};
use crate::curves::{Curve, add, frame, outline};
use fx_rows::Rows;
use fx_winding::{
    Bitmap, Frame, MAX_SIDE, Noted, Piece, Pieces, Plain, Point, Scan, ScanFault, Scratch, Tally,
};
use std::alloc::{AllocError, Global};
use std::test::Fail;

/// Places of pixels: a column and a row.
type Pixels<'a> = &'a [(i32, i32)];

/// Whether the bits of pixels are set, or none is.
fn are_bits(bitmap: &Bitmap, pixels: Pixels<'_>, wanted: bool) -> bool {
    for &(col, row) in pixels {
        if bitmap.bit(col, row) != wanted {
            return false;
        }
    }
    true
}

/// Whether a scan sets the first pixels, and not the others, and how many tests it takes.
fn scanned<S: Scan>(
    alloc: Global,
    scan: &S,
    curves: &[Curve],
    frame: Frame,
    set: Pixels<'_>,
    clear: Pixels<'_>,
) -> Result<(bool, u64), Fail> {
    let pieces = outline(alloc, curves)?;
    let mut tally = Tally::new();
    let bitmap = scan.scan(alloc, &pieces, frame, &mut tally)?;
    let sets = are_bits(&bitmap, set, true) && are_bits(&bitmap, clear, false);
    Ok((sets, tally.tests()))
}

#[test]
fn a_row_by_pixels(rt: HostRuntime) -> Result<(), Fail> {
    let row = frame(1, 2, 4, 1);
    let (set, clear) = ([(1, 2), (3, 2), (4, 2)], [(2, 2), (0, 2), (1, 3)]);
    let found = scanned(rt.alloc(), &Plain, &INNER_OTHER_WAY, row, &set, &clear)?;
    assert!(rt; found == (true, 96));
    Ok(())
}

/// Scans of the smallest frame and of a wide one: a scan by pixels of a whole frame of the greatest sides takes a minute.
#[test]
fn memory_for_scans_by_pixels(rt: HostRuntime) -> Result<(), Fail> {
    let empty = frame(0, 0, 0, 0);
    assert!(rt; scanned(rt.alloc(), &Plain, &UNIT, empty, &[], &[(0, 0)])?.0);
    let wide = frame(-1, -2, MAX_SIDE, 512);
    let clear = [(1, 0), (0, 1), (-1, 0)];
    assert!(rt; scanned(rt.alloc(), &Plain, &UNIT, wide, &[(0, 0)], &clear)?.0);
    Ok(())
}

/// A ring of arcs round a diamond of lines that goes the other way: rows in three bands, and columns in two words.
const RING: [Curve; 8] = [
    ((2400, 0), Some((2400, 2400)), (0, 2400)),
    ((0, 2400), Some((-2400, 2400)), (-2400, 0)),
    ((-2400, 0), Some((-2400, -2400)), (0, -2400)),
    ((0, -2400), Some((2400, -2400)), (2400, 0)),
    ((1000, 0), None, (0, -1000)),
    ((0, -1000), None, (-1000, 0)),
    ((-1000, 0), None, (0, 1000)),
    ((0, 1000), None, (1000, 0)),
];

/// Whether the scan by rows of a frame sets pixels inside the ring, and none in its hole and outside.
fn shows_ring(alloc: Global, frame: Frame) -> Result<bool, Fail> {
    let found = scanned(
        alloc,
        &Rows,
        &RING,
        frame,
        &[(10, 0), (-15, 0)],
        &[(0, 0), (30, 0)],
    )?;
    Ok(found.0)
}

/// A scan by rows is not refused for memory, with the smallest, the widest and the highest frame.
#[test]
fn memory_for_scans_by_rows(rt: HostRuntime) -> Result<(), Fail> {
    let empty = frame(3, 4, 0, 0);
    assert!(rt; scanned(rt.alloc(), &Rows, &RING, empty, &[], &[(3, 4)])? == (true, 0));
    assert!(rt; shows_ring(rt.alloc(), frame(-4096, -256, MAX_SIDE, 512))?);
    assert!(rt; shows_ring(rt.alloc(), frame(-256, -4096, 512, MAX_SIDE))?);
    Ok(())
}

/// A point at a place in pixels.
fn pixel(x: i16, y: i16) -> Point {
    Point {
        x: 128 * i32::from(x),
        y: 128 * i32::from(y),
    }
}

/// Whether the first 8,192 pixels of row 0 are set.
fn is_row_full(bitmap: &Bitmap) -> bool {
    for col in 0..8192u32 {
        if !bitmap.bit(col as i32, 0) {
            return false;
        }
    }
    true
}

/// The rectangle of 8,192 by 1 pixels.
fn widest(alloc: Global) -> Result<Pieces, AllocError> {
    let corners = [pixel(0, 0), pixel(8192, 0), pixel(8192, 1), pixel(0, 1)];
    let mut pieces = Pieces::new(alloc);
    for k in 0..4usize {
        let side = Piece {
            a: corners[k],
            b: None,
            c: corners[(k + 1) % 4],
        };
        add(&mut pieces, side)?;
    }
    Ok(pieces)
}

/// A row of 8,192 pixels takes no more than 10 tests a piece.
#[test]
fn tests_of_the_widest_row(rt: HostRuntime) -> Result<(), Fail> {
    let pieces = widest(rt.alloc())?;
    let mut tally = Tally::new();
    let bitmap = Rows.scan(rt.alloc(), &pieces, frame(0, 0, 8192, 1), &mut tally)?;
    assert!(rt; is_row_full(&bitmap) && tally.tests() <= 40);
    Ok(())
}

/// As many columns as rows, from -20 on.
fn square(side: u32) -> Frame
    requires { side ≤ 300 }
    ensures { HasMargin result }
{
    frame(-20, -20, side, side)
}

/// Whether two scans gave the same bits and notes.
fn is_same(used: &Noted, fresh: &Noted) -> bool {
    used.bitmap.words() == fresh.bitmap.words()
        && used.notes.across.as_slice() == fresh.notes.across.as_slice()
        && used.notes.up.as_slice() == fresh.notes.up.as_slice()
}

/// Whether a scan in used buffers gives the bits and the notes of one in new ones. The buffers are given back.
fn scans_again(
    alloc: Global,
    ring: &Pieces,
    scratch: &mut Scratch,
    pixels: Frame,
) -> Result<bool, ScanFault>
    requires { HasMargin pixels }
{
    let mut tally = Tally::new();
    let used = Rows.scan_noted(alloc, ring, pixels, scratch, &mut tally)?;
    let mut new = Scratch::new(alloc);
    let fresh = Rows.scan_noted(alloc, ring, pixels, &mut new, &mut tally)?;
    let same = is_same(&used, &fresh);
    scratch.give_back(used.bitmap);
    scratch.give_back_notes(used.notes);
    Ok(same)
}

/// A scan in the buffers of scans before it, of larger and of smaller frames, gives the bits and the notes of one in new buffers.
#[test]
fn scans_in_used_buffers(rt: HostRuntime) -> Result<(), Fail> {
    let ring = outline(rt.alloc(), &RING)?;
    let mut scratch = Scratch::new(rt.alloc());
    for &side in &[40, 8, 300, 64] {
        assert!(rt; scans_again(rt.alloc(), &ring, &mut scratch, square(side))?);
    }
    Ok(())
}

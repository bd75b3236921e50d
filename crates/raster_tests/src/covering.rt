//! Which pixels an outline covers: pixel by pixel, with arcs whole and halved.
use crate::curves::{Curve, add, frame, outline, piece};
use fx_symmetry::halves;
use fx_winding::{Bitmap, Frame, MAX_SIDE, Pieces, Tally, covered};
use std::alloc::{AllocError, Global};
use std::test::Fail;

/// The outline with the halves of each arc that has any in its place.
fn halved_outline(alloc: Global, curves: &[Curve]) -> Result<Pieces, AllocError> {
    let mut pieces = Pieces::new(alloc);
    for curve in curves {
        let whole = piece(*curve);
        match halves(&whole) {
            None => add(&mut pieces, whole)?,
            Some((start, end)) => {
                add(&mut pieces, start)?;
                add(&mut pieces, end)?;
            }
        }
    }
    Ok(pieces)
}

/// Whether the pieces cover exactly these pixels, of the columns and rows from -1 to 5: the top row first, its leftmost pixel the
/// highest of seven bits.
fn cover(pieces: &Pieces, picture: [u8; 7]) -> bool {
    let mut tally = Tally::new();
    for down in 0..7u32 {
        for across in 0..7u32 {
            let wanted = picture[down as usize] >> (6 - across) & 1 == 1;
            if covered(pieces, across as i32 - 1, 5 - down as i32, &mut tally) != wanted {
                return false;
            }
        }
    }
    true
}

/// Whether an outline covers these pixels, and with the halves of its arcs in their place does so too.
fn is_covered(alloc: Global, row: &(&[Curve], [u8; 7])) -> Result<bool, Fail> {
    let whole = outline(alloc, row.0)?;
    let halved = halved_outline(alloc, row.0)?;
    Ok(cover(&whole, row.1) && cover(&halved, row.1))
}

pub const UNIT: [Curve; 4] = [
    ((0, 0), None, (128, 0)),
    ((128, 0), None, (128, 128)),
    ((128, 128), None, (0, 128)),
    ((0, 128), None, (0, 0)),
];

const THROUGH_CENTRES: [Curve; 4] = [
    ((64, 64), None, (192, 64)),
    ((192, 64), None, (192, 192)),
    ((192, 192), None, (64, 192)),
    ((64, 192), None, (64, 64)),
];

const INNER_SAME_WAY: [Curve; 8] = [
    ((0, 0), None, (640, 0)),
    ((640, 0), None, (640, 640)),
    ((640, 640), None, (0, 640)),
    ((0, 640), None, (0, 0)),
    ((192, 192), None, (448, 192)),
    ((448, 192), None, (448, 448)),
    ((448, 448), None, (192, 448)),
    ((192, 448), None, (192, 192)),
];

pub const INNER_OTHER_WAY: [Curve; 8] = [
    ((0, 0), None, (640, 0)),
    ((640, 0), None, (640, 640)),
    ((640, 640), None, (0, 640)),
    ((0, 640), None, (0, 0)),
    ((192, 192), None, (192, 448)),
    ((192, 448), None, (448, 448)),
    ((448, 448), None, (448, 192)),
    ((448, 192), None, (192, 192)),
];

const WIDE_HILL: [Curve; 2] = [
    ((0, 0), Some((128, 256)), (256, 0)),
    ((256, 0), None, (0, 0)),
];

const NARROW_HILL: [Curve; 2] = [
    ((0, 0), Some((64, 128)), (128, 0)),
    ((128, 0), None, (0, 0)),
];

const CORNER_CENTRES_ON_ARCS: [Curve; 4] = [
    ((0, 256), Some((0, 0)), (256, 0)),
    ((256, 0), Some((512, 0)), (512, 256)),
    ((512, 256), Some((512, 512)), (256, 512)),
    ((256, 512), Some((0, 512)), (0, 256)),
];

const FLAT_ARC: [Curve; 1] = [((0, 64), Some((384, 64)), (0, 64))];

const CENTRES_ON_COMMON_CHORD: [Curve; 2] = [
    ((0, 64), Some((128, 320)), (256, 64)),
    ((256, 64), Some((128, -192)), (0, 64)),
];

const ONE: [u8; 7] = [0, 0, 0, 0, 0, 0b0100000, 0];

const TWO: [u8; 7] = [0, 0, 0, 0, 0, 0b0110000, 0];

const FOUR: [u8; 7] = [0, 0, 0, 0, 0b0110000, 0b0110000, 0];

const SIXTEEN: [u8; 7] = [0, 0, 0b0111100, 0b0111100, 0b0111100, 0b0111100, 0];

const FULL: [u8; 7] = [0, 0b0111110, 0b0111110, 0b0111110, 0b0111110, 0b0111110, 0];

const HOLE: [u8; 7] = [0, 0b0111110, 0b0111110, 0b0110110, 0b0111110, 0b0111110, 0];

/// Outlines, and the pixels that they cover.
static COVERED: [(&[Curve], [u8; 7]); 9] = [
    (&UNIT, ONE),
    (&THROUGH_CENTRES, FOUR),
    (&INNER_SAME_WAY, FULL),
    (&INNER_OTHER_WAY, HOLE),
    (&WIDE_HILL, TWO),
    (&NARROW_HILL, ONE),
    (&CORNER_CENTRES_ON_ARCS, SIXTEEN),
    (&FLAT_ARC, TWO),
    (&CENTRES_ON_COMMON_CHORD, TWO),
];

#[test]
fn lines_and_arcs(rt: HostRuntime) -> Result<(), Fail> {
    for row in &COVERED {
        assert!(rt; is_covered(rt.alloc(), row)?);
    }
    Ok(())
}

/// A list takes as many pieces as it may hold.
#[test]
fn memory_for_pieces(rt: HostRuntime) -> Result<(), Fail> {
    let mut pieces = Pieces::new(rt.alloc());
    let diagonal = piece(((0, 0), None, (128, 128)));
    for _ in 0..65_536u32 {
        add(&mut pieces, diagonal)?;
    }
    assert!(rt; pieces.len() == 65_536);
    Ok(())
}

/// Whether no bit of a new bitmap is set, at the origin and at its lower left corner.
fn is_empty(alloc: Global, frame: Frame) -> Result<bool, Fail> {
    let bitmap = Bitmap::new(alloc, frame)?;
    Ok(
        bitmap.frame().width == frame.width
            && !bitmap.bit(0, 0)
            && !bitmap.bit(frame.left, frame.bottom),
    )
}

/// Bitmaps of the smallest and of the largest frame.
#[test]
fn memory_for_bitmaps(rt: HostRuntime) -> Result<(), Fail> {
    assert!(rt; is_empty(rt.alloc(), frame(0, 0, 0, 0))?);
    assert!(rt; is_empty(rt.alloc(), frame(-1, -2, MAX_SIDE, MAX_SIDE))?);
    Ok(())
}

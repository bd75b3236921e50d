//! Drop-out control: the segments that pieces meet, and the gaps that are closed, by hand.
use crate::curves::{Curve, outline, piece, point};
use fx_dropout::{Closing, close_gaps};
use fx_winding::{Bitmap, Frame, Noted, Plain, Scan, Scratch, Tally, meets};
use std::alloc::Global;
use std::test::Fail;

/// Whether a curve meets the segment between the centres of the pixels in the columns 0 and 1 of row 0, (64, 64) and (192, 64).
fn is_met(curve: &Curve) -> bool {
    let mut tally = Tally::new();
    meets(
        &piece(*curve),
        point((64, 64)),
        point((192, 64)),
        &mut tally,
    )
}

/// Curves that meet it: across, in both directions; an end between; level between; a tip that touches, or comes through.
const MEETING: [Curve; 9] = [
    ((128, 0), None, (128, 128)),
    ((180, 128), None, (70, 0)),
    ((128, 64), None, (128, 200)),
    ((100, 0), None, (100, 64)),
    ((100, 64), None, (150, 64)),
    ((100, 0), Some((128, 128)), (156, 0)),
    ((156, 128), Some((128, 0)), (100, 128)),
    ((100, 0), Some((128, 132)), (156, 0)),
    ((100, 0), Some((128, 300)), (300, 0)),
];

/// Curves that don't: left, right, under and over; a tip that stays under; tips left and right; an arc round both centres.
const MISSING: [Curve; 9] = [
    ((32, 0), None, (32, 128)),
    ((200, 128), None, (200, 0)),
    ((128, 0), None, (128, 63)),
    ((0, 65), None, (256, 65)),
    ((100, 0), Some((128, 126)), (156, 0)),
    ((0, 0), Some((28, 132)), (56, 0)),
    ((200, 0), Some((228, 132)), (256, 0)),
    ((0, 0), Some((128, 400)), (256, 0)),
    ((0, 64), None, (60, 64)),
];

#[test]
fn segments(rt: HostRuntime) {
    for curve in &MEETING {
        assert!(rt; is_met(curve));
    }
    for curve in &MISSING {
        assert!(rt; !is_met(curve));
    }
}

/// A frame: its lowest column and row, each plus 9, its width and its height.
type Corner = (u8, u8, u8, u8);

/// A scan of an outline in a frame with its gaps closed.
fn closed(
    alloc: Global,
    curves: &[Curve],
    frame: Corner,
    closing: Closing,
) -> Result<Bitmap, Fail> {
    let pieces = outline(alloc, curves)?;
    let frame = Frame {
        left: i32::from(frame.0) - 9,
        bottom: i32::from(frame.1) - 9,
        width: frame.2.into(),
        height: frame.3.into(),
    };
    let mut tally = Tally::new();
    let mut scratch = Scratch::new(alloc);
    let Noted { bitmap, mut notes } = Plain.scan_noted(
        alloc,
        &pieces,
        frame,
        &mut scratch,
        &mut tally,
    )?;
    Ok(close_gaps(&pieces, &mut notes, bitmap, closing, &mut tally))
}

/// The pixels in the columns and rows from -1 to 3, the top row first: `#` if they are set.
type Picture = [&'static [u8; 5]; 5];

/// Whether the set pixels of a bitmap are exactly these.
fn looks(bitmap: &Bitmap, picture: &Picture) -> bool {
    for down in 0..5usize {
        for across in 0..5usize {
            let wanted = picture[down][across] == b'#';
            if bitmap.bit(across as i32 - 1, 3 - down as i32) != wanted {
                return false;
            }
        }
    }
    true
}

/// Whether a scan of an outline in a frame, with its gaps closed, sets exactly these pixels.
fn shows(alloc: Global, row: &(&[Curve], Corner, Closing, Picture)) -> Result<bool, Fail> {
    let bitmap = closed(alloc, row.0, row.1, row.2)?;
    Ok(looks(&bitmap, &row.3))
}

/// All pixels from column and row -1 to 3.
const ALL: Corner = (8, 8, 5, 5);

/// A hairline of three pixels between two rows, and one between two columns.
const BETWEEN_ROWS: [Curve; 4] = [
    ((0, 100), None, (384, 100)),
    ((384, 100), None, (384, 110)),
    ((384, 110), None, (0, 110)),
    ((0, 110), None, (0, 100)),
];

const BETWEEN_COLUMNS: [Curve; 4] = [
    ((100, 0), None, (110, 0)),
    ((110, 0), None, (110, 384)),
    ((110, 384), None, (100, 384)),
    ((100, 384), None, (100, 0)),
];

/// A dot between four centres, which no row and no column of centres goes through, and one that a row goes through.
const DOT: [Curve; 3] = [
    ((120, 120), None, (136, 120)),
    ((136, 120), None, (128, 136)),
    ((128, 136), None, (120, 120)),
];

const DOT_ON_ROW: [Curve; 3] = [
    ((100, 50), None, (120, 50)),
    ((120, 50), None, (110, 80)),
    ((110, 80), None, (100, 50)),
];

/// A corner that touches a row of centres, and the tip of an arc that does.
const TOUCH: [Curve; 3] = [
    ((100, 0), None, (156, 0)),
    ((156, 0), None, (128, 64)),
    ((128, 64), None, (100, 0)),
];

const TIP: [Curve; 2] = [
    ((100, 0), Some((128, 128)), (156, 0)),
    ((156, 0), None, (100, 0)),
];

/// A stroke without width that goes through a row of centres and then through a column: the pixel that the row sets is an end of
/// both gaps.
const ROW_AND_COLUMN: [Curve; 2] = [((118, 86), None, (46, -2)), ((46, -2), None, (118, 86))];

const ONE: Picture = [b".....", b".....", b".....", b".#...", b"....."];

const NONE: Picture = [b"....."; 5];

const LEFT: Picture = [b".....", b".#...", b".#...", b".#...", b"....."];

const RIGHT: Picture = [b".....", b"..#..", b"..#..", b"..#..", b"....."];

const LOWER: Picture = [b".....", b".....", b".....", b".###.", b"....."];

const UPPER: Picture = [b".....", b".....", b".###.", b".....", b"....."];

/// Two stems, in the right halves of two segments one after the other.
const TWO_STEMS: [Curve; 8] = [
    ((140, 0), None, (150, 0)),
    ((150, 0), None, (150, 384)),
    ((150, 384), None, (140, 384)),
    ((140, 384), None, (140, 0)),
    ((290, 0), None, (300, 0)),
    ((300, 0), None, (300, 384)),
    ((300, 384), None, (290, 384)),
    ((290, 384), None, (290, 0)),
];

const BOTH: Picture = [b".....", b"..##.", b"..##.", b"..##.", b"....."];

/// Outlines, the pixels that a scan looks at, and those that are set. Where the left or the lower pixel of a gap lies outside the
/// frame, the other is set. A gap stays one if the gap before it has set the pixel between them.
static GAPS: [(&[Curve], Corner, Closing, Picture); 10] = [
    (&BETWEEN_ROWS, ALL, Closing::Lower, LOWER),
    (&BETWEEN_COLUMNS, ALL, Closing::Lower, LEFT),
    (&DOT, ALL, Closing::Lower, NONE),
    (&DOT_ON_ROW, ALL, Closing::Lower, ONE),
    (&TOUCH, ALL, Closing::Lower, ONE),
    (&TIP, ALL, Closing::Lower, ONE),
    (&ROW_AND_COLUMN, ALL, Closing::Lower, ONE),
    (&BETWEEN_COLUMNS, (10, 8, 3, 5), Closing::Lower, RIGHT),
    (&BETWEEN_ROWS, (8, 10, 5, 3), Closing::Lower, UPPER),
    (&TWO_STEMS, ALL, Closing::Nearer, BOTH),
];

#[test]
fn gaps(rt: HostRuntime) -> Result<(), Fail> {
    for row in &GAPS {
        assert!(rt; shows(rt.alloc(), row)?);
    }
    Ok(())
}

/// A stem from the left to the right coordinate, three pixels high.
fn stem(left: i16, right: i16) -> [Curve; 4] {
    [
        ((left, 0), None, (right, 0)),
        ((right, 0), None, (right, 384)),
        ((right, 384), None, (left, 384)),
        ((left, 384), None, (left, 0)),
    ]
}

/// A bar from the lower to the upper coordinate, three pixels wide.
fn bar(lower: i16, upper: i16) -> [Curve; 4] {
    [
        ((0, lower), None, (384, lower)),
        ((384, lower), None, (384, upper)),
        ((384, upper), None, (0, upper)),
        ((0, upper), None, (0, lower)),
    ]
}

/// Whether a stem, with its gaps closed to the nearer pixels of a frame, sets exactly these pixels.
fn shows_stem(alloc: Global, row: &(i16, i16, Corner, Picture)) -> Result<bool, Fail> {
    let (left, right, frame, picture) = *row;
    shows(
        alloc,
        &(&stem(left, right), frame, Closing::Nearer, picture),
    )
}

/// The same of a bar.
fn shows_bar(alloc: Global, row: &(i16, i16, Corner, Picture)) -> Result<bool, Fail> {
    let (lower, upper, frame, picture) = *row;
    shows(
        alloc,
        &(&bar(lower, upper), frame, Closing::Nearer, picture),
    )
}

/// Between the centres at 64 and 192 the places 65 to 127 are nearer to the first, and 129 to 191 to the second. A stem of 120 to
/// 136 covers eight of each, so that the left pixel is set; one of 121 to 136 seven and eight. If the nearer pixel of a gap lies
/// outside the frame, the other is set.
/// Stems: their sides, the pixels that a scan looks at, and those that are set.
static STEMS: [(i16, i16, Corner, Picture); 8] = [
    (100, 110, ALL, LEFT),
    (126, 128, ALL, LEFT),
    (120, 136, ALL, LEFT),
    (121, 136, ALL, RIGHT),
    (128, 130, ALL, RIGHT),
    (190, 191, ALL, RIGHT),
    (140, 150, (8, 8, 2, 5), LEFT),
    (100, 110, (10, 8, 3, 5), RIGHT),
];

#[test]
fn nearer_of_a_row(rt: HostRuntime) -> Result<(), Fail> {
    for row in &STEMS {
        assert!(rt; shows_stem(rt.alloc(), row)?);
    }
    Ok(())
}

/// The same of bars.
static BARS: [(i16, i16, Corner, Picture); 6] = [
    (100, 110, ALL, LOWER),
    (120, 136, ALL, LOWER),
    (121, 136, ALL, UPPER),
    (190, 191, ALL, UPPER),
    (140, 150, (8, 8, 5, 2), LOWER),
    (100, 110, (8, 10, 5, 3), UPPER),
];

#[test]
fn nearer_of_a_column(rt: HostRuntime) -> Result<(), Fail> {
    for row in &BARS {
        assert!(rt; shows_bar(rt.alloc(), row)?);
    }
    Ok(())
}

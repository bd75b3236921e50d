//! What pieces add to rows of pixels, by hand.
use crate::curves::{Curve, frame, piece};
use fx_rows::{OnRow, RowPart, Run, interval};
use fx_winding::{Frame, Tally};

/// What a piece adds to a row where it is not.
const NOTHING: RowPart = RowPart {
    crossing: None,
    region: None,
    on: OnRow::None,
};

/// What a curve adds to a row of a frame.
fn part(curve: Curve, row: i32, frame: Frame, tally: &mut Tally) -> RowPart {
    if frame.bottom <= row && i64::from(row) < i64::from(frame.bottom) + i64::from(frame.height) {
        return interval(&piece(curve), row, frame, tally);
    }
    NOTHING
}

/// What a hill adds to a row.
const UNDER_HILL: RowPart = RowPart {
    region: Some(Run {
        first: 0,
        last: 1,
        value: -1,
    }),
    ..NOTHING
};

/// What an arc through two centres adds to a row.
const TWO_CENTRES: RowPart = RowPart {
    on: OnRow::Two(0, 1),
    ..NOTHING
};

#[test]
fn parts_by_hand(rt: HostRuntime) {
    let mut tally = Tally::new();
    let low = frame(0, -2, 2, 5);
    let hill = ((0, 64), Some((128, 320)), (256, 64));
    assert!(rt; part(hill, 0, low, &mut tally) == UNDER_HILL);
    let dale = ((256, 64), Some((128, -192)), (0, 64));
    assert!(rt; part(dale, 0, low, &mut tally) == NOTHING);
    let low_hill = ((0, 16), Some((128, 144)), (256, 16));
    assert!(rt; part(low_hill, 0, frame(0, 0, 2, 1), &mut tally) == TWO_CENTRES);
    assert!(rt; tally.tests() <= 30);
}

/// Pieces, and the columns of row 0 whose centres lie on them.
static ON_ROW: [(Curve, OnRow); 3] = [
    (((0, 256), Some((0, 0)), (256, 0)), OnRow::One(0)),
    (((256, 0), Some((512, 0)), (512, 256)), OnRow::One(3)),
    (((300, 64), None, (0, 64)), OnRow::Range(0, 1)),
];

#[test]
fn columns_on_pieces(rt: HostRuntime) {
    let mut tally = Tally::new();
    let square = frame(0, 0, 4, 4);
    for &(curve, wanted) in &ON_ROW {
        assert!(rt; part(curve, 0, square, &mut tally).on == wanted);
    }
    assert!(rt; tally.tests() <= 30);
}

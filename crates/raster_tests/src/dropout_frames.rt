//! The frames of small outlines with drop-out control, by hand.
use crate::contours::{Sides, on, outline, sides};
use fx_contour::{ContourFault, dropout_frame, outline_frame, pieces, pieces_dropout_frame};
use fx_outline::Outline;
use fx_winding::Frame;
use std::alloc::{AllocError, Global};
use std::test::Fail;

/// The sides of a frame with drop-out control, or why there is none.
type Kept = Result<Option<Sides>, ContourFault>;

/// The frame with drop-out control, by an outline's pieces.
fn by_pieces(alloc: Global, outline: &Outline) -> Result<Option<Frame>, ContourFault> {
    pieces_dropout_frame(&pieces(alloc, outline)?)
}

/// Whether the frame with drop-out control has these sides, by an outline's points and by its pieces.
fn keeps(alloc: Global, outline: &Outline, wanted: Kept) -> bool {
    sides(dropout_frame(outline)) == wanted && sides(by_pieces(alloc, outline)) == wanted
}

/// An outline of two points.
fn hairline(alloc: Global, from: (i32, i32), to: (i32, i32)) -> Result<Outline, AllocError> {
    outline(alloc, &[on(from.0, from.1), on(to.0, to.1)], &[1])
}

/// Whether a hairline has this frame, and none without drop-out control.
fn is_kept(alloc: Global, row: &((i32, i32), (i32, i32), Kept)) -> Result<bool, Fail> {
    let outline = hairline(alloc, row.0, row.1)?;
    let is_needed = row.2.is_err() || sides(outline_frame(&outline)) == Ok(None);
    Ok(is_needed && keeps(alloc, &outline, row.2))
}

/// Hairlines on the border of two rows and of two columns keep the upper and the right one. The widest goes from the centre of
/// column 0 to the centre of column 8,191. 2^21 - 128 in 26.6 pixels, the limit, is the border of columns 32,765 and 32,766, and
/// its negative the border of -32,767 and -32,766.
static HAIRLINES: [((i32, i32), (i32, i32), Kept); 7] = [
    ((0, 64), (256, 64), Ok(Some((0, 1, 4, 1)))),
    ((-64, -64), (-64, 64), Ok(Some((-1, -1, 1, 2)))),
    ((32, 0), (524_256, 0), Ok(Some((0, 0, 8_192, 1)))),
    ((32, 0), (524_320, 0), Err(ContourFault::TooLarge)),
    ((2_097_024, 0), (2_097_024, 32), Ok(Some((32_766, 0, 1, 1)))),
    (
        (-2_097_024, 0),
        (-2_097_024, 32),
        Ok(Some((-32_766, 0, 1, 1))),
    ),
    ((2_097_025, 0), (2_097_024, 32), Err(ContourFault::TooFar)),
];

#[test]
fn hairlines(rt: HostRuntime) -> Result<(), Fail> {
    for row in &HAIRLINES {
        assert!(rt; is_kept(rt.alloc(), row)?);
    }
    Ok(())
}

/// A dot between four centres: its middle lies in column 1 and row 0.
#[test]
fn a_dot(rt: HostRuntime) -> Result<(), Fail> {
    let dot = outline(rt.alloc(), &[on(50, 40), on(90, 40), on(70, 80)], &[2])?;
    assert!(rt; keeps(rt.alloc(), &dot, Ok(Some((1, 0, 1, 1)))));
    Ok(())
}

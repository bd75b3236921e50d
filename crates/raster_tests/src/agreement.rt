//! Random outlines: the scan by rows against the scan by pixels, arcs against their halves, and closed gaps against drop-out
//! control as it is defined.

use crate::closed::Drawing;
use crate::random::{MOST_PIECES, Random};
use fx_contour::pieces_dropout_frame;
use fx_dropout::{Closing, close_gaps};
use fx_rows::Rows;
use fx_symmetry::halves;
use fx_winding::{Bitmap, Frame, Noted, Piece, Pieces, Plain, Scan, Scratch, Tally};
use std::alloc::{AllocError, Global};
use std::test::Fail;

/// Whether two bitmaps have the same bits in a frame.
fn are_same(one: &Bitmap, other: &Bitmap, frame: Frame) -> bool {
    for up in 0..frame.height {
        let row = frame.bottom + up as i32;
        for across in 0..frame.width {
            let col = frame.left + across as i32;
            if one.bit(col, row) != other.bit(col, row) {
                return false;
            }
        }
    }
    true
}

/// Adds a piece, if the list has room and can hold it: those of random outlines are few, and near.
fn add(pieces: &mut Pieces, piece: Piece) -> Result<(), AllocError> {
    if pieces.len() < MOST_PIECES && piece.is_near() {
        pieces.push(piece)?;
    }
    Ok(())
}

/// The outline with the halves of each arc that has any in its place.
fn halved(alloc: Global, pieces: &Pieces) -> Result<Pieces, AllocError> {
    let mut halved = Pieces::new(alloc);
    for piece in pieces.as_slice() {
        match halves(piece) {
            None => add(&mut halved, *piece)?,
            Some((first, second)) => {
                add(&mut halved, first)?;
                add(&mut halved, second)?;
            }
        }
    }
    Ok(halved)
}

/// Whether the gaps of an outline are closed where they are noted just as drop-out control is defined, in its own frame.
fn closes_the_same(alloc: Global, pieces: &Pieces) -> Result<bool, Fail> {
    let Some(frame) = pieces_dropout_frame(pieces)? else {
        return Ok(true);
    };
    let mut tally = Tally::new();
    let mut scratch = Scratch::new(alloc);
    let Noted { bitmap, mut notes } = Rows.scan_noted(
        alloc,
        pieces,
        frame,
        &mut scratch,
        &mut tally,
    )?;
    let closed = close_gaps(pieces, &mut notes, bitmap, Closing::Lower, &mut tally);
    let drawing = Drawing {
        pieces,
        turned: &pieces.turned(alloc)?,
        frame,
    };
    Ok(drawing.is_drawn_in(&closed, &mut tally))
}

/// Whether the scan by rows of an outline sets the bits that the scan by pixels sets, and those that it sets with halves.
fn scans_the_same(alloc: Global, pieces: &Pieces, frame: Frame) -> Result<bool, Fail> {
    let mut tally = Tally::new();
    let by_rows = Rows.scan(alloc, pieces, frame, &mut tally)?;
    let by_pixels = Plain.scan(alloc, pieces, frame, &mut tally)?;
    let with_halves = Rows.scan(alloc, &halved(alloc, pieces)?, frame, &mut tally)?;
    Ok(are_same(&by_rows, &by_pixels, frame) && are_same(&by_rows, &with_halves, frame))
}

#[test]
fn random_outlines(rt: HostRuntime) -> Result<(), Fail> {
    let mut random = Random::new(1);
    for k in 0..200 {
        let outline = random.outline(rt.alloc(), 1 + k % 2)?;
        assert!(rt;
            scans_the_same(rt.alloc(), &outline, random.frame())?,
            "{k}"
        );
        assert!(rt; closes_the_same(rt.alloc(), &outline)?, "{k}");
    }
    Ok(())
}

/// Arcs that bulge past their ends, hairlines and lenses.
#[test]
fn random_thin_outlines(rt: HostRuntime) -> Result<(), Fail> {
    let mut random = Random::new(1);
    for k in 0..120 {
        let outline = random.thin_outline(rt.alloc(), 1 + k % 4)?;
        assert!(rt;
            scans_the_same(rt.alloc(), &outline, random.frame())?,
            "{k}"
        );
        assert!(rt; closes_the_same(rt.alloc(), &outline)?, "{k}");
    }
    Ok(())
}

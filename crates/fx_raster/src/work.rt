//! How much work it is to draw a shape, counted before it is drawn.
ghost use Rattle.std.specs.Prelude.{◌≡◌, ◌+◌, ◌≤◌, ◌<◌, ◌^◌, List, map, IfOk};
ghost use Rattle.std.specs.List.{sum_by};
ghost use Rattle.fx_winding.specs.Frames.{HasMargin};
ghost use Rattle.fx_winding.specs.Outside.{AreOfOutline};
ghost use Rattle.fx_winding.specs.Winding.{Span, place_of, span_of};
ghost use Rattle.fx_contour.specs.Frames.{NothingOutsideFrame};
ghost use Rattle.fx_dropout.specs.Work.{closing_work, HoldsGaps};
ghost use Rattle.fx_dropout.specs.declared.chooser.Closing.TheVariants.{Nearer};
ghost use Rattle.fx_raster.specs.Frames.{IsFramedBy};
ghost use Rattle.fx_raster.specs.Work.{bridging_work, columns_of, control_of, crossed, drawing_work, frame_work, piece_work, rows_of, within};

use crate::rule::Rule;
use fx_dropout::{Closing, add_within, closing_work};
use fx_winding::{Frame, Piece, Pieces, Point, Scan, ScanFault, Scratch, Tally};
use std::alloc::{AllocError, Global};

/// The units of 1/128 pixel in a pixel.
const PIXEL: usize = 128;

/// The pixels of a row that count as much as a piece.
const ROW_PART: usize = 256;

/// The rows, or columns, that the points with three coordinates, in 1/128 pixel, cross.
fn crossed(a: i32, b: i32, c: i32) -> usize
    ensures value { result ≡ crossed a b c }
    ensures size { result < 2 ^ 32 }
{
    let least = a.min(b.min(c));
    let greatest = a.max(b.max(c));
    greatest.abs_diff(least) as usize / PIXEL + 1
}

/// The control point of an arc, or the end of a line.
fn control_of(piece: &Piece) -> Point
    ensures { place_of result ≡ control_of (span_of piece.now) }
{
    match piece.b {
        Some(b) => b,
        None => piece.c,
    }
}

/// The rows that a piece crosses.
fn rows_of(piece: &Piece) -> usize
    ensures value { result ≡ rows_of (span_of piece.now) }
    ensures size { result < 2 ^ 32 }
{
    crossed(piece.a.y, control_of(piece).y, piece.c.y)
}

/// The columns that a piece crosses.
fn columns_of(piece: &Piece) -> usize
    ensures value { result ≡ columns_of (span_of piece.now) }
    ensures size { result < 2 ^ 32 }
{
    crossed(piece.a.x, control_of(piece).x, piece.c.x)
}

/// The work of a piece: 1, the rows that it crosses, and with drop-out control the columns too.
fn piece_work(rule: Rule, piece: &Piece) -> usize
    ensures { result ≡ piece_work rule (span_of piece.now) }
{
    match rule {
        Rule::Centres => 1 + rows_of(piece),
        Rule::Bridged(_) => 1 + rows_of(piece) + columns_of(piece),
    }
}

/// The work of a frame: for each row 1 for each 256 columns or fewer.
fn frame_work(frame: Option<Frame>) -> usize
    ensures { (rule : Rule) (ss : List Span) → IsFramedBy rule frame ss → result ≡ frame_work rule ss }
{
    match frame {
        Some(f) => f.height as usize * (f.width as usize).div_ceil(ROW_PART),
        None => 0,
    }
}

/// The work before and that of all pieces; none if it is more than `most`. It stops at the first piece that goes past that.
fn pieces_within(pieces: &Pieces, rule: Rule, before: usize, most: usize) -> Option<usize>
    requires { before ≤ most }
    ensures { result ≡ within most (before + sum_by (piece_work rule) (map span_of pieces.now)) }
{
    let mut work = before;
    // `work` is that before and of the pieces before this one, and no more than `most`.
    'pieces: for piece in pieces.as_slice() {
        work = add_within(work, piece_work(rule, piece), most)?;
    }
    Some(work)
}

/// The work so far and that of closing the gaps of a frame by the nearer pixel; none if it is more than `most`. A scan finds the
/// gaps; its bits and its notes leave their buffers to the next one.
fn gaps_within<S: Scan>(
    alloc: Global,
    scan: &S,
    pieces: &Pieces,
    frame: Frame,
    scratch: &mut Scratch,
    work: usize,
    most: usize,
) -> Result<Option<usize>, AllocError>
    requires margin { HasMargin frame }
    requires around { HoldsGaps frame (map span_of pieces.now) }
    requires few { work ≤ most }
    ensures { IfOk result (λ w. w ≡ within most (work + closing_work Nearer (map span_of pieces.now))) }
{
    let mut tally = Tally::new();
    match scan.scan_noted(alloc, pieces, frame, scratch, &mut tally) {
        Ok(noted) => {
            let mut notes = noted.notes;
            let work = closing_work(pieces, &mut notes, &noted.bitmap, work, most);
            scratch.give_back_notes(notes);
            scratch.give_back(noted.bitmap);
            Ok(work)
        }
        Err(ScanFault::OutOfMemory) => Err(AllocError),
    }
}

/// The same by either way to close gaps: where the lower pixel closes each, there is nothing to ask.
fn closing_within<S: Scan>(
    alloc: Global,
    scan: &S,
    pieces: &Pieces,
    frame: Frame,
    closing: Closing,
    scratch: &mut Scratch,
    work: usize,
    most: usize,
) -> Result<Option<usize>, AllocError>
    requires margin { HasMargin frame }
    requires around { HoldsGaps frame (map span_of pieces.now) }
    requires few { work ≤ most }
    ensures { IfOk result (λ w. w ≡ within most (work + closing_work closing (map span_of pieces.now))) }
{
    match closing {
        Closing::Lower => Ok(Some(work)),
        Closing::Nearer => gaps_within(alloc, scan, pieces, frame, scratch, work, most),
    }
}

/// The work so far and that of closing the gaps of a shape by its rule; none if it is more than `most`.
fn bridging_within<S: Scan>(
    alloc: Global,
    scan: &S,
    pieces: &Pieces,
    rule: Rule,
    frame: Option<Frame>,
    scratch: &mut Scratch,
    work: usize,
    most: usize,
) -> Result<Option<usize>, AllocError>
    requires closed { AreOfOutline (map span_of pieces.now) }
    requires outside { NothingOutsideFrame frame (map span_of pieces.now) }
    requires framed { IsFramedBy rule frame (map span_of pieces.now) }
    requires few { work ≤ most }
    ensures { IfOk result (λ w. w ≡ within most (work + bridging_work rule (map span_of pieces.now))) }
{
    let Some(frame) = frame else {
        return Ok(Some(work));
    };
    match rule {
        Rule::Centres => Ok(Some(work)),
        Rule::Bridged(closing) => {
            closing_within(alloc, scan, pieces, frame, closing, scratch, work, most)
        }
    }
}

/// The work of the frame of a shape and of its pieces; none if it is more than `most`.
fn shape_within(pieces: &Pieces, rule: Rule, frame: Option<Frame>, most: usize) -> Option<usize>
    requires framed { IsFramedBy rule frame (map span_of pieces.now) }
    ensures { result ≡ within most (frame_work rule (map span_of pieces.now)
        + sum_by (piece_work rule) (map span_of pieces.now)) }
{
    let work = add_within(0, frame_work(frame), most)?;
    pieces_within(pieces, rule, work, most)
}

/// The work of drawing the pieces of a shape; none if it is more than `most`.
pub(crate) fn work_within<S: Scan>(
    alloc: Global,
    scan: &S,
    pieces: &Pieces,
    rule: Rule,
    frame: Option<Frame>,
    scratch: &mut Scratch,
    most: usize,
) -> Result<Option<usize>, AllocError>
    requires closed { AreOfOutline (map span_of pieces.now) }
    requires outside { NothingOutsideFrame frame (map span_of pieces.now) }
    requires framed { IsFramedBy rule frame (map span_of pieces.now) }
    ensures { IfOk result (λ w. w ≡ within most (drawing_work rule (map span_of pieces.now))) }
{
    match shape_within(pieces, rule, frame, most) {
        Some(work) => bridging_within(alloc, scan, pieces, rule, frame, scratch, work, most),
        None => Ok(None),
    }
}

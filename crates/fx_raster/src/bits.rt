//! The bits of an outline's pieces in their frame.
ghost use Rattle.std.specs.Prelude.{◌≡◌, ℤ, map, IfOk};
ghost use Rattle.fx_winding.specs.Winding.{centre, span_of, IsCovered};
ghost use Rattle.fx_winding.specs.Bitmaps.{IsScanOf};
ghost use Rattle.fx_winding.specs.Outside.{AreOfOutline};
ghost use Rattle.fx_winding.specs.Frames.{HasMargin, IsInFrame};
ghost use Rattle.fx_contour.specs.Frames.{NothingOutsideFrame};
ghost use Rattle.fx_raster.specs.Frames.{IsFramedBy};
ghost use Rattle.fx_raster.specs.inner.Framing.{HasBitsOf, IsBridgedScanOf};

use crate::rule::Rule;
use fx_dropout::{Closing, close_gaps};
use fx_winding::{Bitmap, Frame, Notes, Pieces, Scan, ScanFault, Scratch, Tally};
use std::alloc::{AllocError, Global};

/// A bitmap without a pixel.
fn empty_bitmap(alloc: Global) -> Result<Bitmap, AllocError>
    ensures { IfOk result (λ b. b.frame.width ≡ 0) }
{
    let frame = Frame {
        left: 0,
        bottom: 0,
        width: 0,
        height: 0,
    };
    Bitmap::new(alloc, frame)
}

/// The bits of a frame.
///
/// It stays a function of its own: the loops of the scan need all registers.
#[inline(never)]
fn scanned<S: Scan>(
    alloc: Global,
    scan: &S,
    pieces: &Pieces,
    frame: Frame,
    scratch: &mut Scratch,
) -> Result<Bitmap, AllocError>
    ensures { IfOk result (IsScanOf frame (map span_of pieces.now)) }
{
    let mut tally = Tally::new();
    match scan.scan_with(alloc, pieces, frame, scratch, &mut tally) {
        Ok(bitmap) => Ok(bitmap),
        Err(ScanFault::OutOfMemory) => Err(AllocError),
    }
}

/// The bits of a frame with drop-out control: those of a scan, and those that close gaps. The notes leave their buffers to the next
/// scan.
#[inline(never)]
fn bridged<S: Scan>(
    alloc: Global,
    scan: &S,
    pieces: &Pieces,
    frame: Frame,
    closing: Closing,
    scratch: &mut Scratch,
) -> Result<Bitmap, AllocError>
    requires margin { HasMargin frame }
    requires outside { (i j : ℤ) → ¬ (IsInFrame frame i j) → ¬ (IsCovered (centre i j) (map span_of pieces.now)) }
    ensures { IfOk result (IsBridgedScanOf closing frame (map span_of pieces.now)) }
{
    let mut tally = Tally::new();
    match scan.scan_noted(alloc, pieces, frame, scratch, &mut tally) {
        Ok(noted) => {
            let mut notes = noted.notes;
            let bits = close_gaps(pieces, &mut notes, noted.bitmap, closing, &mut tally);
            scratch.give_back_notes(notes);
            Ok(bits)
        }
        Err(ScanFault::OutOfMemory) => Err(AllocError),
    }
}

/// The bits of closed contours in their frame, by a rule; none if there is no frame.
pub(crate) fn bitmap_of<S: Scan>(
    alloc: Global,
    scan: &S,
    pieces: &Pieces,
    rule: Rule,
    frame: Option<Frame>,
    scratch: &mut Scratch,
) -> Result<Bitmap, AllocError>
    requires closed { AreOfOutline (map span_of pieces.now) }
    requires outside { NothingOutsideFrame frame (map span_of pieces.now) }
    requires framed { IsFramedBy rule frame (map span_of pieces.now) }
    ensures { IfOk result (HasBitsOf rule (map span_of pieces.now)) }
{
    let Some(frame) = frame else {
        return empty_bitmap(alloc);
    };
    match rule {
        Rule::Centres => scanned(alloc, scan, pieces, frame, scratch),
        Rule::Bridged(closing) => bridged(alloc, scan, pieces, frame, closing, scratch),
    }
}

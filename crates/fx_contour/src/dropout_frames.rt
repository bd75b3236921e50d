//! The box of pixels around pieces, with drop-out control.

ghost use Rattle.std.specs.Prelude.{◌≡◌, List, map, All, IfOk};
ghost use Rattle.fx_fixed.specs.Chain.{map_ok};
ghost use Rattle.fx_winding.specs.Winding.{Span, span_of};
ghost use Rattle.fx_contour.specs.Bounds.{AreBoundsOf};
ghost use Rattle.fx_contour.specs.Contours.{spans_of, IsInReach};
ghost use Rattle.fx_contour.specs.Frames.{NothingOutsideFrame};
ghost use Rattle.fx_contour.specs.DropoutFrames.{IsDropoutFrameFor, HaveMargin, dropout_framed_of, outline_dropout_framed_of};

use crate::bounds::PieceBounds;
use crate::fault::ContourFault;
use crate::frames::{box_of, outline_bounds};
use crate::pixels::Pixels;
use fx_outline::Outline;
use fx_winding::{Frame, Pieces};

/// The frame of the pieces of an outline with drop-out control, which has a pixel wherever there is a piece: in each direction the
/// pixels whose centres lie in the bounding box, or, if none does, the one in which its middle lies. `TooFar` if a point of any
/// contour lies too far out, or one of a piece less than two pixels nearer; `TooLarge` past `MAX_SIDE` pixels a side. It takes no
/// memory.
pub fn dropout_frame(outline: &Outline) -> Result<Option<Frame>, ContourFault>
    ensures exact { map_ok (λ _. tt) result ≡ outline_dropout_framed_of outline.now.ends.items outline.now.points.items }
    ensures ok { IfOk result (λ f. IsDropoutFrameFor f (spans_of outline.now.ends.items outline.now.points.items)) }
    ensures outside { IfOk result (λ f. NothingOutsideFrame f (spans_of outline.now.ends.items outline.now.points.items)) }
    ensures reach { IfOk result (λ _. All IsInReach outline.now.points.items) }
    ensures margin { IfOk result HaveMargin }
{
    dropout_frame_around(outline_bounds(outline)?)
}

/// The frame of pieces with drop-out control, as `dropout_frame` returns it for those of an outline.
pub fn pieces_dropout_frame(pieces: &Pieces) -> Result<Option<Frame>, ContourFault>
    ensures exact { map_ok (λ _. tt) result ≡ dropout_framed_of (map span_of pieces.now) }
    ensures ok { IfOk result (λ f. IsDropoutFrameFor f (map span_of pieces.now)) }
    ensures outside { IfOk result (λ f. NothingOutsideFrame f (map span_of pieces.now)) }
    ensures margin { IfOk result HaveMargin }
{
    dropout_frame_around(PieceBounds::of(pieces.as_slice()))
}

/// The frame with drop-out control of the spans that have this bounding box, if they have one.
fn dropout_frame_around(bounds: Option<PieceBounds>) -> Result<Option<Frame>, ContourFault>
    ensures exact { (ss : List Span) → AreBoundsOf bounds ss → map_ok (λ _. tt) result ≡ dropout_framed_of ss }
    ensures ok { (ss : List Span) → AreBoundsOf bounds ss → IfOk result (λ f. IsDropoutFrameFor f ss) }
    ensures margin { IfOk result HaveMargin }
{
    let Some(bounds) = bounds else {
        return Ok(None);
    };
    if !bounds.leaves_margin() {
        return Err(ContourFault::TooFar);
    }
    let columns = Pixels::kept(bounds.left, bounds.right);
    let rows = Pixels::kept(bounds.bottom, bounds.top);
    Ok(Some(box_of(columns, rows)?))
}

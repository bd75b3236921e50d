//! The box of pixels around pieces.

ghost use Rattle.std.specs.Prelude.{◌≡◌, ◌↔◌, ◌⊎◌, ◌<◌, List, map, All, Err, IfOk, IfErr, IsErrOf};
ghost use Rattle.fx_fixed.specs.Chain.{map_ok};
ghost use Rattle.fx_winding.specs.Limits.{greatest_side};
ghost use Rattle.fx_winding.specs.Winding.{Span, span_of};
ghost use Rattle.fx_contour.specs.Bounds.{AreBoundsOf, IsBoxOf};
ghost use Rattle.fx_contour.specs.Contours.{spans_of, IsInReach, drawn_of};
ghost use Rattle.fx_contour.specs.Frames.{IsFrameFor, AreTooLarge, NothingOutsideFrame, framed_of, outline_framed_of};

use crate::bounds::PieceBounds;
use crate::extent::Extent;
use crate::fault::ContourFault;
use crate::pixels::Pixels;
use fx_outline::Outline;
use fx_winding::{Frame, MAX_SIDE, Pieces};

/// The least box of pixels that holds every pixel whose centre lies in the closed bounding box of the points of the pieces,
/// control points too; `None` if it holds no pixel, `TooLarge` past `MAX_SIDE` pixels a side. A pixel outside it is not set.
pub fn frame(pieces: &Pieces) -> Result<Option<Frame>, ContourFault>
    ensures ok { IfOk result (λ f. IsFrameFor f (map span_of pieces.now)) }
    ensures outside { IfOk result (λ f. NothingOutsideFrame f (map span_of pieces.now)) }
    ensures too_large { IsErrOf result ContourFault.TooLarge ↔ AreTooLarge (map span_of pieces.now) }
    ensures fault { IfErr result (λ e. (e ≡ ContourFault.TooLarge) × AreTooLarge (map span_of pieces.now)) }
    ensures exact { map_ok (λ _. tt) result ≡ framed_of (map span_of pieces.now) }
{
    frame_around(PieceBounds::of(pieces.as_slice()))
}

/// The frame of the pieces of an outline, as `frame` returns it, or `TooFar` if a point of any contour lies too far out. It
/// makes no pieces, so it takes no memory.
pub fn outline_frame(outline: &Outline) -> Result<Option<Frame>, ContourFault>
    ensures exact { map_ok (λ _. tt) result ≡ outline_framed_of outline.now.ends.items outline.now.points.items }
    ensures ok { IfOk result (λ f. IsFrameFor f (spans_of outline.now.ends.items outline.now.points.items)) }
    ensures outside { IfOk result (λ f. NothingOutsideFrame f (spans_of outline.now.ends.items outline.now.points.items)) }
    ensures reach { IfOk result (λ _. All IsInReach outline.now.points.items) }
{
    frame_around(outline_bounds(outline)?)
}

/// The bounding box of the pieces of an outline, if it has any pieces, or `TooFar` if a point of any contour lies too far out.
#[inline(always)]
pub(crate) fn outline_bounds(outline: &Outline) -> Result<Option<PieceBounds>, ContourFault>
    ensures ok { IfOk result (λ b. AreBoundsOf b (spans_of outline.now.ends.items outline.now.points.items)) }
    ensures reach { IfOk result (λ _. All IsInReach outline.now.points.items) }
    ensures fault { IfErr result (λ e. drawn_of outline.now.ends.items outline.now.points.items ≡ Err e) }
{
    let Some(all) = Extent::of(&outline.points) else {
        return Ok(None);
    };
    if !all.keeps_limit() {
        return Err(ContourFault::TooFar);
    }
    Ok(PieceBounds::of_outline(outline, all))
}

/// The frame of the spans that have this bounding box, if they have one.
fn frame_around(bounds: Option<PieceBounds>) -> Result<Option<Frame>, ContourFault>
    ensures ok { (ss : List Span) → AreBoundsOf bounds ss → IfOk result (λ f. IsFrameFor f ss) }
    ensures fault { (ss : List Span) → AreBoundsOf bounds ss → IfErr result (λ e. (e ≡ ContourFault.TooLarge) × AreTooLarge ss) }
{
    let Some(bounds) = bounds else {
        return Ok(None);
    };
    let Some(columns) = Pixels::between(bounds.left, bounds.right) else {
        return Ok(None);
    };
    let Some(rows) = Pixels::between(bounds.bottom, bounds.top) else {
        return Ok(None);
    };
    Ok(Some(box_of(columns, rows)?))
}

/// The box of these columns and rows, or `TooLarge` past `MAX_SIDE` pixels a side.
pub(crate) fn box_of(columns: Pixels, rows: Pixels) -> Result<Frame, ContourFault>
    ensures ok { IfOk result (λ f. IsBoxOf f columns rows) }
    ensures fault { IfErr result (λ e. (e ≡ ContourFault.TooLarge) × (greatest_side < columns.count ⊎ greatest_side < rows.count)) }
{
    if columns.count > MAX_SIDE {
        return Err(ContourFault::TooLarge);
    }
    if rows.count > MAX_SIDE {
        return Err(ContourFault::TooLarge);
    }
    Ok(Frame {
        left: columns.first,
        bottom: rows.first,
        width: columns.count,
        height: rows.count,
    })
}

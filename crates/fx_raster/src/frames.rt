//! The frame of an outline: a box of pixels that holds each pixel that can be set.
ghost use Rattle.std.specs.Prelude.{◌≡◌, All, Err, IfOk, IfErr};
ghost use Rattle.fx_fixed.specs.Chain.{map_ok};
ghost use Rattle.fx_contour.specs.Contours.{IsInReach, spans_of};
ghost use Rattle.fx_contour.specs.Frames.{NothingOutsideFrame};
ghost use Rattle.fx_raster.specs.Frames.{HasFrame, IsFramedBy};
ghost use Rattle.fx_raster.specs.Rules.{shape_of};
ghost use Rattle.fx_raster.specs.inner.Framing.{outline_framed_by};

use crate::RasterFault;
use crate::rule::Rule;
use fx_contour::{dropout_frame, outline_frame};
use fx_outline::Outline;
use fx_winding::Frame;

/// The frame of an outline by a rule. There is none if no pixel's centre lies in the box of the outline's points; with drop-out
/// control only if the outline has no piece. `TooFar` if a point of the outline lies too
/// far out, `TooLarge` if the frame has too many pixels a side. It takes no memory.
#[inline(always)]
pub(crate) fn frame_of(outline: &Outline, rule: Rule) -> Result<Option<Frame>, RasterFault>
    ensures frame { IfOk result (HasFrame rule outline.now.ends.items outline.now.points.items) }
    ensures fault { IfErr result (λ e. shape_of rule outline.now.ends.items outline.now.points.items ≡ Err e) }
{
    frame_by(outline, rule)
}

/// `frame_of` with the clauses of the crate below.
#[inline(always)]
fn frame_by(outline: &Outline, rule: Rule) -> Result<Option<Frame>, RasterFault>
    ensures exact { map_ok (λ _. tt) result ≡ outline_framed_by rule outline.now.ends.items outline.now.points.items }
    ensures frame { IfOk result (λ f. IsFramedBy rule f (spans_of outline.now.ends.items outline.now.points.items)) }
    ensures outside { IfOk result (λ f. NothingOutsideFrame f (spans_of outline.now.ends.items outline.now.points.items)) }
    ensures reach { IfOk result (λ _. All IsInReach outline.now.points.items) }
{
    match rule {
        Rule::Centres => outline_frame(outline),
        Rule::Bridged(_) => dropout_frame(outline),
    }
}

//! Pieces whose columns a frame has. The others are noted apart, with the first band.

ghost use Rattle.std.specs.Prelude.{◌≡◌, IfNone, IfSome, IsTrue, false};
ghost use Rattle.fx_winding.specs.Winding.{span_of};
ghost use Rattle.fx_rows.specs.inner.Placing.{AreColumns, IsBoxed};
ghost use Rattle.fx_rows.specs.inner.Points.{HasColumns};

use crate::across::Across;
use crate::narrow::across_of;
use fx_winding::{Frame, Piece};

/// Whether a frame has some columns.
#[inline(always)]
#[tactic(auto, using(fx_fixed::proofs::Linear::signed_linear))]
fn has_columns(frame: Frame, across: Across) -> bool
    ensures has { IsTrue result → HasColumns frame across }
    ensures lacks { result ≡ false → ¬ (HasColumns frame across) }
{
    if across.first < frame.left {
        return false;
    }
    across.end <= frame.left + frame.width as i32
}

/// The columns of a piece's box, or `None` if the frame lacks one of them.
#[inline(always)]
pub(crate) fn columns_of(piece: &Piece, frame: Frame) -> Option<Across>
    ensures lacks { IfNone result (¬ (IsBoxed frame (span_of piece.now))) }
    ensures columns { IfSome result (AreColumns frame (span_of piece.now)) }
{
    let across = across_of(piece);
    if !has_columns(frame, across) {
        return None;
    }
    Some(across)
}

//! Where a piece passes one row between its ends.

ghost use Rattle.std.specs.Prelude.{◌≡◌, ◌+◌, ◌≤◌, pos, ◌*ℤ◌, ◌+ℤ◌, Some};
ghost use Rattle.fx_winding.specs.Limits.{IsPixelNumber};
ghost use Rattle.fx_rows.specs.inner.Bands.{bounded_span};
ghost use Rattle.fx_rows.specs.inner.Cuts.{IsStripEnd};
ghost use Rattle.fx_rows.specs.inner.Points.{IsInner};
ghost use Rattle.fx_rows.specs.inner.Told.{IsEndOn};

use crate::bounded::Bounded;
use crate::chord::base_side;
use crate::cuts::{ClearCuts, Cuts, LineCuts};
use crate::strip::{Strip, areas_at, strip_of};
use crate::walk::arc_in;
use fx_winding::{Frame, Tally};

/// Where the columns of a strip end that are left of a piece in a row between its ends.
fn end_on(bounded: &Bounded, strip: Strip, tally: &mut Tally) -> u32
    requires inner { IsInner bounded.now.piece.a.y bounded.now.piece.c.y (pos 128 *ℤ strip.row +ℤ pos 64) }
    ensures end { IsStripEnd (bounded_span bounded.now) strip result }
    ensures count { tally.new.count ≤ tally.old.count + 2 }
{
    if bounded.across.end <= bounded.across.first {
        return ClearCuts.end(bounded, strip);
    }
    let piece = &bounded.piece;
    if let Some(mut cuts) = arc_in(piece, strip, tally) {
        return cuts.end(bounded, strip);
    }
    let areas = areas_at(piece, strip, 0, tally);
    let side = base_side(piece, strip, areas);
    LineCuts { side }.end(bounded, strip)
}

/// How many of a frame's columns are left of a piece in a row of the plane that is between the piece's ends.
pub(crate) fn end_in(bounded: &Bounded, frame: Frame, row: i32, tally: &mut Tally) -> u32
    requires row { IsPixelNumber row }
    requires inner { IsInner bounded.now.piece.a.y bounded.now.piece.c.y (pos 128 *ℤ row +ℤ pos 64) }
    ensures end { IsEndOn (bounded_span bounded.now) frame row result }
    ensures count { tally.new.count ≤ tally.old.count + 2 }
{
    end_on(bounded, strip_of(frame, row), tally)
}

//! Rows between the ends of a slanted chord. There the crossing and the region of a piece together are one value before a column
//! and 0 from it on, but for the columns on the piece, which are set anyway.
//!
//! How a row comes to a piece (dots are the centres of its pixels):
//!
//!             c                 __
//!            /                 /  \                     c
//!       . . / . .         . . / . .\ . .           . . / . .         . . a-.-.-c . .
//!          /                 /      \                 a
//!         a                 a        c
//!     between the ends     beyond both ends         at an end             level
//!     one cut (this file)  the run of the region    the end's column      the columns on it

ghost use Rattle.std.specs.Prelude.{◌≡◌, ◌+◌, ◌≤◌, pos, ◌+ℤ◌, ◌*ℤ◌, ◌≤ℤ◌};
ghost use Rattle.fx_winding.specs.Winding.{place_of};
ghost use Rattle.fx_rows.specs.Parts.{IsBent};
ghost use Rattle.fx_rows.specs.inner.Sides.{place_at, side};
ghost use Rattle.fx_rows.specs.inner.Points.{IsInner};
ghost use Rattle.fx_rows.specs.inner.Bands.{bounded_span};
ghost use Rattle.fx_rows.specs.inner.Cuts.{IsCut};

use crate::bounded::Bounded;
use crate::cells::Cut;
use crate::chord::edge_from;
use crate::narrow::columns_before;
use crate::on::met_column;
use crate::part::OnRow;
use crate::strip::Strip;

/// What a line adds, or an arc whose points are on one. Between its ends a centre on the chord's line is on it, so none is tested.
pub(crate) fn line_cut(bounded: &Bounded, strip: Strip, start: i64) -> Cut
    requires straight { ¬ (IsBent (bounded_span bounded.now)) }
    requires inner { IsInner bounded.now.piece.a.y bounded.now.piece.c.y (pos 128 *ℤ strip.row +ℤ pos 64) }
    requires start { start ≡
        side (place_of bounded.now.piece.a) (place_of bounded.now.piece.c) (place_at strip 0) }
    ensures { IsCut (bounded_span bounded.now) strip result }
{
    let edge = edge_from(&bounded.piece, strip, start);
    Cut {
        end: edge.at,
        on: met_column(strip, edge),
    }
}

/// What a piece adds whose box has no column's centre in it: the columns are left of all of it or right of all of it.
pub(crate) fn clear_cut(bounded: &Bounded, strip: Strip) -> Cut
    requires clear { bounded.now.across.end ≤ℤ bounded.now.across.first }
    requires inner { IsInner bounded.now.piece.a.y bounded.now.piece.c.y (pos 128 *ℤ strip.row +ℤ pos 64) }
    ensures { IsCut (bounded_span bounded.now) strip result }
{
    Cut {
        end: columns_before(strip, bounded.across.first),
        on: OnRow::None,
    }
}

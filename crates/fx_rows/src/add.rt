//! What a piece adds to a band of rows.

ghost use Rattle.std.specs.Prelude.{◌≡◌, ℕ, ◌+◌, ◌-◌, ◌*◌, ◌^◌, ◌<◌, ◌≤◌, pos, ◌+ℤ◌, ◌<ℤ◌, Some};
ghost use Rattle.fx_winding.specs.Winding.{Span, span_of};
ghost use Rattle.fx_rows.specs.Parts.{IsRowPart};
ghost use Rattle.fx_rows.specs.inner.Placing.{IsPieceAdded};
ghost use Rattle.fx_rows.specs.inner.Strips.{base_place, end_of};
ghost use Rattle.fx_rows.specs.inner.Sides.{place_at, IsWhole};
ghost use Rattle.fx_rows.specs.inner.Inside.{IsOnInside};
ghost use Rattle.fx_rows.specs.inner.Cuts.{IsCut};
ghost use Rattle.fx_rows.specs.inner.Sums.{AreWithin};
ghost use Rattle.fx_rows.specs.inner.Bands.{stride, AreInnerRows, IsRowAdded, bounded_span};
ghost use Rattle.fx_rows.specs.inner.Heights.{AreOutside};
ghost use Rattle.fx_rows.specs.inner.Telling.{AreMetAdded, AreNextRows, AreRowsAdded, IsBandOf, Keeps};

use crate::band::Band;
use crate::bounded::{Bounded, bounds_of, rise_of};
use crate::cells::Cut;
use crate::chord::base_side;
use crate::counts::{add_before, add_run};
use crate::cuts::{ClearCuts, Cuts, LineCuts};
use crate::heights::{RowRange, rows_between, rows_met};
use crate::intervals::met_part;
use crate::marks::mark;
use crate::noting::Noting;
use crate::part::{RowPart, Run};
use crate::strip::{Strip, areas_at, row_of, strip_of};
use crate::walk::arc_in;
use fx_winding::{Piece, Point, Tally};

/// Adds what a piece gives to a row, in the general way, and returns it.
#[tactic(auto, using(fx_fixed::proofs::Linear::signed_linear))]
#[inline(always)]
fn add_met(bounded: &Bounded, up: u32, band: &mut Band, tally: &mut Tally) -> RowPart
    requires up { up < band.old.frame.height }
    requires small { AreWithin (2 ^ 26) band.old.diff.items }
    ensures frame { band.new.frame ≡ band.old.frame }
    ensures added { IsRowAdded (bounded_span bounded.now) band.old.frame (band.old.frame.bottom +ℤ pos up)
        (up * stride band.old.frame.width) band.old band.new }
    ensures part { IsRowPart (bounded_span bounded.now) (band.old.frame.bottom +ℤ pos up) band.old.frame result }
    ensures count { tally.new.count ≤ tally.old.count + 10 }
{
    let frame = band.frame;
    let first = band.first_of(up);
    let part = met_part(bounded, row_of(frame, up), frame, tally);
    add_run(
        &mut band.diff,
        &mut band.touched,
        frame,
        first,
        part.crossing,
    );
    add_run(&mut band.diff, &mut band.touched, frame, first, part.region);
    mark(&mut band.marks, frame, first, part.on);
    part
}

/// Adds what a piece gives to rows, in the general way, and notes it. Few pieces need it, so its code is kept out of the others'
/// loops.
#[inline(never)]
#[tactic(auto, using(crate::proofs::Telling::met_none))]
fn add_general_rows<N: Noting>(
    piece: &Piece,
    rows: RowRange,
    band: &mut Band,
    noter: &mut N,
    tally: &mut Tally,
)
    requires next { AreNextRows (N.Says noter.old) band.old rows.first rows.end }
    requires outside { AreOutside (span_of piece.now) band.old.frame rows.first rows.end }
    ensures met { AreMetAdded (N.IsTold noter.old) (N.IsTold noter.new) (N.Says noter.old) (N.Says noter.new) (span_of piece.now)
        rows.first rows.end band.old band.new }
    ensures count { tally.new.count ≤ tally.old.count + (rows.end - rows.first) * (10 + N.general) }
{
    let bounded = bounds_of(piece, rise_of(piece));
    // The rows before `up` have what the piece adds and are noted.
    'rows: for up in rows.first..rows.end {
        let part = add_met(&bounded, up, band, tally);
        noter.note_row(&bounded, &part, band.frame, up, tally);
    }
}

/// Adds what a piece gives to rows, if there are any, in the general way, and notes it.
#[tactic(auto, using(crate::proofs::Telling::met_none))]
fn add_met_rows<N: Noting>(
    piece: &Piece,
    rows: RowRange,
    band: &mut Band,
    noter: &mut N,
    tally: &mut Tally,
)
    requires next { AreNextRows (N.Says noter.old) band.old rows.first rows.end }
    requires outside { AreOutside (span_of piece.now) band.old.frame rows.first rows.end }
    ensures met { AreMetAdded (N.IsTold noter.old) (N.IsTold noter.new) (N.Says noter.old) (N.Says noter.new) (span_of piece.now)
        rows.first rows.end band.old band.new }
    ensures count { tally.new.count ≤ tally.old.count + (rows.end - rows.first) * (10 + N.general) }
{
    if rows.first < rows.end {
        add_general_rows(piece, rows, band, noter, tally);
    }
}

/// Adds a cut to the counts and the marks of its row.
#[inline(always)]
#[tactic(auto, using(fx_fixed::proofs::Linear::signed_linear))]
fn add_cut(bounded: &Bounded, band: &mut Band, up: u32, strip: Strip, cut: Cut)
    requires up { up < band.old.frame.height }
    requires small { AreWithin (2 ^ 26) band.old.diff.items }
    requires strip { IsWhole band.old.frame strip }
    requires cut { IsCut (bounded_span bounded.now) strip cut }
    ensures frame { band.new.frame ≡ band.old.frame }
    ensures added { IsRowAdded (bounded_span bounded.now) band.old.frame strip.row (up * stride band.old.frame.width)
        band.old band.new }
{
    let frame = band.frame;
    let first = band.first_of(up);
    add_before(
        &mut band.diff,
        &mut band.touched,
        first,
        cut.end as usize,
        bounded.rise.value,
    );
    mark(&mut band.marks, frame, first, cut.on);
}

/// Adds the cuts of a piece to rows between its ends, and tells where they end. It is compiled once for each kind of cuts.
fn add_cuts<C: Cuts + Drop, N: Noting>(
    bounded: &Bounded,
    cuts: C,
    rows: RowRange,
    band: &mut Band,
    noter: &mut N,
    tally: &mut Tally,
)
    requires inner { AreInnerRows bounded.now band.old rows.first rows.end }
    requires at { C.AreAt cuts bounded.now (base_place band.old.frame rows.first) (end_of band.old.frame) }
    ensures added { AreRowsAdded (N.IsTold noter.new) (bounded_span bounded.now) rows.first rows.end band.old band.new }
    ensures kept { Keeps (N.Says noter.old) (N.Says noter.new) }
    ensures count { tally.new.count ≤ tally.old.count + (rows.end - rows.first) }
{
    let mut cuts = cuts;
    // The rows before `up` have what the piece adds and are told, and the cuts stand at this row.
    'rows: for up in rows.first..rows.end {
        let strip = strip_of(band.frame, row_of(band.frame, up));
        let cut = cuts.cut(bounded, strip, tally);
        noter.tell(up, cut.end);
        add_cut(bounded, band, up, strip, cut);
        cuts.move_up(bounded, strip);
    }
}

/// Adds what a piece gives to rows between its ends.
#[tactic(auto, using(fx_fixed::proofs::Linear::signed_linear))]
fn add_inner_rows<N: Noting>(
    bounded: &Bounded,
    rows: RowRange,
    band: &mut Band,
    noter: &mut N,
    tally: &mut Tally,
)
    requires some { rows.first < rows.end }
    requires inner { AreInnerRows bounded.now band.old rows.first rows.end }
    ensures added { AreRowsAdded (N.IsTold noter.new) (bounded_span bounded.now) rows.first rows.end band.old band.new }
    ensures kept { Keeps (N.Says noter.old) (N.Says noter.new) }
    ensures count { tally.new.count ≤ tally.old.count + 12 * (rows.end - rows.first) }
{
    if bounded.across.end <= bounded.across.first {
        return add_cuts(bounded, ClearCuts, rows, band, noter, tally);
    }
    let piece = &bounded.piece;
    let strip = strip_of(band.frame, row_of(band.frame, rows.first));
    if let Some(cuts) = arc_in(piece, strip, tally) {
        return add_cuts(bounded, cuts, rows, band, noter, tally);
    }
    let areas = areas_at(piece, strip, 0, tally);
    let side = base_side(piece, strip, areas);
    add_cuts(bounded, LineCuts { side }, rows, band, noter, tally);
}

/// Adds what a piece gives to the rows of a band that it can touch, and returns those of them that pass between its ends. The
/// others are noted.
fn add_met_piece<N: Noting>(
    piece: &Piece,
    rows: RowRange,
    band: &mut Band,
    noter: &mut N,
    tally: &mut Tally,
) -> RowRange
    requires rows { AreNextRows (N.Says noter.old) band.old rows.first rows.end }
    requires some { rows.first < rows.end }
    ensures added { IsPieceAdded (N.IsTold noter.new) (N.Says noter.old) (N.Says noter.new) (span_of piece.now) rows.first rows.end
        band.old band.new result }
    ensures count { tally.new.count ≤ tally.old.count + (rows.end - rows.first) * (12 + N.general) }
{
    let rise = rise_of(piece);
    let inner = rows_between(rise, band.frame, rows);
    if inner.first >= inner.end {
        add_met_rows(piece, rows, band, noter, tally);
        return inner;
    }
    let below = RowRange {
        first: rows.first,
        end: inner.first,
    };
    let above = RowRange {
        first: inner.end,
        end: rows.end,
    };
    add_met_rows(piece, below, band, noter, tally);
    add_inner_rows(&bounds_of(piece, rise), inner, band, noter, tally);
    add_met_rows(piece, above, band, noter, tally);
    inner
}

/// Adds what a piece gives to a band, tells where it ends in the rows between its ends, and notes the others that it can touch.
/// Returns the rows between its ends.
pub(crate) fn add_piece<N: Noting>(
    piece: &Piece,
    band: &mut Band,
    noter: &mut N,
    tally: &mut Tally,
) -> RowRange
    requires small { AreWithin (2 ^ 25) band.old.diff.items }
    requires of { IsBandOf (N.Says noter.old) band.old.frame }
    ensures added { IsPieceAdded (N.IsTold noter.new) (N.Says noter.old) (N.Says noter.new) (span_of piece.now)
        0 band.old.frame.height band.old band.new result }
    ensures count { tally.new.count ≤ tally.old.count + band.old.frame.height * (12 + N.general) }
{
    let touched = rows_met(piece, band.frame);
    if touched.first >= touched.end {
        return touched;
    }
    add_met_piece(piece, touched, band, noter, tally)
}

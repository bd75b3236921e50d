//! The segments that pieces meet between neighbouring rows, noted as bits. A segment is named by its column and its upper row.
//!
//! A piece comes up to a row from columns of the row below, and goes on to columns of the row: those where it passes a row between
//! its ends, or those of its lower or its upper end. It meets the segments of the columns between them, and no others.

ghost use Rattle.std.specs.Prelude.{◌≡◌, ◌⊎◌, ℤ, ◌+◌, ◌-◌, ◌*◌, ◌^◌, ◌≤◌, length, pos, ◌+ℤ◌, ◌-ℤ◌, ◌*ℤ◌, ◌<ℤ◌, ◌≤ℤ◌};
ghost use Rattle.std.specs.Prelude.{IsTrue, min, max, false};
ghost use Rattle.fx_fixed.specs.Ranges.{IsWithin};
ghost use Rattle.fx_winding.specs.Limits.{IsPixelNumber};
ghost use Rattle.fx_winding.specs.Notes.{IsNotedUp};
ghost use Rattle.fx_winding.specs.Bitmaps.{words_for};
ghost use Rattle.fx_winding.specs.Winding.{Span, span_of};
ghost use Rattle.fx_rows.specs.inner.Bulging.{IsBulge, IsOnLine, IsPlain};
ghost use Rattle.fx_rows.specs.inner.Heights.{height_of, IsAtLeastEnds, IsAtMostEnds, IsOneOver, IsOneUnder};
ghost use Rattle.fx_rows.specs.inner.Lines.{AreOnly, IsUpBit, NotesUp};
ghost use Rattle.fx_rows.specs.inner.Placing.{AreEndsTold, IsInBand};
ghost use Rattle.fx_rows.specs.inner.Points.{IsInner};
ghost use Rattle.fx_rows.specs.inner.Told.{AreKept};
ghost use Rattle.fx_rows.specs.inner.Upward.{height_below, AreAllMet, AreAt, AreAtFoot, AreAtHead, AreMetWithin, ComesFrom};
ghost use Rattle.fx_rows.specs.inner.Upward.{GoesTo, IsPassing};

use crate::bounded::{bounds_of, foot_x, head_x, rise_of};
use crate::bulge::has_line;
use crate::marks::set_bits;
use crate::passing::end_in;
use crate::piece_in_band::{PieceInBand, first_of, row_above, row_below};
use crate::reach::{Reach, columns_to};
use fx_winding::{Frame, Piece, Tally, first_from};

/// Notes the segments up to a row in some columns.
#[inline(always)]
fn note_columns(frame: Frame, row: u32, columns: Reach, up: &mut [u32])
    requires row { row ≤ frame.height }
    requires columns { columns.end ≤ frame.width }
    requires room { length up.old ≡ (frame.height + 1) * words_for frame.width }
    ensures noted { (s : Span) → AreMetWithin s frame row columns.first columns.end → IsNotedUp s frame up.new row }
    ensures only { (s : Span) → AreAllMet s frame row columns.first columns.end → AreOnly (IsUpBit s frame) up.old up.new }
    ensures kept { AreKept up.old up.new }
{
    if columns.end <= columns.first {
        return;
    }
    let first = first_of(frame, row);
    set_bits(
        up,
        first + columns.first as usize,
        first + columns.end as usize - 1,
    );
}

/// The columns of a frame whose centres are at x: those before them are left of it, and those after them right of it. x lies right
/// of the column before the frame's left one, and left of the column after its last.
#[inline(always)]
fn columns_at(frame: Frame, x: i32) -> Reach
    requires near { IsWithin (2 ^ 30) x }
    requires left { (pos 128 *ℤ (frame.left -ℤ pos 1) +ℤ pos 64) <ℤ x }
    requires right { x <ℤ (pos 128 *ℤ (frame.left +ℤ pos frame.width) +ℤ pos 64) }
    ensures { AreAt frame x result }
{
    let col = first_from(x);
    let first = columns_to(frame, col);
    if 128 * col + 64 != x {
        return Reach { first, end: first };
    }
    Reach {
        first,
        end: first + 1,
    }
}

/// The columns at the lower end of a piece.
#[inline(always)]
fn foot_columns(piece: &Piece, placed: PieceInBand) -> Reach
    requires { IsInBand (span_of piece.now) placed }
    ensures { AreAtFoot (span_of piece.now) placed.frame result }
{
    columns_at(placed.frame, foot_x(piece))
}

/// The columns at the upper end of a piece.
#[inline(always)]
fn head_columns(piece: &Piece, placed: PieceInBand) -> Reach
    requires { IsInBand (span_of piece.now) placed }
    ensures { AreAtHead (span_of piece.now) placed.frame result }
{
    columns_at(placed.frame, head_x(piece))
}

/// The columns from the first of two ranges to the last of them.
#[inline(always)]
fn joined(a: Reach, b: Reach) -> Reach
    ensures first { result.first ≡ min a.first b.first }
    ensures end { result.end ≡ max a.end b.end }
{
    Reach {
        first: a.first.min(b.first),
        end: a.end.max(b.end),
    }
}

/// Where a piece passes a row, which is between its ends. Few pieces need it, so its code is kept out of its callers.
#[inline(never)]
fn columns_passed(piece: &Piece, frame: Frame, row: i32, tally: &mut Tally) -> Reach
    requires row { IsPixelNumber row }
    requires inner { IsInner piece.now.a.y piece.now.c.y (pos 128 *ℤ row +ℤ pos 64) }
    ensures passing { IsPassing (span_of piece.now) frame row result }
    ensures count { tally.new.count ≤ tally.old.count + 2 }
{
    let bounded = bounds_of(piece, rise_of(piece));
    let end = end_in(&bounded, frame, row, tally);
    Reach { first: end, end }
}

/// Whether no end of a piece is below the centres of a row.
#[inline(always)]
fn is_over(piece: &Piece, row: i32) -> bool
    requires { IsWithin (2 ^ 16) row }
    ensures over { IsTrue result → IsAtMostEnds (span_of piece.now) (pos 128 *ℤ row +ℤ pos 64) }
    ensures below { result ≡ false → IsOneUnder (span_of piece.now) (pos 128 *ℤ row +ℤ pos 64) }
{
    let y = 128 * row + 64;
    if piece.a.y < y {
        return false;
    }
    if piece.c.y < y {
        return false;
    }
    true
}

/// Whether no end of a piece is above the centres of a row.
#[inline(always)]
fn is_under(piece: &Piece, row: i32) -> bool
    requires { IsWithin (2 ^ 16) row }
    ensures under { IsTrue result → IsAtLeastEnds (span_of piece.now) (pos 128 *ℤ row +ℤ pos 64) }
    ensures above { result ≡ false → IsOneOver (span_of piece.now) (pos 128 *ℤ row +ℤ pos 64) }
{
    let y = 128 * row + 64;
    if y < piece.a.y {
        return false;
    }
    if y < piece.c.y {
        return false;
    }
    true
}

/// Whether no end of a piece is below the centres of the row below a band. If a row of the band is below those between the ends,
/// that is known.
#[inline(always)]
fn starts_in(piece: &Piece, placed: PieceInBand) -> bool
    requires { IsInBand (span_of piece.now) placed }
    ensures over { IsTrue result → IsAtMostEnds (span_of piece.now) (height_below placed.frame placed.rows.first) }
    ensures below { result ≡ false → IsOneUnder (span_of piece.now) (height_below placed.frame placed.rows.first) }
{
    if placed.inner.first > placed.rows.first {
        return true;
    }
    is_over(piece, row_below(placed))
}

/// Whether no end of a piece is above the centres of the row below a band.
#[inline(always)]
fn lies_under(piece: &Piece, placed: PieceInBand) -> bool
    requires { IsInBand (span_of piece.now) placed }
    ensures under { IsTrue result → IsAtLeastEnds (span_of piece.now) (height_below placed.frame placed.rows.first) }
    ensures above { result ≡ false → IsOneOver (span_of piece.now) (height_below placed.frame placed.rows.first) }
{
    if placed.inner.first > placed.rows.first {
        return false;
    }
    is_under(piece, row_below(placed))
}

/// Whether no end of a piece is above the centres of the row above those between its ends. If the band has that row, it is so.
#[inline(always)]
fn ends_in(piece: &Piece, placed: PieceInBand) -> bool
    requires { IsInBand (span_of piece.now) placed }
    ensures under { IsTrue result → IsAtLeastEnds (span_of piece.now) (height_of placed.frame placed.inner.end) }
    ensures above { result ≡ false → IsOneOver (span_of piece.now) (height_of placed.frame placed.inner.end) }
{
    if placed.inner.end < placed.rows.end {
        return true;
    }
    is_under(piece, row_above(placed))
}

/// Whether no end of a piece is below the centres of the row above a band, if no row of the band is above those between the ends.
#[inline(always)]
fn lies_over(piece: &Piece, placed: PieceInBand) -> bool
    requires { IsInBand (span_of piece.now) placed }
    ensures over { IsTrue result → IsAtMostEnds (span_of piece.now) (height_of placed.frame placed.inner.end) }
    ensures below { result ≡ false → placed.inner.end ≡ placed.rows.end →
        IsOneUnder (span_of piece.now) (height_of placed.frame placed.inner.end) }
{
    if placed.inner.end < placed.rows.end {
        return false;
    }
    is_over(piece, row_above(placed))
}

/// Whether both ends of a piece are on a line of centres, at one height.
#[inline(always)]
fn is_on_line(piece: &Piece) -> bool
    ensures on { IsTrue result → IsOnLine (span_of piece.now) }
    ensures off { result ≡ false → ¬ (IsOnLine (span_of piece.now)) }
{
    if piece.a.y != piece.c.y {
        return false;
    }
    has_line(piece.a.y, piece.a.y)
}

/// The columns from which a piece comes up to the lowest row of a band that is between its ends, or to the lowest one above it.
#[inline(always)]
fn columns_below(piece: &Piece, placed: PieceInBand, tally: &mut Tally) -> Reach
    requires placed { IsInBand (span_of piece.now) placed }
    requires plain { IsPlain (span_of piece.now) }
    requires over { IsOneOver (span_of piece.now) (height_below placed.frame placed.rows.first) }
    ensures from { ComesFrom (span_of piece.now) placed.frame placed.inner.first result }
    ensures count { tally.new.count ≤ tally.old.count + 2 }
{
    if starts_in(piece, placed) {
        return foot_columns(piece, placed);
    }
    columns_passed(piece, placed.frame, row_below(placed), tally)
}

/// The columns to which a piece goes up to the row above those between its ends.
#[inline(always)]
fn columns_above(piece: &Piece, placed: PieceInBand, tally: &mut Tally) -> Reach
    requires placed { IsInBand (span_of piece.now) placed }
    requires plain { IsPlain (span_of piece.now) }
    requires under { placed.inner.end ≡ placed.rows.end →
        IsOneUnder (span_of piece.now) (height_of placed.frame placed.inner.end) }
    ensures to { GoesTo (span_of piece.now) placed.frame placed.inner.end result }
    ensures count { tally.new.count ≤ tally.old.count + 2 }
{
    if ends_in(piece, placed) {
        return head_columns(piece, placed);
    }
    columns_passed(piece, placed.frame, row_above(placed), tally)
}

/// Notes the segments that a piece meets up to the rows between its ends. Returns the columns from which it comes up to the row
/// above them.
#[inline(always)]
fn note_passage(
    piece: &Piece,
    placed: PieceInBand,
    ends: &[u32],
    low: Reach,
    up: &mut [u32],
) -> Reach
    requires placed { IsInBand (span_of piece.now) placed }
    requires plain { IsPlain (span_of piece.now) }
    requires told { AreEndsTold ends.now (span_of piece.now) placed }
    requires room { length up.old ≡ (placed.frame.height + 1) * words_for placed.frame.width }
    requires from { ComesFrom (span_of piece.now) placed.frame placed.inner.first low }
    ensures from { ComesFrom (span_of piece.now) placed.frame placed.inner.end result }
    ensures notes { NotesUp (span_of piece.now) placed.frame placed.inner.first placed.inner.end up.old up.new }
{
    let inner = placed.inner;
    let mut low = low;
    // The segments up to the rows before `row` are noted, and `low` is the columns from which the piece comes to this one.
    'rows: for row in inner.first..inner.end {
        let at = (row - placed.rows.first) as usize;
        let end = ends[at];
        let high = Reach { first: end, end };
        note_columns(placed.frame, row, joined(low, high), up);
        low = high;
    }
    low
}

/// Notes the segments that a piece meets up to a band's rows, and from its highest row up. `ends` has a number for each row of the
/// band: in a row between the piece's ends it is the column where the piece passes.
#[inline(always)]
pub(crate) fn note_up(
    piece: &Piece,
    placed: PieceInBand,
    ends: &[u32],
    up: &mut [u32],
    tally: &mut Tally,
)
    requires placed { IsInBand (span_of piece.now) placed }
    requires plain { ¬ (IsBulge (span_of piece.now)) }
    requires told { AreEndsTold ends.now (span_of piece.now) placed }
    requires room { length up.old ≡ (placed.frame.height + 1) * words_for placed.frame.width }
    ensures notes { NotesUp (span_of piece.now) placed.frame placed.rows.first (placed.rows.end + 1) up.old up.new }
    ensures count { tally.new.count ≤ tally.old.count + 4 }
{
    if is_on_line(piece) {
        return;
    }
    if lies_under(piece, placed) {
        return;
    }
    let low = columns_below(piece, placed, tally);
    let low = note_passage(piece, placed, ends, low, up);
    if lies_over(piece, placed) {
        return;
    }
    let high = columns_above(piece, placed, tally);
    note_columns(placed.frame, placed.inner.end, joined(low, high), up);
}

//! The rows of a band that a piece can touch, and those that its chord passes between its ends.

ghost use Rattle.std.specs.Prelude.{◌≡◌, ℕ, ℤ, ◌+◌, ◌^◌, ◌<◌, ◌≤◌, pos, ◌+ℤ◌, ◌*ℤ◌, ◌<ℤ◌, ◌≤ℤ◌, IsTrue};
ghost use Rattle.fx_fixed.specs.Ranges.{IsWithin};
ghost use Rattle.fx_winding.specs.Limits.{IsPixelNumber};
ghost use Rattle.fx_winding.specs.Winding.{span_of};
ghost use Rattle.fx_rows.specs.inner.Heights.{height_of, IsAbove, IsBelow, IsMissed, AreAmong};
ghost use Rattle.fx_rows.specs.inner.Runs.{IsSplit, IsSplitFrom};
ghost use Rattle.fx_rows.specs.inner.Telling.{IsPartOf};

use crate::bounded::Rise;
use crate::extent::{high_of, low_of};
use fx_winding::{Frame, Piece, first_from};

/// Rows from `first` on and before `end`, counted from the lowest of a frame.
#[derive(Clone, Copy)]
pub(crate) struct RowRange {
    pub first: u32,
    pub end: u32,
    ghost order: { first ≤ end },
}

/// The pixels of some rows of a frame.
#[inline(always)]
pub(crate) fn band_of(frame: Frame, rows: RowRange) -> Frame
    requires { rows.end ≤ frame.height }
    ensures { IsPartOf frame rows.first rows.end result }
{
    Frame {
        left: frame.left,
        bottom: frame.bottom + rows.first as i32,
        width: frame.width,
        height: rows.end - rows.first,
    }
}

/// How many rows of a frame are below a row of the plane.
fn rows_below(frame: Frame, row: i32) -> u32
    requires { IsWithin (2 ^ 23) row }
    ensures { IsSplit (λ r. (frame.bottom +ℤ pos r) <ℤ row) (λ r. row ≤ℤ (frame.bottom +ℤ pos r)) frame.height result }
{
    if row <= frame.bottom {
        return 0;
    }
    let count = (row - frame.bottom) as u32;
    if count < frame.height {
        count
    } else {
        frame.height
    }
}

/// How many rows of a frame are below a row, which is one of the frame or the one above its highest.
fn rows_to(frame: Frame, row: i32) -> u32
    requires low { frame.bottom ≤ℤ row }
    requires high { row ≤ℤ (frame.bottom +ℤ pos frame.height) }
    ensures at { frame.bottom +ℤ pos result ≡ row }
    ensures within { result ≤ frame.height }
{
    (row - frame.bottom) as u32
}

/// Whether a frame has the rows of the plane from one on and before another.
#[tactic(auto, using(fx_fixed::proofs::Linear::signed_linear))]
fn has_rows(frame: Frame, low: i32, past: i32) -> bool
    ensures { IsTrue result → (frame.bottom ≤ℤ low) × (past ≤ℤ (frame.bottom +ℤ pos frame.height)) }
{
    if low < frame.bottom {
        return false;
    }
    past <= frame.bottom + frame.height as i32
}

/// The rows of a frame from one row of the plane on and before another. Many pieces lie between two rows of centres, and have none.
/// Nearly all others lie within the frame, so that no end of it comes between.
#[tactic(auto, using(fx_fixed::proofs::Linear::signed_linear))]
fn rows_in(frame: Frame, low: i32, past: i32) -> RowRange
    requires { IsWithin (2 ^ 23) low × IsWithin (2 ^ 23) past }
    ensures within { result.end ≤ frame.height }
    ensures below { (r : ℕ) → r < result.first → (frame.bottom +ℤ pos r) <ℤ low }
    ensures rest { (r : ℕ) → result.end ≤ r → r < frame.height → past ≤ℤ (frame.bottom +ℤ pos r) }
{
    if past <= low {
        let first = rows_below(frame, past);
        return RowRange { first, end: first };
    }
    if has_rows(frame, low, past) {
        return RowRange {
            first: rows_to(frame, low),
            end: rows_to(frame, past),
        };
    }
    RowRange {
        first: rows_below(frame, low),
        end: rows_below(frame, past),
    }
}

/// The least height that a piece comes to, rounded up.
#[inline(always)]
fn low_y(piece: &Piece) -> i32
    ensures near { IsWithin (2 ^ 30) result }
    ensures below { (y : ℤ) → y <ℤ result → IsAbove (span_of piece.now) y }
{
    match piece.b {
        None => piece.a.y.min(piece.c.y),
        Some(b) => low_of(piece.a.y, b.y, piece.c.y),
    }
}

/// The greatest height that a piece comes to, rounded down.
#[inline(always)]
fn high_y(piece: &Piece) -> i32
    ensures near { IsWithin (2 ^ 30) result }
    ensures above { (y : ℤ) → result <ℤ y → IsBelow (span_of piece.now) y }
{
    match piece.b {
        None => piece.a.y.max(piece.c.y),
        Some(b) => high_of(piece.a.y, b.y, piece.c.y),
    }
}

/// The first row of the plane that a piece can touch.
#[inline(always)]
fn low_row(piece: &Piece) -> i32
    ensures size { IsWithin (2 ^ 23) result }
    ensures under { (row : ℤ) → row <ℤ result → IsAbove (span_of piece.now) (pos 128 *ℤ row +ℤ pos 64) }
{
    first_from(low_y(piece))
}

/// The first row of the plane that is above a piece.
#[inline(always)]
fn past_row(piece: &Piece) -> i32
    ensures size { IsWithin (2 ^ 23) result }
    ensures over { (row : ℤ) → result ≤ℤ row → IsBelow (span_of piece.now) (pos 128 *ℤ row +ℤ pos 64) }
{
    first_from(high_y(piece) + 1)
}

/// The rows of a frame that a piece can touch.
#[inline(always)]
pub(crate) fn rows_met(piece: &Piece, frame: Frame) -> RowRange
    ensures within { result.end ≤ frame.height }
    ensures below { (r : ℕ) → r < result.first → IsAbove (span_of piece.now) (height_of frame r) }
    ensures above { (r : ℕ) → result.end ≤ r → r < frame.height → IsBelow (span_of piece.now) (height_of frame r) }
{
    rows_in(frame, low_row(piece), past_row(piece))
}

/// The first of some rows whose centres are not below a height, or the number after the last.
fn first_at(y: i32, frame: Frame, rows: RowRange) -> u32
    requires near { IsWithin (2 ^ 23) y }
    requires rows { rows.end ≤ frame.height }
    ensures { IsSplitFrom (λ r. height_of frame r <ℤ y) (λ r. y ≤ℤ height_of frame r) rows.first rows.end result }
{
    let under = rows_below(frame, first_from(y));
    under.max(rows.first).min(rows.end)
}

/// The first of some rows whose centres are above a height, or the number after the last. For nearly all pieces it is the first of
/// all.
fn first_over(y: i32, frame: Frame, rows: RowRange) -> u32
    requires near { IsWithin (2 ^ 22) y }
    requires rows { rows.end ≤ frame.height }
    ensures { IsSplitFrom (λ r. height_of frame r ≤ℤ y) (λ r. y <ℤ height_of frame r) rows.first rows.end result }
{
    if y < 128 * (frame.bottom + rows.first as i32) + 64 {
        return rows.first;
    }
    first_at(y + 1, frame, rows)
}

/// Where those of some rows end whose centres are below a height. For nearly all pieces all are below it.
fn end_under(y: i32, frame: Frame, rows: RowRange) -> u32
    requires near { IsWithin (2 ^ 22) y }
    requires rows { rows.end ≤ frame.height }
    ensures { IsSplitFrom (λ r. height_of frame r <ℤ y) (λ r. y ≤ℤ height_of frame r) rows.first rows.end result }
{
    if 128 * (frame.bottom + rows.end as i32) - 64 < y {
        return rows.end;
    }
    first_at(y, frame, rows)
}

/// Those of some rows of a frame whose centres are above the lower end of a chord and below the upper one.
pub(crate) fn rows_between(rise: Rise, frame: Frame, rows: RowRange) -> RowRange
    requires { rows.end ≤ frame.height }
    ensures { AreAmong rise.foot rise.head frame rows.first rows.end result.first result.end }
{
    let first = first_over(rise.foot, frame, rows);
    let rest = RowRange {
        first,
        end: rows.end,
    };
    RowRange {
        first,
        end: end_under(rise.head, frame, rest),
    }
}

/// Whether the centres of a row lie below or above a piece.
pub(crate) fn misses(piece: &Piece, row: i32) -> bool
    requires { IsPixelNumber row }
    ensures { IsTrue result → IsMissed (span_of piece.now) (pos 128 *ℤ row +ℤ pos 64) }
{
    row < low_row(piece) || past_row(piece) <= row
}

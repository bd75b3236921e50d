//! Arcs that bulge: the box of one is larger than that of its chord. What they meet up to rows is noted column by column, as rows
//! of the arc with its coordinates exchanged.

ghost use Rattle.std.specs.Prelude.{◌≡◌, ◌⊎◌, ℕ, ◌+◌, ◌*◌, ◌^◌, ◌-◌, ◌<◌, ◌≤◌, length, ◌↔◌, IsTrue, pos, ◌+ℤ◌, ◌*ℤ◌};
ghost use Rattle.fx_fixed.specs.Ranges.{IsWithin};
ghost use Rattle.fx_rows.specs.Parts.{IsRowPart};
ghost use Rattle.fx_rows.specs.inner.Bulging.{HasLine, IsLineTo, IsLineFrom, IsBeyond, IsBulge};
ghost use Rattle.fx_winding.specs.Frames.{HasMargin};
ghost use Rattle.fx_winding.specs.Near.{IsNear};
ghost use Rattle.fx_winding.specs.Notes.{IsNotedAcross, IsNotedUp};
ghost use Rattle.fx_winding.specs.Bitmaps.{words_for as words_for_of};
ghost use Rattle.fx_winding.specs.Winding.{span_of};
ghost use Rattle.fx_rows.specs.inner.Bands.{bounded_span, AreInner};
ghost use Rattle.fx_rows.specs.inner.Strips.{edge_place, edge_of};
ghost use Rattle.fx_rows.specs.inner.Heights.{AreOutside};
ghost use Rattle.fx_rows.specs.inner.Lines.{GainOnly, HaveRoom, IsAcrossBit, IsUpBit, NotesAt, NotesRows};
ghost use Rattle.fx_rows.specs.inner.Points.{IsInner};
ghost use Rattle.fx_rows.specs.inner.Telling.{with_first};

use crate::bounded::{Bounded, bounds_of, rise_of};
use crate::chord::base_side;
use crate::cuts::{Cuts, LineCuts};
use crate::heights::{RowRange, rows_between, rows_met};
use crate::intervals::met_part;
use crate::noted_row::{note_edge, note_end, note_run, note_tip, set_cut};
use crate::noted_rows::{NotedRow, NotedRows};
use crate::part::RowPart;
use crate::strip::areas_at;
use crate::walk::arc_in;
use fx_winding::{Frame, Piece, Point, Tally, first_from, words_for};

/// Whether a line of centres comes from x on and up to y.
#[inline(always)]
pub(crate) fn has_line(x: i32, y: i32) -> bool
    requires { IsWithin (2 ^ 30) x × IsWithin (2 ^ 30) y }
    ensures { IsTrue result ↔ HasLine x y }
{
    first_from(x) < first_from(y + 1)
}

/// Whether x is below both of two values, and a line of centres comes from it on and up to both.
#[inline(always)]
fn has_line_to(x: i32, y: i32, z: i32) -> bool
    requires { IsWithin (2 ^ 30) x × IsWithin (2 ^ 30) y × IsWithin (2 ^ 30) z }
    ensures { IsTrue result ↔ IsLineTo x y z }
{
    if y.min(z) <= x {
        return false;
    }
    if !has_line(x, y) {
        return false;
    }
    has_line(x, z)
}

/// Whether y is above both of two values, and a line of centres comes from both on and up to it.
#[inline(always)]
fn has_line_from(x: i32, z: i32, y: i32) -> bool
    requires { IsWithin (2 ^ 30) x × IsWithin (2 ^ 30) y × IsWithin (2 ^ 30) z }
    ensures { IsTrue result ↔ IsLineFrom x z y }
{
    if y <= x.max(z) {
        return false;
    }
    if !has_line(x, y) {
        return false;
    }
    has_line(z, y)
}

/// Whether a line of centres comes between a control value and both end values, or is at one of them.
#[inline(always)]
fn is_beyond(a: i32, b: i32, c: i32) -> bool
    requires { IsWithin (2 ^ 30) a × IsWithin (2 ^ 30) b × IsWithin (2 ^ 30) c }
    ensures { IsTrue result ↔ IsBeyond a b c }
{
    if has_line_to(b, a, c) {
        return true;
    }
    has_line_from(a, c, b)
}

/// Whether an arc bulges.
#[inline(always)]
fn bulges(a: Point, b: Point, c: Point) -> bool
    ensures { IsTrue result ↔ (IsBeyond a.x b.x c.x ⊎ IsBeyond a.y b.y c.y) }
{
    if is_beyond(a.x, b.x, c.x) {
        return true;
    }
    is_beyond(a.y, b.y, c.y)
}

/// Whether a piece is an arc that bulges.
#[inline(always)]
pub(crate) fn is_bulge(piece: &Piece) -> bool
    ensures { IsTrue result ↔ IsBulge (span_of piece.now) }
{
    match piece.b {
        None => false,
        Some(b) => bulges(piece.a, b, piece.c),
    }
}

/// Notes the segments of a row that a piece meets, by what it adds to the row, between whose ends that is not.
pub(crate) fn note_part(
    bounded: &Bounded,
    part: &RowPart,
    line: &NotedRow,
    bits: &mut [u32],
    tally: &mut Tally,
)
    requires part { IsRowPart (bounded_span bounded.now) line.now.row line.now.frame part.now }
    requires outside { ¬ (IsInner bounded.now.piece.a.y bounded.now.piece.c.y (pos 128 *ℤ line.now.row +ℤ pos 64)) }
    requires room { line.now.first + line.now.frame.width * line.now.step < 32 * length bits.old }
    ensures notes { NotesAt (bounded_span bounded.now) line.now (λ _. Unit {0}) bits.old bits.new }
    ensures count { tally.new.count ≤ tally.old.count + 16 }
{
    let piece = &bounded.piece;
    note_run(part, line, bits);
    note_end(line, piece.a, bits);
    note_end(line, piece.c, bits);
    note_tip(piece, bounded.rise, part, line, bits, tally);
    note_edge(piece, bounded.across, line, 0, bits, tally);
    note_edge(piece, bounded.across, line, line.frame.width, bits, tally);
}

/// Notes the segments of some rows that a piece meets, between whose ends they are not.
fn note_met_lines(
    bounded: &Bounded,
    rows: RowRange,
    lines: NotedRows,
    bits: &mut [u32],
    tally: &mut Tally,
)
    requires rows { rows.end ≤ lines.frame.height }
    requires outside { AreOutside (bounded_span bounded.now) lines.frame rows.first rows.end }
    requires room { HaveRoom lines bits.old }
    ensures notes { NotesRows (bounded_span bounded.now) lines rows.first rows.end bits.old bits.new }
    ensures count { tally.new.count ≤ tally.old.count + 26 * (rows.end - rows.first) }
{
    // The segments of the rows before `up` are noted.
    'rows: for up in rows.first..rows.end {
        let line = lines.row(up);
        let part = met_part(bounded, line.row, line.frame, tally);
        note_part(bounded, &part, &line, bits, tally);
    }
}

/// Notes the segments that a piece meets in rows that are between its ends, each before the end of a cut. It is compiled once for
/// each kind of cuts.
fn note_cuts<C: Cuts + Drop>(
    bounded: &Bounded,
    cuts: C,
    rows: RowRange,
    lines: NotedRows,
    bits: &mut [u32],
)
    requires inner { AreInner bounded.now lines.frame rows.first rows.end }
    requires at { C.AreAt cuts bounded.now (edge_place lines.frame rows.first) (edge_of lines.frame) }
    requires room { HaveRoom lines bits.old }
    ensures { NotesRows (bounded_span bounded.now) lines rows.first rows.end bits.old bits.new }
{
    let mut cuts = cuts;
    // The segments of the rows before `up` are noted, and the cuts stand at this row.
    'rows: for up in rows.first..rows.end {
        let line = lines.row(up);
        let strip = line.strip();
        set_cut(&line, cuts.end(bounded, strip), bits);
        cuts.move_up(bounded, strip);
    }
}

/// Notes the segments that a piece meets in rows that are between its ends.
fn note_passed_lines(
    bounded: &Bounded,
    rows: RowRange,
    lines: NotedRows,
    bits: &mut [u32],
    tally: &mut Tally,
)
    requires inner { AreInner bounded.now lines.frame rows.first rows.end }
    requires room { HaveRoom lines bits.old }
    ensures notes { NotesRows (bounded_span bounded.now) lines rows.first rows.end bits.old bits.new }
    ensures count { tally.new.count ≤ tally.old.count + 3 * (rows.end - rows.first) }
{
    if rows.first >= rows.end {
        return;
    }
    let piece = &bounded.piece;
    let strip = lines.row(rows.first).strip();
    if let Some(cuts) = arc_in(piece, strip, tally) {
        note_cuts(bounded, cuts, rows, lines, bits);
        return;
    }
    let areas = areas_at(piece, strip, 0, tally);
    let side = base_side(piece, strip, areas);
    note_cuts(bounded, LineCuts { side }, rows, lines, bits);
}

/// Notes the segments of a frame's rows that a piece meets.
#[inline(always)]
fn note_lines(bounded: &Bounded, lines: NotedRows, bits: &mut [u32], tally: &mut Tally)
    requires { HaveRoom lines bits.old }
    ensures notes { NotesRows (bounded_span bounded.now) lines 0 lines.frame.height bits.old bits.new }
    ensures count { tally.new.count ≤ tally.old.count + 26 * lines.frame.height }
{
    let rows = rows_met(&bounded.piece, lines.frame);
    let inner = rows_between(bounded.rise, lines.frame, rows);
    let below = RowRange {
        first: rows.first,
        end: inner.first,
    };
    let above = RowRange {
        first: inner.end,
        end: rows.end,
    };
    note_met_lines(bounded, below, lines, bits, tally);
    note_passed_lines(bounded, inner, lines, bits, tally);
    note_met_lines(bounded, above, lines, bits, tally);
}

/// Notes the segments that a piece meets across all rows, with the first band.
#[inline(never)]
pub(crate) fn note_all_across(
    piece: &Piece,
    rows: RowRange,
    frame: Frame,
    across: &mut [u32],
    tally: &mut Tally,
)
    requires margin { HasMargin frame }
    requires room { length across.old ≡ frame.height * words_for_of frame.width }
    ensures noted { rows.first ≡ 0 → (r : ℕ) → r < frame.height → IsNotedAcross (span_of piece.now) frame across.new r }
    ensures gained { GainOnly (IsAcrossBit (span_of piece.now) frame) across.old across.new }
    ensures count { tally.new.count ≤ tally.old.count + with_first rows.first (26 * frame.height) }
{
    if rows.first > 0 {
        return;
    }
    let lines = NotedRows {
        frame,
        row_step: 32 * words_for(frame.width),
        step: 1,
    };
    note_lines(&bounds_of(piece, rise_of(piece)), lines, across, tally);
}

/// Notes the segments that a piece meets up to all rows, with the first band, as those across rows of the piece with its
/// coordinates exchanged.
#[inline(never)]
pub(crate) fn note_all_up(
    piece: &Piece,
    rows: RowRange,
    frame: Frame,
    up: &mut [u32],
    tally: &mut Tally,
)
    requires near { IsNear piece.now }
    requires margin { HasMargin frame }
    requires room { length up.old ≡ (frame.height + 1) * words_for_of frame.width }
    ensures noted { rows.first ≡ 0 → (r : ℕ) → r ≤ frame.height → IsNotedUp (span_of piece.now) frame up.new r }
    ensures gained { GainOnly (IsUpBit (span_of piece.now) frame) up.old up.new }
    ensures count { tally.new.count ≤ tally.old.count + with_first rows.first (26 * frame.width) }
{
    if rows.first > 0 {
        return;
    }
    let lines = NotedRows {
        frame: frame.turned(),
        row_step: 1,
        step: 32 * words_for(frame.width),
    };
    let turned = piece.turned();
    note_lines(&bounds_of(&turned, rise_of(&turned)), lines, up, tally);
}

//! The segments of one row, or of one column seen as a row, noted one by one.

ghost use Rattle.std.specs.Prelude.{◌≡◌, ◌⊎◌, ℕ, ◌+◌, ◌*◌, ◌^◌, ◌<◌, ◌≤◌, length, pos, ◌+ℤ◌, ◌*ℤ◌, ◌↔◌, IsTrue};
ghost use Rattle.fx_winding.specs.Winding.{Span, place_of, span_of};
ghost use Rattle.fx_rows.specs.Parts.{IsRowPart};
ghost use Rattle.fx_rows.specs.inner.Points.{AreAcross, IsInner, IsRise};
ghost use Rattle.fx_rows.specs.inner.Lines.{AreOnly, HasEnd, HasTip, IsAfterFirst, IsLineBit, IsMetTo, IsMetToUnlessOn, IsRunEnd};
ghost use Rattle.fx_rows.specs.inner.Lines.{IsSetTo, NotesAt};
ghost use Rattle.fx_rows.specs.inner.Sums.{IsInside};
ghost use Rattle.fx_rows.specs.inner.Told.{AreKept};

use crate::across::Across;
use crate::bounded::Rise;
use crate::narrow::columns_before;
use crate::noted_rows::NotedRow;
use crate::part::{RowPart, Run};
use crate::reach::columns_to;
use crate::strip::strip_of;
use crate::tip::tip_column;
use crate::turns::{is_among, run_at};
use fx_winding::{Piece, Point, Tally, centre_of, first_from, meets, set_bit};

/// Sets the bit of the segment to a column.
fn set_segment(line: &NotedRow, k: u32, bits: &mut [u32])
    requires column { k ≤ line.now.frame.width }
    requires room { line.now.first + line.now.frame.width * line.now.step < 32 * length bits.old }
    ensures set { (s : Span) → IsSetTo s line.now.frame line.now.row line.now.first line.now.step bits.new k }
    ensures kept { AreKept bits.old bits.new }
    ensures only { (s : Span) → IsMetToUnlessOn s line.now.frame line.now.row k →
        AreOnly (IsLineBit s line.now.frame line.now.row line.now.first line.now.step) bits.old bits.new }
{
    set_bit(bits, line.first + k as usize * line.step);
}

/// Whether a piece meets the segment to a column, by tests of its ends.
fn test_segment(piece: &Piece, line: &NotedRow, k: u32, tally: &mut Tally) -> bool
    requires to { k ≤ line.now.frame.width }
    ensures value { IsTrue result ↔ IsMetTo (span_of piece.now) line.now.frame line.now.row k }
    ensures count { tally.new.count ≤ tally.old.count + 5 }
{
    let right = line.frame.left + k as i32;
    meets(
        piece,
        centre_of(right - 1, line.row),
        centre_of(right, line.row),
        tally,
    )
}

/// Whether the segment before a column of the row's strip is one of the row's.
fn has_segment(line: &NotedRow, end: u32) -> bool
    ensures { IsTrue result ↔ ((0 < end) × (end ≤ line.now.frame.width + 1)) }
{
    0 < end && end <= line.frame.width + 1
}

/// Notes the segment before a column of the row's strip, if it is one of the row's.
pub(crate) fn set_cut(line: &NotedRow, end: u32, bits: &mut [u32])
    requires room { line.now.first + line.now.frame.width * line.now.step < 32 * length bits.old }
    ensures { (s : Span) → ((k : ℕ) → k ≤ line.now.frame.width → k + 1 ≡ end → IsMetToUnlessOn s line.now.frame line.now.row k) →
        NotesAt s line.now (λ k. k + 1 ≡ end) bits.old bits.new }
{
    if has_segment(line, end) {
        set_segment(line, end - 1, bits);
    }
}

/// Notes the segment that an end of a piece is within. An end straight on the centre of a column is on that segment's end.
pub(crate) fn note_end(line: &NotedRow, e: Point, bits: &mut [u32])
    requires room { line.now.first + line.now.frame.width * line.now.step < 32 * length bits.old }
    ensures { (s : Span) → (place_of e ≡ s.a) ⊎ (place_of e ≡ s.c) →
        NotesAt s line.now (HasEnd (place_of e) line.now) bits.old bits.new }
{
    if e.y != 128 * line.row + 64 {
        return;
    }
    set_cut(line, columns_before(line.strip(), first_from(e.x)), bits);
}

/// Notes the segment to a column, if it is within the frame.
fn note_column(line: &NotedRow, k: u32, bits: &mut [u32])
    requires room { line.now.first + line.now.frame.width * line.now.step < 32 * length bits.old }
    ensures { (s : Span) → (0 < k → k < line.now.frame.width → IsMetToUnlessOn s line.now.frame line.now.row k) →
        NotesAt s line.now (IsAfterFirst line.now (λ j. j ≡ k)) bits.old bits.new }
{
    if 0 < k && k < line.frame.width {
        set_segment(line, k, bits);
    }
}

/// Notes the segments at the ends of the run of columns in a piece's region, if they are within the frame. The row is not between
/// the piece's ends, so it meets them.
pub(crate) fn note_run(part: &RowPart, line: &NotedRow, bits: &mut [u32])
    requires room { line.now.first + line.now.frame.width * line.now.step < 32 * length bits.old }
    requires inside { IsInside line.now.frame part.now.region }
    ensures { (s : Span) → IsRowPart s line.now.row line.now.frame part.now →
        ¬ (IsInner s.a.y s.c.y (pos 128 *ℤ line.now.row +ℤ pos 64)) →
        NotesAt s line.now (IsAfterFirst line.now (IsRunEnd line.now.frame part.now.region)) bits.old bits.new }
{
    if let Some(run) = part.region {
        note_column(line, columns_to(line.frame, run.first), bits);
        note_column(line, columns_to(line.frame, run.last + 1), bits);
    }
}

/// Notes the segment to a column, if a piece meets it, by tests of its ends.
fn note_tested(piece: &Piece, line: &NotedRow, k: u32, bits: &mut [u32], tally: &mut Tally)
    requires column { k ≤ line.now.frame.width }
    requires room { line.now.first + line.now.frame.width * line.now.step < 32 * length bits.old }
    ensures notes { NotesAt (span_of piece.now) line.now (λ j. j ≡ k) bits.old bits.new }
    ensures count { tally.new.count ≤ tally.old.count + 5 }
{
    if test_segment(piece, line, k, tally) {
        set_segment(line, k, bits);
    }
}

/// Notes the segment to a column, if the tip of an arc is within. If the left end is in the arc's region, it is not.
fn note_outside(
    piece: &Piece,
    part: &RowPart,
    line: &NotedRow,
    k: u32,
    bits: &mut [u32],
    tally: &mut Tally,
)
    requires part { IsRowPart (span_of piece.now) line.now.row line.now.frame part.now }
    requires column { k ≤ line.now.frame.width }
    requires room { line.now.first + line.now.frame.width * line.now.step < 32 * length bits.old }
    ensures notes { NotesAt (span_of piece.now) line.now
        (IsAfterFirst line.now (λ j. (j ≡ k) × HasTip (span_of piece.now) line.now j)) bits.old bits.new }
    ensures count { tally.new.count ≤ tally.old.count + 5 }
{
    if k == 0 || line.frame.width <= k {
        return;
    }
    if run_at(part.region, line.frame.left - 1 + k as i32) != 0 {
        return;
    }
    note_tested(piece, line, k, bits, tally);
}

/// Notes the segment within which the tip of an arc is. There is none in a row between the ends of the arc, or at one.
pub(crate) fn note_tip(
    piece: &Piece,
    rise: Rise,
    part: &RowPart,
    line: &NotedRow,
    bits: &mut [u32],
    tally: &mut Tally,
)
    requires rise { IsRise (span_of piece.now) rise.foot rise.head rise.value }
    requires part { IsRowPart (span_of piece.now) line.now.row line.now.frame part.now }
    requires room { line.now.first + line.now.frame.width * line.now.step < 32 * length bits.old }
    ensures notes { NotesAt (span_of piece.now) line.now (IsAfterFirst line.now (HasTip (span_of piece.now) line.now))
        bits.old bits.new }
    ensures count { tally.new.count ≤ tally.old.count + 6 }
{
    if is_among(rise, line.row) {
        return;
    }
    if let Some(b) = piece.b {
        let strip = strip_of(line.frame, line.row);
        let end = tip_column(piece, b, strip, tally);
        note_outside(piece, part, line, end, bits, tally);
    }
}

/// Notes the segment that leads into the frame, or the one that leads out of it, if a piece meets it. The columns of its box must
/// come that far.
pub(crate) fn note_edge(
    piece: &Piece,
    across: Across,
    line: &NotedRow,
    k: u32,
    bits: &mut [u32],
    tally: &mut Tally,
)
    requires column { k ≤ line.now.frame.width }
    requires room { line.now.first + line.now.frame.width * line.now.step < 32 * length bits.old }
    requires across { AreAcross (span_of piece.now) across.first across.end }
    ensures notes { NotesAt (span_of piece.now) line.now (λ j. j ≡ k) bits.old bits.new }
    ensures count { tally.new.count ≤ tally.old.count + 5 }
{
    let right = line.frame.left + k as i32;
    if across.first <= right && right <= across.end {
        note_tested(piece, line, k, bits, tally);
    }
}

//! What is noted of pieces while they are added to bands: nothing, or the segments that they meet.

use crate::bounded::Bounded;
use crate::heights::RowRange;
use crate::part::RowPart;
use fx_winding::{Frame, Piece, Tally};

/// What is noted while a piece is added to the rows of a band, which are those of a frame from one to before another.
pub(crate) trait Noting {
    ghost use Rattle.std.specs.Prelude.{◌≢◌, ℕ, ◌+◌, ◌-◌, ◌*◌, ◌<◌, ◌≤◌, pos, ◌+ℤ◌};
    ghost use Rattle.fx_winding.specs.Winding.{span_of};
    ghost use Rattle.fx_winding.specs.declared.frame.Frame.{Frame};
    ghost use Rattle.fx_rows.specs.inner.Placing.{IsDue};
    ghost use Rattle.fx_rows.specs.Parts.{IsRowPart};
    ghost use Rattle.fx_rows.specs.inner.Bands.{bounded_span};
    ghost use Rattle.fx_rows.specs.inner.Heights.{height_of};
    ghost use Rattle.fx_rows.specs.inner.Points.{IsInner};
    ghost use Rattle.fx_rows.specs.inner.Telling.{AreRowsNoted, IsBandOf, Keeps, KeepsFor, Saying, met_in, with_first};

    // How many tests the notes of a row take that is added in the general way, how many those of any row take besides, and how
    // many more those of a piece with the frame's first row.
    ghost general: { ℕ };

    ghost tests: { ℕ };

    ghost more: { Frame → ℕ };
    // What is so of the notes.
    ghost Says: { Self → Saying → Type 0 };
    // The end of a row of the band is told.
    ghost IsTold: { Self → ℕ → ℕ → Type 0 };

    /// Takes the end of a row, counted from the lowest of the band.
    fn tell(&mut self, up: u32, end: u32)
        requires { up < 128 }
        ensures kept { Keeps (Says self.old) (Says self.new) }
        ensures told { IsTold self.new up end }
        ensures others { (r n : ℕ) → r ≢ up → IsTold self.old r n → IsTold self.new r n };

    /// Notes the segments that a piece meets across a row of a band, between whose ends that is not, by what it adds to it.
    fn note_row(
        &mut self,
        bounded: &Bounded,
        part: &RowPart,
        band: Frame,
        up: u32,
        tally: &mut Tally,
    )
        requires of { IsBandOf (Says self.old) band }
        requires up { up < band.height }
        requires part { IsRowPart (bounded_span bounded.now) (band.bottom +ℤ pos up) band part.now }
        requires outside { ¬ (IsInner bounded.now.piece.a.y bounded.now.piece.c.y (height_of band up)) }
        ensures kept { KeepsFor (bounded_span bounded.now) (Says self.old) (Says self.new) }
        ensures told { (r n : ℕ) → IsTold self.old r n → IsTold self.new r n }
        ensures noted { Says self.new (met_in (bounded_span bounded.now) (band.bottom +ℤ pos up)) }
        ensures count { tally.new.count ≤ tally.old.count + general };

    /// Notes the segments that a piece meets up to rows of a band and across those between its ends.
    fn note(
        &mut self,
        piece: &Piece,
        frame: Frame,
        rows: RowRange,
        inner: RowRange,
        tally: &mut Tally,
    )
        requires { IsDue (Says self.old) (IsTold self.old) piece.now frame rows inner }
        ensures kept { KeepsFor (span_of piece.now) (Says self.old) (Says self.new) }
        ensures noted { AreRowsNoted (Says self.new) (span_of piece.now) rows.end }
        ensures count { tally.new.count ≤ tally.old.count +
            (tests * (rows.end - rows.first) + with_first rows.first (more frame)) };
}

/// Nothing is noted.
#[derive(Clone, Copy)]
pub(crate) struct NoNotes;

impl Noting for NoNotes {
    ghost general = { 0 };

    ghost tests = { 0 };

    ghost more = { λ _. 0 };

    ghost Says = { λ _ _. Unit {0} };

    ghost IsTold = { λ _ _ _. Unit {0} };

    #[inline(always)]
    fn tell(&mut self, _up: u32, _end: u32) {}

    #[inline(always)]
    fn note_row(
        &mut self,
        _bounded: &Bounded,
        _part: &RowPart,
        _band: Frame,
        _up: u32,
        _tally: &mut Tally,
    ) {}

    #[inline(always)]
    fn note(
        &mut self,
        _piece: &Piece,
        _frame: Frame,
        _rows: RowRange,
        _inner: RowRange,
        _tally: &mut Tally,
    ) {}
}

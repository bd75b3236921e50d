//! What pieces meet, noted while they are added to bands.

ghost use Rattle.std.specs.Prelude.{◌≡◌, ◌≢◌, ℕ, ◌+◌, ◌*◌, ◌<◌, ◌≤◌, length, IfOk, IsTrue, List};
ghost use Rattle.fx_winding.specs.Frames.{HasMargin};
ghost use Rattle.fx_winding.specs.Winding.{Span};
ghost use Rattle.fx_rows.specs.inner.Placing.{IsApart};
ghost use Rattle.fx_rows.specs.inner.Telling.{AreMetBySome, BitsSay};
ghost use Rattle.fx_rows.specs.inner.Told.{IsEndIn};

use crate::apart::columns_of;
use crate::band::MOST_ROWS;
use crate::bounded::Bounded;
use crate::bulge::{is_bulge, note_all_across, note_all_up, note_part};
use crate::heights::RowRange;
use crate::note_across::note_across;
use crate::note_up::note_up;
use crate::noted_rows::NotedRow;
use crate::noting::Noting;
use crate::part::RowPart;
use crate::piece_in_band::{PieceInBand, first_of};
use crate::strip::row_of;
use fx_winding::{Frame, Notes, Piece, Scratch, Tally};
use std::alloc::{AllocError, Global};

/// The segments noted so far; and of the piece that is being added to a band, the ends of its rows, from the band's lowest.
#[derive(Drop)]
pub(crate) struct Noter {
    pub notes: Notes,
    ends: [u32; MOST_ROWS as usize],
    ghost many: { length ends ≡ 128 },
    ghost margin: { HasMargin notes.frame },
}

/// Notes of a frame's segments in which nothing is noted, in the buffers of a scratch.
pub(crate) fn no_notes(
    alloc: Global,
    frame: Frame,
    scratch: &mut Scratch,
) -> Result<Notes, AllocError>
    ensures frame { IfOk result (λ n. n.frame ≡ frame) }
    ensures none { (ss : List Span) → IfOk result (λ n. AreMetBySome n.frame n.across.items n.up.items ss) }
{
    let notes = Notes::none(alloc, frame, scratch)?;
    Ok(notes)
}

impl Noter {
    /// Nothing is noted but what these notes have. They are made before, since a noter in a result would be copied out of it.
    #[inline(always)]
    pub(crate) fn of(notes: Notes) -> Noter
        requires { HasMargin notes.frame }
        ensures { result.notes ≡ notes }
    {
        Noter {
            notes,
            ends: [0; MOST_ROWS as usize],
        }
    }
}

impl Noting for Noter {
    ghost general = { 45 };

    ghost tests = { 4 };

    ghost more = { λ f. 55 * (f.height + f.width) };

    ghost Says = { λ n x. BitsSay (IsApart n.notes.frame) n.notes.frame n.notes.across.items n.notes.up.items x };

    ghost IsTold = { λ n up end. IsEndIn n.ends up end };

    #[inline(always)]
    fn tell(&mut self, up: u32, end: u32) {
        self.ends[up as usize] = end;
    }

    #[inline(always)]
    fn note_row(
        &mut self,
        bounded: &Bounded,
        part: &RowPart,
        band: Frame,
        up: u32,
        tally: &mut Tally,
    ) {
        let frame = self.notes.frame;
        let row = row_of(band, up);
        let line = NotedRow {
            frame,
            row,
            first: first_of(frame, (row - frame.bottom) as u32),
            step: 1,
        };
        note_part(bounded, part, &line, &mut self.notes.across, tally);
    }

    #[tactic(auto, using(std::proofs::lemmas::List::with_items_is))]
    #[inline(always)]
    fn note(
        &mut self,
        piece: &Piece,
        _frame: Frame,
        rows: RowRange,
        inner: RowRange,
        tally: &mut Tally,
    ) {
        let frame = self.notes.frame;
        let Some(across) = columns_of(piece, frame) else {
            note_all_across(piece, rows, frame, &mut self.notes.across, tally);
            note_all_up(piece, rows, frame, &mut self.notes.up, tally);
            return;
        };
        let placed = PieceInBand {
            frame,
            rows,
            inner,
            across,
        };
        note_across(piece, placed, &self.ends, &mut self.notes.across);
        if across.end <= across.first {
            return;
        }
        if is_bulge(piece) {
            note_all_up(piece, rows, frame, &mut self.notes.up, tally);
            return;
        }
        note_up(piece, placed, &self.ends, &mut self.notes.up, tally);
    }
}

//! The segments of a band's rows that a piece meets, noted as bits, each by its right end.
//!
//! In a row between its ends a piece meets one segment, that which goes to the column where its columns end, and its bit is set.
//! The few other rows that it can touch are noted when it is added to them.

ghost use Rattle.std.specs.Prelude.{◌≡◌, ◌+◌, ◌-◌, ◌*◌, ◌≤◌, length};
ghost use Rattle.fx_winding.specs.Bitmaps.{words_for as words_for_of};
ghost use Rattle.fx_winding.specs.Winding.{span_of};
ghost use Rattle.fx_rows.specs.inner.Lines.{NotesAcross};
ghost use Rattle.fx_rows.specs.inner.Placing.{AreEndsTold, AreOthersNoted, IsInBand};

use crate::piece_in_band::{PieceInBand, first_of};
use fx_winding::{Piece, set_bit};

/// Notes the segments that a piece meets across a band's rows: one in each row between its ends, whose column `ends` has. The other
/// rows that it can touch are noted.
#[inline(always)]
pub(crate) fn note_across(piece: &Piece, placed: PieceInBand, ends: &[u32], across: &mut [u32])
    requires placed { IsInBand (span_of piece.now) placed }
    requires told { AreEndsTold ends.now (span_of piece.now) placed }
    requires others { AreOthersNoted (span_of piece.now) placed across.old }
    requires room { length across.old ≡ placed.frame.height * words_for_of placed.frame.width }
    ensures { NotesAcross (span_of piece.now) placed.frame placed.rows.first placed.rows.end across.old across.new }
{
    // The segments of the rows before `row` are noted.
    'rows: for row in placed.inner.first..placed.inner.end {
        let at = (row - placed.rows.first) as usize;
        set_bit(across, first_of(placed.frame, row) + ends[at] as usize);
    }
}

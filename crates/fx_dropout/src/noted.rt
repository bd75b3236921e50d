//! Drop-out control by the notes of a scan.

ghost use Rattle.std.specs.Prelude.{◌≡◌, ◌↔◌, ◌+◌, ◌≤◌, IsTrue, ℤ, length, map};
ghost use Rattle.fx_winding.specs.Bitmaps.{bit_of, IsScanOf};
ghost use Rattle.fx_winding.specs.Frames.{IsInFrame};
ghost use Rattle.fx_winding.specs.Notes.{AreExact};
ghost use Rattle.fx_winding.specs.Winding.{centre, span_of, IsCovered};
ghost use Rattle.fx_dropout.specs.Dropout.{IsSet};
ghost use Rattle.fx_dropout.specs.Tests.{closing_tests};

use crate::chooser::{Chooser, Closing};
use crate::closing::close_lines;
use fx_winding::{Bitmap, Notes, Pieces, Tally};

/// The bitmap that a scan of the pieces gave, with the gaps of its rows closed, and then those that are left in the columns. If
/// no pixel outside the frame is covered, it has the bits that drop-out control sets in its frame. The notes are those of the
/// same scan, and are used up.
pub fn close_gaps(
    pieces: &Pieces,
    notes: &mut Notes,
    bitmap: Bitmap,
    closing: Closing,
    tally: &mut Tally,
) -> Bitmap
    requires scanned { IsScanOf bitmap.frame (map span_of pieces.now) bitmap }
    requires frame { notes.old.frame ≡ bitmap.frame }
    requires noted { AreExact bitmap.frame notes.old.across.items notes.old.up.items (map span_of pieces.now) }
    ensures frame { result.frame ≡ bitmap.frame }
    ensures count { tally.new.count ≤ tally.old.count + closing_tests closing (length pieces.now) bitmap.frame }
    ensures bits { ((i j : ℤ) → ¬ (IsInFrame bitmap.frame i j) → ¬ (IsCovered (centre i j) (map span_of pieces.now))) →
        (col row : ℤ) → IsInFrame bitmap.frame col row →
        IsTrue (bit_of result col row) ↔ IsSet closing (map span_of pieces.now) bitmap.frame col row }
{
    let frame = bitmap.frame();
    if frame.width == 0 || frame.height == 0 {
        return bitmap;
    }
    let chooser = Chooser {
        pieces,
        frame,
        closing,
    };
    let mut words = bitmap.into_words();
    close_lines(&chooser, false, &mut notes.across, &mut words, tally);
    close_lines(&chooser, true, &mut notes.up, &mut words, tally);
    Bitmap::from_words(frame, words)
}

//! Which of the two pixels at the ends of a gap closes it.

ghost use Rattle.std.specs.Prelude.{◌↔◌, ◌+◌, ◌*◌, ◌≤◌, ◌<◌, pos, ◌+ℤ◌, length, IsTrue};
ghost use Rattle.fx_dropout.specs.Tests.{choice_tests};
ghost use Rattle.fx_dropout.specs.inner.Closing.{segment_rows, stride, AreCounted, IsNext, Reaches};

use crate::nearer::is_next_nearer;
use crate::pair::Pair;
use fx_winding::{Frame, Pieces, Tally, words_for};

/// Which of the two pixels at the ends of a gap closes it (Apple TrueType Reference Manual, scan conversion).
#[derive(Clone, Copy, Debug, PartialEq, Eq)]
pub enum Closing {
    /// The left one, or the lower one (rule 3).
    Lower,
    /// The one to which the stroke between them is nearer; the left or the lower one if it is as near to both (rule 5).
    Nearer,
}

/// What the choice between the two depends on. The one outside the frame is never chosen.
#[derive(Drop)]
pub(crate) struct Chooser<'a> {
    pub pieces: &'a Pieces,
    pub frame: Frame,
    pub closing: Closing,
}

impl<'a> Chooser<'a> {
    /// Whether the right neighbour of a pixel, or with `is_up` the upper one, closes the gap between them. The pixel's column and
    /// row are counted from the frame's first.
    fn is_next(&self, is_up: bool, column: usize, row: usize, tally: &mut Tally) -> bool
        requires column { column < stride self.now.frame }
        requires row { row < self.now.frame.height }
        ensures value { IsTrue result ↔
            IsNext self.now is_up (self.now.frame.left +ℤ pos column) (self.now.frame.bottom +ℤ pos row) }
        ensures count { tally.new.count ≤ tally.old.count + choice_tests self.now.closing (length self.now.pieces.now) }
    {
        match self.closing {
            Closing::Lower => false,
            Closing::Nearer => match Pair::in_frame(self.frame, is_up, column, row) {
                None => false,
                Some(pair) => is_next_nearer(self.pieces, is_up, pair, tally),
            },
        }
    }

    /// Whether the pixel to which a segment leads closes it: it is the first of its row, or with `is_up` of its column, or it is
    /// chosen before the other.
    pub(crate) fn is_reached(&self, is_up: bool, segment: usize, tally: &mut Tally) -> bool
        requires { segment < segment_rows is_up self.now.frame * stride self.now.frame }
        ensures value { IsTrue result ↔ Reaches self.now is_up segment }
        ensures count { AreCounted self.now is_up segment (segment + 1) tally.old.count tally.new.count }
    {
        let stride = 32 * words_for(self.frame.width);
        let column = segment % stride;
        let row = segment / stride;
        if is_up {
            return row == 0 || self.is_next(true, column, row - 1, tally);
        }
        column == 0 || self.is_next(false, column - 1, row, tally)
    }
}

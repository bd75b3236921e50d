//! The gaps of rows, and then those of columns, closed.
//!
//! First the notes keep only the segments that are open. Then each of them is closed: by the pixel that it comes from, or by the
//! one that it leads to if that is chosen. The first pixel of a line closes the segment that leads to it. So no pixel that closes a
//! gap hides another gap of its line, and the order does not matter. A segment has the number of the pixel that it leads to.

ghost use Rattle.std.specs.Prelude.{◌≡◌, ◌+◌, ◌*◌, ◌≤◌, ◌<◌, length};
ghost use Rattle.fx_winding.specs.Bitmaps.{words_for as words_for_of};
ghost use Rattle.fx_dropout.specs.Tests.{choice_tests};
ghost use Rattle.fx_dropout.specs.inner.Closing.{distance, AreClosed, AreCounted, AreLinesClosed, AreOf};

use crate::chooser::Chooser;
use crate::open::{is_any, leave_open};
use fx_winding::{Frame, Tally, first_in, is_set, last_in, set_bit, words_for};

/// How far the pixel that a segment comes from is before the one that it leads to, in the bits of a frame's words.
#[inline(always)]
fn distance(is_up: bool, frame: Frame) -> usize
    ensures { result ≡ distance is_up frame }
{
    if is_up {
        32 * words_for(frame.width)
    } else {
        1
    }
}

/// Closes the gap of a segment, if it is one.
#[inline(always)]
fn close_gap(
    chooser: &Chooser<'_>,
    is_up: bool,
    gaps: &[u32],
    segment: usize,
    words: &mut [u32],
    tally: &mut Tally,
)
    requires of { AreOf is_up chooser.now.frame gaps.now words.old }
    requires segment { segment < 32 * length gaps.now }
    ensures closed { AreClosed chooser.now is_up gaps.now segment (segment + 1) words.old words.new }
    ensures count { AreCounted chooser.now is_up segment (segment + 1) tally.old.count tally.new.count }
{
    if !is_set(gaps, segment) {
        return;
    }
    if chooser.is_reached(is_up, segment, tally) {
        set_bit(words, segment);
        return;
    }
    set_bit(words, segment - distance(is_up, chooser.frame));
}

/// Closes the gaps of a word of segments. Most words have none.
#[inline(always)]
fn close_word(
    chooser: &Chooser<'_>,
    is_up: bool,
    gaps: &[u32],
    word: usize,
    words: &mut [u32],
    tally: &mut Tally,
)
    requires of { AreOf is_up chooser.now.frame gaps.now words.old }
    requires word { word < length gaps.now }
    ensures closed { AreClosed chooser.now is_up gaps.now (32 * word) (32 * (word + 1)) words.old words.new }
    ensures count { AreCounted chooser.now is_up (32 * word) (32 * (word + 1)) tally.old.count tally.new.count }
{
    let bits = gaps[word];
    if bits == 0 {
        return;
    }
    let first = 32 * word + first_in(bits) as usize;
    let last = 32 * word + last_in(bits) as usize;
    // The gaps of the word before this segment are closed.
    'segments: for segment in first..last + 1 {
        close_gap(chooser, is_up, gaps, segment, words, tally);
    }
}

/// Closes all gaps.
fn close_all(chooser: &Chooser<'_>, is_up: bool, gaps: &[u32], words: &mut [u32], tally: &mut Tally)
    requires { AreOf is_up chooser.now.frame gaps.now words.old }
    ensures closed { AreClosed chooser.now is_up gaps.now 0 (32 * length gaps.now) words.old words.new }
    ensures count { AreCounted chooser.now is_up 0 (32 * length gaps.now) tally.old.count tally.new.count }
{
    // The gaps of the words before this one are closed.
    'words: for word in 0..gaps.len() {
        close_word(chooser, is_up, gaps, word, words, tally);
    }
}

/// Closes the gaps of all rows of a frame, or of all columns. The notes keep the gaps.
pub(crate) fn close_lines(
    chooser: &Chooser<'_>,
    is_up: bool,
    noted: &mut [u32],
    words: &mut Vec<u32>,
    tally: &mut Tally,
)
    requires { AreOf is_up chooser.now.frame noted.old words.old.items }
    ensures noted { length noted.new ≡ length noted.old }
    ensures closed { AreLinesClosed chooser.now is_up noted.old words.old.items words.new.items }
    ensures count { tally.new.count ≤ tally.old.count + chooser.now.frame.height *
        (words_for_of chooser.now.frame.width * (32 * choice_tests chooser.now.closing (length chooser.now.pieces.now))) }
{
    leave_open(is_up, chooser.frame, noted, words);
    if is_any(noted) {
        close_all(chooser, is_up, noted, words, tally);
    }
}

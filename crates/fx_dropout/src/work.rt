//! How much work it is to close the gaps of a frame by the nearer pixel, counted before any of them is closed.

ghost use Rattle.std.specs.Prelude.{◌≡◌, ◌+◌, ◌*◌, ◌≤◌, ◌<◌, not, length, map, option_map};
ghost use Rattle.std.specs.List.{count_by};
ghost use Rattle.fx_winding.specs.Bitmaps.{words_for as words_for_of, IsScanOf};
ghost use Rattle.fx_winding.specs.Frames.{HasMargin};
ghost use Rattle.fx_winding.specs.Limits.{most_pieces};
ghost use Rattle.fx_winding.specs.Notes.{AreExact};
ghost use Rattle.fx_winding.specs.Winding.{place_of, span_of};
ghost use Rattle.fx_dropout.specs.declared.chooser.Closing.TheVariants.{Nearer};
ghost use Rattle.fx_dropout.specs.Decided.{is_missed};
ghost use Rattle.fx_dropout.specs.Work.{closing_work, gap_price, sum_below, within, HoldsGaps};
ghost use Rattle.fx_dropout.specs.inner.Closing.{distance, segment_rows, AreOf, AreOpen};
ghost use Rattle.fx_dropout.specs.inner.Pairs.{seen_spans};
ghost use Rattle.fx_dropout.specs.inner.Segments.{price_of, segment_price, segment_start, start_across};

use crate::nearer::is_missed;
use crate::open::leave_open;
use fx_winding::{Bitmap, Frame, Notes, Pieces, Point, centre_of, is_set, words_for};

/// Some work and more of it; none if that is more than a limit.
pub fn add_within(work: usize, more: usize, most: usize) -> Option<usize>
    requires { work ≤ most }
    ensures { result ≡ within most (work + more) }
{
    if more > most - work {
        return None;
    }
    Some(work + more)
}

/// How many pieces, with their coordinates exchanged or not, are not above, below or left of a place.
fn count_near(pieces: &Pieces, is_turned: bool, first: Point) -> usize
    ensures value { result ≡
        count_by (λ s. not (is_missed (place_of first) s)) (seen_spans is_turned (map span_of pieces.now)) }
    ensures few { result ≤ most_pieces }
{
    let mut count = 0;
    // `count` of the pieces before this one are near.
    'pieces: for piece in pieces.as_slice() {
        count += usize::from(!is_missed(piece, is_turned, first));
    }
    count
}

/// The price of a gap after a place: 1, one for 32 pieces, and one for each piece that is not missed there.
fn gap_price(pieces: &Pieces, is_turned: bool, first: Point) -> usize
    ensures { result ≡ gap_price (seen_spans is_turned (map span_of pieces.now)) (place_of first) }
{
    1 + pieces.len() / 32 + count_near(pieces, is_turned, first)
}

/// The centre of the pixel before one of a frame, or before the one after the last of a row. The column and the row are counted
/// from the frame's first.
fn start_across(frame: Frame, column: usize, row: usize) -> Option<Point>
    requires { HasMargin frame }
    ensures { option_map place_of result ≡ start_across frame.left frame.width frame.bottom frame.height column row }
{
    if column > frame.width as usize || row >= frame.height as usize {
        return None;
    }
    Some(centre_of(frame.left - 1 + column as i32, frame.bottom + row as i32))
}

/// The place from which a segment of a row, or with `is_up` of a column, comes; none if it is not one of the frame's.
fn segment_start(frame: Frame, is_up: bool, segment: usize) -> Option<Point>
    requires { HasMargin frame }
    ensures { option_map place_of result ≡ segment_start is_up frame segment }
{
    let stride = 32 * words_for(frame.width);
    let column = segment % stride;
    let row = segment / stride;
    if is_up {
        return start_across(frame.turned(), row, column);
    }
    start_across(frame, column, row)
}

/// The gaps of a frame's rows, or with `is_up` of its columns, before any of them is closed.
#[derive(Drop)]
struct Gaps<'a> {
    pieces: &'a Pieces,
    frame: Frame,
    is_up: bool,
    /// A bit for each segment: whether it is a gap.
    bits: &'a [u32],
}

impl<'a> Gaps<'a> {
    /// The work so far and the price of a segment, if it is a gap; none if that is more than `most`.
    fn add_segment(&self, segment: usize, work: usize, most: usize) -> Option<usize>
        requires margin { HasMargin self.now.frame }
        requires segment { segment < 32 * length self.now.bits.now }
        requires few { work ≤ most }
        ensures { result ≡ within most (work + price_of self.now segment) }
    {
        if !is_set(self.bits, segment) {
            return Some(work);
        }
        match segment_start(self.frame, self.is_up, segment) {
            None => Some(work),
            Some(first) => {
                let price = gap_price(self.pieces, self.is_up, first);
                add_within(work, price, most)
            }
        }
    }

    /// The same of the segments of a word. Most words have no gap.
    fn add_word(&self, word: usize, work: usize, most: usize) -> Option<usize>
        requires margin { HasMargin self.now.frame }
        requires long { length self.now.bits.now ≡ segment_rows self.now.is_up self.now.frame * words_for_of self.now.frame.width }
        requires word { word < length self.now.bits.now }
        requires few { work ≤ most }
        ensures { result ≡ within most (work + sum_below 32 (λ k. price_of self.now (32 * word + k))) }
    {
        if self.bits[word] == 0 {
            return Some(work);
        }
        let mut sum = work;
        // The segments of the word before this one are added.
        'segments: for k in 0..32 {
            sum = self.add_segment(32 * word + k, sum, most)?;
        }
        Some(sum)
    }

    /// The same of all segments.
    fn add_all(&self, work: usize, most: usize) -> Option<usize>
        requires margin { HasMargin self.now.frame }
        requires long { length self.now.bits.now ≡ segment_rows self.now.is_up self.now.frame * words_for_of self.now.frame.width }
        requires few { work ≤ most }
        ensures { result ≡ within most (work + sum_below (32 * length self.now.bits.now) (price_of self.now)) }
    {
        let mut sum = work;
        // The segments of the words before this one are added.
        'words: for word in 0..self.bits.len() {
            sum = self.add_word(word, sum, most)?;
        }
        Some(sum)
    }
}

/// The work so far and the prices of all gaps of a frame's rows, or with `is_up` of its columns; none if that is more than `most`.
/// The notes keep the gaps.
fn lines_work(
    pieces: &Pieces,
    frame: Frame,
    is_up: bool,
    noted: &mut [u32],
    words: &[u32],
    work: usize,
    most: usize,
) -> Option<usize>
    requires margin { HasMargin frame }
    requires of { AreOf is_up frame noted.old words.now }
    requires few { work ≤ most }
    ensures left { AreOpen (distance is_up frame) noted.old words.now noted.new }
    ensures value { result ≡ within most
        (work + sum_below (32 * length noted.new) (segment_price is_up frame (map span_of pieces.now) noted.new)) }
{
    leave_open(is_up, frame, noted, words);
    let gaps = Gaps {
        pieces,
        frame,
        is_up,
        bits: noted,
    };
    gaps.add_all(work, most)
}

/// The work so far and that of closing all gaps of a frame by the nearer pixel, before any of them is closed; none if it is more
/// than `most`. The bitmap and the notes are those of a scan of the pieces. The notes are used up.
pub fn closing_work(
    pieces: &Pieces,
    notes: &mut Notes,
    bitmap: &Bitmap,
    work: usize,
    most: usize,
) -> Option<usize>
    requires scanned { IsScanOf bitmap.now.frame (map span_of pieces.now) bitmap.now }
    requires frame { notes.old.frame ≡ bitmap.now.frame }
    requires noted { AreExact bitmap.now.frame notes.old.across.items notes.old.up.items (map span_of pieces.now) }
    requires margin { HasMargin bitmap.now.frame }
    requires around { HoldsGaps bitmap.now.frame (map span_of pieces.now) }
    requires few { work ≤ most }
    ensures { result ≡ within most (work + closing_work Nearer (map span_of pieces.now)) }
{
    let frame = bitmap.frame();
    if frame.width == 0 {
        return Some(work);
    }
    if frame.height == 0 {
        return Some(work);
    }
    let words = bitmap.words();
    let across = lines_work(pieces, frame, false, &mut notes.across, words, work, most)?;
    lines_work(pieces, frame, true, &mut notes.up, words, across, most)
}

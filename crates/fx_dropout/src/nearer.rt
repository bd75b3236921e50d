//! Which of two neighbours is nearer to the stroke that passes between their centres.

ghost use Rattle.std.specs.Prelude.{◌≡◌, ◌↔◌, ℕ, ◌+◌, ◌*◌, ◌^◌, ◌≤◌, ◌<◌, ◌-ℤ◌, IsTrue, length, map};
ghost use Rattle.fx_fixed.specs.Ranges.{IsWithin};
ghost use Rattle.fx_winding.specs.Near.{IsNear};
ghost use Rattle.fx_winding.specs.Winding.{place_of, span_of, IsCovered};
ghost use Rattle.fx_dropout.specs.Dropout.{IsNextNearer};
ghost use Rattle.fx_dropout.specs.inner.Pairs.{seen_span, seen_spans};
ghost use Rattle.fx_dropout.specs.inner.Places.{above, AreCountsWithin, IsCoveredIn, place_in, IsMissed, IsPieceAdded};

use crate::beside::{is_after, is_before};
use crate::pair::Pair;
use crate::places::Places;
use crate::stretched::stretched;
use fx_fixed::Axis;
use fx_rows::{Run, interval};
use fx_winding::{Frame, Piece, Pieces, Point, Tally, centre_of};

/// Whether a piece, with its coordinates exchanged or not, adds nothing at all places from one on: it lies above, below or left of
/// them.
#[inline(always)]
#[tactic(auto, using(crate::proofs::Decided::missed_turned))]
pub(crate) fn is_missed(piece: &Piece, is_turned: bool, first: Point) -> bool
    ensures { IsTrue result ↔ IsMissed (place_of first) (seen_span is_turned (span_of piece.now)) }
{
    if is_turned {
        return is_after(piece, Axis::X, first.y)
            || is_before(piece, Axis::X, first.y)
            || is_before(piece, Axis::Y, first.x);
    }
    is_after(piece, Axis::Y, first.y)
        || is_before(piece, Axis::Y, first.y)
        || is_before(piece, Axis::X, first.x)
}

/// What a piece right of a place at the height y adds there: 1 or -1 if the height is between those of its ends.
#[inline(always)]
fn turn_right(piece: &Piece, y: i32) -> i32
    ensures value { result ≡ above y piece.now.c.y -ℤ above y piece.now.a.y }
    ensures size { IsWithin 1 result }
{
    if piece.a.y <= y && y < piece.c.y {
        1
    } else if piece.c.y <= y && y < piece.a.y {
        -1
    } else {
        0
    }
}

/// A piece, with its coordinates exchanged or not.
#[inline(always)]
fn seen(piece: &Piece, is_turned: bool) -> Piece
    requires { IsNear piece.now }
    ensures near { IsNear result }
    ensures value { span_of result ≡ seen_span is_turned (span_of piece.now) }
{
    if is_turned { piece.turned() } else { *piece }
}

/// Adds what a piece adds at each place: that is what it adds to the row, stretched.
#[inline(never)]
fn add_stretched(piece: Piece, pair: Pair, places: &mut Places, tally: &mut Tally)
    requires near { IsNear piece }
    requires small { AreCountsWithin (2 ^ 19) places.old }
    ensures added { IsPieceAdded pair (span_of piece) places.old places.new }
    ensures count { tally.new.count ≤ tally.old.count + 10 }
{
    let wide = stretched(&piece, pair.col);
    let row = Frame {
        left: 0,
        bottom: pair.row,
        width: 128,
        height: 1,
    };
    places.add_part(interval(&wide, pair.row, row, tally));
}

/// Adds what a piece adds at each place. One right of all places adds the same at each.
#[inline(always)]
fn add_near(piece: &Piece, pair: Pair, places: &mut Places, tally: &mut Tally)
    requires near { IsNear piece.now }
    requires small { AreCountsWithin (2 ^ 19) places.old }
    ensures added { IsPieceAdded pair (span_of piece.now) places.old places.new }
    ensures count { tally.new.count ≤ tally.old.count + 10 }
{
    let first = centre_of(pair.col, pair.row);
    if is_after(piece, Axis::X, first.x + 127) {
        places.add_run(Some(Run {
            first: 0,
            last: 127,
            value: turn_right(piece, first.y),
        }));
        return;
    }
    add_stretched(*piece, pair, places, tally);
}

/// Adds what a piece, with its coordinates exchanged or not, adds at each place. Most pieces add nothing, which is asked before
/// they are exchanged.
#[inline(always)]
fn add_piece(piece: &Piece, is_turned: bool, pair: Pair, places: &mut Places, tally: &mut Tally)
    requires near { IsNear piece.now }
    requires small { AreCountsWithin (2 ^ 19) places.old }
    ensures added { IsPieceAdded pair (seen_span is_turned (span_of piece.now)) places.old places.new }
    ensures count { tally.new.count ≤ tally.old.count + 10 }
{
    let first = centre_of(pair.col, pair.row);
    if is_missed(piece, is_turned, first) {
        return;
    }
    add_near(&seen(piece, is_turned), pair, places, tally);
}

/// The places of a pair with what the pieces add, with their coordinates exchanged or not.
#[inline(always)]
fn places_of(pieces: &Pieces, is_turned: bool, pair: Pair, tally: &mut Tally) -> Places
    ensures small { AreCountsWithin (2 ^ 20) result }
    ensures covered { (n : ℕ) → n < 128 →
        IsCoveredIn result n ↔ IsCovered (place_in pair n) (seen_spans is_turned (map span_of pieces.now)) }
    ensures count { tally.new.count ≤ tally.old.count + 10 * length pieces.now }
{
    let mut places = Places::new();
    // What the pieces before this one add is added.
    'pieces: for piece in pieces.as_slice() {
        add_piece(piece, is_turned, pair, &mut places, tally);
    }
    places
}

/// Whether the stroke between the centres of a pixel and its right neighbour is nearer to the neighbour, in an outline with its
/// coordinates exchanged or not.
#[inline(always)]
fn is_seen_nearer(pieces: &Pieces, is_turned: bool, pair: Pair, tally: &mut Tally) -> bool
    ensures value { IsTrue result ↔ IsNextNearer (seen_spans is_turned (map span_of pieces.now)) pair.col pair.row }
    ensures count { tally.new.count ≤ tally.old.count + 10 * length pieces.now }
{
    let places = places_of(pieces, is_turned, pair, tally);
    places.count_covered(1) < places.count_covered(65)
}

/// The same, with one loop for each way to see a piece, which need not be asked for each.
pub(crate) fn is_next_nearer(
    pieces: &Pieces,
    is_turned: bool,
    pair: Pair,
    tally: &mut Tally,
) -> bool
    ensures value { IsTrue result ↔ IsNextNearer (seen_spans is_turned (map span_of pieces.now)) pair.col pair.row }
    ensures count { tally.new.count ≤ tally.old.count + 10 * length pieces.now }
{
    if is_turned {
        return is_seen_nearer(pieces, true, pair, tally);
    }
    is_seen_nearer(pieces, false, pair, tally)
}

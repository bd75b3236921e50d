//! Whether a piece meets the segment between two places of a row.

ghost use Rattle.std.specs.Prelude.{◌≡◌, ◌↔◌, ◌+◌, ◌≤◌, IsTrue, Any, map};
ghost use Rattle.fx_winding.specs.Winding.{place_of, maybe_place_of, span_of};
ghost use Rattle.fx_winding.specs.Meets.{IsWithinRow, IsTipPart, IsMet};

use crate::cover::turn_at;
use crate::point::{Piece, Point};
use crate::tally::Tally;
use crate::tip::is_tip;

/// Whether e is on the row of p and q, strictly between them.
fn is_within(p: Point, q: Point, e: Point) -> bool
    ensures { IsTrue result ↔ IsWithinRow (place_of p) (place_of q) (place_of e) }
{
    if e.y != p.y {
        return false;
    }
    if e.x <= p.x {
        return false;
    }
    e.x < q.x
}

/// Whether a piece's tip comes between two places of a row; a line has none.
fn has_tip(piece: &Piece, p: Point, q: Point, tally: &mut Tally) -> bool
    ensures value { IsTrue result ↔
        IsTipPart (place_of piece.now.a) (maybe_place_of piece.now.b) (place_of piece.now.c) (place_of p) (place_of q) }
    ensures count { tally.new.count ≤ tally.old.count + 1 }
{
    match piece.b {
        None => false,
        Some(b) => is_tip(piece, b, p, q, tally),
    }
}

/// Whether a piece meets the segment between two places of a row, neither of which is on it: an end of the piece is between them,
/// or it adds one number to the winding number at p and another at q, or its tip comes between them.
pub fn meets(piece: &Piece, p: Point, q: Point, tally: &mut Tally) -> bool
    ensures value { IsTrue result ↔ IsMet (place_of p) (place_of q) (span_of piece.now) }
    ensures count { tally.new.count ≤ tally.old.count + 5 }
{
    if is_within(p, q, piece.a) {
        return true;
    }
    if is_within(p, q, piece.c) {
        return true;
    }
    if turn_at(piece, p, tally) != turn_at(piece, q, tally) {
        return true;
    }
    has_tip(piece, p, q, tally)
}

/// Whether some piece meets the segment between two places of a row.
pub fn any_meets(pieces: &[Piece], p: Point, q: Point, tally: &mut Tally) -> bool
    ensures { IsTrue result ↔ Any (IsMet (place_of p) (place_of q)) (map span_of pieces.now) }
{
    // None of the pieces before this one meets it.
    'pieces: for piece in pieces {
        if meets(piece, p, q, tally) {
            return true;
        }
    }
    false
}

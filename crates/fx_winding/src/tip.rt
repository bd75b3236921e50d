//! Arcs that reach a row and turn back.

ghost use Rattle.std.specs.Prelude.{◌≡◌, ◌↔◌, ◌+◌, ◌≤◌, IsTrue, Some};
ghost use Rattle.fx_winding.specs.Winding.{place_of};
ghost use Rattle.fx_winding.specs.Meets.{IsTip};

use crate::cover::region;
use crate::point::{Piece, Point};
use crate::range::reached_y;
use crate::slope::gap_slope;
use crate::tally::Tally;

/// Whether the tip of an arc comes between two places of a row.
pub(crate) fn is_tip(piece: &Piece, b: Point, p: Point, q: Point, tally: &mut Tally) -> bool
    requires middle { piece.now.b ≡ Some b }
    ensures value { IsTrue result ↔ IsTip (place_of piece.now.a) (place_of b) (place_of piece.now.c) (place_of p) (place_of q) }
    ensures count { tally.new.count ≤ tally.old.count + 1 }
{
    if !reached_y(piece.a, b, piece.c, p) {
        return false;
    }
    if region(piece, p.x, p.y, tally) != 0 {
        return false;
    }
    if gap_slope(piece.a, b, piece.c, p) <= 0 {
        return false;
    }
    gap_slope(piece.a, b, piece.c, q) < 0
}

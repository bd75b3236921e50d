//! The one segment of a row within which the tip of an arc can be.

ghost use Rattle.std.specs.Prelude.{◌≡◌, ℕ, ◌+◌, ◌<◌, ◌≤◌, Some};
ghost use Rattle.fx_winding.specs.Meets.{IsTipPart};
ghost use Rattle.fx_winding.specs.Winding.{span_of};
ghost use Rattle.fx_rows.specs.inner.Sides.{place_at};

use crate::arc::gaps_of;
use crate::search::{Before, cut_in};
use crate::strip::{Strip, areas_at};
use fx_winding::{Piece, Point, Tally};

/// The column to which the one segment of a row goes within which the tip of an arc can be, counted from the base, or the number of
/// columns.
pub(crate) fn tip_column(piece: &Piece, b: Point, strip: Strip, tally: &mut Tally) -> u32
    requires middle { piece.now.b ≡ Some b }
    ensures within { result ≤ strip.stop }
    ensures only { (k : ℕ) → k + 1 < strip.stop →
        IsTipPart (span_of piece.now).a (span_of piece.now).b (span_of piece.now).c (place_at strip k) (place_at strip (k + 1)) →
        k + 1 ≡ result }
    ensures count { tally.new.count ≤ tally.old.count + 1 }
{
    if strip.stop == 0 {
        return 0;
    }
    let areas = areas_at(piece, strip, 0, tally);
    cut_in(Before::Tip, gaps_of(piece, b, strip, areas), 0, strip.stop)
}

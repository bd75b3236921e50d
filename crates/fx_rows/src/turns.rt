//! The value of a run at a column, and rows that are not beyond both ends of a piece.

ghost use Rattle.std.specs.Prelude.{◌≡◌, pos, ◌+ℤ◌, ◌*ℤ◌, ◌≤ℤ◌, IsTrue};
ghost use Rattle.fx_winding.specs.Limits.{IsPixelNumber};
ghost use Rattle.fx_rows.specs.inner.Sums.{value_at};

use crate::bounded::Rise;
use crate::part::Run;

/// The value of a run at a column.
pub(crate) fn run_at(run: Option<Run>, col: i32) -> i32
    ensures { result ≡ value_at run col }
{
    match run {
        None => 0,
        Some(run) => {
            if run.first <= col && col <= run.last {
                run.value
            } else {
                0
            }
        }
    }
}

/// Whether the centres of a row are between the ends of a chord, or at the height of one.
#[tactic(auto, using(fx_fixed::proofs::Linear::signed, fx_fixed::proofs::Linear::signed_linear))]
pub(crate) fn is_among(rise: Rise, row: i32) -> bool
    requires { IsPixelNumber row }
    ensures { IsTrue result → (rise.foot ≤ℤ (pos 128 *ℤ row +ℤ pos 64)) × ((pos 128 *ℤ row +ℤ pos 64) ≤ℤ rise.head) }
{
    let y = 128 * row + 64;
    if y < rise.foot {
        return false;
    }
    y <= rise.head
}

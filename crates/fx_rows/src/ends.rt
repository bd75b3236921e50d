//! The region of a bent arc and its columns, from the first and the last column where its gap is at least 0.

ghost use Rattle.std.specs.Prelude.{◌≡◌, ◌≢◌, ◌⊎◌, ℕ, ℤ, ◌+◌, ◌^◌, ◌<◌, ◌≤◌, pos, ◌+ℤ◌, ◌<ℤ◌, ◌≤ℤ◌, IsTrue, ◌↔◌};
ghost use Rattle.fx_fixed.specs.Ranges.{IsWithin};
ghost use Rattle.fx_winding.specs.Limits.{greatest_side, end_of_pixels};
ghost use Rattle.fx_winding.specs.Winding.{Span};
ghost use Rattle.fx_rows.specs.inner.Runs.{AreCells, IsCore};
ghost use Rattle.fx_rows.specs.inner.Candidates.{IsOnStrip, AreEnds};

use crate::along::Columns;
use crate::cells::Cells;
use crate::part::OnRow;
use crate::strip::{Strip, column};

/// The column, or the next if it is on the arc.
fn first_inside(k: u32, on: bool) -> u32
    requires { k < 2 ^ 16 }
    ensures past { IsTrue on → result ≡ k + 1 }
    ensures here { ¬ (IsTrue on) → result ≡ k }
{
    if on { k + 1 } else { k }
}

/// The end of the columns up to k, with k unless it is on the arc.
fn end_inside(k: u32, on: bool) -> u32
    requires { k < 2 ^ 16 }
    ensures past { IsTrue on → result ≡ k }
    ensures here { ¬ (IsTrue on) → result ≡ k + 1 }
{
    if on { k } else { k + 1 }
}

/// The columns with the value, those before `own` and not on the arc.
pub(crate) fn region_cells(
    columns: Columns,
    on_first: bool,
    on_last: bool,
    own: u32,
    value: i32,
) -> Option<Cells>
    requires few { columns.last < 2 ^ 16 }
    requires order { columns.first ≤ columns.last }
    requires value { value ≢ pos 0 }
    requires small { IsWithin 1 value }
    ensures { (f : ℕ → ℤ) → (stop : ℕ) → IsCore f stop columns on_first on_last own value → AreCells f stop result }
{
    let first = first_inside(columns.first, on_first);
    let end = end_inside(columns.last, on_last);
    let stop = if own < end { own } else { end };
    if stop <= first {
        return None;
    }
    Some(Cells {
        first,
        last: stop - 1,
        value,
    })
}

/// The columns that are on a bent arc. Only the first and the last can be.
pub(crate) fn on_ends(strip: Strip, columns: Columns, on_first: bool, on_last: bool) -> OnRow
    requires order { columns.first ≤ columns.last }
    requires to { columns.last < strip.stop }
    ensures { (s : Span) → AreEnds s strip columns on_first on_last → IsOnStrip s strip result }
{
    if !on_first {
        if !on_last {
            return OnRow::None;
        }
        return OnRow::One(column(strip, columns.last));
    }
    if !on_last {
        return OnRow::One(column(strip, columns.first));
    }
    if columns.first == columns.last {
        return OnRow::One(column(strip, columns.first));
    }
    OnRow::Two(column(strip, columns.first), column(strip, columns.last))
}

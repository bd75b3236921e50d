//! Where the segments of rows, or of columns seen as rows, have their bits.

ghost use Rattle.std.specs.Prelude.{◌≡◌, ◌+◌, ◌*◌, ◌^◌, ◌<◌, ◌≤◌, pos, ◌+ℤ◌, ◌-ℤ◌};
ghost use Rattle.fx_winding.specs.Frames.{HasMargin};
ghost use Rattle.fx_winding.specs.Limits.{IsPixelNumber};

use crate::strip::{Strip, row_of};
use fx_winding::Frame;

/// A row of a frame, and where its segments have their bits: that to the frame's first column at `first`, and each further one
/// `step` bits on.
#[derive(Clone, Copy)]
pub(crate) struct NotedRow {
    pub frame: Frame,
    pub row: i32,
    pub first: usize,
    pub step: usize,
    ghost row_near: { IsPixelNumber row },
    ghost margin: { HasMargin frame },
    ghost low: { first ≤ 2 ^ 32 },
    ghost few: { step ≤ 2 ^ 16 },
}

/// The rows of a frame, and where their segments have their bits: those of a row begin `row_step` bits after those of the row
/// below, and each is `step` bits after the one before.
#[derive(Clone, Copy)]
pub(crate) struct NotedRows {
    pub frame: Frame,
    pub row_step: usize,
    pub step: usize,
    ghost margin: { HasMargin frame },
    ghost low: { row_step ≤ 2 ^ 16 },
    ghost few: { step ≤ 2 ^ 16 },
}

impl NotedRow {
    /// The columns of the row, with the one on each side of the frame. The segment to a column of the frame comes before the column
    /// that is one further from this base.
    #[tactic(auto, using(fx_fixed::proofs::Linear::signed_linear))]
    pub(crate) fn strip(&self) -> Strip
        ensures row { result.row ≡ self.now.row }
        ensures base { result.base ≡ self.now.frame.left -ℤ pos 1 }
        ensures stop { result.stop ≡ self.now.frame.width + 2 }
    {
        Strip {
            row: self.row,
            base: self.frame.left - 1,
            stop: self.frame.width + 2,
        }
    }
}

impl NotedRows {
    /// The row that is `up` above the lowest.
    #[inline(always)]
    pub(crate) fn row(self, up: u32) -> NotedRow
        requires { up < self.frame.height }
        ensures frame { result.frame ≡ self.frame }
        ensures row { result.row ≡ self.frame.bottom +ℤ pos up }
        ensures first { result.first ≡ up * self.row_step }
        ensures step { result.step ≡ self.step }
    {
        NotedRow {
            frame: self.frame,
            row: row_of(self.frame, up),
            first: up as usize * self.row_step,
            step: self.step,
        }
    }
}

//! Columns of a frame.

ghost use Rattle.std.specs.Prelude.{◌≡◌, ◌≤◌, pos, ◌+ℤ◌, ◌≤ℤ◌};

use fx_winding::Frame;

/// The columns of a frame from `first` on and before `end`, counted from its left one.
#[derive(Clone, Copy)]
pub(crate) struct Reach {
    pub first: u32,
    pub end: u32,
}

/// How many columns of a frame are before a column, which is one of the frame or the one after its last.
#[inline(always)]
pub(crate) fn columns_to(frame: Frame, col: i32) -> u32
    requires low { frame.left ≤ℤ col }
    requires high { col ≤ℤ (frame.left +ℤ pos frame.width) }
    ensures at { frame.left +ℤ pos result ≡ col }
    ensures within { result ≤ frame.width }
{
    (col - frame.left) as u32
}

//! Whether a frame of pixels lies in a region.
ghost use Rattle.std.specs.Prelude.{◌≡◌, IsTrue, ℤ, pos, ◌+ℤ◌};
ghost use Rattle.fx_contour.specs.Frames.{IsInside};
ghost use Rattle.fx_raster.specs.Rules.{IsInRegion};
ghost use Rattle.fx_raster.specs.inner.Framing.{are_among, sides_lie_in, lies_in};

use crate::region::Region;
use fx_winding::Frame;

/// The number after the last of `count` numbers from `first` on.
fn end_of(first: i32, count: u32) -> i64
    ensures { result ≡ first +ℤ pos count }
{
    i64::from(first) + i64::from(count)
}

/// Whether each of `count` numbers from `first` on is one of `more` numbers from `other` on.
fn are_among(first: i32, count: u32, other: i32, more: u32) -> bool
    ensures { result ≡ are_among first count other more }
{
    other <= first && end_of(first, count) <= end_of(other, more)
}

/// Whether the columns and rows of a frame are all among those of a region.
fn sides_lie_in(frame: Frame, region: Region) -> bool
    ensures { result ≡ sides_lie_in frame region }
{
    are_among(frame.left, frame.width, region.left, region.width)
        && are_among(frame.bottom, frame.height, region.bottom, region.height)
}

/// Whether a frame lies in a region: each pixel of the frame is one of the region. So no frame with a pixel lies in a region
/// without one. If there is no frame, nothing lies outside.
pub(crate) fn lies_in(frame: Option<Frame>, region: Region) -> bool
    ensures sides { result ≡ lies_in frame region }
    ensures pixels { IsTrue result → (col row : ℤ) → IsInside frame col row → IsInRegion region col row }
{
    match frame {
        Some(frame) => sides_lie_in(frame, region),
        None => true,
    }
}

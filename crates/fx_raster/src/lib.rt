//! The pixels that an outline sets.
//!
//! A `Shape` is an outline within the limits, with a rule: a pixel is set if its centre lies on the outline or has a winding number
//! other than 0 about it; with drop-out control the pixels that close a gap are set as well. `Shape::of` makes a shape of an
//! outline, or says why there is none; `lies_in` says that all its pixels lie in a box, `work_within` how much work it is to draw
//! it, and `bitmap` makes its bits.
//! `specs/Rules` says which pixels are set. Nothing above this crate needs to know how they are found.
#![tactic(auto)]

mod bits;
mod frames;
pub mod laws;
mod region;
mod rule;
mod scratch;
mod shape;
mod within;
mod work;

pub use fx_contour::ContourFault as RasterFault;
pub use fx_dropout::Closing;
pub use fx_rows::Rows;
pub use fx_winding::{Bitmap, Frame, Scan};
pub use region::Region;
pub use rule::Rule;
pub use scratch::RasterScratch;
pub use shape::Shape;

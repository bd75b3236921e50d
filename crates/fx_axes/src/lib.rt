//! The axes of a variable font: `fvar` and `avar`, and the normalized coordinates of values along axes.
//!
//! Nothing here takes memory, and no table is copied. The rules are those of the OpenType specification, "fvar", "avar" and
//! "OpenType Font Variations Overview", "Coordinate scales and normalization".
#![tactic(auto)]

mod avar;
mod axes;
mod coordinates;
mod fault;
mod fvar;
mod places;
mod records;
mod rounding;

pub use axes::Axes;
pub use fault::AxesFault;
pub use records::{Axis, AxisValue, Extent, Mapping};
pub use rounding::near_up;

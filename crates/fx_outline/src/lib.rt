//! Outlines at one size: contours of points on and off the curve.
#![tactic(auto)]

mod limits;
mod points;

pub use limits::MAX_POINTS;
pub use points::{Outline, OutlinePoint};

//! The points of contours between named ones: a rule names points and fills the runs between them, and a sweep finds the runs.
//!
//! Untouched points between touched ones are such runs, and points without a delta between those that a tuple names. A contour is
//! a cycle: its last point comes before its first. Nothing here takes memory.
#![tactic(auto)]

mod contours;
mod rule;

pub use contours::fill_contours;
pub use rule::Rule;

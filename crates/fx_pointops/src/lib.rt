//! The zones of the TrueType machine, and the instructions that read and move points.
//!
//! A call is one row of the instruction table. Its operands, the points of a loop and control values are handed in. The zones count
//! its strays: operands and reference points whose number is outside their zone. A stray reads as a point at (0, 0), and what is
//! written to it is dropped. Reference points and the loop count are set by the caller. No call takes memory, none can fail, and
//! none changes how many points a zone has, or its contours (`laws`). The rules are those of the Apple TrueType Reference Manual,
//! "Instruction set"; the rounding of products and what strays do are this project's own choice.
#![tactic(auto)]

mod delta;
mod direct;
mod distances;
mod flip;
mod indirect;
mod interpolate;
mod intersect;
mod iup;
pub mod laws;
mod loops;
mod measure;
mod shift;
mod shift_point;
mod zones;

pub use distances::Relative;
pub use measure::LineBetween;
pub use zones::Zones;

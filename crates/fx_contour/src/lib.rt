//! The pieces of an outline, lines and quadratic arcs, and the box of pixels around them.
//!
//! An outline's points are in 26.6 pixels and its pieces in 1/128 pixel, so that a midpoint of two points is exact.
//! `pieces` makes each contour one closed chain of pieces; `frame` gives the least box of pixels that can hold a set one, and
//! `outline_frame` gives it without making the pieces. `dropout_frame` gives the box with drop-out control, which has a pixel
//! wherever there is a piece.
#![tactic(auto)]

mod bounds;
mod curves;
mod dropout_frames;
mod extent;
mod fault;
mod frames;
pub mod laws;
mod pixels;

pub use curves::{pieces, pieces_in_reach};
pub use dropout_frames::{dropout_frame, pieces_dropout_frame};
pub use fault::ContourFault;
pub use frames::{frame, outline_frame};

//! What the symmetries of the grid of pixels do to pieces, outlines and pictures: mirrored at the upright axis, at the level one
//! or at the diagonal; what drop-out control sets if pieces are reversed, or moved by whole pixels; and that the halves of an arc
//! cover what the arc covers. These are laws of the definitions of the crates below. No crate of the program stands on this one.
#![tactic(auto)]

mod halving;
pub mod laws;

pub use halving::halves;

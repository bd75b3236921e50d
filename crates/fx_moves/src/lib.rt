//! How the tuples of a variable font move points: the deltas that they give, those inferred of them, and the sums of all tuples.
//!
//! A list has a coordinate of all points of a glyph, x or y, and nothing here takes memory. The rules are those of the OpenType
//! specification, "gvar", "Point numbers and processing for 'gvar'" and "Inferred deltas for un-referenced point numbers".
#![tactic(auto)]

mod adding;
mod folding;
mod giving;
mod inferring;
mod laws;
mod moving;
mod point;
mod stores;

pub use inferring::{Named, inferred};
pub use laws::{law_add_nothing, law_between};
pub use point::GivenPoint;
pub use stores::{add_glyph, add_store};

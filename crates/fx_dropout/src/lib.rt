//! Drop-out control: the pixels that keep thin strokes whole, set in the bitmap of an outline (Apple TrueType Reference Manual,
//! scan conversion, rules 3 and 5).
//!
//! Where a piece passes between the centres of two neighbours in a row, neither of which is set, one of them is set: the left one,
//! or the one to which the stroke is nearer (`Closing`). Then the same in columns. So no gap stays open between two neighbours. A
//! dot between four centres, which meets no segment from one centre to a neighbour's, is still lost. `closing_work` says how much
//! work the nearer pixels are, before any gap is closed.
#![tactic(auto)]

mod beside;
mod chooser;
mod closing;
pub mod laws;
mod nearer;
mod noted;
mod open;
mod pair;
mod places;
mod stretched;
mod work;

pub use chooser::Closing;
pub use noted::close_gaps;
pub use work::{add_within, closing_work};

//! Variable fonts: a font at a place along its axes, with the points, the origins and the advances of its glyphs.
//!
//! A glyph's points are moved in lists that one glyph leaves to the next. The rules are those of the OpenType specification,
//! "gvar" and "cvar".
#![tactic(auto)]

mod controls;
mod fault;
mod font_at;
mod gvar;
mod instance;
mod laws;
mod lists;
mod metrics;
mod settling;
mod shape;

pub use fault::{GvarFault, ShapeFault};
pub use font_at::{FontAt, own_bearings};
pub use gvar::is_gvar;
pub use instance::Instance;
pub use laws::{law_by_delta, law_rests};
pub use lists::Moved;
pub use metrics::Bearings;
pub use shape::shape_at;

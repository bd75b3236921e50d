//! Glyph descriptions of a TrueType font: the bytes of one glyph of `glyf`, read in place.
//!
//! `read` checks the bytes once and returns a glyph over them, or the first fault; the iterators of a
//! glyph then decode in place. Nothing here takes memory: no function takes an allocator,
//! and no value holds one.
#![tactic(auto)]

mod component;
mod components;
mod composite;
mod ends;
mod fault;
mod flags;
mod glyph;
mod outline;
mod point;
mod points;
mod program;
mod reading;
mod records;
mod simple;

pub use component::Component;
pub use components::Components;
pub use composite::Composite;
pub use ends::Ends;
pub use fault::GlyphFault;
pub use glyph::Glyph;
pub use point::GlyphPoint;
pub use points::Points;
pub use reading::read;
pub use simple::Simple;

//! Scaled outlines of glyphs, composite glyphs included.
//!
//! An outline is assembled by recursion on components: a simple glyph's points are scaled; a composite's components are
//! assembled one after the other, each by its rule, transformed and placed. At the end the outline of the root, the glyph that
//! is asked for, is moved so that its first phantom point lies at x = 0. What hinting adds, rounding and the programs of
//! glyphs, is one parameter, a [`Hinter`]: a machine of the font at the size, or [`NoHinter`], which does neither.
#![tactic(auto)]

mod below;
mod bounded;
mod component;
mod count;
mod fault;
mod glyph_outline;
mod hinter;
mod kept;
mod kept_glyphs;
mod laws;
mod limits;
mod made;
mod outlines;
mod placing;
mod programmed;
mod spare;
mod walk;
mod watcher;

pub use bounded::outline_within;
pub use component::ComponentOf;
pub use count::Count;
pub use fault::HintFault;
pub use glyph_outline::GlyphOutline;
pub use hinter::{Hinter, NoHinter};
pub use kept_glyphs::KeptGlyphs;
pub use laws::runs_are_the_walks;
pub use limits::{MAX_COMPONENTS, MAX_DEPTH};
pub use made::Made;
pub use outlines::{outline, outline_in, outline_with};
pub use programmed::WatchedMachine;
pub use spare::Spare;
pub use watcher::{AnyComponent, RunWatcher, RunWatching, RunningProgram};

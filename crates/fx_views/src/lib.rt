//! What a font shows beside its strikes: one glyph alone, the outline that its bits are of, the numbers of a font at a size, the
//! trace of its programs and their listings.
//!
//! `chosen` makes one glyph, chosen by a character or by its number, and `one` that of a character. `outlined` and
//! `outline_numbered` make the outline of a glyph, and `write_outline` writes it. `font_metrics` tells what a font is at a size,
//! and `map_for` opens its character map. `trace_of` writes what its programs did, and `listing_of` the listing of one of them,
//! straight to the writer and without memory. Each call opens the font, and those that make a glyph a `Striker` for that glyph.
#![tactic(auto)]

mod choices;
mod listing;
mod numbers;
mod one_character;
mod outline_text;
mod outlines;
mod trace;

pub use choices::chosen;
pub use listing::listing_of;
pub use numbers::{FontMetrics, font_metrics, map_for};
pub use one_character::one;
pub use outlines::{outline_numbered, outlined, write_outline};
pub use trace::trace_of;

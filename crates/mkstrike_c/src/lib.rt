//! `mkstrike` for C: strikes and glyphs of a TrueType font.
//!
//! `mkstrike_make` makes the text of a strike, `mkstrike_glyph` the numbers and the pixels of one character, `mkstrike_glyphs`
//! those of many with the font opened once, `mkstrike_glyph_by_id` those of a glyph by its number, `mkstrike_outline` the points
//! of its outline. `mkstrike_prepare` writes what the font's programs leave into a block of the caller's, and three calls that end
//! in `_prepared` draw by it. `mkstrike_characters` tells the characters of a font, `mkstrike_glyph_ids` the numbers of their
//! glyphs, `mkstrike_font` about a font at a size, `mkstrike_name` the font's family and its other names, `mkstrike_faces` how many
//! faces a file has, `mkstrike_reason` the name of a refusal, `mkstrike_advice` what to do, `mkstrike_version` the release. Each
//! takes all that it needs and keeps nothing from call to call. What they leave in the caller's buffers is said in `specs/`, by the
//! definitions of the crates below.
//!
//! The functions here have `proved_` before these names, and take an address for each pointer; those that draw take the font, its
//! size and the mode in one struct. `c/calls.c` defines the calls that `include/mkstrike.h` declares, which may be handed NULL.
#![tactic(auto)]

mod block;
mod buffer;
mod characters;
mod font;
mod font_at;
mod font_names;
mod gathered;
mod glyph;
mod glyph_ids;
mod glyphs;
pub mod laws;
mod making;
mod mode;
mod names;
mod outlines;
mod pixels;
mod prepared;
mod reason;
mod refused;
mod sink;
mod version;

pub use block::proved_mkstrike_prepare;
pub use characters::proved_mkstrike_characters;
pub use font::{FontInfo, proved_mkstrike_faces, proved_mkstrike_font};
pub use font_at::{FontAt, PreparedFont};
pub use font_names::proved_mkstrike_name;
pub use gathered::{Drawn, Placed};
pub use glyph::{GlyphInfo, proved_mkstrike_glyph, proved_mkstrike_glyph_by_id};
pub use glyph_ids::proved_mkstrike_glyph_ids;
pub use glyphs::proved_mkstrike_glyphs;
pub use making::{Told, proved_mkstrike_make};
pub use outlines::{OutlinePoint, Outlined, proved_mkstrike_outline};
pub use prepared::{
    proved_mkstrike_glyph_by_id_prepared, proved_mkstrike_glyph_prepared,
    proved_mkstrike_glyphs_prepared,
};
pub use reason::{proved_mkstrike_advice, proved_mkstrike_reason};
pub use refused::Refused;
pub use version::proved_mkstrike_version;

//! Strikes: characters of a TrueType font at one size, as a text in the Bitmap Distribution Format (BDF), version 2.1.
//!
//! `make_strike` writes exactly the text of the strike whose every bit is set exactly when the pixel's centre lies on the outline
//! that the font's programs make of the scaled glyph, or has a winding number other than 0 about it (with hinting off no program
//! runs; with drop-out control the pixels that close a gap are set as well, by one rule for all glyphs or as the font asks); or it
//! names the first cause why no such strike exists, or that it is out of memory, or a fault of the writer.
//! `specs/Strike` says what a strike is, `specs/Headline` what a call returns and leaves; both cite the definitions of the crates
//! below and nothing of their code. A request says what becomes of characters that are refused, and `make_strike_telling` tells a
//! listener of those that did not stop the strike. A `Striker` is a font at a size that is opened once, and makes characters and
//! strikes one after the other; the other calls open one, and let it go. A crate above opens a font by `open_at` or `open_many`,
//! and a striker of it by `Striker::of`.
//!
//! A careful strike refuses characters that take too much work. Before the passes it goes over its characters once, and finds which
//! these are (`specs/Careful`).
//!
//! A strike is made in two passes over its characters: the first surveys it, so that no byte is written of a strike that is
//! refused; the second writes it. The first pass keeps the lines of the first characters, up to 8 MiB; the second writes these,
//! and makes the other characters again. Once nothing more is kept, the first pass makes a glyph's bits only if its frame is not
//! in the box of the glyphs so far, which they could not widen. `make_strike_sparing` keeps nothing. `survey` is the first pass
//! alone.
#![tactic(auto)]

mod block;
mod census;
mod characters;
mod draw;
mod fate;
mod faults;
mod first_pass;
mod gathered;
mod hinter;
mod kept_text;
pub mod laws;
mod make;
mod open;
mod opened;
mod over_codes;
mod rule;
mod second_pass;
mod seen;
mod sketch;
mod striker;
mod strikes;
mod surveyed;

pub use faults::of_hint;
pub use fx_bdf::Title;
pub use fx_raster::Rows;
pub use hinter::{is_work_over, machine_at};
pub use make::{make_strike, make_strike_sparing, make_strike_telling, make_strike_with, survey};
pub use open::{check_chars, font_with_map, open_at, open_many};
pub use opened::Opened;
pub use striker::Striker;
pub use surveyed::Survey;

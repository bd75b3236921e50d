//! The tables of a TrueType font: its directory, the fields of `head`, `maxp` and `hhea`, a glyph's metrics and bytes.
//!
//! A [`Font`] is a view over the bytes of its file; nothing here takes memory, and no table is copied. The rules are those
//! of the OpenType specification, "Organization of an OpenType font", "head", "maxp", "hhea", "hmtx", "loca", "glyf" and
//! "Font Collections".
#![tactic(auto)]

mod directory;
mod fault;
mod fields;
mod file;
mod font;
mod glyphs;
mod records;
mod tables;
mod units;

pub use fault::FontFault;
pub use fields::{i16_at, i16_in, u16_at, u16_in, u32_at, u32_in};
pub use file::FontFile;
pub use font::Font;
pub use records::{Head, Hhea, LocFormat, Maxp, Metrics};
pub use units::UnitsPerEm;

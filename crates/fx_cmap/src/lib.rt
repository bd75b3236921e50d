//! The character map of a TrueType font: which glyph a character has.
//!
//! A [`CharMap`] is a view over the bytes of `cmap`; nothing here takes memory. The rules are those of the OpenType
//! specification, "cmap", "Format 4: Segment mapping to delta values" and "Format 12: Segmented coverage".
#![tactic(auto)]

mod candidates;
mod char_map;
mod codes;
mod fault;
mod group;
mod groups;
pub mod laws;
mod map_reader;
mod mapped;
mod mapping;
mod records;
mod rising;
mod segment;
mod segments;
mod subtable;

pub use char_map::CharMap;
pub use fault::CharMapFault;
pub use map_reader::MapReader;

//! The names of a TrueType font: its family, its style and others, by their numbers in the table `name`.
//!
//! Nothing here takes memory, and no table is copied. The rules are those of the OpenType specification, "name". A damaged table
//! has no names, and is never a fault of the font.
#![tactic(auto)]

mod kinds;
mod name;
mod records;
mod utf16;

pub use name::Name;

//! The words of a command line: which name the font and the output, and which are for the program; and the sets of characters that
//! have names. Nothing is opened here.
#![tactic(auto)]

pub mod laws;
mod parts;
mod sets;

pub use parts::{Parts, after_start, has, is_path, part, value_in};
pub use sets::{SETS, list_of, listed, lists_in, parts_of, set_names, value_of};

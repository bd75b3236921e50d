//! Traces: what a font's programs did, a line for each program that begins and each instruction that is executed.
//!
//! A line has the program whose bytes hold the instruction, the instruction as in the program's listing, and the numbers on top of
//! the stack after it, and then what it changed: each part of the state that differs, with its value before and after.
#![tactic(auto)]

mod changes;
mod ending;
mod fault;
mod glyph;
mod line;
mod prelude;
mod settings;
mod snapshot;
mod text;
mod tracer;
mod values;
mod wanted;

pub use fault::TraceFault;
pub use glyph::trace_glyph;
pub use prelude::{trace_fpgm, trace_prep};

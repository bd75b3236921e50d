//! The stack, the storage area and the control values of the TrueType machine, and the instructions that touch these alone.
//!
//! All memory is taken in `Store::new`. Each call leaves the sizes as they were: the stack's room, the storage cells and the
//! control values, also after a fault. The rules are those of the Apple TrueType Reference Manual, "Instruction set".
#![tactic(auto)]

mod arithmetic;
mod compare;
mod fault;
mod inquiry;
pub mod laws;
mod stack;
mod store;
mod table;
mod tables;

pub use fault::StackFault;
pub use store::Store;
pub use table::Table;

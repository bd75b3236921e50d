//! The machine that runs font programs.
#![tactic(auto)]

mod action;
mod block;
mod calls;
mod definitions;
mod dispatch;
mod flow;
mod graphics_rows;
mod halt;
pub mod laws;
mod limits;
mod machine;
mod point_rows;
mod prepared;
mod program;
mod ran;
mod run;
mod sizes;
mod state;
mod state_rows;
mod step;
mod usage;
mod watching;
mod words;
mod work;

pub use definitions::{Definitions, Function};
pub use halt::{Cause, Halt, MachineFault};
pub use limits::STEP_LIMIT;
pub use machine::Machine;
pub use prepared::Prepared;
pub use program::{FontProgram, Program, Programs};
pub use ran::Ran;
pub use state::{InstructControl, State};
pub use usage::Usage;
pub use watching::{Unwatched, Watching};
pub use work::WorkBudget;

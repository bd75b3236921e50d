//! What users ask of `mkstrike`, and what it tells them: the arguments of a command line, lists of characters, properties,
//! hexadecimal text, the bytes of the input, lines on standard error and statuses.
//!
//! Nothing here opens a font: `fx_cli` does what a `Command` says.
#![tactic(auto)]

mod arguments;
mod chars;
mod command;
mod commands;
mod done;
mod fault;
mod hexadecimal;
mod input;
pub mod laws;
mod limits;
mod line;
mod lines;
mod mistakes;
mod parts;
mod properties;
mod read_ahead;
mod said;
mod teller;
mod values;
mod verb;
mod wrong;
mod wrong_items;

pub use arguments::read_arguments;
pub use chars::parse_chars;
pub use command::{CharacterChoice, Command, Make, Show, Task, Trace};
pub use done::Done;
pub use fault::Fault;
pub use hexadecimal::decode_hex;
pub use input::{LINE_BUFFER, arguments_of_line, read_line};
pub use mistakes::explain;
pub use read_ahead::ReadAhead;
pub use teller::Teller;
pub use wrong_items::{ItemFault, wrong_item};

//! The front of `mkstrike`. It opens the font and the output by their names, prints help, and after a run writes at most two lines
//! that say what to do. It knows nothing of fonts: it runs a `Tool`, and reads the `Facts` of the run.
#![tactic(auto)]

mod answer;
mod asked;
mod destination;
mod disk;
mod explained;
mod facts;
mod files;
mod front;
mod help;
mod input;
mod kinds;
mod late;
mod lines;
mod listed;
mod meant;
mod mistaken;
mod new_file;
mod output;
mod packages;
mod paths;
mod run;
mod system;
mod target;
mod text;
mod tool;

pub use asked::AskedRun;
pub use destination::Destination;
pub use facts::{Counts, Facts, FontFacts, RefusalFacts};
pub use files::Files;
pub use front::{answer_or_run, say_not_text};
pub use fx_words::Parts;
pub use run::{Ended, run_to_file};
pub use system::System;
pub use text::{Text, shown};
pub use tool::Tool;

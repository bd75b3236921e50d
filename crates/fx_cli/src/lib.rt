//! A run of `mkstrike`: arguments and a font in; a strike, the picture of a character or the listing of a program, a line on
//! standard error and a status out.
#![tactic(auto)]

mod bitmaps;
mod faces;
mod mapped;
mod missing;
mod mkstrike;
mod picture;
mod program;
mod seen;
mod show;
mod start;
mod watch;

pub use mkstrike::Mkstrike;
pub use start::{run_program, unread};

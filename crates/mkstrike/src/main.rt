//! `mkstrike`: makes a strike in the Bitmap Distribution Format of a TrueType font on standard input.
//!
//! Its stored run has the command line on the first line of the input, and no arguments.
#![tactic(auto)]

use fx_cli::run_program;
use std::process::ExitCode;

fn main(rt: HostRuntime) -> ExitCode {
    ExitCode::from(run_program(&rt))
}

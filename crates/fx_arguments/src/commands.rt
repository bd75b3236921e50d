//! The commands and their options.
ghost use Rattle.std.specs.Prelude.{◌≡◌, IfOk, false, fold};
ghost use Rattle.clap.specs.Words.{app_of, new_app, rule_of};
ghost use Rattle.fx_arguments.specs.Arguments.{app_for};
ghost use Rattle.fx_arguments.specs.inner.Options.{rule_taking, with_option};

use crate::verb::Verb;
use clap::{Arg, ArgAction, Command};
use std::alloc::{AllocError, Global};

/// What an option takes.
#[derive(Clone, Copy)]
pub enum Takes {
    /// Nothing: it is a flag.
    Nothing,
    /// A value.
    Value,
    /// A value, and it may be given many times.
    Values,
    /// A value after `=`; alone it means `left`.
    Choice,
}

/// The options of `make`.
const MAKE: [(&str, Takes); 12] = [
    ("ppem", Takes::Value),
    ("chars", Takes::Value),
    ("name", Takes::Value),
    ("property", Takes::Values),
    ("x11", Takes::Nothing),
    ("refused", Takes::Value),
    ("unhinted", Takes::Nothing),
    ("dropout", Takes::Choice),
    ("careful", Takes::Nothing),
    ("face", Takes::Value),
    ("hex", Takes::Nothing),
    ("all", Takes::Nothing),
];

/// The options of `show`.
const SHOW: [(&str, Takes); 8] = [
    ("ppem", Takes::Value),
    ("char", Takes::Value),
    ("glyph", Takes::Value),
    ("unhinted", Takes::Nothing),
    ("dropout", Takes::Choice),
    ("careful", Takes::Nothing),
    ("face", Takes::Value),
    ("hex", Takes::Nothing),
];

/// The options of `outline`.
const OUTLINE: [(&str, Takes); 7] = [
    ("ppem", Takes::Value),
    ("char", Takes::Value),
    ("glyph", Takes::Value),
    ("unhinted", Takes::Nothing),
    ("careful", Takes::Nothing),
    ("face", Takes::Value),
    ("hex", Takes::Nothing),
];

/// The options of `dump`.
const DUMP: [(&str, Takes); 3] = [
    ("of", Takes::Value),
    ("face", Takes::Value),
    ("hex", Takes::Nothing),
];

/// The options of `trace`.
const TRACE: [(&str, Takes); 7] = [
    ("ppem", Takes::Value),
    ("char", Takes::Value),
    ("glyph", Takes::Value),
    ("of", Takes::Value),
    ("careful", Takes::Nothing),
    ("face", Takes::Value),
    ("hex", Takes::Nothing),
];

/// The options of `faces`.
const FACES: [(&str, Takes); 1] = [("hex", Takes::Nothing)];

/// A command with its options.
pub fn command_for<'a>(alloc: Global, verb: Verb) -> Result<Command<'a>, AllocError>
    ensures { IfOk result (λ command. app_of command ≡ app_for verb) }
{
    match verb {
        Verb::Make => command_with(alloc, "make", &MAKE),
        Verb::Show => command_with(alloc, "show", &SHOW),
        Verb::Outline => command_with(alloc, "outline", &OUTLINE),
        Verb::Dump => command_with(alloc, "dump", &DUMP),
        Verb::Trace => command_with(alloc, "trace", &TRACE),
        Verb::Faces => command_with(alloc, "faces", &FACES),
    }
}

/// A command with options.
fn command_with<'a>(
    alloc: Global,
    name: &'a str,
    options: &[(&'a str, Takes)],
) -> Result<Command<'a>, AllocError>
    ensures { IfOk result (λ command. app_of command ≡ fold with_option (new_app name.entry.now) options.now) }
{
    let mut command = Command::new(alloc, name);
    // The command has the options so far.
    'options: for option in options {
        command = command.arg(option_of(alloc, option.0, option.1))?;
    }
    Ok(command)
}

/// An option.
fn option_of<'a>(alloc: Global, id: &'a str, takes: Takes) -> Arg<'a>
    ensures rule { rule_of result ≡ rule_taking takes id.entry.now }
    ensures local { result.global ≡ false }
{
    let arg = Arg::new(alloc, id).long(id);
    match takes {
        Takes::Nothing => arg.action(ArgAction::SetTrue),
        Takes::Value => arg.action(ArgAction::Set),
        Takes::Values => arg.action(ArgAction::Append),
        Takes::Choice => arg
            .action(ArgAction::Set)
            .num_args(0..=1)
            .default_missing_value("left"),
    }
}

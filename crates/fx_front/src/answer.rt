//! Help, the version, and what a refusal means.
ghost use Rattle.std.specs.Prelude.{◌≡◌, ◌<◌, ◌^◌, Some, codes};
ghost use Rattle.fx_fixed.specs.Changes.{change_of};
ghost use Rattle.fx_words.specs.Parts.{text_in};
ghost use Rattle.fx_words.specs.Sets.{value_of};
ghost use Rattle.fx_front.specs.Answered.{Answered, ExplainsBy, HelpsBy, Prints, helps, meaning_of, no_help};
ghost use Rattle.fx_front.specs.Lines.{Tells};
ghost use Rattle.fx_front.specs.Asked.{seen_asked};

use crate::asked::Asked;
use crate::help::{HELPS, OVERVIEW, REFUSALS, VERSION};
use crate::lines::say;
use crate::meant::usual_for;
use fx_fixed::{Sink, put_all};
use fx_words::value_of;
use std::alloc::Global;

/// Prints what is asked for, and returns the status; none for a run, before which it writes nothing.
pub(crate) fn answer<O: Sink, E: Sink>(
    alloc: Global,
    asked: &Asked<'_>,
    out: &mut O,
    err: &mut E,
) -> Option<u8>
    requires out { O.fault_count out.old < 2 ^ 63 }
    ensures { Answered (seen_asked asked.now) (change_of O.held O.fault_count out.old out.new)
        (change_of E.held E.fault_count) err.old err.new result }
{
    match asked {
        Asked::Version => Some(print(out, VERSION)),
        Asked::Help(None) => Some(print(out, OVERVIEW)),
        Asked::Help(Some(command)) => Some(print_help(alloc, command, out, err)),
        Asked::Refusal(word) => Some(print_refusal(alloc, word, out, err)),
        Asked::Run => None,
    }
}

/// Prints what a refusal means and what to do, or says that none has this number or name. Returns the status.
fn print_refusal<O: Sink, E: Sink>(alloc: Global, word: &str, out: &mut O, err: &mut E) -> u8
    requires out { O.fault_count out.old < 2 ^ 63 }
    ensures { ExplainsBy (meaning_of word.now) word.now (change_of O.held O.fault_count out.old out.new)
        (change_of E.held E.fault_count err.old err.new) (Some result) }
{
    match meaning_of(word) {
        Some(text) => print(out, text),
        None => {
            let all = "'; docs/REFUSALS.md has all";
            say(
                alloc,
                err,
                &["no refusal has the number or the name '", word, all],
            );
            1
        }
    }
}

/// What a refusal means, by its number or its name.
#[tactic(auto, unfolding(crate::specs::Answered::meaning_of))]
fn meaning_of(word: &str) -> Option<&'static str>
    ensures { text_in result ≡ meaning_of word.now }
{
    usual_for(&REFUSALS, word, "")
}

/// Prints the help of a command, or says that there is none. Returns the status.
fn print_help<O: Sink, E: Sink>(alloc: Global, command: &str, out: &mut O, err: &mut E) -> u8
    requires out { O.fault_count out.old < 2 ^ 63 }
    ensures { HelpsBy (value_of helps command.now) command.now (change_of O.held O.fault_count out.old out.new)
        (change_of E.held E.fault_count) err.old err.new (Some result) }
{
    match value_of(&HELPS, command) {
        Some(text) => print(out, text),
        None => {
            say_no_help(alloc, command, err);
            2
        }
    }
}

/// Says that there is no help for a command.
fn say_no_help<E: Sink>(alloc: Global, command: &str, err: &mut E)
    ensures { (between : E) × Tells (change_of E.held E.fault_count err.old between) (codes "usage")
        × Tells (change_of E.held E.fault_count between err.new) (no_help command.now) }
{
    say(alloc, err, &["usage"]);
    let lists = "'; 'mkstrike help' lists the commands";
    say(alloc, err, &["there is no help for '", command, lists]);
}

/// Prints a text. Returns the status.
fn print<O: Sink>(out: &mut O, text: &str) -> u8
    requires { O.fault_count out.old < 2 ^ 63 }
    ensures { Prints (change_of O.held O.fault_count out.old out.new) text.now result }
{
    match put_all(out, text.as_bytes()) {
        Ok(()) => 0,
        Err(_) => 1,
    }
}

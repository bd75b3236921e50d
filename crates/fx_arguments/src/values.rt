//! The values that arguments give a command's options.
ghost use Rattle.std.specs.Prelude.{◌≡◌, ◌⊎◌, ◌==◌, ◌||◌, None, Some, true, map, option_map, IfOk, IfErr};
ghost use Rattle.std.specs.List.{list_any};
ghost use Rattle.std.specs.Str.{bytes_eq};
ghost use Rattle.clap.specs.Words.{all_of, first_of, found_of, rows_of};
ghost use Rattle.fx_arguments.specs.Arguments.{is_bare, is_given, rows_by, size_of, texts, unsigned_of};

use crate::commands::command_for;
use crate::fault::Fault;
use crate::verb::Verb;
use clap::ArgMatches;
use clap::error::ErrorKind;
use fx_request::Refusal;
use std::alloc::Global;

/// The values that words give the options of a command, its name first.
#[tactic(auto, using(crate::proofs::Options::rows_of_bare))]
pub fn matches<'a>(alloc: Global, verb: Verb, words: &'a [&'a str]) -> Result<ArgMatches<'a>, Fault>
    ensures taken { IfOk result (λ m. rows_by verb (texts words.entry.now) ≡ Some (rows_of (found_of m))) }
    ensures refused { IfErr result (λ fault. (fault ≡ Fault.Early Refusal.OutOfMemory)
        ⊎ ((fault ≡ Fault.Usage) × (rows_by verb (texts words.entry.now) ≡ None))) }
{
    if has_bare(words) {
        return Err(Fault::Usage);
    }
    let command = command_for(alloc, verb)?;
    match command.try_get_matches_from(words) {
        Ok(matches) => Ok(matches),
        Err(error) => Err(fault_of(error.kind())),
    }
}

/// Whether some word has only hyphens, which clap would take.
fn has_bare(words: &[&str]) -> bool
    ensures { result ≡ list_any is_bare (texts words.now) }
{
    // None of the words so far has only hyphens.
    'words: for word in words {
        if *word == "-" || *word == "--" {
            return true;
        }
    }
    false
}

/// The fault of arguments that clap refuses.
fn fault_of(kind: ErrorKind) -> Fault
    ensures memory { kind ≡ ErrorKind.OutOfMemory → result ≡ Fault.Early Refusal.OutOfMemory }
    ensures cases { (result ≡ Fault.Early Refusal.OutOfMemory) ⊎ (result ≡ Fault.Usage) }
{
    match kind {
        ErrorKind::OutOfMemory => Fault::Early(Refusal::OutOfMemory),
        _ => Fault::Usage,
    }
}

/// An option's value.
pub fn value<'a>(matches: &ArgMatches<'a>, id: &str) -> Option<&'a str>
    ensures { option_map (λ text. text.now) result ≡ first_of id.now (rows_of (found_of matches.now)) }
{
    matches.get_str(id)
}

/// The values of an option that may be given many times, in their order.
pub fn values<'m, 'a>(matches: &'m ArgMatches<'a>, id: &str) -> Option<&'m [&'a str]>
    ensures { option_map (λ values. texts values.now) result ≡ all_of id.now (rows_of (found_of matches.entry.now)) }
{
    matches.get_raw(id)
}

/// Whether a flag was given.
pub fn is_given(matches: &ArgMatches<'_>, id: &str) -> bool
    ensures { result ≡ is_given id.now (rows_of (found_of matches.now)) }
{
    matches!(value(matches, id), Some("true"))
}

/// The number of a face: a whole number from 0 to 4,294,967,295.
#[tactic(auto, using(crate::proofs::Options::unsigned_parsed))]
pub fn face_of(text: &str) -> Option<u32>
    ensures { result ≡ unsigned_of 32 text.now }
{
    text.parse::<u32>().ok()
}

/// A whole number from 0 to 65,535.
#[tactic(auto, using(crate::proofs::Options::unsigned_parsed))]
pub fn size_of(text: &str) -> Option<u16>
    ensures { result ≡ size_of text.now }
{
    text.parse::<u16>().ok()
}

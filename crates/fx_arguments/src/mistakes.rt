//! What is wrong first with arguments.
ghost use Rattle.std.specs.Prelude.{◌≡◌, ◌≤◌, ◌∷◌, ◌++◌, [], Result, Ok, Err, IfOk, codes, length, slice_index_or};
ghost use Rattle.fx_fixed.specs.Chain.{GivesUnless};
ghost use Rattle.fx_arguments.specs.Arguments.{texts};
ghost use Rattle.fx_arguments.specs.Commands.{CommandView, Refuses, seen};
ghost use Rattle.fx_arguments.specs.Mistakes.{SaysUnless, asked_by, checked, command_said, explained, has_hyphen, is_taken, line_of};
ghost use Rattle.fx_arguments.specs.Mistakes.{name_in, option_said, taken_words, word_said, words_said};
ghost use Rattle.fx_arguments.specs.Wrong.{Reads, WrongView};

use crate::arguments::{asked_for, is_command};
use crate::fault::Fault;
use crate::said::{Said, say, say_about};
use crate::values::matches;
use crate::verb::{Verb, verb_of};
use crate::wrong::Wrong;
use fx_request::Refusal;
use std::alloc::Global;

/// The line that says what is wrong first with the arguments after the program's name. It has no bytes if nothing is wrong.
pub fn explain(alloc: Global, words: &[&str]) -> Result<Vec<u8>, Fault>
    ensures { GivesUnless Refuses (λ line. line.items) result (Ok (line_of (checked (texts words.now)))) }
{
    match checked(alloc, words) {
        Ok(()) => Ok(Vec::new(alloc)),
        Err(Said::MessageLine(line)) => Ok(line),
        Err(Said::Stopped(fault)) => Err(fault),
    }
}

/// Whether something is wrong with the arguments after the program's name.
fn checked(alloc: Global, words: &[&str]) -> Result<(), Said>
    ensures { SaysUnless (λ u. u) result (checked (texts words.now)) }
{
    match verb_of(words) {
        Some(verb) => verb_checked(alloc, verb, words),
        None if is_command("explain", words) => Ok(()),
        None => command_said(alloc, words),
    }
}

/// There is no command of this name.
fn command_said(alloc: Global, words: &[&str]) -> Result<(), Said>
    ensures { SaysUnless (λ u. u) result (Err (command_said (texts words.now))) }
{
    match words.first() {
        Some(word) => Err(say_about(alloc, "unknown command '", word, "'")),
        None => Err(say(alloc, &["the command is missing"])),
    }
}

/// Words from the name of a command on.
#[tactic(auto, unfolding(crate::specs::Mistakes::asked_by))]
fn verb_checked(alloc: Global, verb: Verb, words: &[&str]) -> Result<(), Said>
    ensures { SaysUnless (λ u. u) result (explained (asked_by verb (texts words.now))) }
{
    match matches(alloc, verb, words) {
        Ok(matches) => match asked_for(alloc, verb, &matches) {
            Ok(_) => Ok(()),
            Err(wrong) => values_said(alloc, wrong),
        },
        Err(Fault::Usage) => words_said(alloc, verb, words),
        Err(fault) => Err(Said::Stopped(fault)),
    }
}

/// What is wrong with the values of options. Malformed characters have no line.
fn values_said(alloc: Global, wrong: Wrong<'_>) -> Result<(), Said>
    ensures { (due : Result CommandView WrongView) → Reads seen (Err wrong.entry) due
        → SaysUnless (λ u. u) result (explained due) }
{
    match wrong {
        Wrong::Refused(Refusal::BadChars) => Ok(()),
        Wrong::Refused(refusal) => Err(Said::Stopped(Fault::Early(refusal))),
        Wrong::Says(what) => Err(say(alloc, &[what])),
        Wrong::NotTaken(takes, text) => Err(say(alloc, &[takes, ", not '", text, "'"])),
    }
}

/// Whether a command takes these words, its name first.
fn is_taken(alloc: Global, verb: Verb, words: &[&str]) -> Result<bool, Said>
    ensures { SaysUnless (λ b. b) result (Ok (is_taken verb (texts words.now))) }
{
    match matches(alloc, verb, words) {
        Ok(_matches) => Ok(true),
        Err(Fault::Usage) => Ok(false),
        Err(fault) => Err(Said::Stopped(fault)),
    }
}

/// The number of words of the longest beginning that the command takes.
#[tactic(auto, using(crate::proofs::Saying::taken_none, crate::proofs::Saying::taken_shorter, crate::proofs::Saying::texts_take))]
fn taken_words(alloc: Global, verb: Verb, words: &[&str]) -> Result<usize, Said>
    ensures due { SaysUnless (λ n. n) result (Ok (taken_words verb (texts words.now) (length words.now))) }
    ensures within { IfOk result (λ n. n ≤ length words.now) }
{
    let mut n = words.len();
    // No longer beginning is taken.
    'shorter: while n > 0 {
        if is_taken(alloc, verb, &words[..n])? {
            return Ok(n);
        }
        n -= 1;
    }
    Ok(0)
}

/// Why the command does not take the word after the longest beginning that it takes.
#[tactic(auto, using(std::proofs::lemmas::List::take_rest, crate::proofs::Saying::words_at))]
fn words_said<'w>(alloc: Global, verb: Verb, words: &'w [&'w str]) -> Result<(), Said>
    ensures { SaysUnless (λ u. u) result (Err (words_said verb (texts words.now))) }
{
    let n = taken_words(alloc, verb, words)?;
    let name = word_at(words, 0);
    let rest = &words[n..];
    word_said(
        alloc,
        verb,
        name,
        &words[..n],
        word_at(rest, 0),
        word_at(rest, 1),
    )
}

/// A word, empty past the end.
fn word_at<'a>(words: &[&'a str], at: usize) -> &'a str
    ensures { result.now ≡ slice_index_or (texts words.now) at [] }
{
    match words.get(at) {
        Some(word) => word,
        None => "",
    }
}

/// Why the command does not take a word after words that it takes, and before another.
#[tactic(auto, unfolding(crate::specs::Mistakes::word_said))]
fn word_said<'w>(
    alloc: Global,
    verb: Verb,
    name: &'w str,
    before: &'w [&'w str],
    word: &'w str,
    next: &'w str,
) -> Result<(), Said>
    ensures { SaysUnless (λ u. u) result (Err (word_said verb name.now (texts before.now) word.now next.now)) }
{
    if is_taken(alloc, verb, &[name, word])? {
        return Err(say_about(alloc, "'", word, "' is given twice"));
    }
    if is_taken(alloc, verb, &[name, word, "0"])? {
        return option_said(alloc, verb, before, word, next);
    }
    if !has_hyphen(word) {
        return Err(say_about(alloc, "one word too many, '", word, "'"));
    }
    let option = name_in(word);
    if is_taken(alloc, verb, &[name, option])? {
        return Err(say_about(alloc, "", option, " takes no value"));
    }
    Err(say_about(alloc, "unknown option '", option, "'"))
}

/// Whether a command takes an option with the value 0 after words.
fn takes_value<'w>(
    alloc: Global,
    verb: Verb,
    before: &'w [&'w str],
    word: &'w str,
) -> Result<bool, Said>
    ensures { SaysUnless (λ b. b) result (Ok (is_taken verb (texts before.now ++ word.now ∷ codes "0" ∷ []))) }
{
    let mut words = Vec::from_slice(alloc, before)?;
    words.push(word)?;
    words.push("0")?;
    is_taken(alloc, verb, &words)
}

/// Why the command does not take an option with a value after words that it takes.
fn option_said<'w>(
    alloc: Global,
    verb: Verb,
    before: &'w [&'w str],
    word: &'w str,
    next: &'w str,
) -> Result<(), Said>
    ensures { SaysUnless (λ u. u) result (Err (option_said verb (texts before.now) word.now next.now)) }
{
    if !takes_value(alloc, verb, before, word)? {
        return Err(say_about(alloc, "", word, " is given twice"));
    }
    if has_hyphen(next) {
        let given_as = " takes a value; one that begins with '-' is given as ";
        return Err(say(alloc, &[word, given_as, word, "=", next]));
    }
    Err(say_about(alloc, "", word, " takes a value"))
}

/// Whether a word begins with a hyphen.
fn has_hyphen(word: &str) -> bool
    ensures { result ≡ has_hyphen word.now }
{
    matches!(word.as_bytes(), [b'-', ..])
}

/// An option's name, before `=`.
fn name_in(word: &str) -> &str
    ensures { result.now ≡ name_in word.entry.now }
{
    match word.split_once('=') {
        Some((name, _)) => name,
        None => word,
    }
}

//! The arguments of a command line.
ghost use Rattle.std.specs.Prelude.{◌≡◌, Ok, Some, codes, drop, option_map};
ghost use Rattle.clap.specs.Words.{first_of, found_of, rows_of};
ghost use Rattle.fx_fixed.specs.Chain.{GivesUnless, wanted};
ghost use Rattle.fx_arguments.specs.Arguments.{asked_for, characters_by, choice_by, dropout_by, dump_by, face_by, glyph_by, is_command};
ghost use Rattle.fx_arguments.specs.Arguments.{is_careful, is_given, make_by, manner_by, mode_by, one_way, program_by, refused_by, size_by, texts, trace_by, traced_by};
ghost use Rattle.fx_arguments.specs.CommandLine.{command_by, command_of, command_of_explain};
ghost use Rattle.fx_arguments.specs.Commands.{Refuses, seen, seen_characters, seen_task};
ghost use Rattle.fx_arguments.specs.Wrong.{Reads, not_taken};

use crate::chars::{number, parse_chars};
use crate::command::{CharacterChoice, Command, Make, Show, Task, Trace};
use crate::fault::Fault;
use crate::mistakes::explain;
use crate::properties::properties_by;
use crate::values::{face_of, is_given, matches, size_of, value, values};
use crate::verb::{Verb, verb_of};
use crate::wrong::Wrong;
use clap::ArgMatches;
use fx_machine::FontProgram;
use fx_request::{Choice, Dropout, Mode, OnRefused, Refusal, TraceSubject};
use std::alloc::Global;

/// Reads the arguments of a command line, the program's name first.
pub fn read_arguments<'a>(alloc: Global, arguments: &'a [&'a str]) -> Result<Command<'a>, Fault>
    ensures { GivesUnless Refuses seen result (command_of (texts arguments.entry.now)) }
{
    let words = arguments.get(1..).unwrap_or(&[]);
    match verb_of(words) {
        Some(verb) => read_values(alloc, verb, words),
        None if is_command("explain", words) => read_explain(alloc, words),
        None => Err(Fault::Usage),
    }
}

/// Whether the first word is this one.
pub fn is_command(name: &str, words: &[&str]) -> bool
    ensures { result ≡ is_command name.now (texts words.now) }
{
    match words.first() {
        Some(word) => *word == name,
        None => false,
    }
}

/// Reads the words from the name of a command with options on.
#[tactic(auto, using(crate::proofs::Options::read_steps))]
fn read_values<'a>(alloc: Global, verb: Verb, words: &'a [&'a str]) -> Result<Command<'a>, Fault>
    ensures { GivesUnless Refuses seen result (command_by (Some verb) (texts words.entry.now)) }
{
    let matches = matches(alloc, verb, words)?;
    match asked_for(alloc, verb, &matches) {
        Ok(command) => Ok(command),
        Err(Wrong::Refused(refusal)) => Err(Fault::Early(refusal)),
        Err(Wrong::Says(_) | Wrong::NotTaken(..)) => Err(Fault::Usage),
    }
}

/// Reads the words from `explain` on.
fn read_explain<'a>(alloc: Global, words: &[&'a str]) -> Result<Command<'a>, Fault>
    ensures { GivesUnless Refuses seen result (Ok (command_of_explain (drop 1 (texts words.now)))) }
{
    let line = explain(alloc, words.get(1..).unwrap_or(&[]))?;
    Ok(Command {
        task: Task::Explanation(line),
        face: 0,
        hex: false,
    })
}

/// What the values of a command's options ask for.
pub fn asked_for<'a>(
    alloc: Global,
    verb: Verb,
    matches: &ArgMatches<'a>,
) -> Result<Command<'a>, Wrong<'a>>
    ensures { Reads seen result (asked_for verb (rows_of (found_of matches.now))) }
{
    match verb {
        Verb::Make => make_of(alloc, matches),
        Verb::Show => glyph_of(matches, false),
        Verb::Outline => glyph_of(matches, true),
        Verb::Dump => dump_of(matches),
        Verb::Trace => trace_of(matches),
        Verb::Faces => Ok(command_for(matches, 0, Task::Faces)),
    }
}

/// The value of an option, or what the option takes if a text has none.
fn taken<'a, T: Copy>(value: Option<T>, takes: &'a str, text: &'a str) -> Result<T, Wrong<'a>>
    ensures { Reads (λ x. x) result (wanted value (not_taken takes.entry.now text.entry.now)) }
{
    match value {
        Some(value) => Ok(value),
        None => Err(Wrong::NotTaken(takes, text)),
    }
}

/// A size that is required.
fn size_by<'a>(matches: &ArgMatches<'a>) -> Result<u16, Wrong<'a>>
    ensures { Reads (λ size. size) result (size_by (first_of (codes "ppem") (rows_of (found_of matches.now)))) }
{
    match value(matches, "ppem") {
        Some(text) => {
            let takes = "--ppem takes a whole number from 1 to 1024";
            taken(size_of(text), takes, text)
        }
        None => Err(Wrong::Says("--ppem is missing")),
    }
}

/// The number of a face; 0 if it is not given.
fn face_by<'a>(matches: &ArgMatches<'a>) -> Result<u32, Wrong<'a>>
    ensures { Reads (λ face. face) result (face_by (first_of (codes "face") (rows_of (found_of matches.now)))) }
{
    match value(matches, "face") {
        Some(text) => {
            let takes = "--face takes a whole number, counted from 0";
            taken(face_of(text), takes, text)
        }
        None => Ok(0),
    }
}

/// Which pixels drop-out control sets; none if it is not given.
fn dropout_by(name: Option<&str>) -> Result<Dropout, Wrong<'_>>
    ensures { Reads (λ dropout. dropout) result (dropout_by (option_map (λ name. name.now) name.entry)) }
{
    match name {
        None => Ok(Dropout::Off),
        Some("left") => Ok(Dropout::Left),
        Some("near") => Ok(Dropout::Near),
        Some("font") => Ok(Dropout::Font),
        Some(name) => Err(Wrong::NotTaken("--dropout takes left, near or font", name)),
    }
}

/// Whether a character that takes too much work is refused.
fn is_careful(matches: &ArgMatches<'_>) -> bool
    ensures { result ≡ is_careful (rows_of (found_of matches.now)) }
{
    is_given(matches, "careful")
}

/// How outlines become pixels, by the options of `make`, `show` and `outline`.
fn mode_of<'a>(matches: &ArgMatches<'a>) -> Result<Mode, Wrong<'a>>
    ensures { Reads (λ mode. mode) result (mode_by (rows_of (found_of matches.now))) }
{
    let dropout = dropout_by(value(matches, "dropout"))?;
    Ok(Mode {
        hinting: !is_given(matches, "unhinted"),
        dropout,
        careful: is_careful(matches),
    })
}

/// What becomes of refused characters, by its name; if none is given, the first one refuses the strike.
fn refused_by(name: Option<&str>) -> Result<OnRefused, Wrong<'_>>
    ensures { Reads (λ refused. refused) result (refused_by (option_map (λ name. name.now) name.entry)) }
{
    match name {
        None | Some("stop") => Ok(OnRefused::Stop),
        Some("leave-out") => Ok(OnRefused::LeaveOut),
        Some("unhinted") => Ok(OnRefused::Unhinted),
        Some(name) => Err(Wrong::NotTaken("--refused takes stop, leave-out or unhinted", name)),
    }
}

/// Characters are asked for by a list, or all of the font's map by a flag, and not both.
fn one_way<'a>(is_all: bool, list: Option<&str>) -> Result<(), Wrong<'a>>
    ensures { Reads (λ u. u) result (one_way is_all (option_map (λ list. list.now) list.entry)) }
{
    match (is_all, list) {
        (true, None) | (false, Some(_)) => Ok(()),
        (true, Some(_)) => Err(Wrong::Says("--chars and --all can't be given together")),
        (false, None) => Err(Wrong::Says("--chars or --all is missing")),
    }
}

/// The characters of a list; without one all of the font's map.
fn characters_by<'a>(alloc: Global, list: Option<&str>) -> Result<CharacterChoice, Wrong<'a>>
    ensures { Reads seen_characters result (characters_by (option_map (λ list. list.now) list.entry)) }
{
    match list {
        Some(list) => {
            let chars = parse_chars(alloc, list)?;
            Ok(CharacterChoice::Listed(chars))
        }
        None => Ok(CharacterChoice::All),
    }
}

/// What becomes of refused characters, the number of the face, and how outlines become pixels.
fn manner_of<'a>(matches: &ArgMatches<'a>) -> Result<(OnRefused, u32, Mode), Wrong<'a>>
    ensures { Reads (λ manner. manner) result (manner_by (rows_of (found_of matches.now))) }
{
    let on_refused = refused_by(value(matches, "refused"))?;
    let face = face_by(matches)?;
    let mode = mode_of(matches)?;
    Ok((on_refused, face, mode))
}

/// What the values of `make` ask for: the size is required, and a list of characters or `--all`.
fn make_of<'a>(alloc: Global, matches: &ArgMatches<'a>) -> Result<Command<'a>, Wrong<'a>>
    ensures { Reads seen result (make_by (rows_of (found_of matches.now))) }
{
    let ppem = size_by(matches)?;
    let list = value(matches, "chars");
    one_way(is_given(matches, "all"), list)?;
    let properties = properties_by(alloc, values(matches, "property").unwrap_or(&[]))?;
    let (on_refused, face, mode) = manner_of(matches)?;
    let chars = characters_by(alloc, list)?;
    let make = Make {
        ppem,
        chars,
        name: value(matches, "name").unwrap_or("strike"),
        properties,
        x11: is_given(matches, "x11"),
        mode,
        on_refused,
    };
    Ok(command_for(matches, face, Task::Strike(make)))
}

/// A command with this task and face. The file is hexadecimal text if `--hex` is given.
fn command_for<'a>(matches: &ArgMatches<'a>, face: u32, task: Task<'a>) -> Command<'a>
    ensures { seen result ≡ record {
      task = seen_task task.entry;
      face = face;
      hex = is_given (codes "hex") (rows_of (found_of matches.now));
    } }
{
    Command {
        task,
        face,
        hex: is_given(matches, "hex"),
    }
}

/// How a glyph is chosen: by a character or by its number, and not by both.
fn choice_of<'a>(character: Option<&str>, glyph: Option<&'a str>) -> Result<Choice, Wrong<'a>>
    ensures { Reads (λ choice. choice) result
        (choice_by (option_map (λ text. text.now) character.entry) (option_map (λ text. text.now) glyph.entry)) }
{
    match (character, glyph) {
        (Some(character), None) => match number(character) {
            Some(code) => Ok(Choice::Character(code)),
            None => Err(Wrong::Refused(Refusal::BadChars)),
        },
        (None, Some(glyph)) => {
            let takes = "--glyph takes a whole number from 0 to 65535";
            Ok(Choice::Number(taken(size_of(glyph), takes, glyph)?))
        }
        (None, None) => Err(Wrong::Says("--char or --glyph is missing")),
        (Some(_), Some(_)) => Err(Wrong::Says("--char and --glyph can't be given together")),
    }
}

/// What the values of `show` or `outline` ask for: the size and the choice are required.
fn glyph_of<'a>(matches: &ArgMatches<'a>, is_outline: bool) -> Result<Command<'a>, Wrong<'a>>
    ensures { Reads seen result (glyph_by is_outline (rows_of (found_of matches.now))) }
{
    let face = face_by(matches)?;
    let ppem = size_by(matches)?;
    let mode = mode_of(matches)?;
    let choice = choice_of(value(matches, "char"), value(matches, "glyph"))?;
    let show = Show { ppem, choice, mode };
    let task = if is_outline {
        Task::Outline(show)
    } else {
        Task::Picture(show)
    };
    Ok(command_for(matches, face, task))
}

/// A program by its name: `fpgm`, `prep`, or the number of a glyph.
fn program_by(name: &str) -> Result<FontProgram, Wrong<'_>>
    ensures { Reads (λ program. program) result (program_by name.entry.now) }
{
    match name {
        "fpgm" => Ok(FontProgram::Fpgm),
        "prep" => Ok(FontProgram::Prep),
        _ => {
            let takes = "--of takes fpgm, prep or the number of a glyph";
            Ok(FontProgram::Glyph(taken(size_of(name), takes, name)?))
        }
    }
}

/// What the values of `dump` ask for: the name of the program is required.
fn dump_of<'a>(matches: &ArgMatches<'a>) -> Result<Command<'a>, Wrong<'a>>
    ensures { Reads seen result (dump_by (rows_of (found_of matches.now))) }
{
    let name = value(matches, "of").ok_or(Wrong::Says("--of is missing"))?;
    let what = program_by(name)?;
    let face = face_by(matches)?;
    Ok(command_for(matches, face, Task::Listing(what)))
}

/// What the values of `trace` ask for: the size and what is traced are required.
fn trace_of<'a>(matches: &ArgMatches<'a>) -> Result<Command<'a>, Wrong<'a>>
    ensures { Reads seen result (trace_by (rows_of (found_of matches.now))) }
{
    let face = face_by(matches)?;
    let ppem = size_by(matches)?;
    let traced = traced_of(
        value(matches, "char"),
        value(matches, "glyph"),
        value(matches, "of"),
    )?;
    let careful = is_careful(matches);
    let trace = Trace {
        ppem,
        traced,
        careful,
    };
    Ok(command_for(matches, face, Task::Trace(trace)))
}

/// What is traced: a glyph, or a program by its name, and not both.
fn traced_of<'a>(
    character: Option<&str>,
    glyph: Option<&'a str>,
    name: Option<&'a str>,
) -> Result<TraceSubject, Wrong<'a>>
    ensures { Reads (λ traced. traced) result (traced_by (option_map (λ text. text.now) character.entry)
        (option_map (λ text. text.now) glyph.entry) (option_map (λ text. text.now) name.entry)) }
{
    match (character, glyph, name) {
        (None, None, None) => Err(Wrong::Says("--char, --glyph or --of is missing")),
        (character, glyph, None) => Ok(TraceSubject::Glyph(choice_of(character, glyph)?)),
        (None, None, Some(name)) => Ok(TraceSubject::Program(program_by(name)?)),
        _ => Err(Wrong::Says("--of can't be given with --char or --glyph")),
    }
}

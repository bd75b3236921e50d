//! A run as a command line asks for it.
ghost use Rattle.std.specs.Prelude.{◌≡◌, ◌<◌, ◌≤◌, ◌^◌, ◌++◌, Bool, [], codes, length, option_map, string_bytes, unwrap_or, None, IfOk};
ghost use Rattle.std.specs.Prelude.{if◌then◌else◌};
ghost use Rattle.std.specs.Str.{bytes_eq};
ghost use Rattle.fx_fixed.specs.Changes.{change_of};
ghost use Rattle.fx_words.specs.Parts.{has_byte, seen, text_in, texts};
ghost use Rattle.fx_front.specs.Places.{IsStatus, is_named};
ghost use Rattle.fx_front.specs.Fronts.{CameTo, InputBy, RefusesFont, RunsNamed, RunsUnnamed};
ghost use Rattle.fx_front.specs.Fronts.{after_unopened, hint, listed_after, named_how, names_files, unopened, words_before};
ghost use Rattle.fx_front.specs.Fronts.{words_named_how};
ghost use Rattle.fx_front.specs.Kinds.{package_of};
ghost use Rattle.fx_front.specs.Lines.{SaysLine, Tells, shown_text, unwritten};
ghost use Rattle.fx_front.specs.Asked.{command_in, font_of, is_explained};

use crate::answer::answer;
use crate::asked::{AskedRun, asked_by, or_empty};
use crate::files::Files;
use crate::lines::say;
use crate::meant::takes_font;
use crate::mistaken::after_first;
use crate::packages::package_of;
use crate::run::{run_to_file, say_unwritten};
use crate::system::NO_FILE;
use crate::tool::Tool;
use fx_fixed::Sink;
use fx_words::{lists_in, part};
use std::alloc::{AllocError, Global};

const FONT_HELP: &str =
    "the first word that is neither an option nor its value names the font; 'mkstrike help ";

const FONT_FILE: &str =
    "the first word that is neither an option nor its value names the font's file; 'fc-list' shows the \
     files of the installed fonts";

/// Does what a command line asks for, the program's name first, over any files and streams. Returns the status: 0, 1 or 2. An error
/// means that memory ran out before the program began.
pub fn answer_or_run<G: Tool, F: Files, O: Sink, E: Sink>(
    alloc: Global,
    program: &mut G,
    words: &[&str],
    files: &F,
    out: &mut O,
    err: &mut E,
) -> Result<u8, AllocError>
    requires out { O.fault_count out.old < 2 ^ 63 }
    requires err { E.fault_count err.old < 2 ^ 62 }
    ensures came { IfOk result (λ status. (is_terminal : Bool) × F.IsTerminal files.now is_terminal
        × CameTo G.Ran G.wrong_in G.wrong_item (change_of F.Input.left F.Input.fault_count)
        F.Place.Names F.Place.works F.Place.fresh F.Place.New.contents (F.Opens files.now) (F.Unopened files.now) F.IsEmpty
        (F.Places files.now) (F.Unplaced files.now) (change_of E.held E.fault_count) (G.learned program.new)
        is_terminal (texts words.now) (change_of O.held O.fault_count out.old out.new) err.old err.new status) }
    ensures status { IfOk result IsStatus }
{
    let is_terminal = files.has_terminal();
    let asked = asked_by(words, is_terminal);
    if let Some(status) = answer(alloc, &asked, out, err) {
        return Ok(status);
    }
    let (command, count) = command_in(words);
    let (before, after) = words.split_at(count);
    let is_make = is_make(command);
    let lists = lists_of(alloc, is_make, after)?;
    let listed = match &lists {
        Some(lists) => Some(lists.as_str()),
        None => None,
    };
    let parts = part(alloc, before, is_make, listed, after)?;
    let task = AskedRun {
        parts: &parts,
        command,
    };
    let is_explained = is_explained(words);
    if names_files(command, is_explained) {
        hint_at_terminal(alloc, font_of(&task), is_terminal, err);
        let status = run_on_files(alloc, program, &task, files, err)?;
        return Ok(status);
    }
    Ok(run_on_streams(alloc, program, &task, is_explained, files, err))
}

/// Says that an argument is not text, after the line of a wrong command line.
pub fn say_not_text<E: Sink>(alloc: Global, err: &mut E)
    ensures { SaysLine (change_of E.held E.fault_count err.old err.new) }
{
    let what =
        "an argument is not UTF-8 text: read a font of such a name by < FONT, and write to such a name by > FILE";
    say(alloc, err, &[what]);
}

/// The list that `--set` and `--chars` of `make` stand for among the words after it.
fn lists_of(alloc: Global, is_make: bool, words: &[&str]) -> Result<Option<String>, AllocError>
    ensures { IfOk result (λ lists. option_map string_bytes lists ≡ listed_after is_make (texts words.now)) }
{
    if is_make {
        lists_in(alloc, words)
    } else {
        Ok(None)
    }
}

/// Whether a command is `make`.
fn is_make(command: Option<&str>) -> bool
    ensures { result ≡ is_named (text_in command.entry) (codes "make") }
{
    match command {
        Some(command) => command == "make",
        None => false,
    }
}

/// Runs the program on words that name no file, or has it explain them without an input.
#[tactic(auto, unfolding(crate::specs::Fronts::RunsUnnamed))]
fn run_on_streams<G: Tool, F: Files, E: Sink>(
    alloc: Global,
    program: &mut G,
    task: &AskedRun<'_, '_>,
    is_explained: bool,
    files: &F,
    err: &mut E,
) -> u8
    requires { E.fault_count err.old < 2 ^ 63 }
    ensures ran { RunsUnnamed G.Ran G.wrong_in G.wrong_item (change_of F.Input.left F.Input.fault_count)
        F.Place.Names F.Place.works F.Place.fresh F.Place.New.contents (F.Opens files.now) (F.Unopened files.now) F.IsEmpty
        (F.Places files.now) (F.Unplaced files.now) (change_of E.held E.fault_count) (G.learned program.new)
        (seen task.now.parts.now) (text_in task.now.command) is_explained err.old err.new result }
    ensures status { IsStatus result }
{
    let mut input = unnamed_input(is_explained, files);
    let mut place = files.standard();
    run_to_file(alloc, program, task, &mut input, &mut place, err)
}

/// The input of words that name none: standard input, or nothing if it can't be opened or the words are only explained.
fn unnamed_input<F: Files>(is_explained: bool, files: &F) -> F::Input
    ensures input { InputBy (F.Opens files.now) (F.Unopened files.now) F.IsEmpty is_explained result }
    ensures faults { F.Input.fault_count result ≡ 0 }
{
    if is_explained {
        return files.nothing();
    }
    match files.open(None) {
        Ok(input) => input,
        Err(_) => files.nothing(),
    }
}

/// Whether words name a font and an output.
fn names_files(command: Option<&str>, is_explained: bool) -> bool
    ensures { result ≡ names_files (text_in command.entry) is_explained }
{
    command.is_some() && !is_explained
}

/// Whether words are only explained.
fn is_explained(words: &[&str]) -> bool
    ensures { result ≡ is_explained (texts words.now) }
{
    match words.get(1) {
        Some(word) => *word == "explain",
        None => false,
    }
}

/// The command that takes a font, named by the first word or by the word after `explain`, and the number of words up to it. Without
/// one, all words are for the program.
fn command_in<'a>(words: &[&'a str]) -> (Option<&'a str>, usize)
    ensures command { text_in result.0 ≡ command_in (texts words.entry.now) }
    ensures count { result.1 ≡ words_before (texts words.entry.now) }
    ensures within { result.1 ≤ length words.entry.now }
{
    let at = if is_explained(words) { 2 } else { 1 };
    match words.get(at) {
        Some(word) if takes_font(word) => (Some(*word), at + 1),
        _ => (None, words.len()),
    }
}

/// The name of the font; none for standard input.
fn font_of<'a>(task: &AskedRun<'_, 'a>) -> Option<&'a str>
    ensures { text_in result ≡ font_of (text_in task.now.parts.now.font) }
{
    match task.parts.font {
        Some(name) if name == "-" => None,
        font => font,
    }
}

/// Runs the program on the font and with the output that the words name.
#[tactic(auto, unfolding(crate::specs::Fronts::RunsNamed))]
fn run_on_files<G: Tool, F: Files, E: Sink>(
    alloc: Global,
    program: &mut G,
    task: &AskedRun<'_, '_>,
    files: &F,
    err: &mut E,
) -> Result<u8, AllocError>
    requires { E.fault_count err.old < 2 ^ 63 }
    ensures ran { IfOk result (λ status. RunsNamed G.Ran G.wrong_in G.wrong_item (change_of F.Input.left F.Input.fault_count)
        F.Place.Names F.Place.works F.Place.fresh F.Place.New.contents (F.Opens files.now) (F.Unopened files.now) F.IsEmpty
        (F.Places files.now) (F.Unplaced files.now) (change_of E.held E.fault_count) (G.learned program.new)
        (seen task.now.parts.now) (text_in task.now.command) err.old err.new status) }
    ensures status { IfOk result IsStatus }
{
    let font = font_of(task);
    let mut input = match files.open(font) {
        Ok(input) => input,
        Err(why) => return refuse_font(alloc, program, task, why, files, err),
    };
    match files.place(task.parts.output, font.unwrap_or("/dev/stdin"))? {
        Ok(mut place) => Ok(run_to_file(alloc, program, task, &mut input, &mut place, err)),
        Err(why) => Ok(refuse_output(alloc, task, why, err)),
    }
}

/// Says that the font is read from a terminal, if it is.
fn hint_at_terminal<E: Sink>(alloc: Global, font: Option<&str>, is_terminal: bool, err: &mut E)
    ensures told { Tells (change_of E.held E.fault_count err.old err.new)
        (shown_text (hint (text_in font.entry) is_terminal) ++ []) }
    ensures line { SaysLine (change_of E.held E.fault_count err.old err.new) }
{
    say(alloc, err, &[hint(font, is_terminal)]);
}

/// That the font is read from a terminal.
fn hint(font: Option<&str>, is_terminal: bool) -> &'static str
    ensures { result.now ≡ hint (text_in font.entry) is_terminal }
{
    match font {
        None if is_terminal => "the font is read from standard input, which is a terminal here",
        _ => "",
    }
}

/// Says what is wrong with the other words, or if nothing is, why the font can't be opened. Returns the status.
fn refuse_font<G: Tool, F: Files, E: Sink>(
    alloc: Global,
    program: &mut G,
    task: &AskedRun<'_, '_>,
    why: &str,
    files: &F,
    err: &mut E,
) -> Result<u8, AllocError>
    requires why { F.Unopened files.now (font_of (text_in task.now.parts.now.font)) why.now }
    requires err { E.fault_count err.old < 2 ^ 63 }
    ensures ran { IfOk result (λ status. RefusesFont G.Ran G.wrong_in G.wrong_item (change_of F.Input.left F.Input.fault_count)
        F.Place.Names F.Place.works F.Place.fresh F.Place.New.contents (F.Opens files.now) (F.Unopened files.now) F.IsEmpty
        (F.Places files.now) (F.Unplaced files.now) (change_of E.held E.fault_count) (G.learned program.new)
        (seen task.now.parts.now) (text_in task.now.command) err.old err.new status) }
    ensures status { IfOk result IsStatus }
{
    let wrong = program.wrong(alloc, after_first(&task.parts.words))?;
    if wrong.is_empty() {
        say_no_font(alloc, task, why, err);
        return Ok(1);
    }
    let mut input = files.nothing();
    let mut place = files.standard();
    Ok(run_to_file(alloc, program, task, &mut input, &mut place, err))
}

/// Says why a font can't be opened, and how to install it or how it is named.
fn say_no_font<E: Sink>(alloc: Global, task: &AskedRun<'_, '_>, why: &str, err: &mut E)
    ensures { let name = unwrap_or (text_in task.now.parts.now.font) [] in (between : E)
        × Tells (change_of E.held E.fault_count err.old between) (unopened name why.now)
        × Tells (change_of E.held E.fault_count between err.new) (after_unopened name why.now (text_in task.now.command))
        × SaysLine (change_of E.held E.fault_count err.old between) × SaysLine (change_of E.held E.fault_count between err.new) }
{
    let name = or_empty(task.parts.font);
    say(alloc, err, &["can't open the font '", name, "': ", why]);
    say_how(alloc, name, advised_package(name, why), task.command, err);
}

/// How to install a font that is not there.
fn advised_package(name: &str, why: &str) -> Option<&'static str>
    ensures { text_in result ≡ (if bytes_eq why.now (codes "there is no such file") then package_of name.now else None) }
{
    if why == NO_FILE {
        package_of(name)
    } else {
        None
    }
}

/// Says how to install a font, or how it is named.
fn say_how<E: Sink>(
    alloc: Global,
    name: &str,
    advice: Option<&str>,
    command: Option<&str>,
    err: &mut E,
)
    ensures told { Tells (change_of E.held E.fault_count err.old err.new)
        (named_how (text_in advice.entry) name.now (text_in command.entry)) }
    ensures line { SaysLine (change_of E.held E.fault_count err.old err.new) }
{
    match advice {
        Some(advice) => say(alloc, err, &[advice]),
        None => say_named_how(alloc, name, or_empty(command), err),
    }
}

/// Says how a font is named.
fn say_named_how<E: Sink>(alloc: Global, name: &str, command: &str, err: &mut E)
    ensures told { Tells (change_of E.held E.fault_count err.old err.new) (words_named_how (has_byte 47 name.now) command.now) }
    ensures line { SaysLine (change_of E.held E.fault_count err.old err.new) }
{
    if has_slash(name) {
        say(
            alloc,
            err,
            &[FONT_HELP, command, "' shows how it is written"],
        );
    } else {
        say(alloc, err, &[FONT_FILE]);
    }
}

/// Whether a name has a folder.
fn has_slash(name: &str) -> bool
    ensures { result ≡ has_byte 47 name.now }
{
    name.split_once('/').is_some()
}

/// Says why an output is not written. Returns the status.
fn refuse_output<E: Sink>(alloc: Global, task: &AskedRun<'_, '_>, why: &str, err: &mut E) -> u8
    ensures status { result ≡ 1 }
    ensures told { Tells (change_of E.held E.fault_count err.old err.new)
        (unwritten (unwrap_or (text_in task.now.parts.now.output) []) why.now) }
{
    say_unwritten(alloc, task.output_name(), why, err);
    1
}

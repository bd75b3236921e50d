//! The advice after a wrong command line.
ghost use Rattle.std.specs.Prelude.{◌≡◌, Some, codes, drop};
ghost use Rattle.fx_words.specs.Parts.{after_start, seen, text_in, texts};
ghost use Rattle.fx_front.specs.Lines.{Says};
ghost use Rattle.fx_front.specs.Mistaken.{about_ppem, about_value, before_end, command_meant, command_said};
ghost use Rattle.fx_front.specs.Mistaken.{font_said, has_text, line_said, mistake_said, named_instead, option_said};
ghost use Rattle.fx_front.specs.Mistaken.{other_said, unknown_command_said, unknown_said, usage_said, words_said, wrong_said};

use crate::asked::AskedRun;
use crate::meant::{add_word_question, has_hyphen, instead_of};
use crate::text::Text;
use crate::tool::Tool;
use fx_words::{after_start, is_path};
use std::alloc::Global;

const WRONG_LINE: &str =
    "without arguments the first line of the input is the command line, and it is wrong; 'mkstrike help' shows how it is written";

const NO_COMMAND: &str =
    "the first word is the command, make, show, outline, dump, trace, faces, explain, or help, not '%'; 'mkstrike help' \
     shows how it is written";

const A_FILE: &str =
    "the first word is the command: 'mkstrike make --ppem 16 --set ascii FONT' makes a strike";

/// Adds what is wrong with a command line.
pub(crate) fn add_usage<G: Tool>(
    alloc: Global,
    text: &mut Text,
    program: &G,
    task: &AskedRun<'_, '_>,
)
    ensures { Says text.old text.new (usage_said G.wrong_in (seen task.now.parts.now) (text_in task.now.command)) }
{
    add_words(alloc, text, program, task, after_first(&task.parts.words));
}

/// The words after the first.
pub(crate) fn after_first<'t, 'a>(words: &'t [&'a str]) -> &'t [&'a str]
    ensures { texts result.now ≡ drop 1 (texts words.entry.now) }
{
    match words {
        [_, rest @ ..] => rest,
        [] => words,
    }
}

/// Adds what is wrong with the words after the program's name. The first is a command, if it takes a font.
fn add_words<G: Tool>(
    alloc: Global,
    text: &mut Text,
    program: &G,
    task: &AskedRun<'_, '_>,
    words: &[&str],
)
    ensures { Says text.old text.new (words_said G.wrong_in (seen task.now.parts.now) (text_in task.now.command)
        (texts words.now)) }
{
    match (words, task.command) {
        ([], _) => text.add_text(WRONG_LINE),
        ([first, ..], None) => add_command(alloc, text, first),
        ([_, ..], Some(command)) => add_line(alloc, text, program, task, command, words),
    }
}

/// Adds what is wrong with the words of a command.
fn add_line<G: Tool>(
    alloc: Global,
    text: &mut Text,
    program: &G,
    task: &AskedRun<'_, '_>,
    command: &str,
    words: &[&str],
)
    ensures { Says text.old text.new (line_said G.wrong_in (seen task.now.parts.now) command.now (texts words.now)) }
{
    match program.wrong(alloc, words) {
        Ok(line) => add_wrong(alloc, text, task, command, line.as_str().trim_end()),
        Err(_) => text.stop(),
    }
}

/// Adds the line that says what is wrong with the words of a command, and further advice.
fn add_wrong(alloc: Global, text: &mut Text, task: &AskedRun<'_, '_>, command: &str, wrong: &str)
    ensures { Says text.old text.new (wrong_said (seen task.now.parts.now) command.now wrong.now) }
{
    add_mistake(alloc, text, task, command, wrong);
    text.add_with(" 'mkstrike help %' shows how it is written", command);
}

/// Adds what is wrong: an unknown option, or another mistake.
fn add_mistake(alloc: Global, text: &mut Text, task: &AskedRun<'_, '_>, command: &str, wrong: &str)
    ensures { Says text.old text.new
        (option_said (after_start (codes "unknown option '") wrong.now) (seen task.now.parts.now) command.now wrong.now) }
{
    match after_start("unknown option '", wrong) {
        Some("-o'") => text.add_text("-o takes the name of a file, and is given once;"),
        Some(option) => add_unknown(alloc, text, option, command, wrong),
        None => add_other(text, task, wrong),
    }
}

/// Adds that an option is unknown, and what to use in its place.
fn add_unknown(alloc: Global, text: &mut Text, option: &str, command: &str, wrong: &str)
    ensures { Says text.old text.new (unknown_said option.now command.now wrong.now) }
{
    text.add_with("%;", wrong);
    let option = before_end("'", option).unwrap_or(option);
    add_instead(alloc, text, option, command);
}

/// Adds another mistake.
fn add_other(text: &mut Text, task: &AskedRun<'_, '_>, wrong: &str)
    ensures { Says text.old text.new (other_said (seen task.now.parts.now) wrong.now) }
{
    add_renamed(text, wrong, task.parts.listed);
    text.add_text(about_ppem(wrong));
    add_font(text, wrong, task.parts.font);
    text.add_text(";");
}

/// What is before an end in a text; none if it does not end so.
fn before_end<'a>(end: &str, text: &'a str) -> Option<&'a str>
    ensures { text_in result ≡ before_end end.now text.entry.now }
{
    text.strip_suffix(end)
}

/// Adds what is wrong. If `--set` is among the words it stands for `--chars` there.
fn add_renamed(text: &mut Text, wrong: &str, listed: Option<&str>)
    ensures { Says text.old text.new (mistake_said (text_in listed.entry) wrong.now) }
{
    match (listed, after_start("--chars", wrong)) {
        (Some(_), Some(rest)) => {
            text.add_text("--set");
            text.add_text(rest);
        }
        _ => text.add_text(wrong),
    }
}

/// Adds which word names the font, if one is too many.
fn add_font(text: &mut Text, wrong: &str, font: Option<&str>)
    ensures { Says text.old text.new (font_said (text_in font.entry) wrong.now) }
{
    if let Some(font) = font
        && wrong.as_bytes().starts_with(b"one word too many")
    {
        text.add_with(": '%' names the font", font);
    }
}

/// Adds what to use in place of an unknown option of a command, or which one it may mean.
fn add_instead(alloc: Global, text: &mut Text, option: &str, command: &str)
    ensures { Says text.old text.new (named_instead option.now command.now) }
{
    match instead_of(option) {
        Some(instead) => text.add_with(" %;", instead),
        None => add_word_question(alloc, text, option, command),
    }
}

/// Further advice on a wrong value of `--ppem`.
fn about_ppem(wrong: &str) -> &'static str
    ensures { result.now ≡ about_ppem wrong.now }
{
    match after_start("--ppem takes a whole number from 1 to 1024, not '", wrong) {
        Some(value) => about_value(value),
        None => "",
    }
}

/// The same by the value, and what follows it.
fn about_value(value: &str) -> &'static str
    ensures { result.now ≡ about_value (Some value.now) }
{
    if has_text(b"pt", value.as_bytes()) {
        "; pixels are points times the resolution, divided by 72"
    } else if value.split_once('x').is_some() && !value.as_bytes().starts_with(b"0x") {
        "; strike --cell of the package python3-mkstrike makes cells of one size"
    } else if value.split_once(',').is_some() || value.split_once('-').is_some() {
        "; strike --size of the package python3-mkstrike makes several"
    } else {
        ""
    }
}

/// Whether a text has a part.
fn has_text(part: &[u8], text: &[u8]) -> bool
    ensures { result ≡ has_text part.now text.now }
{
    let mut rest = text;
    // The part does not begin before `rest`.
    'places: loop {
        if rest.starts_with(part) {
            return true;
        }
        let [_, more @ ..] = rest else {
            return false;
        };
        rest = more;
    }
}

/// Adds what is wrong with the name of a command.
fn add_command(alloc: Global, text: &mut Text, word: &str)
    ensures { Says text.old text.new (command_said word.now) }
{
    if has_hyphen(word) {
        text.add_with(NO_COMMAND, word);
    } else if is_path(word) {
        text.add_text(A_FILE);
    } else {
        add_unknown_command(alloc, text, word);
    }
}

/// Adds that there is no command of this name, and which one it may mean.
fn add_unknown_command(alloc: Global, text: &mut Text, word: &str)
    ensures { Says text.old text.new (unknown_command_said word.now) }
{
    text.add_with("unknown command '%';", word);
    add_command_meant(alloc, text, word);
    text.add_text(" 'mkstrike help' lists the commands");
}

/// Adds which command a word may mean.
fn add_command_meant(alloc: Global, text: &mut Text, word: &str)
    ensures { Says text.old text.new (command_meant word.now) }
{
    if word == "version" {
        text.add_text(" did you mean '--version'?");
    } else {
        add_word_question(alloc, text, word, "");
    }
}

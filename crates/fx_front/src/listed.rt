//! The advice on a list of characters that is wrong.
ghost use Rattle.std.specs.Prelude.{◌≡◌, IfOk};
ghost use Rattle.fx_words.specs.Parts.{seen, text_in, texts};
ghost use Rattle.fx_front.specs.Lines.{Says};
ghost use Rattle.fx_front.specs.Advised.{list_of};
ghost use Rattle.fx_front.specs.Listed.{first_set, first_word, is_letter, is_word, list_said, names_said, set_said};
ghost use Rattle.fx_front.specs.Listed.{unknown_set, unknown_set_said, wrong_said};
ghost use Rattle.fx_front.specs.Places.{is_named};

use crate::asked::AskedRun;
use crate::meant::{add_set_question, is_among};
use crate::text::Text;
use crate::tool::Tool;
use fx_words::{list_of, parts_of};
use std::alloc::{AllocError, Global};

const NOT_A_CHARACTER: &str =
    "--char takes one hexadecimal number up to 10FFFF, not '%'; the letter A is 41";

/// What takes a list that is no numbers.
const LISTS: &str =
    "; --set takes sets by name, and strike --text of the package python3-mkstrike takes letters";

/// Adds what is wrong with a list of characters, or with one.
pub(crate) fn add_list<G: Tool>(
    alloc: Global,
    text: &mut Text,
    program: &G,
    task: &AskedRun<'_, '_>,
    advice: &str,
)
    ensures { let parts = seen task.now.parts.now in
        Says text.old text.new (list_said G.wrong_item parts.is_make parts.listed (list_of parts) advice.now) }
{
    let Some(list) = task.list() else {
        return text.add_text(advice);
    };
    if !task.parts.is_make {
        return text.add_with(NOT_A_CHARACTER, list);
    }
    let Ok(items) = parts_of(alloc, list, ',') else {
        return text.stop();
    };
    match unknown_set(is_listed(task, list), &items) {
        Some(name) => add_unknown_set(alloc, text, name),
        None => add_wrong_items(alloc, text, program, list, advice, &items),
    }
}

/// The first word of a list, if `--set` is among the words and the list stands for it.
fn unknown_set<'a>(is_set: bool, items: &[&'a str]) -> Option<&'a str>
    ensures { text_in result ≡ unknown_set is_set (texts items.now) }
{
    if is_set { first_word(items) } else { None }
}

/// Adds the first wrong item of a list, and what takes such a list.
fn add_wrong_items<G: Tool>(
    alloc: Global,
    text: &mut Text,
    program: &G,
    list: &str,
    advice: &str,
    items: &[&str],
)
    ensures { Says text.old text.new (wrong_said G.wrong_item list.now advice.now (texts items.now)) }
{
    program.add_wrong_item(text, list);
    text.add_with(": %; the letter A is 41", advice);
    add_names(alloc, text, list, items);
}

/// Whether `--set` is among the words, and this is the list that it stands for.
fn is_listed(task: &AskedRun<'_, '_>, list: &str) -> bool
    ensures { result ≡ is_named (text_in task.now.parts.now.listed) list.now }
{
    match task.parts.listed {
        Some(listed) => listed == list,
        None => false,
    }
}

/// Adds that no set of characters has this name, and which one it may mean.
fn add_unknown_set(alloc: Global, text: &mut Text, name: &str)
    ensures { Says text.old text.new (unknown_set_said name.now) }
{
    text.add_with("no set of characters has the name '%';", name);
    add_set_question(alloc, text, name);
    text.add_text(" 'mkstrike help sets' lists the sets");
}

/// Adds what takes a list of names or letters.
fn add_names(alloc: Global, text: &mut Text, list: &str, items: &[&str])
    ensures { Says text.old text.new (names_said list.now (texts items.now)) }
{
    if is_among(list, "all *") {
        return text.add_text("; --all takes all characters of the font");
    }
    match first_set(alloc, items) {
        Ok(name) => add_set(text, name, first_word(items)),
        Err(_) => text.stop(),
    }
}

/// Adds what takes a list that has the name of a set, or a word.
fn add_set(text: &mut Text, name: Option<&str>, word: Option<&str>)
    ensures { Says text.old text.new (set_said (text_in name.entry) (text_in word.entry)) }
{
    match (name, word) {
        (Some(name), _) => text.add_with("; --set % takes that set", name),
        (None, Some(_)) => text.add_text(LISTS),
        (None, None) => {}
    }
}

/// The first item that is the name of a set.
fn first_set<'a>(alloc: Global, items: &[&'a str]) -> Result<Option<&'a str>, AllocError>
    ensures { IfOk result (λ name. text_in name ≡ first_set (texts items.now)) }
{
    // No item so far is the name of a set.
    'items: for item in items {
        if list_of(alloc, item)?.is_some() {
            return Ok(Some(*item));
        }
    }
    Ok(None)
}

/// The first item that looks like a word.
fn first_word<'a>(items: &[&'a str]) -> Option<&'a str>
    ensures { text_in result ≡ first_word (texts items.now) }
{
    // No item so far looks like a word.
    'items: for item in items {
        if is_word(item) {
            return Some(*item);
        }
    }
    None
}

/// Whether an item looks like a word or a letter, and not like numbers.
fn is_word(item: &str) -> bool
    ensures { result ≡ is_word item.now }
{
    item.as_bytes().iter().any(|byte| is_letter(*byte))
}

/// Whether a byte is no digit of a number: it is outside ASCII, or a letter from g to z. The letters `x` and `u` come before
/// numbers, and do not count.
fn is_letter(byte: u8) -> bool
    ensures { result ≡ is_letter byte }
{
    matches!(byte.to_ascii_lowercase(), b'g'..=b't' | b'v' | b'w' | b'y' | b'z' | 128..=255)
}

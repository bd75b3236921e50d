//! Which word an unknown one may mean, and what to use in its place.
ghost use Rattle.std.specs.Prelude.{◌≡◌, ◌==◌, IfOk, map};
ghost use Rattle.std.specs.Char.{to_ascii_lowercase};
ghost use Rattle.std.specs.List.{slice_split};
ghost use Rattle.fx_words.specs.Parts.{has, has_hyphen, text_in, texts};
ghost use Rattle.fx_words.specs.Sets.{rows_of};
ghost use Rattle.fx_front.specs.Lines.{Says};
ghost use Rattle.fx_front.specs.Asked.{commands};
ghost use Rattle.fx_front.specs.Meant.{asked, instead_of, meant_among, meant_by, nearest, or_others, question, set_meant_by, usual_for};

use crate::text::Text;
use fx_words::{parts_of, set_names, value_of};
use std::alloc::{AllocError, Global};
use strsim::levenshtein;

/// The commands that take a font, with their options.
const OPTIONS: [(&str, &str); 6] = [
    (
        "make",
        "--ppem --chars --set --all --name --property --x11 --refused --missing --unhinted --dropout --careful --face --hex -o",
    ),
    (
        "show",
        "--ppem --char --glyph --unhinted --dropout --careful --face --hex -o",
    ),
    (
        "outline",
        "--ppem --char --glyph --unhinted --careful --face --hex -o",
    ),
    ("dump", "--of --face --hex -o"),
    (
        "trace",
        "--ppem --char --glyph --of --careful --face --hex -o",
    ),
    ("faces", "--hex -o"),
];

/// All commands.
const COMMANDS: &str = "make show outline dump trace faces explain help";

/// Names that other programs give an option or a command.
const USUAL: [(&str, &str); 8] = [
    (
        "--size --px --pixels --pixelsize --pixel-size --height -p -s",
        "--ppem",
    ),
    ("--characters --unicode --range -c", "--chars"),
    ("--characters --unicode --chars -c", "--char"),
    ("--output --out --outfile --file", "-o"),
    ("--index --font-index --fontindex --number", "--face"),
    ("--gid --glyph-id --glyphid --glyph-index", "--glyph"),
    ("--no-hinting --nohinting --no-hint", "--unhinted"),
    ("convert strike bdf", "make"),
];

/// What to use in place of options of other programs.
const INSTEAD: [(&str, &str); 7] = [
    (
        "--pt --points --dpi --resolution -r",
        "--ppem is in pixels: points times the resolution, divided by 72",
    ),
    (
        "--hinted --hinting --hint",
        "strikes are hinted if --unhinted is not given",
    ),
    (
        "--bold --italic --oblique",
        "give the font's file of that style, such as DejaVuSans-Bold.ttf",
    ),
    (
        "--antialias --aa --gray --grey --smooth",
        "a strike has one bit a pixel",
    ),
    (
        "--encoding --charset --codepage",
        "--set takes sets of characters by name, such as latin-1 or cp437",
    ),
    (
        "--text --format --cell --clip --axes --merge --scale --columns --sizes --weight",
        STRIKE,
    ),
    (
        "--psf --pcf --png --otb --mono --dropout-near --dropout-font",
        STRIKE,
    ),
];

const STRIKE: &str =
    "the command strike of the package python3-mkstrike makes formats, cells, several sizes and texts: 'strike --help'";

/// Whether a word is a command that takes a font.
pub(crate) fn takes_font(word: &str) -> bool
    ensures { result ≡ has commands word.now }
{
    value_of(&OPTIONS, word).is_some()
}

/// What to use in place of an option of other programs.
#[tactic(auto, unfolding(crate::specs::Meant::instead_of))]
pub(crate) fn instead_of(option: &str) -> Option<&'static str>
    ensures { text_in result ≡ instead_of option.now }
{
    usual_for(&INSTEAD, option, "")
}

/// The second column of the first row that has the word in its first. If there are `words`, the second must be one of them.
pub(crate) fn usual_for(
    rows: &[(&'static str, &'static str)],
    word: &str,
    words: &str,
) -> Option<&'static str>
    ensures { text_in result ≡ usual_for (rows_of rows.now) word.now words.now }
{
    // No row so far fits.
    'rows: for row in rows {
        if is_among(word, row.0) && (words.is_empty() || is_among(row.1, words)) {
            return Some(row.1);
        }
    }
    None
}

/// The words that a word may mean: options of a command, or commands if `command` is empty. A usual name of one decides, or else
/// the fewest letters that differ, which may fit several.
#[tactic(auto, unfolding(crate::specs::Meant::meant_by))]
fn meant_by(alloc: Global, word: &str, command: &str) -> Result<Vec<&'static str>, AllocError>
    ensures { IfOk result (λ meant. texts meant.items ≡ meant_by word.now command.now) }
{
    meant_among(alloc, word, value_of(&OPTIONS, command).unwrap_or(COMMANDS))
}

/// The same of words with spaces between them.
fn meant_among(
    alloc: Global,
    word: &str,
    words: &'static str,
) -> Result<Vec<&'static str>, AllocError>
    ensures { IfOk result (λ meant. texts meant.items ≡ meant_among word.now words.now) }
{
    match usual_for(&USUAL, word, words) {
        Some(meant) => Vec::from_slice(alloc, &[meant]),
        None if word.len() < 5 && has_hyphen(word) => Ok(Vec::new(alloc)),
        None => nearest(alloc, word, &parts_of(alloc, words, ' ')?),
    }
}

/// Whether a word begins with a hyphen.
pub(crate) fn has_hyphen(word: &str) -> bool
    ensures { result ≡ has_hyphen word.now }
{
    matches!(word.as_bytes(), [b'-', ..])
}

/// The sets of characters that a name may mean, by the fewest letters that differ. A short name is too little to tell.
#[tactic(auto, unfolding(crate::specs::Meant::set_meant_by))]
fn set_meant_by(alloc: Global, name: &str) -> Result<Vec<&'static str>, AllocError>
    ensures { IfOk result (λ meant. texts meant.items ≡ set_meant_by name.now) }
{
    if name.len() < 4 {
        return Ok(Vec::new(alloc));
    }
    nearest(alloc, name, &set_names(alloc)?)
}

/// The words in which the fewest letters differ from those of a word, in lower case. Two may differ, no more.
fn nearest(
    alloc: Global,
    word: &str,
    words: &[&'static str],
) -> Result<Vec<&'static str>, AllocError>
    ensures { IfOk result (λ found. texts found.items ≡ nearest (map to_ascii_lowercase word.now) (texts words.now)) }
{
    let word = word.to_ascii_lowercase(alloc)?;
    let mut found = Vec::new(alloc);
    let mut least = 3;
    // `found` has the nearest words so far, in which `least` letters differ.
    'words: for each in words {
        let distance = levenshtein(alloc, word.as_str(), each)?;
        if distance < least {
            least = distance;
            found.clear();
        }
        if distance == least && least < 3 {
            found.push(*each)?;
        }
    }
    Ok(found)
}

/// Adds the question which option of a command, or which command, a word may mean.
pub(crate) fn add_word_question(alloc: Global, text: &mut Text, word: &str, command: &str)
    ensures { Says text.old text.new (question (meant_by word.now command.now)) }
{
    match meant_by(alloc, word, command) {
        Ok(words) => add_question(text, &words),
        Err(_) => text.stop(),
    }
}

/// Adds the question which set of characters a name may mean.
pub(crate) fn add_set_question(alloc: Global, text: &mut Text, name: &str)
    ensures { Says text.old text.new (question (set_meant_by name.now)) }
{
    match set_meant_by(alloc, name) {
        Ok(words) => add_question(text, &words),
        Err(_) => text.stop(),
    }
}

/// Adds the question which of these words is meant, if there are any.
fn add_question(text: &mut Text, words: &[&str])
    ensures { Says text.old text.new (question (texts words.now)) }
{
    match words {
        [] => {}
        [first, others @ ..] => add_words(text, first, others),
    }
}

/// Adds the question whether a word is meant, or one of others.
fn add_words(text: &mut Text, first: &str, others: &[&str])
    ensures { Says text.old text.new (asked first.now (texts others.now)) }
{
    text.add_with(" did you mean '%'", first);
    add_others(text, others);
    text.add_text("?");
}

/// Adds further words to a question.
fn add_others(text: &mut Text, others: &[&str])
    ensures { Says text.old text.new (or_others (texts others.now)) }
{
    // The words so far were added.
    'others: for other in others {
        text.add_with(" or '%'", other);
    }
}

/// Whether a word is among others, with spaces between them.
pub(crate) fn is_among(word: &str, words: &str) -> bool
    ensures { result ≡ has (slice_split (λ b. b == 32) words.now) word.now }
{
    words.split(' ').any(|each| each == word)
}

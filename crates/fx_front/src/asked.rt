//! What a command line asks a front for.
ghost use Rattle.std.specs.Prelude.{◌≡◌, [], codes, unwrap_or, if◌then◌else◌};
ghost use Rattle.fx_words.specs.Parts.{text_in, texts, value_in};
ghost use Rattle.fx_front.specs.Asked.{asked_by, asked_by_explain, asked_by_word, names_refusal, seen_asked};

use crate::meant::takes_font;
use fx_fixed::Digits;
use fx_words::{Parts, has, value_in};

/// What a command line asks a front for.
#[derive(Drop)]
pub enum Asked<'a> {
    /// To print the help, of a command.
    Help(Option<&'a str>),
    /// To print the version.
    Version,
    /// To print what a refusal means, by its number or its name.
    Refusal(&'a str),
    /// To run.
    Run,
}

/// A run, as the words ask for it.
#[derive(Clone, Copy)]
pub struct AskedRun<'t, 'a> {
    /// The arguments, parted.
    pub parts: &'t Parts<'a>,
    /// The command, if it takes a font.
    pub command: Option<&'a str>,
}

impl<'t, 'a> AskedRun<'t, 'a> {
    ghost use Rattle.fx_front.specs.Places.{is_named};
    ghost use Rattle.fx_front.specs.Asked.{names_glyph};

    /// Whether this is the command.
    pub(crate) fn is(&self, name: &str) -> bool
        ensures { result ≡ is_named (text_in self.now.command) name.now }
    {
        match self.command {
            Some(command) => command == name,
            None => false,
        }
    }

    /// The name of the output; empty for standard output.
    pub(crate) fn output_name(&self) -> &'a str
        ensures { result.now ≡ unwrap_or (text_in self.now.parts.now.output) [] }
    {
        or_empty(self.parts.output)
    }

    /// The list of characters among the words.
    pub(crate) fn list(&self) -> Option<&'a str>
        ensures { let parts = self.now.parts.now in
            text_in result ≡ value_in (if parts.is_make then codes "--chars" else codes "--char") (texts parts.words.items) }
    {
        let option = if self.parts.is_make {
            "--chars"
        } else {
            "--char"
        };
        value_in(&self.parts.words, option)
    }

    /// Whether the words name this glyph by its number.
    pub(crate) fn names_glyph(&self, glyph: Option<u16>) -> bool
        ensures { result ≡ names_glyph (texts self.now.parts.now.words.items) glyph }
    {
        let words = &self.parts.words;
        match (
            glyph,
            value_in(words, "--glyph").or(value_in(words, "--of")),
        ) {
            (Some(glyph), Some(named)) => {
                named.as_bytes() == Digits::unsigned(u64::from(glyph)).text()
            }
            _ => false,
        }
    }
}

/// A text, or an empty one if there is none.
pub(crate) fn or_empty<'a>(text: Option<&'a str>) -> &'a str
    ensures { result.now ≡ unwrap_or (text_in text.entry) [] }
{
    match text {
        Some(text) => text,
        None => "",
    }
}

/// What the words of a command line ask for, the program's name first.
pub(crate) fn asked_by<'a>(words: &[&'a str], is_terminal: bool) -> Asked<'a>
    ensures { seen_asked result ≡ asked_by (texts words.now) is_terminal }
{
    match words {
        [_, word, rest @ ..] => asked_by_word(word, rest),
        _ if is_terminal => Asked::Help(None),
        _ => Asked::Run,
    }
}

/// What a first word asks for, with these words after it.
fn asked_by_word<'a>(word: &'a str, rest: &[&'a str]) -> Asked<'a>
    ensures { seen_asked result ≡ asked_by_word word.entry.now (texts rest.now) }
{
    if has(&["--version", "-V"], word) {
        Asked::Version
    } else if has(&["--help", "-h", "help"], word) {
        Asked::Help(rest.first().copied())
    } else if takes_font(word) && (has(rest, "-h") || has(rest, "--help")) {
        Asked::Help(Some(word))
    } else {
        asked_by_explain(word, rest)
    }
}

/// What `explain` asks for, with these words after it: a refusal, or a run, as any other word does.
fn asked_by_explain<'a>(word: &'a str, rest: &[&'a str]) -> Asked<'a>
    ensures { seen_asked result ≡ asked_by_explain word.entry.now (texts rest.now) }
{
    match rest {
        [named] if word == "explain" && names_refusal(named) => Asked::Refusal(named),
        _ => Asked::Run,
    }
}

/// Whether a word looks like a refusal's number or name: it begins with a digit or a capital letter.
fn names_refusal(word: &str) -> bool
    ensures { result ≡ names_refusal word.now }
{
    matches!(word.as_bytes(), [b'0'..=b'9' | b'A'..=b'Z', ..])
}

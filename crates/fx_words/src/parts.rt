//! The words of a command line, parted: the font, the output, and the words for the program.
ghost use Rattle.std.specs.Prelude.{◌≡◌, false, true, [], IfOk, OnOk};
ghost use Rattle.fx_words.specs.Parts.{after_start, end, first, has, has_hyphen};
ghost use Rattle.fx_words.specs.Parts.{has_joined_output, is_option, is_path, joined_list, joined_output};
ghost use Rattle.fx_words.specs.Parts.{joined_value, kept, kind_of, list_values, named_by, other_kind, parts_of, put_by, seen, step};
ghost use Rattle.fx_words.specs.Parts.{step_by, text_in, texts, value_in, with_list, without_equals};

use std::alloc::{AllocError, Global};

/// The options for the program that take the next word as their value.
const VALUED: [&str; 9] = [
    "--ppem",
    "--chars",
    "--name",
    "--property",
    "--refused",
    "--face",
    "--char",
    "--glyph",
    "--of",
];

/// What the next word may be.
#[derive(Clone, Copy)]
pub enum Next {
    /// Any word that is no value.
    Any,
    /// The value of an option for the program.
    Value,
    /// The value of `--set`, or of `--chars` beside it.
    Characters,
    /// The value of `--dropout`, which needs none.
    Dropout,
    /// The name after `-o`.
    Output,
    /// A name, since `--` came before.
    Name,
}

/// The kind of a word that is no value.
#[derive(Clone, Copy)]
pub enum WordKind {
    /// `-o`.
    Output,
    /// `-oNAME`.
    JoinedOutput,
    /// `--`.
    Names,
    /// The name of a file; `-` is standard input.
    Name,
    /// `--missing` of `make`.
    Missing,
    /// `--set`, or `--chars` beside it.
    Characters,
    /// `--set=NAMES`, or `--chars=LIST` beside it.
    JoinedCharacters,
    /// `--dropout`.
    Dropout,
    /// An option for the program that takes the next word as its value.
    Valued,
    /// Any other option.
    Flag,
}

/// The words of a command line, parted.
#[derive(Drop)]
pub struct Parts<'a> {
    /// The words for the program, its name first.
    pub words: Vec<&'a str>,
    /// The name of the font's file.
    pub font: Option<&'a str>,
    /// The name of the file to be written.
    pub output: Option<&'a str>,
    /// Whether all missing characters are to be named.
    pub names_all: bool,
    /// What the next word may be.
    pub next: Next,
    /// Whether the command is `make`.
    pub is_make: bool,
    /// If `--set` is among the words, the list of characters that the values of `--set` and `--chars` stand for.
    pub listed: Option<&'a str>,
}

/// Parts the words after a command's name. `before` are the words up to it, the program's name first. If `--set` is among the
/// words, `listed` is the list of characters that the values of `--set` and `--chars` stand for, which the program gets as one.
pub fn part<'a>(
    alloc: Global,
    before: &[&'a str],
    is_make: bool,
    listed: Option<&'a str>,
    words: &[&'a str],
) -> Result<Parts<'a>, AllocError>
    ensures { IfOk result (λ parts. seen parts ≡ parts_of (texts before.now) is_make (text_in listed.entry) (texts words.now)) }
{
    let mut parts = Parts {
        words: Vec::from_slice(alloc, before)?,
        font: None,
        output: None,
        names_all: false,
        next: Next::Any,
        is_make,
        listed,
    };
    // The words so far are parted.
    'words: for word in words {
        parts.take(word)?;
    }
    parts.end()?;
    Ok(parts)
}

impl<'a> Parts<'a> {
    /// Takes the next word.
    fn take(&mut self, word: &'a str) -> Result<(), AllocError>
        ensures { OnOk result (seen self.new ≡ step (seen self.old) word.entry.now) }
    {
        match self.next {
            Next::Any => self.take_first(word),
            Next::Value => self.take_value(word),
            Next::Characters => self.take_list(word),
            Next::Dropout => self.take_dropout(word),
            Next::Output => self.take_output(word),
            Next::Name => self.take_name(word, Next::Name),
        }
    }

    /// Takes a word that is no value.
    fn take_first(&mut self, word: &'a str) -> Result<(), AllocError>
        ensures { OnOk result (seen self.new ≡ first (seen self.old) word.entry.now) }
    {
        match kind_of(self.is_make, self.listed.is_some(), word) {
            WordKind::Output => self.next = Next::Output,
            WordKind::Names => self.next = Next::Name,
            WordKind::Missing => {
                self.names_all = true;
                self.next = Next::Any;
            }
            WordKind::JoinedOutput => return self.put(joined_output(word)),
            WordKind::Name => return self.take_name(word, Next::Any),
            WordKind::Characters => self.next = Next::Characters,
            WordKind::JoinedCharacters => self.next = Next::Any,
            WordKind::Dropout => return self.keep(word, Next::Dropout),
            WordKind::Valued => return self.keep(word, Next::Value),
            WordKind::Flag => return self.keep(word, Next::Any),
        }
        Ok(())
    }

    /// Takes a word after an option that takes a value.
    fn take_value(&mut self, word: &'a str) -> Result<(), AllocError>
        ensures { OnOk result (seen self.new ≡ step_by Next.Value (seen self.old) word.entry.now) }
    {
        if has_hyphen(word) {
            self.take_first(word)
        } else {
            self.keep(word, Next::Any)
        }
    }

    /// Takes a word after `--set`, or after `--chars` beside it. Without a value the program gets `--chars`, and refuses it.
    fn take_list(&mut self, word: &'a str) -> Result<(), AllocError>
        ensures { OnOk result (seen self.new ≡ step_by Next.Characters (seen self.old) word.entry.now) }
    {
        if has_hyphen(word) {
            self.keep("--chars", Next::Any)?;
            return self.take_first(word);
        }
        self.next = Next::Any;
        Ok(())
    }

    /// Takes a word after `--dropout`.
    fn take_dropout(&mut self, word: &'a str) -> Result<(), AllocError>
        ensures { OnOk result (seen self.new ≡ step_by Next.Dropout (seen self.old) word.entry.now) }
    {
        if has_hyphen(word) || is_path(word) {
            self.take_first(word)
        } else {
            self.keep(word, Next::Any)
        }
    }

    /// Takes a word after `-o`.
    fn take_output(&mut self, word: &'a str) -> Result<(), AllocError>
        ensures { OnOk result (seen self.new ≡ step_by Next.Output (seen self.old) word.entry.now) }
    {
        if word == "-" || !is_option(word) {
            return self.put(word);
        }
        self.keep("-o", Next::Any)?;
        self.take_first(word)
    }

    /// Takes the name of a file.
    fn take_name(&mut self, word: &'a str, next: Next) -> Result<(), AllocError>
        ensures { OnOk result (seen self.new ≡ named_by (seen self.old).font (seen self.old) word.entry.now next) }
    {
        if self.font.is_some() {
            return self.keep(word, next);
        }
        self.font = Some(word);
        self.next = next;
        Ok(())
    }

    /// Takes the name of the output. A second one is for the program, which refuses it.
    fn put(&mut self, name: &'a str) -> Result<(), AllocError>
        ensures { OnOk result (seen self.new ≡ put_by (seen self.old).output (seen self.old) name.entry.now) }
    {
        if self.output.is_some() {
            self.keep("-o", Next::Any)?;
            return self.keep(name, Next::Any);
        }
        self.output = Some(name);
        self.next = Next::Any;
        Ok(())
    }

    /// Keeps a word for the program.
    fn keep(&mut self, word: &'a str, next: Next) -> Result<(), AllocError>
        ensures { OnOk result (seen self.new ≡ kept (seen self.old) word.entry.now next) }
    {
        self.words.push(word)?;
        self.next = next;
        Ok(())
    }

    /// No word is left.
    fn end(&mut self) -> Result<(), AllocError>
        ensures { OnOk result (seen self.new ≡ end (seen self.old)) }
    {
        match self.next {
            Next::Output => {
                self.keep("-o", Next::Any)?;
                self.keep_list()
            }
            Next::Characters => self.keep("--chars", Next::Any),
            Next::Value => Ok(()),
            Next::Any | Next::Dropout | Next::Name => self.keep_list(),
        }
    }

    /// Keeps the list that `--set` and `--chars` stand for, if there is one.
    fn keep_list(&mut self) -> Result<(), AllocError>
        ensures { OnOk result (seen self.new ≡ with_list (seen self.old).listed (seen self.old)) }
    {
        let Some(list) = self.listed else {
            return Ok(());
        };
        self.keep("--chars", Next::Any)?;
        self.keep(list, Next::Any)
    }
}

/// The kind of a word that is no value.
fn kind_of(is_make: bool, has_list: bool, word: &str) -> WordKind
    ensures { result ≡ kind_of is_make has_list word.now }
{
    match word {
        "-o" => WordKind::Output,
        "-" => WordKind::Name,
        "--" => WordKind::Names,
        "--dropout" => WordKind::Dropout,
        "--missing" if is_make => WordKind::Missing,
        "--set" | "--chars" if has_list => WordKind::Characters,
        _ => other_kind(has_list, word),
    }
}

/// The kind of any other word.
#[tactic(auto, unfolding(crate::specs::Parts::valued))]
fn other_kind(has_list: bool, word: &str) -> WordKind
    ensures { result ≡ other_kind has_list word.now }
{
    if has_list && joined_list(word).is_some() {
        WordKind::JoinedCharacters
    } else if has_joined_output(word) {
        WordKind::JoinedOutput
    } else if has(&VALUED, word) {
        WordKind::Valued
    } else if is_option(word) {
        WordKind::Flag
    } else {
        WordKind::Name
    }
}

/// Whether a word is among words.
pub fn has(words: &[&str], word: &str) -> bool
    ensures { result ≡ has (texts words.now) word.now }
{
    words.contains(&word)
}

/// The value of an option among words: what follows its `=`, or else the next word.
pub fn value_in<'a>(words: &[&'a str], option: &str) -> Option<&'a str>
    ensures { text_in result ≡ value_in option.now (texts words.now) }
{
    let mut is_next = false;
    // `is_next` tells whether the word before this one is the option; none before has its value.
    'words: for word in words {
        if is_next {
            return Some(word);
        }
        if let Some(value) = joined_value(word, option) {
            return Some(value);
        }
        is_next = *word == option;
    }
    None
}

/// Whether a word begins with a hyphen.
fn has_hyphen(word: &str) -> bool
    ensures { result ≡ has_hyphen word.now }
{
    matches!(word.as_bytes(), [b'-', ..])
}

/// Whether a word is an option, or has no bytes.
fn is_option(word: &str) -> bool
    ensures { result ≡ is_option word.now }
{
    word.is_empty() || has_hyphen(word)
}

/// What follows a beginning in a text; none if it does not begin so.
pub fn after_start<'a>(start: &str, text: &'a str) -> Option<&'a str>
    ensures { text_in result ≡ after_start start.now text.entry.now }
{
    text.strip_prefix(start)
}

/// Whether a word looks like a file's name.
pub fn is_path(word: &str) -> bool
    ensures { result ≡ is_path word.now }
{
    word.split_once('.').is_some() || word.split_once('/').is_some()
}

/// Whether a word is `-oNAME`.
fn has_joined_output(word: &str) -> bool
    ensures { result ≡ has_joined_output word.now }
{
    matches!(word.split_once('o'), Some(("-", _)))
}

/// The name in `-oNAME` or `-o=NAME`.
fn joined_output<'a>(word: &'a str) -> &'a str
    ensures { result.now ≡ joined_output word.entry.now }
{
    match word.split_once('o') {
        Some((_, name)) => without_equals(name),
        None => without_equals(""),
    }
}

/// A name without `=` before it.
fn without_equals<'a>(name: &'a str) -> &'a str
    ensures { result.now ≡ without_equals name.entry.now }
{
    match name.split_once('=') {
        Some(("", rest)) => rest,
        _ => name,
    }
}

/// The value in `--set=NAMES` or `--chars=LIST`.
fn joined_list<'a>(word: &'a str) -> Option<&'a str>
    ensures { text_in result ≡ joined_list word.entry.now }
{
    joined_value(word, "--set").or(joined_value(word, "--chars"))
}

/// The values of `--set` and `--chars` among words.
pub(crate) fn list_values<'a>(alloc: Global, words: &[&'a str]) -> Result<Vec<&'a str>, AllocError>
    ensures { IfOk result (λ values. texts values.items ≡ list_values false (texts words.now)) }
{
    let mut values = Vec::new(alloc);
    let mut is_next = false;
    // The words so far have these values; `is_next` tells whether the word before this one is one of the options.
    'words: for word in words {
        if is_next {
            values.push(*word)?;
        } else if let Some(value) = joined_list(word) {
            values.push(value)?;
        }
        is_next = !is_next && has(&["--set", "--chars"], word);
    }
    Ok(values)
}

/// The value in `OPTION=VALUE`.
fn joined_value<'a>(word: &'a str, option: &str) -> Option<&'a str>
    ensures { text_in result ≡ joined_value option.now word.entry.now }
{
    match word.split_once('=') {
        Some((name, value)) if name == option => Some(value),
        _ => None,
    }
}

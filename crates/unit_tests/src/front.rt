//! The front, with a place in memory and a program that does what it is told.
use fx_fixed::{Limits, MemorySink, MemorySource, Sink, Source, put_all};
use fx_front::{
    AskedRun, Destination, Facts, FontFacts, Parts, RefusalFacts, Text, Tool, run_to_file,
};
use fx_words::{listed, lists_in, part};
use std::alloc::{AllocError, Global};
use std::test::Fail;

/// A place in memory: the file that has the name, and what fails.
#[derive(Drop)]
struct Shelf {
    alloc: Global,
    file: Option<Vec<u8>>,
    makes: bool,
    names: bool,
}

impl Shelf {
    /// A place where a file with the text `old` has the name, and where files are made and named or not.
    fn new(alloc: Global, makes: bool, names: bool) -> Result<Shelf, AllocError> {
        Ok(Shelf {
            alloc,
            file: Some(Vec::from_slice(alloc, b"old")?),
            makes,
            names,
        })
    }

    /// Whether the file that has the name has this text.
    fn holds(&self, text: &[u8]) -> bool {
        match &self.file {
            Some(file) => file.as_slice() == text,
            None => false,
        }
    }
}

impl Destination for Shelf {
    ghost use Rattle.std.specs.Prelude.{◌≡◌, ◌&&◌, [], Some, option_map};

    type New = Vec<u8>;

    ghost fresh = { Some [] };

    ghost Names = { λ _ held shelf. option_map (λ file. file.items) shelf.file ≡ held };

    ghost works = { λ shelf. shelf.makes && shelf.names };

    fn make(&self) -> Option<Vec<u8>> {
        if self.makes {
            Some(Vec::new(self.alloc))
        } else {
            None
        }
    }

    fn name(&mut self, new: Vec<u8>) -> bool {
        if self.names {
            self.file = Some(new);
        }
        self.names
    }

    fn remove(&self, _new: Vec<u8>) {}
}

/// A program that writes a text and ends with a status.
#[derive(Drop)]
struct Fake {
    text: &'static [u8],
    status: u8,
    facts: Facts,
}

impl Fake {
    /// A program that writes this and ends so; after a status of 1 a program of the font halted, if `is_halted` says so.
    fn new(alloc: Global, text: &'static [u8], status: u8, is_halted: bool) -> Fake {
        let refused = RefusalFacts {
            number: 33,
            advice: "fix\tit",
            glyph: None,
            is_halted,
            is_halted_glyph: is_halted,
        };
        Fake {
            text,
            status,
            facts: Facts {
                strike: None,
                refused: if status == 1 { Some(refused) } else { None },
                font: FontFacts {
                    start: None,
                    is_variable: false,
                    has_bitmaps: false,
                    missing: Text::new(alloc),
                    has_more: false,
                    first: None,
                    is_cut: false,
                },
            },
        }
    }
}

impl Tool for Fake {
    ghost use Rattle.std.specs.Prelude.{⊤, [], ◌∷◌, ◌++◌, codes};

    ghost Ran = { λ _ _ _ _ _ _. ⊤ };

    ghost learned = { λ f. f.facts };

    ghost wrong_in = { λ _. codes "unknown option '--esc" ++ 27 ∷ codes "'" ++ 10 ∷ [] };

    ghost wrong_item = { λ _. [] };

    fn run<R: Source, O: Sink, E: Sink>(
        &mut self,
        _alloc: Global,
        _parts: &Parts<'_>,
        _reader: &mut R,
        out: &mut O,
        _err: &mut E,
    ) -> u8 {
        match put_all(out, self.text) {
            Ok(()) => self.status.min(2),
            Err(_) => 1,
        }
    }

    fn facts(&self) -> &Facts {
        &self.facts
    }

    fn wrong(&self, alloc: Global, _words: &[&str]) -> Result<String, AllocError> {
        String::from_str(alloc, "unknown option '--esc\x1b'\n")
    }

    fn add_wrong_item(&self, text: &mut Text, _list: &str) {
        text.add_text("");
    }
}

/// Runs a fake program without options to a place, as this command. Returns the status for the user, and standard error.
fn run_command(
    alloc: Global,
    fake: &mut Fake,
    command: Option<&'static str>,
    shelf: &mut Shelf,
) -> Result<(u8, MemorySink), AllocError> {
    let words = ["mkstrike", command.unwrap_or("make")];
    let parts = part(alloc, &words, false, None, &[])?;
    let task = AskedRun {
        parts: &parts,
        command,
    };
    let mut reader = MemorySource::new(&[], Limits::NONE);
    let mut err = MemorySink::new(alloc, 0, Limits::NONE)?;
    let status = run_to_file(alloc, fake, &task, &mut reader, shelf, &mut err);
    Ok((status, err))
}

/// What a program writes and its status, whether a program of the font halts, whether the run is a trace, and whether the place
/// makes files and names them; then the text of the file that has the name.
type Run = (&'static [u8], u8, bool, bool, bool, bool, &'static [u8]);

/// The file gets its name if the run is done, or is a trace that halts after some lines; else the older one has it as before.
static RUNS: [Run; 11] = [
    (b"new", 0, false, false, true, true, b"new"),
    (b"", 0, false, false, true, true, b""),
    (b"new", 1, false, false, true, true, b"old"),
    (b"new", 2, false, false, true, true, b"old"),
    (b"new", 1, true, false, true, true, b"old"),
    (b"new", 1, true, true, true, true, b"new"),
    (b"new", 1, false, true, true, true, b"old"),
    (b"", 1, true, true, true, true, b"old"),
    (b"new", 0, false, false, false, true, b"old"),
    (b"", 0, false, false, false, true, b"old"),
    (b"new", 0, false, false, true, false, b"old"),
];

/// The line of a file that can't be made.
const UNMADE: &[u8] = b"mkstrike: can't write '': no file can be made in its folder\n";

/// Whether a run ends so at a place.
fn ends_so(alloc: Global, run: &Run, shelf: &mut Shelf) -> Result<bool, AllocError> {
    let (text, status, is_halted, is_trace, makes, _, wanted) = *run;
    let mut fake = Fake::new(alloc, text, status, is_halted);
    let command = if is_trace { Some("trace") } else { None };
    let (ended, err) = run_command(alloc, &mut fake, command, shelf)?;
    let is_done = wanted != b"old".as_slice() && status == 0;
    let is_unmade = !makes && !text.is_empty();
    Ok((ended == 0) == is_done && (err.bytes() == UNMADE) == is_unmade)
}

/// Whether a run ends so, and leaves this file.
fn leaves(alloc: Global, run: &Run) -> Result<bool, AllocError> {
    let mut shelf = Shelf::new(alloc, run.4, run.5)?;
    Ok(ends_so(alloc, run, &mut shelf)? && shelf.holds(run.6))
}

#[test]
fn older_file_stays(rt: HostRuntime) -> Result<(), Fail> {
    for run in &RUNS {
        assert!(rt; leaves(rt.alloc(), run)?, "{run:?}");
    }
    Ok(())
}

/// Whether this is said after a trace with a status.
fn says(alloc: Global, status: u8, wanted: &[u8]) -> Result<bool, AllocError> {
    let mut fake = Fake::new(alloc, b"new", status, status == 1);
    let mut shelf = Shelf::new(alloc, true, true)?;
    let (_, err) = run_command(alloc, &mut fake, Some("trace"), &mut shelf)?;
    Ok(err.bytes() == wanted)
}

/// What is said after a run is at most two lines without a control character.
#[test]
fn lines_after_a_run(rt: HostRuntime) -> Result<(), Fail> {
    assert!(rt; says(rt.alloc(), 0, b"")?);
    assert!(rt; says(rt.alloc(), 1, b"mkstrike: to fix the font, fix?it\n")?);
    let wrong =
        b"mkstrike: unknown option '--esc?'; 'mkstrike help trace' shows how it is written\n";
    assert!(rt; says(rt.alloc(), 2, wrong)?);
    Ok(())
}

/// Words, and how they are parted: the words for the program, with bars between them, the font and the output.
type Line = (
    &'static [&'static str],
    &'static str,
    Option<&'static str>,
    Option<&'static str>,
);

static LINES: [Line; 23] = [
    (
        &["--ppem", "16", "a.ttf", "-o", "b"],
        "--ppem|16",
        Some("a.ttf"),
        Some("b"),
    ),
    (&["a.ttf", "b.ttf"], "b.ttf", Some("a.ttf"), None),
    (&["-ob", "-"], "", Some("-"), Some("b")),
    (&["-o=b", "--", "-a"], "", Some("-a"), Some("b")),
    (&["-o", "-"], "", None, Some("-")),
    (&["-o"], "-o", None, None),
    (&["-o", "--hex"], "-o|--hex", None, None),
    (&["-o", "b", "-o", "c"], "-o|c", None, Some("b")),
    (
        &["--dropout", "nearest", "a.ttf"],
        "--dropout|nearest",
        Some("a.ttf"),
        None,
    ),
    (
        &["--dropout", "./a", "near"],
        "--dropout|near",
        Some("./a"),
        None,
    ),
    (
        &["--dropout", "--hex", "a"],
        "--dropout|--hex",
        Some("a"),
        None,
    ),
    (
        &["--set", "ascii", "--missing"],
        "--chars|20-7e",
        None,
        None,
    ),
    (&["--set=box", "a"], "--chars|2500-257f", Some("a"), None),
    (
        &[
            "--chars",
            "a0",
            "a",
            "--set",
            "ascii",
            "--hex",
            "--chars=41,b",
        ],
        "--hex|--chars|a0,20-7e,41,b",
        Some("a"),
        None,
    ),
    (
        &["--set", "ascii", "--set=box"],
        "--chars|20-7e,2500-257f",
        None,
        None,
    ),
    (&["--set", "ascii", "--chars"], "--chars", None, None),
    (&["--set", "ascii", "--ppem"], "--ppem", None, None),
    (&["--set"], "--chars", None, None),
    (
        &["--set", "--hex", "a"],
        "--chars|--hex|--chars|--hex",
        Some("a"),
        None,
    ),
    (
        &["--chars", "ascii", "--chars=41"],
        "--chars|ascii|--chars=41",
        None,
        None,
    ),
    (&["--all", "a"], "--all", Some("a"), None),
    (&["--name", "--hex", "a"], "--name|--hex", Some("a"), None),
    (&[""], "", None, None),
];

/// Whether words are these, with bars between them.
fn are_words(alloc: Global, words: &[&str], joined: &str) -> Result<bool, AllocError> {
    Ok(words.join(alloc, "|")?.as_str() == joined)
}

/// Whether words are parted like that.
fn is_parted(alloc: Global, line: &Line) -> Result<bool, AllocError> {
    let lists = lists_in(alloc, line.0)?;
    let list = match &lists {
        Some(list) => Some(list.as_str()),
        None => None,
    };
    let parts = part(alloc, &[], true, list, line.0)?;
    let same_files = parts.font == line.2 && parts.output == line.3;
    Ok(same_files && are_words(alloc, &parts.words, line.1)?)
}

#[test]
fn parted_words(rt: HostRuntime) -> Result<(), Fail> {
    for line in &LINES {
        assert!(rt; is_parted(rt.alloc(), line)?, "{:?}", line.0);
    }
    Ok(())
}

/// Names of sets, and the lists that they stand for; numbers and ranges among them stay.
static SETS: [(&str, &str); 7] = [
    ("ascii", "20-7e"),
    ("Latin1,20ac", "20-7e,a0-ff,20ac"),
    ("box,blocks,braille", "2500-257f,2580-259f,2800-28ff"),
    ("boxes,latin-a,CJK", "2500-257f,100-17f,4e00-9fff"),
    ("437,20-7e", "437,20-7e"),
    ("all,20-7e", "all,20-7e"),
    ("", ""),
];

/// Whether names stand for a list.
fn is_listed(alloc: Global, names: &str, list: &str) -> Result<bool, AllocError> {
    Ok(listed(alloc, names)?.as_str() == list)
}

#[test]
fn sets_by_name(rt: HostRuntime) -> Result<(), Fail> {
    for (names, list) in &SETS {
        assert!(rt; is_listed(rt.alloc(), names, list)?, "{names}");
    }
    Ok(())
}

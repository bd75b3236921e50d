//! What a command line asks for.

use fx_bdf::{Property, Title};
use fx_machine::FontProgram;
use fx_request::{Choice, Mode, OnRefused, Request, TraceSubject};

/// What to write, for which face of the font file, and whether the file is hexadecimal text.
#[derive(Drop)]
pub struct Command<'a> {
    pub task: Task<'a>,
    pub face: u32,
    pub hex: bool,
}

/// What to write.
#[derive(Drop)]
pub enum Task<'a> {
    /// A strike.
    Strike(Make<'a>),
    /// The picture of a glyph.
    Picture(Show),
    /// The outline of a glyph.
    Outline(Show),
    /// The listing of a program.
    Listing(FontProgram),
    /// The trace of programs.
    Trace(Trace),
    /// The faces of the file, with their names.
    Faces,
    /// A line that explains what is wrong with arguments; it is empty if nothing is.
    Explanation(Vec<u8>),
}

/// The characters of a strike.
#[derive(Drop)]
pub enum CharacterChoice {
    /// The characters of a list.
    Listed(Vec<u32>),
    /// All characters of the font's map.
    All,
}

/// A strike: its size in pixels an em, its characters, its name, its properties, whether X11's are added, how outlines become
/// pixels, and what happens to refused characters.
#[derive(Drop)]
pub struct Make<'a> {
    pub ppem: u16,
    pub chars: CharacterChoice,
    pub name: &'a str,
    pub properties: Vec<Property<'a>>,
    pub x11: bool,
    pub mode: Mode,
    pub on_refused: OnRefused,
}

/// One glyph: the size in pixels an em, how it is chosen, and how outlines become pixels.
#[derive(Clone, Copy)]
pub struct Show {
    pub ppem: u16,
    pub choice: Choice,
    pub mode: Mode,
}

impl<'a> Make<'a> {
    ghost use Rattle.std.specs.Prelude.{◌≡◌};
    ghost use Rattle.fx_arguments.specs.Commands.{seen_make, seen_request};

    /// The request for the strike, with these characters.
    pub fn request<'r>(&'r self, chars: &'r [u32]) -> Request<'r>
        ensures made { seen_request (seen_make self.entry.now).chars result ≡ seen_make self.entry.now }
        ensures chars { result.chars.now ≡ chars.entry.now }
    {
        Request {
            ppem: self.ppem,
            title: Title {
                name: self.name,
                properties: &self.properties,
                x11: self.x11,
            },
            chars,
            mode: self.mode,
            on_refused: self.on_refused,
        }
    }
}

/// A trace: the size in pixels an em, what is traced, and whether programs that do too much work are refused.
#[derive(Clone, Copy)]
pub struct Trace {
    pub ppem: u16,
    pub traced: TraceSubject,
    pub careful: bool,
}

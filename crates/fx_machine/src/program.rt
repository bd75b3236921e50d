//! Which program's bytes run.

ghost use Rattle.std.specs.Prelude.{◌≡◌};
ghost use Rattle.fx_machine.specs.Programs.{texts, named};

use fx_code::Code;
use std::fmt;

/// Which program's bytes.
#[derive(Clone, Copy, Debug, PartialEq, Eq, Default)]
pub enum Program {
    /// `fpgm`.
    #[default]
    Font,
    /// `prep`.
    Prep,
    /// The program of a glyph.
    Glyph,
}

/// One of a font's programs (Apple TrueType Reference Manual, "Font program", "Control value program", "Glyph program").
#[derive(Clone, Copy, Debug, PartialEq, Eq)]
pub enum FontProgram {
    /// The font program, the table `fpgm`.
    Fpgm,
    /// The control value program, the table `prep`.
    Prep,
    /// The program of the glyph with this number.
    Glyph(u16),
}

impl fmt::Display for FontProgram {
    fn fmt<W: fmt::Write>(&self, f: &mut fmt::Formatter<W>) -> fmt::Result {
        match *self {
            FontProgram::Fpgm => f.write_str("fpgm"),
            FontProgram::Prep => f.write_str("prep"),
            FontProgram::Glyph(g) => write!(f, "glyph {g}"),
        }
    }
}

/// The bytes of `fpgm`, of `prep` and of the program of a glyph, and the glyph's number.
#[derive(Drop)]
pub struct Programs<'a> {
    pub font: Code<'a>,
    pub prep: Code<'a>,
    pub glyph: Code<'a>,
    pub number: u16,
}

impl<'a> Programs<'a> {
    /// The bytes of a program.
    pub fn code(&self, program: Program) -> &Code<'a>
        ensures { result.now ≡ texts self.now program }
    {
        match program {
            Program::Font => &self.font,
            Program::Prep => &self.prep,
            Program::Glyph => &self.glyph,
        }
    }

    /// The name of a program.
    pub fn name(&self, program: Program) -> FontProgram
        ensures { result ≡ named self.now.number program }
    {
        match program {
            Program::Font => FontProgram::Fpgm,
            Program::Prep => FontProgram::Prep,
            Program::Glyph => FontProgram::Glyph(self.number),
        }
    }
}

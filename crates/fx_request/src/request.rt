//! Requests, and what is told of a strike.

use fx_bdf::Title;
use fx_machine::{FontProgram, Usage};

/// Whether drop-out control keeps thin strokes whole, and how (Apple TrueType Reference Manual, scan conversion). If a stroke
/// passes between two neighbours, neither of which is set, it sets one of them.
#[derive(Clone, Copy, Debug, PartialEq, Eq)]
pub enum Dropout {
    /// It sets none.
    Off,
    /// The left one, or the lower one (rule 3).
    Left,
    /// The one to which the stroke is nearer; the left or the lower one if it is as near to both (rule 5).
    Near,
    /// As the font's programs ask for each glyph: none, the left one or the nearer one; the left one if they ask for nothing.
    Font,
}

/// How outlines become pixels: whether the font's programs run, whether drop-out control keeps thin strokes whole, and whether the
/// work that a font can ask for is bounded.
#[derive(Clone, Copy, Debug, PartialEq)]
pub struct Mode {
    /// Whether the font's programs are run.
    pub hinting: bool,
    /// Whether drop-out control is on, and which pixels it sets.
    pub dropout: Dropout,
    /// Whether a character that takes too much work is refused, and a font whose `fpgm` and `prep` do.
    pub careful: bool,
}

/// How one glyph is chosen.
#[derive(Clone, Copy, Debug, PartialEq, Eq)]
pub enum Choice {
    /// By the code point of a character: its glyph, if the font has one.
    Character(u32),
    /// By its number in the font.
    Number(u16),
}

/// What is traced.
#[derive(Clone, Copy, Debug, PartialEq, Eq)]
pub enum TraceSubject {
    /// A program of the font. That of a glyph is traced with the programs of its components.
    Program(FontProgram),
    /// The programs of a glyph and of its components.
    Glyph(Choice),
}

/// What becomes of a character that is refused: one whose outline can't be made, lies too far out or is too large, whose program
/// halts, or which takes too much work.
#[derive(Clone, Copy, Debug, PartialEq, Eq)]
pub enum OnRefused {
    /// The first such character refuses the strike.
    Stop,
    /// It is left out of the strike.
    LeaveOut,
    /// If its program halts it is drawn without hinting. If it is refused even so, or for another cause, it is left out.
    Unhinted,
}

/// A request for a strike.
#[derive(Clone, Copy, Debug)]
pub struct Request<'a> {
    /// Pixels of an em, 1 to 1,024; any other number is refused.
    pub ppem: u16,
    /// What the strike is called. A name other than 1 to 255 printed characters of ASCII, no space first or last, is refused, and
    /// so is the first property that is bad: at most 64 are given, each with another name.
    pub title: Title<'a>,
    /// Code points up to U+10FFFF, at most 65,536 of them; their order and repeats do not count.
    pub chars: &'a [u32],
    /// How outlines become pixels.
    pub mode: Mode,
    /// What becomes of a character that is refused.
    pub on_refused: OnRefused,
}

/// What was counted over a strike.
#[derive(Clone, Copy, Debug, PartialEq, Eq)]
pub struct Report {
    /// The number of glyphs written: one for each requested character that the font has, but for those left out.
    pub glyphs: u32,
    /// The number of requested characters that the font does not have.
    pub missing: u32,
    /// What the font's programs used up.
    pub usage: Usage,
}

//! Lines for people.
ghost use Rattle.std.specs.Prelude.{◌≡◌, ◌∷◌, [], ◌++◌, ◌+◌, ◌<◌, ◌≤◌, length};
ghost use Rattle.fx_arguments.specs.declared.line.TheConstants.{CAPACITY};
ghost use Rattle.fx_arguments.specs.Lines.{code_word, halt_words, notice_line, location_words, program_words};
ghost use Rattle.fx_arguments.specs.Lines.{missing_line, refusal_line, refusal_words, report_line, spaced, usage_line};

use crate::line::MessageLine;
use fx_fixed::Digits;
use fx_machine::{FontProgram, Halt};
use fx_request::{Location, Notice, Refusal, Report};

/// The line of invalid arguments, but for its end.
pub(crate) fn line_of_usage() -> MessageLine
    ensures text { result ++ 10 ∷ [] ≡ usage_line }
    ensures room { length result < CAPACITY }
{
    let mut line = MessageLine::new();
    line.word(b"usage");
    line
}

/// The line of a character that the font lacks, but for its end.
pub(crate) fn line_of_missing() -> MessageLine
    ensures text { result ++ 10 ∷ [] ≡ missing_line }
    ensures room { length result < CAPACITY }
{
    let mut line = MessageLine::new();
    line.word(b"missing");
    line
}

/// The line of a refusal, but for its end.
pub(crate) fn line_of_refusal(refusal: Refusal) -> MessageLine
    ensures text { result ++ 10 ∷ [] ≡ refusal_line refusal }
    ensures room { length result < CAPACITY }
{
    let mut line = MessageLine::new();
    add_refusal(&mut line, refusal);
    line
}

/// The line of the counts of a strike, but for its end.
pub(crate) fn line_of_report(report: Report) -> MessageLine
    ensures text { result ++ 10 ∷ [] ≡ report_line report }
    ensures room { length result < CAPACITY }
{
    let mut line = MessageLine::new();
    line.word(b"glyphs");
    line.number(u64::from(report.glyphs));
    line.word(b"missing");
    line.number(u64::from(report.missing));
    line.word(b"strays");
    line.number(report.usage.strays);
    line.word(b"steps");
    line.number(report.usage.steps);
    line
}

/// The line of a character that was refused, but for its end.
pub(crate) fn line_of_notice(notice: Notice) -> MessageLine
    ensures text { result ++ 10 ∷ [] ≡ notice_line notice }
    ensures room { length result < CAPACITY }
{
    let mut line = MessageLine::new();
    line.word(if notice.unhinted {
        b"unhinted"
    } else {
        b"left out"
    });
    add_code(&mut line, notice.code);
    add_refusal(&mut line, notice.cause);
    line
}

/// Adds a code point.
#[tactic(auto, using(crate::proofs::Telling::in_pieces))]
fn add_code(line: &mut MessageLine, code: u32)
    requires { length line.old ≤ 18 }
    ensures text { line.new ≡ line.old ++ spaced (code_word code ∷ []) }
    ensures short { length line.new ≤ 42 }
{
    line.word(b"U+");
    line.put(Digits::hexadecimal(u64::from(code), 4).text());
    line.put(b":");
}

/// Adds a refusal: its number, its name and where it is.
#[tactic(auto, using(crate::proofs::Telling::name_short))]
fn add_refusal(line: &mut MessageLine, refusal: Refusal)
    requires { length line.old ≤ 42 }
    ensures text { line.new ≡ line.old ++ spaced (refusal_words refusal) }
    ensures room { length line.new < CAPACITY }
{
    let (number, name, location) = refusal.entry();
    line.number(u64::from(number));
    line.word(name.as_bytes());
    add_location(line, location);
}

/// Adds the location of a refusal.
fn add_location(line: &mut MessageLine, location: Location)
    requires { length line.old ≤ 90 }
    ensures text { line.new ≡ line.old ++ spaced (location_words location) }
    ensures room { length line.new < CAPACITY }
{
    match location {
        Location::Nowhere => {}
        Location::Table(tag) => line.word(&tag),
        Location::Glyph(g) => line.number(u64::from(g)),
        Location::Property(i) => line.number(u64::from(i)),
        Location::Bytes(n) => line.number(n),
        Location::Halt(halt) => add_halt(line, halt),
    }
}

/// Adds where a program halted.
fn add_halt(line: &mut MessageLine, halt: Halt)
    requires { length line.old ≤ 90 }
    ensures text { line.new ≡ line.old ++ spaced (halt_words halt) }
    ensures room { length line.new < CAPACITY }
{
    line.word(b"during");
    add_program(line, halt.during);
    line.word(b"in");
    add_program(line, halt.program);
    line.word(b"at");
    line.number(halt.address as u64);
    line.word(b"opcode");
    line.word(Digits::hexadecimal(u64::from(halt.opcode), 2).text());
}

/// Adds which program of the font.
fn add_program(line: &mut MessageLine, program: FontProgram)
    requires { length line.old ≤ 200 }
    ensures text { line.new ≡ line.old ++ spaced (program_words program) }
    ensures short { length line.new ≤ length line.old + 27 }
{
    match program {
        FontProgram::Fpgm => line.word(b"fpgm"),
        FontProgram::Prep => line.word(b"prep"),
        FontProgram::Glyph(g) => {
            line.word(b"glyph");
            line.number(u64::from(g));
        }
    }
}

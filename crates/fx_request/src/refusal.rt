//! Why there is no strike.
ghost use Rattle.std.specs.Prelude.{◌≡◌};
ghost use Rattle.fx_request.specs.Refusals.{number_of, name_of, location_of, entry_of};

use crate::location::Location;
use fx_machine::{Cause, Halt};
use std::fmt;
use thiserror::Error;

/// Why there is no strike, or why it was not written completely. A `u16` is the number of a glyph.
#[derive(Clone, Copy, PartialEq, Eq, Error)]
pub enum Refusal {
    /// The file is not a TrueType font, or its table directory or its header as a collection is truncated.
    NotTrueType,
    /// The font lacks a table.
    TableMissing([u8; 4]),
    /// A table is shorter than its fields.
    TableShort([u8; 4]),
    /// `head` has another magic number, or fields out of their range.
    BadHead,
    /// `maxp` has another version, or counts no glyph.
    BadMaxp,
    /// The font has no character map of format 12 or 4.
    NoCharMap,
    /// The character map is truncated, or its end codes are not in ascending order.
    BadCharMap,
    /// A glyph's offsets in `loca` are truncated, decrease, or lie past `glyf`.
    BadLoca(u16),
    /// A glyph's bytes end too early.
    GlyphShort(u16),
    /// A glyph's end points decrease.
    BadContours(u16),
    /// A component is deeper than 8.
    ComponentDepth(u16),
    /// A character has more than 256 component records.
    TooManyComponents(u16),
    /// An outline has more than 16,384 points.
    TooManyPoints(u16),
    /// A composite matches a point that does not exist.
    BadPointMatch(u16),
    /// The font has no glyph of this number.
    BadGlyphNumber(u16),
    /// The file has no face of the number that is asked for.
    NoFace,
    /// A program of the font halted.
    Halted(Halt),
    /// A point of an outline lies past 2^21 in 26.6 pixels.
    TooFar(u16),
    /// A glyph has more than 8,192 pixels a side.
    GlyphTooLarge(u16),
    /// A character takes more work than a careful strike allows, or the font's `fpgm` and `prep` do.
    TooMuchWork,
    /// The size is 0 or above 1,024 pixels.
    BadSize,
    /// The request has more than `MAX_CHARACTERS` characters, or one above `MAX_CODE`.
    BadChars,
    /// The name is not 1 to 255 printing bytes of ASCII, or has a space first or last.
    BadName,
    /// A property of the request is bad: its name or its value, or one before it has its name, or 64 are before it. The first such
    /// one, counted from 1.
    BadProperty(u32),
    /// The writer failed after this number of bytes.
    WriteFailed(u64),
    /// The reader failed.
    ReadFailed,
    /// The input is not hexadecimal text.
    BadHex,
    /// The input has more than 67,108,864 bytes.
    InputTooLarge,
    /// Memory ran out.
    OutOfMemory,
}

impl Refusal {
    /// The number, the name and the location: the table of the refusals.
    pub fn entry(self) -> (u8, &'static str, Location)
        ensures number { result.0 ≡ number_of self }
        ensures name { result.1.now ≡ name_of self }
        ensures location { result.2 ≡ location_of self }
    {
        match self {
            Refusal::NotTrueType => (10, "NotTrueType", Location::Nowhere),
            Refusal::TableMissing(tag) => (11, "TableMissing", Location::Table(tag)),
            Refusal::TableShort(tag) => (12, "TableShort", Location::Table(tag)),
            Refusal::BadHead => (13, "BadHead", Location::Nowhere),
            Refusal::BadMaxp => (14, "BadMaxp", Location::Nowhere),
            Refusal::NoCharMap => (15, "NoCharMap", Location::Nowhere),
            Refusal::BadCharMap => (16, "BadCharMap", Location::Nowhere),
            Refusal::BadLoca(g) => (17, "BadLoca", Location::Glyph(g)),
            Refusal::GlyphShort(g) => (18, "GlyphShort", Location::Glyph(g)),
            Refusal::BadContours(g) => (19, "BadContours", Location::Glyph(g)),
            Refusal::ComponentDepth(g) => (20, "ComponentDepth", Location::Glyph(g)),
            Refusal::TooManyComponents(g) => (21, "TooManyComponents", Location::Glyph(g)),
            Refusal::TooManyPoints(g) => (22, "TooManyPoints", Location::Glyph(g)),
            Refusal::BadPointMatch(g) => (23, "BadPointMatch", Location::Glyph(g)),
            Refusal::BadGlyphNumber(g) => (24, "BadGlyphNumber", Location::Glyph(g)),
            Refusal::NoFace => (25, "NoFace", Location::Nowhere),
            Refusal::Halted(halt) => (halt.cause.number(), halt.cause.name(), Location::Halt(halt)),
            Refusal::TooFar(g) => (51, "TooFar", Location::Glyph(g)),
            Refusal::GlyphTooLarge(g) => (52, "GlyphTooLarge", Location::Glyph(g)),
            Refusal::TooMuchWork => (53, "TooMuchWork", Location::Nowhere),
            Refusal::BadSize => (60, "BadSize", Location::Nowhere),
            Refusal::BadChars => (61, "BadChars", Location::Nowhere),
            Refusal::BadName => (62, "BadName", Location::Nowhere),
            Refusal::BadProperty(i) => (63, "BadProperty", Location::Property(i)),
            Refusal::WriteFailed(n) => (70, "WriteFailed", Location::Bytes(n)),
            Refusal::ReadFailed => (71, "ReadFailed", Location::Nowhere),
            Refusal::BadHex => (72, "BadHex", Location::Nowhere),
            Refusal::InputTooLarge => (73, "InputTooLarge", Location::Nowhere),
            Refusal::OutOfMemory => (90, "OutOfMemory", Location::Nowhere),
        }
    }

    /// The refusal's number.
    pub fn number(self) -> u8
        ensures { result ≡ number_of self }
    {
        self.entry().0
    }

    /// The refusal's name.
    pub fn name(self) -> &'static str
        ensures { result.now ≡ name_of self }
    {
        self.entry().1
    }

    /// Where the refusal is.
    pub fn location(self) -> Location
        ensures { result ≡ location_of self }
    {
        self.entry().2
    }
}

/// One of each refusal but the halts.
pub const EACH_REFUSAL: [Refusal; 28] = [
    Refusal::NotTrueType,
    Refusal::TableMissing(*b"glyf"),
    Refusal::TableShort(*b"glyf"),
    Refusal::BadHead,
    Refusal::BadMaxp,
    Refusal::NoCharMap,
    Refusal::BadCharMap,
    Refusal::BadLoca(0),
    Refusal::GlyphShort(0),
    Refusal::BadContours(0),
    Refusal::ComponentDepth(0),
    Refusal::TooManyComponents(0),
    Refusal::TooManyPoints(0),
    Refusal::BadPointMatch(0),
    Refusal::BadGlyphNumber(0),
    Refusal::NoFace,
    Refusal::TooFar(0),
    Refusal::GlyphTooLarge(0),
    Refusal::TooMuchWork,
    Refusal::BadSize,
    Refusal::BadChars,
    Refusal::BadName,
    Refusal::BadProperty(1),
    Refusal::WriteFailed(0),
    Refusal::ReadFailed,
    Refusal::BadHex,
    Refusal::InputTooLarge,
    Refusal::OutOfMemory,
];

/// Each cause of a halt.
pub const EACH_CAUSE: [Cause; 12] = [
    Cause::StackUnder,
    Cause::StackOver,
    Cause::BadOpcode,
    Cause::CodeEnd,
    Cause::BadJump,
    Cause::NoFunction,
    Cause::CallDepth,
    Cause::StepLimit,
    Cause::DivideByZero,
    Cause::BadArgument,
    Cause::NestedDefinition,
    Cause::StrayEnd,
];

/// The number, the name and the location.
impl fmt::Display for Refusal {
    fn fmt<W: fmt::Write>(&self, f: &mut fmt::Formatter<W>) -> fmt::Result {
        let (number, name, location) = self.entry();
        match location {
            Location::Nowhere => write!(f, "{number} {name}"),
            Location::Table(tag) => {
                write!(f, "{number} {name} ")?;
                write_tag(f, tag)
            }
            Location::Glyph(g) => write!(f, "{number} {name} {g}"),
            Location::Property(i) => write!(f, "{number} {name} {i}"),
            Location::Bytes(n) => write!(f, "{number} {name} {n}"),
            Location::Halt(halt) => write!(f, "{halt}"),
        }
    }
}

/// As it is displayed.
impl fmt::Debug for Refusal {
    fn fmt<W: fmt::Write>(&self, f: &mut fmt::Formatter<W>) -> fmt::Result {
        write!(f, "{self}")
    }
}

/// The tag of a table.
fn write_tag<W: fmt::Write>(f: &mut fmt::Formatter<W>, tag: [u8; 4]) -> fmt::Result {
    // The bytes so far were written.
    'bytes: for byte in tag {
        f.write_char(char::from(byte))?;
    }
    Ok(())
}

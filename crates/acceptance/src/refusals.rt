//! What refusals show: their number, name and fields.
use fx_hint::HintFault;
use fx_machine::{Cause, FontProgram, Halt};
use fx_request::Refusal;
use std::alloc::Global;
use std::test::Fail;

/// A halt of the program of the last glyph.
fn halted(cause: Cause, program: FontProgram, address: usize, opcode: u8) -> Refusal {
    Refusal::Halted(Halt {
        cause,
        during: FontProgram::Glyph(65_535),
        program,
        address,
        opcode,
    })
}

/// Each refusal but the halts.
const EACH: [Refusal; 27] = [
    Refusal::NotTrueType,
    Refusal::TableMissing(*b"cmap"),
    Refusal::TableShort(*b"maxp"),
    Refusal::BadHead,
    Refusal::BadMaxp,
    Refusal::NoCharMap,
    Refusal::BadCharMap,
    Refusal::BadLoca(0),
    Refusal::GlyphShort(1),
    Refusal::BadContours(2),
    Refusal::ComponentDepth(3),
    Refusal::TooManyComponents(4),
    Refusal::TooManyPoints(5),
    Refusal::BadPointMatch(6),
    Refusal::BadGlyphNumber(65_535),
    Refusal::NoFace,
    Refusal::TooFar(8),
    Refusal::GlyphTooLarge(9),
    Refusal::BadSize,
    Refusal::BadChars,
    Refusal::BadName,
    Refusal::BadProperty(3),
    Refusal::WriteFailed(u64::MAX),
    Refusal::ReadFailed,
    Refusal::BadHex,
    Refusal::InputTooLarge,
    Refusal::OutOfMemory,
];

/// The same as they are shown.
const SHOWN: &str = "\
10 NotTrueType\n\
11 TableMissing cmap\n\
12 TableShort maxp\n\
13 BadHead\n\
14 BadMaxp\n\
15 NoCharMap\n\
16 BadCharMap\n\
17 BadLoca 0\n\
18 GlyphShort 1\n\
19 BadContours 2\n\
20 ComponentDepth 3\n\
21 TooManyComponents 4\n\
22 TooManyPoints 5\n\
23 BadPointMatch 6\n\
24 BadGlyphNumber 65535\n\
25 NoFace\n\
51 TooFar 8\n\
52 GlyphTooLarge 9\n\
60 BadSize\n\
61 BadChars\n\
62 BadName\n\
63 BadProperty 3\n\
70 WriteFailed 18446744073709551615\n\
71 ReadFailed\n\
72 BadHex\n\
73 InputTooLarge\n\
90 OutOfMemory\n";

/// The texts of refusals, each in a line.
fn lines(alloc: Global, refusals: &[Refusal]) -> Result<String, Fail> {
    let mut text = String::new(alloc);
    for refusal in refusals {
        text.push_str(format!(in alloc; "{refusal}\n")?.as_str())?;
    }
    Ok(text)
}

#[test]
fn refusals_show_number_name_and_fields(rt: HostRuntime) -> Result<(), Fail> {
    assert!(rt; lines(rt.alloc(), &EACH)?.as_str() == SHOWN);
    Ok(())
}

#[test]
fn halts_show_where_they_are(rt: HostRuntime) -> Result<(), Fail> {
    let last = FontProgram::Glyph(65_535);
    let halts = [
        halted(Cause::NoFunction, FontProgram::Fpgm, 17, 0x2b),
        halted(Cause::NestedDefinition, last, usize::MAX, 0xff),
        halted(Cause::StackUnder, FontProgram::Prep, 0, 0x07),
        halted(Cause::CodeEnd, FontProgram::Glyph(0), 9, 0),
    ];
    let wanted = "35 NoFunction during glyph 65535 in fpgm at 17 opcode 2B\n\
        40 NestedDefinition during glyph 65535 in glyph 65535 at 18446744073709551615 opcode FF\n\
        30 StackUnder during glyph 65535 in prep at 0 opcode 07\n\
        33 CodeEnd during glyph 65535 in glyph 0 at 9 opcode 00\n";
    assert!(rt; lines(rt.alloc(), &halts)?.as_str() == wanted);
    Ok(())
}

#[test]
fn faults_of_outlines_name_their_glyph(rt: HostRuntime) -> Result<(), Fail> {
    for (fault, text) in [
        (HintFault::ComponentDepth(3), "component 3 lies too deep"),
        (
            HintFault::TooManyComponents(4),
            "glyph 4 has too many components",
        ),
        (HintFault::TooManyPoints(5), "glyph 5 has too many points"),
        (
            HintFault::BadPointMatch(6),
            "a component of glyph 6 is placed by a point that does not exist",
        ),
        (HintFault::OutOfMemory, "out of memory"),
    ] {
        assert!(rt; format!(in rt.alloc(); "{fault}")?.as_str() == text);
    }
    Ok(())
}

//! Lines that standard error does not take.
use crate::fonts::{fixture, patch};
use crate::runs::run;
use fx_fixed::{Limits, MemorySink, MemorySource, Sink};
use std::test::Fail;

/// The strike of a space and B at 16 pixels.
const WITHOUT_A: &[u8] =
    b"STARTFONT 2.1\nFONT F1\nSIZE 16 72 72\nFONTBOUNDINGBOX 2 1 0 0\nSTARTPROPERTIES 2\nFONT_ASCENT 13\n\
    FONT_DESCENT 4\nENDPROPERTIES\nCHARS 2\nSTARTCHAR uni0020\nENCODING 32\nSWIDTH 375 0\nDWIDTH 6 0\n\
    BBX 0 0 0 0\nBITMAP\nENDCHAR\nSTARTCHAR uni0042\nENCODING 66\nSWIDTH 375 0\n\
    DWIDTH 6 0\nBBX 2 1 0 0\nBITMAP\nC0\nENDCHAR\nENDFONT\n";

/// Its lines, if A is refused.
const LINES: &[u8] =
    b"mkstrike: left out U+0041: 19 BadContours 2\nmkstrike: glyphs 2 missing 1 strays 0 steps 0\n";

/// Standard error fails in its first line, or in the second: nothing is written there any more, and the strike is whole.
#[test]
fn lines_that_fail(rt: HostRuntime) -> Result<(), Fail> {
    let mut font = fixture(rt.alloc())?;
    patch(&mut font, 334, &[0, 9])?;
    let words = "mkstrike|make|--ppem|16|--chars|20,41-43|--name|F1|--refused|leave-out";
    let arguments: Vec<&str> = words.split('|').collect(rt.alloc())?;
    for bytes in [0, 5, 43, 44, 60] {
        let limits = Limits {
            bytes,
            ..Limits::NONE
        };
        let mut reader = MemorySource::new(&font, Limits::NONE);
        let mut out = MemorySink::new(rt.alloc(), 512, Limits::NONE)?;
        let mut err = MemorySink::new(rt.alloc(), 256, limits)?;
        let status = run(rt.alloc(), &arguments, &mut reader, &mut out, &mut err)?;
        assert_eq!(rt; status, 0, "{bytes}");
        assert!(rt; out.bytes() == WITHOUT_A, "{bytes}");
        assert!(rt; LINES.get(..bytes) == Some(err.bytes()), "{bytes}");
        assert_eq!(rt; err.faults(), 1, "{bytes}");
    }
    Ok(())
}

/// Standard error fails in the line of a refusal: the status is the same.
#[test]
fn a_refusal_whose_line_fails(rt: HostRuntime) -> Result<(), Fail> {
    let words = ["mkstrike", "show", "--ppem", "16", "--char", "41"];
    let limits = Limits {
        bytes: 5,
        ..Limits::NONE
    };
    let mut reader = MemorySource::new(b"OTTO", Limits::NONE);
    let mut out = MemorySink::new(rt.alloc(), 16, Limits::NONE)?;
    let mut err = MemorySink::new(rt.alloc(), 64, limits)?;
    let status = run(rt.alloc(), &words, &mut reader, &mut out, &mut err)?;
    assert!(rt; status == 1 && out.bytes().is_empty());
    assert!(rt; err.bytes() == b"mkstr".as_slice() && err.faults() == 1);
    Ok(())
}

//! Surveys of strikes, and characters made alone.
use crate::fonts::fixture;
use crate::strikes::{HINTED, UNHINTED, request};
use crate::tables::{NO_TABLES, Tables, with_tables};
use fx_bdf::{Bounds, Summary};
use fx_gstate::ScanType;
use fx_machine::Usage;
use fx_request::{Refusal, Report, Request};
use fx_sfnt::FontFile;
use fx_strike::{Survey, survey};
use fx_views::one;
use fx_winding::{Bitmap, Frame, Pieces, Plain, Scan, ScanFault, Tally};
use std::alloc::Global;
use std::test::Fail;

#[test]
fn one_character_is_made(rt: HostRuntime) -> Result<(), Fail> {
    let font = fixture(rt.alloc())?;
    for mode in [UNHINTED, HINTED] {
        let glyph = one(rt.alloc(), &FontFile::of(font.as_slice()), 16, 0x42, mode)?;
        assert!(rt; glyph.as_ref().map(|glyph| glyph.bbox()) == Some((2, 1, 0, 0)));
        let missing = one(rt.alloc(), &FontFile::of(font.as_slice()), 16, 0x21, mode)?;
        assert!(rt; missing.is_none());
    }
    Ok(())
}

/// The box of the ring.
const OF_RING: Bounds = Bounds {
    width: 5,
    height: 5,
    left: 0,
    bottom: 0,
};

#[test]
fn a_strike_is_surveyed(rt: HostRuntime) -> Result<(), Fail> {
    let font = fixture(rt.alloc())?;
    let request = Request {
        mode: HINTED,
        ..request(16, &[0x42, 0x41, 0x21, 0x41])
    };
    let told = Survey {
        bounds: OF_RING,
        summary: Summary {
            is_monospaced: true,
            average_width: 60,
            has_replacement: false,
            has_space: false,
        },
        wish: None,
        ascent: 13,
        descent: 4,
        report: Report {
            glyphs: 2,
            missing: 1,
            usage: Usage::none(),
        },
    };
    assert!(rt; survey(rt.alloc(), &Plain, &FontFile::of(font.as_slice()), &request) == Ok(told));
    Ok(())
}

/// What `prep` left asked of drop-out control: at 16 pixels an em SCANCTRL of 0110 is on, and SCANTYPE 5 asks for the nearer
/// pixel. At 17 it stays off, which is asked for, too. Without hinting nothing is asked.
#[test]
fn a_survey_tells_what_prep_asked(rt: HostRuntime) -> Result<(), Fail> {
    let base = fixture(rt.alloc())?;
    let tables = Tables {
        prep: "B8 01 10 85 B0 05 8D",
        ..NO_TABLES
    };
    let font = with_tables(rt.alloc(), base.as_slice(), &tables)?;
    let font = FontFile::of(font.as_slice());
    for (mode, ppem, wish) in [
        (HINTED, 16, Some(ScanType::Nearest)),
        (HINTED, 17, Some(ScanType::Off)),
        (UNHINTED, 16, None),
    ] {
        let request = Request {
            mode,
            ..request(ppem, &[0x41])
        };
        let told = survey(rt.alloc(), &Plain, &font, &request)?;
        assert!(rt; told.wish == wish);
    }
    Ok(())
}

/// A scan that is out of memory for frames of less than three columns.
pub struct OfWideFrames;

impl Scan for OfWideFrames {
    fn scan(
        &self,
        alloc: Global,
        pieces: &Pieces,
        frame: Frame,
        tally: &mut Tally,
    ) -> Result<Bitmap, ScanFault> {
        if frame.width < 3 {
            return Err(ScanFault::OutOfMemory);
        }
        Plain.scan(alloc, pieces, frame, tally)
    }
}

/// The frame of character 42, two columns wide, lies in the box of character 41: the survey doesn't scan it.
#[test]
fn a_survey_scans_what_may_widen_its_box(rt: HostRuntime) -> Result<(), Fail> {
    let font = fixture(rt.alloc())?;
    let font = FontFile::of(font.as_slice());
    for (chars, wanted) in [
        ([0x41, 0x42].as_slice(), Ok(OF_RING)),
        ([0x42].as_slice(), Err(Refusal::OutOfMemory)),
    ] {
        let told = survey(rt.alloc(), &OfWideFrames, &font, &request(16, chars));
        assert!(rt; told.map(|told| told.bounds) == wanted);
    }
    Ok(())
}

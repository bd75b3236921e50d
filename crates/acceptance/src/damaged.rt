//! Fonts with each byte in turn set to others, hinted and not.
use crate::fonts::{READING, STORING, fixture, font, patch};
use crate::strikes::{HINTED, UNHINTED, request};
use crate::tables::{Tables, with_tables};
use fx_fixed::{Limits, MemorySink};
use fx_request::{Mode, Request};
use fx_sfnt::FontFile;
use fx_strike::make_strike;
use std::alloc::{AllocError, Global};
use std::process::Abort;
use std::test::Fail;

/// Whether a strike of a font ends well, or a cause is named and nothing is written.
fn ends_well(alloc: Global, font: &[u8], mode: Mode) -> Result<bool, AllocError> {
    let request = Request {
        mode,
        ..request(16, &[0x20, 0x41, 0x42])
    };
    let mut out = MemorySink::new(alloc, 4096, Limits::NONE)?;
    let ends = match make_strike(alloc, &FontFile::of(font), &request, &mut out) {
        Ok(_) => out.bytes().ends_with(b"ENDFONT\n"),
        Err(refusal) => 10 <= refusal.number() && refusal.number() <= 62 && out.bytes().is_empty(),
    };
    Ok(ends)
}

/// Whether the strikes of a font with one byte set to others end well, or are refused.
fn end_well(alloc: Global, font: &[u8], at: usize, mode: Mode) -> Result<bool, Fail> {
    let mut damaged = Vec::from_slice(alloc, font)?;
    for value in [0x00, 0x7F, 0x80, 0xFF] {
        patch(&mut damaged, at, &[value])?;
        if !ends_well(alloc, damaged.as_slice(), mode)? {
            return Ok(false);
        }
    }
    Ok(true)
}

/// The same for each byte of a font.
fn each_byte(rt: &impl Abort, alloc: Global, font: &[u8], mode: Mode) -> Result<(), Fail> {
    for at in 0..font.len() {
        assert!(rt; end_well(alloc, font, at, mode)?, "{at}");
    }
    Ok(())
}

#[test]
fn unhinted(rt: HostRuntime) -> Result<(), Fail> {
    let font = fixture(rt.alloc())?;
    each_byte(&rt, rt.alloc(), font.as_slice(), UNHINTED)
}

/// A font with a function, a control value program and two glyphs' programs.
#[test]
fn hinted(rt: HostRuntime) -> Result<(), Fail> {
    let base = font(rt.alloc(), STORING, READING)?;
    let tables = Tables {
        fpgm: "B0 00 2C B0 05 2D",
        prep: "B0 00 2B 21",
        cvt: "0000",
    };
    let font = with_tables(rt.alloc(), base.as_slice(), &tables)?;
    each_byte(&rt, rt.alloc(), font.as_slice(), HINTED)
}

//! Writers that fail, and writers that take little.
use crate::fonts::{STRIKE, fixture};
use crate::strikes::{counts, request};
use fx_fixed::{Limits, MemorySink, Sink};
use fx_request::{Refusal, Report};
use fx_sfnt::FontFile;
use fx_strike::{make_strike, make_strike_sparing};
use std::alloc::Global;
use std::test::Fail;

/// Whether the worked strike on a sink with limits returns this, and this much of its text is written, with this number of faults.
fn writes(
    alloc: Global,
    limits: Limits,
    want: Result<Report, Refusal>,
    bytes: usize,
    faults: u64,
) -> Result<bool, Fail> {
    let font = fixture(alloc)?;
    let font = FontFile::of(font.as_slice());
    let mut out = MemorySink::new(alloc, 399, limits)?;
    if out.faults() != 0 {
        return Ok(false);
    }
    let result = make_strike(alloc, &font, &request(16, &[0x20, 0x41, 0x42]), &mut out);
    let is_front = STRIKE.as_bytes().get(..bytes) == Some(out.bytes());
    Ok(result == want && out.faults() == faults && is_front)
}

/// A writer that takes one byte a call, and one that fails once.
#[test]
fn writers_that_take_little_and_fail(rt: HostRuntime) -> Result<(), Fail> {
    let slow = Limits {
        step: 1,
        ..Limits::NONE
    };
    let failing = Limits {
        hiccup: Some(10),
        step: 10,
        ..Limits::NONE
    };
    for (limits, want, bytes, faults) in [
        (slow, Ok(counts(3, 0)), 399, 0),
        (failing, Err(Refusal::WriteFailed(10)), 10, 1),
    ] {
        assert!(rt; writes(rt.alloc(), limits, want, bytes, faults)?, "{bytes}");
    }
    Ok(())
}

/// Whether the strike of the fixture at a size is the same with room for lines and components and without.
fn is_same_sparing(alloc: Global, ppem: u16, most: usize) -> Result<bool, Fail> {
    let font = fixture(alloc)?;
    let font = FontFile::of(font.as_slice());
    let request = request(ppem, &[0x20, 0x41, 0x42]);
    let mut due = MemorySink::new(alloc, most, Limits::NONE)?;
    let told = make_strike(alloc, &font, &request, &mut due);
    let mut out = MemorySink::new(alloc, most, Limits::NONE)?;
    let sparing = make_strike_sparing(alloc, &font, &request, &mut out);
    Ok(told.is_ok() && sparing == told && out.bytes() == due.bytes())
}

#[test]
fn with_little_memory(rt: HostRuntime) -> Result<(), Fail> {
    for (ppem, most) in [(16, 399), (1024, 1 << 20)] {
        assert!(rt; is_same_sparing(rt.alloc(), ppem, most)?, "{ppem}");
    }
    Ok(())
}

//! Strikes by other scans: by pixels, and by one that fails.
use crate::fonts::{STRIKE, fixture};
use crate::strikes::request;
use fx_fixed::{Limits, MemorySink};
use fx_request::Refusal;
use fx_sfnt::FontFile;
use fx_strike::make_strike_with;
use fx_winding::{Bitmap, Frame, Pieces, Plain, Scan, ScanFault, Tally};
use std::alloc::Global;
use std::test::Fail;

/// Whether the strike of characters of the fixture, by a scan, is made or refused, and this is its text.
fn writes_by<S: Scan>(
    alloc: Global,
    scan: &S,
    chars: &[u32],
    refusal: Option<Refusal>,
    text: &str,
) -> Result<bool, Fail> {
    let font = fixture(alloc)?;
    let mut out = MemorySink::new(alloc, 512, Limits::NONE)?;
    let font = FontFile::of(font.as_slice());
    let result = make_strike_with(alloc, scan, &font, &request(16, chars), &mut out);
    Ok(result.err() == refusal && out.bytes() == text.as_bytes())
}

#[test]
fn by_pixels(rt: HostRuntime) -> Result<(), Fail> {
    assert!(rt; writes_by(rt.alloc(), &Plain, &[0x20, 0x41, 0x42], None, STRIKE)?);
    Ok(())
}

/// A scan that is always out of memory.
struct Refusing;

impl Scan for Refusing {
    fn scan(
        &self,
        _alloc: Global,
        _pieces: &Pieces,
        _frame: Frame,
        _tally: &mut Tally,
    ) -> Result<Bitmap, ScanFault> {
        Err(ScanFault::OutOfMemory)
    }
}

#[test]
fn the_scan_is_asked(rt: HostRuntime) -> Result<(), Fail> {
    let refusal = Some(Refusal::OutOfMemory);
    for chars in [[0x41].as_slice(), [0x20, 0x41, 0x42].as_slice()] {
        assert!(rt; writes_by(rt.alloc(), &Refusing, chars, refusal, "")?);
    }
    Ok(())
}

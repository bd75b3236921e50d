//! How many tests the widest rows take.
use crate::fonts::{RING, font};
use crate::strikes::request;
use fx_fixed::{Limits, MemorySink};
use fx_request::Refusal;
use fx_rows::Rows;
use fx_sfnt::FontFile;
use fx_strike::make_strike_with;
use fx_winding::{Bitmap, Frame, Pieces, Scan, ScanFault, Tally};
use std::alloc::Global;
use std::test::Fail;

/// The scan by rows, if it makes at most this number of tests. For four pieces in one row the limit is 4 * 1 * (6 * digits + 12),
/// with the binary digits of the row's width: 336 for 2,048 pixels, 384 for 8,192.
struct Few(u64);

impl Scan for Few {
    fn scan(
        &self,
        alloc: Global,
        pieces: &Pieces,
        frame: Frame,
        tally: &mut Tally,
    ) -> Result<Bitmap, ScanFault> {
        let bitmap = Rows.scan(alloc, pieces, frame, tally)?;
        if tally.tests() > self.0 {
            return Err(ScanFault::OutOfMemory);
        }
        Ok(bitmap)
    }
}

/// A rectangle of 8,192 by 1 FUnits: as many pixels at 1,024 pixels an em.
const WIDEST: &str =
    "0001 0000 0000 0000 0000 0003 0000 01010101 0000 2000 0000 e000 0000 0000 0001 0000";

/// A rectangle that is one pixel wider.
const WIDER: &str =
    "0001 0000 0000 0000 0000 0003 0000 01010101 0000 2001 0000 dfff 0000 0000 0001 0000";

/// The end of a strike whose last glyph is one row of pixels, all set, which is this number of bytes.
fn one_row(alloc: Global, width: u32, bytes: usize) -> Result<String, Fail> {
    let mut text = format!(in alloc; "BBX {width} 1 0 0\nBITMAP\n")?;
    for _ in 0..bytes {
        text.push_str("FF")?;
    }
    text.push_str("\nENDCHAR\nENDFONT\n")?;
    Ok(text)
}

/// Whether a strike of a font with this glyph 3, by a scan, is made or refused, and its text ends so. The text of one that is
/// refused is empty.
fn ends_by(
    alloc: Global,
    scan: &Few,
    glyph: &str,
    ppem: u16,
    refusal: Option<Refusal>,
    end: &str,
) -> Result<bool, Fail> {
    let font = font(alloc, RING, glyph)?;
    let mut out = MemorySink::new(alloc, 4096, Limits::NONE)?;
    let font = FontFile::of(font.as_slice());
    let result = make_strike_with(alloc, scan, &font, &request(ppem, &[0x42]), &mut out);
    let text = out.bytes();
    Ok(
        result.err() == refusal
            && text.is_empty() == refusal.is_some()
            && text.ends_with(end.as_bytes()),
    )
}

#[test]
fn the_widest_row(rt: HostRuntime) -> Result<(), Fail> {
    let end = one_row(rt.alloc(), 8192, 1024)?;
    for (glyph, refusal, end) in [
        (WIDEST, None, end.as_str()),
        (WIDER, Some(Refusal::GlyphTooLarge(3)), ""),
    ] {
        assert!(rt; ends_by(rt.alloc(), &Few(384), glyph, 1024, refusal, end)?);
    }
    Ok(())
}

/// A rectangle of 16,384 by 8 FUnits: 2,048 by 1 pixels at 128 pixels an em.
const WHOLE_WORDS: &str =
    "0001 0000 0000 0000 0000 0003 0000 01010101 0000 4000 0000 c000 0000 0000 0008 0000";

#[test]
fn a_row_of_2048_pixels(rt: HostRuntime) -> Result<(), Fail> {
    let end = one_row(rt.alloc(), 2048, 256)?;
    assert!(rt; ends_by(rt.alloc(), &Few(336), WHOLE_WORDS, 128, None, end.as_str())?);
    Ok(())
}

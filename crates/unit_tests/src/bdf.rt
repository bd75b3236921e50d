//! A glyph of a picture: its rows, and its text on sinks that take little.

ghost use Rattle.std.specs.Prelude.{◌≡◌, length};
ghost use Rattle.fx_winding.specs.Bitmaps.{words_for as words_for_of, AreRowWords};

use fx_bdf::{BitGlyph, Row, write_glyph};
use fx_fixed::{Limits, MemorySink, Sink, TextWriter, WriteFailed};
use fx_winding::{Bitmap, Frame, set_bit, words_for};
use std::alloc::Global;
use std::process::Abort;
use std::test::Fail;

/// The words of a line with `#` for each set bit.
fn paint(line: &[u8], words: &mut [u32])
    requires { length words.old ≡ words_for_of (length line.now) }
    ensures { AreRowWords (length line.now) words.new }
{
    words.fill(0);
    for k in 0..line.len() {
        if line[k] == b'#' {
            set_bit(words, k);
        }
    }
}

/// Sets the bits of a row from a line with `#` for each set bit.
fn set_line(
    rt: &impl Abort,
    alloc: Global,
    bitmap: &mut Bitmap,
    row: i32,
    line: &[u8],
) -> Result<(), Fail> {
    let frame = bitmap.frame();
    assert!(rt; frame.bottom <= row);
    assert!(rt; i64::from(row) < i64::from(frame.bottom) + i64::from(frame.height));
    assert!(rt; line.len() == frame.width as usize);
    let mut words = vec![in alloc; 0u32; words_for(frame.width)]?;
    paint(line, &mut words);
    bitmap.set_row(row, &words);
    Ok(())
}

/// A glyph of two rows.
fn glyph(rt: &impl Abort, alloc: Global) -> Result<BitGlyph, Fail> {
    let frame = Frame {
        left: 0,
        bottom: 0,
        width: 9,
        height: 2,
    };
    let mut bitmap = Bitmap::new(alloc, frame)?;
    set_line(rt, alloc, &mut bitmap, 1, b"#.#######")?;
    set_line(rt, alloc, &mut bitmap, 0, b"........#")?;
    Ok(BitGlyph::of(66, 375, -6, bitmap))
}

/// Its text.
const TEXT: &[u8] =
    b"STARTCHAR uni0042\nENCODING 66\nSWIDTH 375 0\nDWIDTH -6 0\nBBX 9 2 0 0\nBITMAP\nBF80\n0080\nENDCHAR\n";

/// Writes a glyph to a sink, and returns how many bytes it has.
fn send<W: Sink>(rt: &impl Abort, glyph: &BitGlyph, out: &mut W) -> Result<u64, WriteFailed> {
    assert!(rt; out.faults() < 100);
    assert!(rt; glyph.code() <= 0x10FFFF);
    let mut text = TextWriter::new(out);
    write_glyph(glyph, &mut text)?;
    text.end()?;
    Ok(text.taken())
}

/// Whether writing a glyph to a sink with limits returns this, and writes these bytes.
fn sends(
    rt: &impl Abort,
    alloc: Global,
    glyph: &BitGlyph,
    limits: Limits,
    wanted: Result<u64, WriteFailed>,
    text: &[u8],
) -> Result<bool, Fail> {
    let mut out = MemorySink::new(alloc, 100, limits)?;
    let sent = send(rt, glyph, &mut out);
    let faults = if wanted.is_ok() { 0 } else { 1 };
    Ok(sent == wanted && out.faults() == faults && out.bytes() == text)
}

/// Whether a sink that takes one byte a call takes the text, and others exactly the bytes after which they fail.
fn takes_little(rt: &impl Abort, alloc: Global, glyph: &BitGlyph) -> Result<bool, Fail> {
    for bytes in 0..TEXT.len() {
        let limits = Limits {
            bytes,
            ..Limits::NONE
        };
        let wanted = Err(WriteFailed(bytes as u64));
        assert!(rt;
            sends(rt, alloc, glyph, limits, wanted, &TEXT[..bytes])?,
            "{bytes}"
        );
    }
    let slow = Limits {
        step: 1,
        ..Limits::NONE
    };
    sends(rt, alloc, glyph, slow, Ok(TEXT.len() as u64), TEXT)
}

#[test]
fn sinks_that_take_little(rt: HostRuntime) -> Result<(), Fail> {
    let glyph = glyph(&rt, rt.alloc())?;
    assert!(rt; takes_little(&rt, rt.alloc(), &glyph)?);
    Ok(())
}

/// Whether a glyph has two rows, with these pixels and bytes.
fn has_two_rows(glyph: &BitGlyph) -> bool {
    glyph.bounds().height == 2
        && is_upper(&glyph.row(0))
        && is_lower(&glyph.row(1))
        && glyph.bit(0, 1)
        && !glyph.bit(0, 0)
}

/// `#.#######`
fn is_upper(row: &Row<'_>) -> bool {
    row.pixel(0)
        && !row.pixel(1)
        && row.pixel(8)
        && !row.pixel(9)
        && row.byte(0) == 0xBF
        && is_end(row)
}

/// `........#`
fn is_lower(row: &Row<'_>) -> bool {
    !row.pixel(0) && !row.pixel(7) && row.pixel(8) && row.byte(0) == 0 && is_end(row)
}

/// The ninth pixel is set, and none after it.
fn is_end(row: &Row<'_>) -> bool {
    row.byte(1) == 0x80 && row.byte(2) == 0 && row.byte(u32::MAX) == 0 && !row.pixel(u32::MAX)
}

#[test]
fn rows_by_pixels_and_bytes(rt: HostRuntime) -> Result<(), Fail> {
    let glyph = glyph(&rt, rt.alloc())?;
    assert!(rt; has_two_rows(&glyph));
    Ok(())
}

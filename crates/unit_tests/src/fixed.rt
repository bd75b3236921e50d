//! Rounding, directions, numbers as text, sinks and sources.
use fx_fixed::{
    Backward, Digits, F2, FromReader, Limits, MemorySink, MemorySource, Sink, Source, ToSink,
    WriteFailed, cut, near, near_64, near_16384, put_all, put_over, unit, w32,
};
use std::alloc::{AllocError, Global};
use std::io;
use std::io::{Read, Write};
use std::process::Abort;
use std::test::Fail;

#[test]
fn rounds_halves_away_from_zero(rt: HostRuntime) {
    for &(n, d, want) in &[
        (3, 2, 2),
        (-3, 2, -2),
        (3, -2, -2),
        (-5, -3, 2),
        (4, 3, 1),
        (-31, 64, 0),
        (-32, 64, -1),
    ] {
        assert!(rt; near(n, d) == want);
    }
    assert!(rt; near_64(31) == 0 && near_64(32) == 1 && near_64(-32) == -1);
    assert!(rt; near_16384(8191) == 0 && near_16384(8192) == 1 && near_16384(-8192) == -1);
}

#[test]
fn cuts_and_wraps(rt: HostRuntime) {
    assert!(rt; cut(-5, 3) == -1 && cut(5, -3) == -1 && cut(-5, -3) == 1);
    assert!(rt; w32(1 << 31) == i32::MIN);
    assert!(rt; w32(-(1 << 31) - 1) == i32::MAX);
}

#[test]
fn directions(rt: HostRuntime) {
    const LEAST: i32 = i32::MIN;
    for &(x, y, (a, b)) in &[
        (3, 4, (9830, 13107)),
        (1, 4, (3974, 15895)),
        (-1, 4, (-3974, 15895)),
        (0, 0, (16384, 0)),
        (0, LEAST, (0, -16384)),
        (LEAST, 0, (-16384, 0)),
        (LEAST, LEAST, (-11585, -11585)),
    ] {
        assert!(rt; unit(x, y) == (F2(a), F2(b)));
    }
}

/// Whether this is the text of a number.
fn reads(digits: &Digits, text: &[u8]) -> bool {
    digits.text() == text
}

#[test]
fn numbers_as_text(rt: HostRuntime) {
    assert!(rt; reads(&Digits::unsigned(0), b"0"));
    assert!(rt; reads(&Digits::unsigned(u64::MAX), b"18446744073709551615"));
    assert!(rt; reads(&Digits::signed(i32::MIN), b"-2147483648"));
    assert!(rt; reads(&Digits::hexadecimal(0, 2), b"00"));
    assert!(rt; reads(&Digits::hexadecimal(0x2B, 4), b"002B"));
    assert!(rt; reads(&Digits::hexadecimal(0x1F600, 4), b"1F600"));
    assert!(rt; reads(&Digits::hexadecimal(u64::MAX, 4), b"FFFFFFFFFFFFFFFF"));
}

/// Whether this is the text that was put together.
fn holds(text: &Backward, want: &[u8]) -> bool {
    text.text() == want
}

/// Whether parts that are put from the last to the first are their text.
fn is_put_together() -> bool {
    let mut text = Backward::new();
    let empty = holds(&text, b"");
    text.put_signed(i32::MIN, b"\n");
    text.put_signed(7, b" ");
    text.put_unsigned(u64::MAX, b" ");
    text.put_unsigned(0, b"");
    text.put_hexadecimal(0x2B, 4, b" ");
    text.put_hexadecimal(0x10FFFF, 4, b"");
    text.put(b"U+");
    empty && holds(&text, b"U+10FFFF002B 018446744073709551615 7 -2147483648\n")
}

#[test]
fn a_text_from_its_end(rt: HostRuntime) {
    assert!(rt; is_put_together());
}

/// Whether a piece is written over the bytes from an offset on, and no other.
fn writes_over() -> bool {
    let mut bytes = *b"abcdef";
    put_over(&mut bytes, 2, b"XY");
    put_over(&mut bytes, 6, b"");
    bytes == *b"abXYef"
}

#[test]
fn a_piece_over_others(rt: HostRuntime) {
    assert!(rt; writes_over());
}

/// A text of 13 bytes.
const TEXT: &[u8] = b"STARTFONT 2.1";

/// Sends the text in one piece; returns how it went and the faults.
fn send<W: Sink>(rt: &impl Abort, out: &mut W) -> (Result<(), WriteFailed>, u64) {
    assert!(rt; out.faults() < 100);
    let sent = put_all(out, TEXT);
    (sent, out.faults())
}

/// Whether sending to a sink with limits goes like that, and leaves these bytes.
fn sends(
    rt: &impl Abort,
    alloc: Global,
    limits: Limits,
    wanted: (Result<(), WriteFailed>, u64),
    bytes: &[u8],
) -> Result<bool, AllocError> {
    let mut out = MemorySink::new(alloc, 0, limits)?;
    Ok(send(rt, &mut out) == wanted && out.bytes() == bytes)
}

#[test]
fn a_full_sink_holds_the_front(rt: HostRuntime) -> Result<(), Fail> {
    for bytes in 0..13usize {
        let limits = Limits {
            bytes,
            ..Limits::NONE
        };
        let wanted = (Err(WriteFailed(bytes as u64)), 1);
        assert!(rt; sends(&rt, rt.alloc(), limits, wanted, &TEXT[..bytes])?);
    }
    Ok(())
}

#[test]
fn a_slow_sink_takes_all(rt: HostRuntime) -> Result<(), Fail> {
    let limits = Limits {
        step: 1,
        ..Limits::NONE
    };
    assert!(rt; sends(&rt, rt.alloc(), limits, (Ok(()), 0), TEXT)?);
    Ok(())
}

#[test]
fn a_hiccup_is_one_fault(rt: HostRuntime) -> Result<(), Fail> {
    let limits = Limits {
        step: 5,
        hiccup: Some(10),
        ..Limits::NONE
    };
    let mut out = MemorySink::new(rt.alloc(), 23, limits)?;
    assert!(rt; send(&rt, &mut out) == (Err(WriteFailed(10)), 1));
    assert!(rt; send(&rt, &mut out) == (Ok(()), 1));
    Ok(())
}

/// Takes three bytes a call up to ten, and then none.
#[derive(Drop)]
struct Full {
    bytes: usize,
}

impl Write for Full {
    fn write(&mut self, buf: &[u8]) -> io::Result<usize> {
        let n = 10usize.saturating_sub(self.bytes).min(3).min(buf.len());
        self.bytes = self.bytes.saturating_add(n);
        Ok(n)
    }

    fn flush(&mut self) -> io::Result<()> {
        Ok(())
    }
}

#[test]
fn a_writer_that_takes_none_is_at_fault(rt: HostRuntime) -> Result<(), Fail> {
    let mut out = ToSink::new(Full { bytes: 0 });
    assert!(rt; send(&rt, &mut out) == (Err(WriteFailed(10)), 1));
    assert!(rt; send(&rt, &mut out) == (Err(WriteFailed(0)), 2));
    Ok(())
}

/// Fails each time.
#[derive(Drop)]
struct Broken;

impl Read for Broken {
    fn read(&mut self, _buf: &mut [u8]) -> io::Result<usize> {
        Err(io::Error::from(io::ErrorKind::Other))
    }
}

/// Whether a source gives this number of bytes, and has had this number of faults then.
fn gives<S: Source>(
    source: &mut S,
    buffer: &mut [u8; 4],
    bytes: Option<usize>,
    faults: u64,
) -> bool {
    source.faults() < 100 && source.take(buffer) == bytes && source.faults() == faults
}

/// Whether a source that fails after five bytes gives them, three at most a call.
fn gives_five() -> bool {
    let limits = Limits {
        bytes: 5,
        step: 3,
        hiccup: None,
    };
    let mut source = MemorySource::new(b"F1.ttf", limits);
    let mut buffer = [0u8; 4];
    gives(&mut source, &mut buffer, Some(3), 0)
        && gives(&mut source, &mut buffer, Some(2), 0)
        && buffer == *b"tt.\0"
        && gives(&mut source, &mut buffer, None, 1)
}

/// Whether a source without limits gives its two bytes, and then says that it has no more.
fn gives_two() -> bool {
    let mut source = MemorySource::new(b"F1", Limits::NONE);
    let mut buffer = [0u8; 4];
    gives(&mut source, &mut buffer, Some(2), 0) && gives(&mut source, &mut buffer, Some(0), 0)
}

#[test]
fn sources_give_and_fail(rt: HostRuntime) {
    assert!(rt; gives(&mut FromReader::new(Broken), &mut [0u8; 4], None, 1));
    assert!(rt; gives_five() && gives_two());
}

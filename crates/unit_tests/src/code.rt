//! Listings on sinks that take little.
use fx_code::Code;
use fx_fixed::{Limits, MemorySink, Sink, WriteFailed};
use std::alloc::{AllocError, Global};
use std::process::Abort;
use std::test::Fail;

/// Lists a program.
fn send<W: Sink>(rt: &impl Abort, bytes: &[u8], out: &mut W) -> Result<(), WriteFailed> {
    assert!(rt; out.faults() < 100);
    assert!(rt; bytes.len() < 1000);
    Code::new(bytes).listing(out)
}

const PROGRAM: [u8; 7] = [0xB9, 0xFF, 0xFD, 0x00, 0x01, 0xB2, 0x00];

const LISTING: &[u8] = b"0000 B9 PUSHW -3 1\n0005 B2 CUT\n";

/// Whether a sink that fails after a number of bytes takes them, and the whole listing at last.
fn takes(rt: &impl Abort, alloc: Global, bytes: usize) -> Result<bool, AllocError> {
    let limits = Limits {
        bytes,
        ..Limits::NONE
    };
    let mut out = MemorySink::new(alloc, 200, limits)?;
    let sent = send(rt, &PROGRAM, &mut out);
    Ok(sent.is_ok() == (bytes == LISTING.len()) && LISTING.get(..bytes) == Some(out.bytes()))
}

#[test]
fn sinks_that_take_little(rt: HostRuntime) -> Result<(), Fail> {
    for bytes in 0..=LISTING.len() {
        assert!(rt; takes(&rt, rt.alloc(), bytes)?);
    }
    Ok(())
}

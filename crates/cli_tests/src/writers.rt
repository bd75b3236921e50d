//! Writers that fail, and writers that take nothing more.
use crate::fonts::{FONT, STRIKE};
use crate::runs::{End, ends_on, run};
use fx_fixed::{Limits, MemorySink, MemorySource, ToSink};
use std::alloc::Global;
use std::io;
use std::io::Write;
use std::process::Abort;
use std::test::Fail;

/// What is written to a writer that never fails, of a strike, of pictures and of an outline.
const TEXTS: [(&str, &[u8]); 4] = [
    (
        "mkstrike|make|--hex|--ppem=16|--chars=20,41-42|--name=F1|--unhinted",
        STRIKE,
    ),
    (
        "mkstrike|show|--hex|--ppem=16|--char=41|--unhinted",
        b"#####\n#####\n##.##\n#####\n#####\n",
    ),
    ("mkstrike|show|--hex|--ppem=16|--char=20", b"empty\n"),
    (
        "mkstrike|outline|--hex|--ppem=16|--char=42",
        b"0 0 on 0 0\n0 1 off 64 128\n0 2 on 128 0\nadvance 384\n",
    ),
];

/// The writer fails after each number of bytes. Exactly these are written.
#[test]
fn failing_writers(rt: HostRuntime) -> Result<(), Fail> {
    for (arguments, text) in TEXTS {
        for bytes in 0..text.len() {
            let limits = Limits {
                bytes,
                ..Limits::NONE
            };
            let line = format!(in rt.alloc(); "mkstrike: 70 WriteFailed {bytes}\n")?;
            let end = (1, &text[..bytes], line.as_bytes());
            let mut reader = MemorySource::new(FONT, Limits::NONE);
            ends_on(&rt, rt.alloc(), arguments, &mut reader, limits, &end)?;
        }
    }
    Ok(())
}

/// Takes bytes up to a number of them, and then none, without an error.
#[derive(Drop)]
struct Filled {
    bytes: Vec<u8>,
    most: usize,
}

impl Write for Filled {
    fn write(&mut self, buf: &[u8]) -> io::Result<usize> {
        let n = self.most.saturating_sub(self.bytes.len()).min(buf.len());
        match self.bytes.extend_from_slice(&buf[..n]) {
            Ok(()) => Ok(n),
            Err(_) => Err(io::Error::from(io::ErrorKind::OutOfMemory)),
        }
    }

    fn flush(&mut self) -> io::Result<()> {
        Ok(())
    }
}

/// Runs the program with a writer that takes n bytes, and compares what it took and the line on standard error.
fn fills(
    rt: &impl Abort,
    alloc: Global,
    arguments: &str,
    text: &[u8],
    most: usize,
) -> Result<(), Fail> {
    let arguments: Vec<&str> = arguments.split('|').collect(alloc)?;
    let mut reader = MemorySource::new(FONT, Limits::NONE);
    let mut writer = Filled {
        bytes: Vec::new(alloc),
        most,
    };
    let mut out = ToSink::new(&mut writer);
    let mut err = MemorySink::new(alloc, 64, Limits::NONE)?;
    let status = run(alloc, &arguments, &mut reader, &mut out, &mut err)?;
    assert_eq!(rt; status, 1, "{most}");
    assert!(rt; text.get(..most) == Some(writer.bytes.as_slice()), "{most}");
    let line = format!(in alloc; "mkstrike: 70 WriteFailed {most}\n")?;
    assert_eq!(rt; err.bytes(), line.as_bytes());
    Ok(())
}

/// The writer takes none after each number of bytes, and says that all is well.
#[test]
fn writers_that_take_none(rt: HostRuntime) -> Result<(), Fail> {
    for (arguments, text) in TEXTS {
        for most in 0..text.len() {
            fills(&rt, rt.alloc(), arguments, text, most)?;
        }
    }
    Ok(())
}

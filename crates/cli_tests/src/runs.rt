//! Runs of the program in memory.
ghost use Rattle.std.specs.Prelude.{◌<◌, ◌^◌};

use fx_cli::Mkstrike;
use fx_fixed::{Limits, MemorySink, MemorySource, Sink, Source};
use fx_front::Tool;
use fx_words::part;
use std::alloc::{AllocError, Global};
use std::process::Abort;
use std::test::Fail;

/// How a run ends: its status, what it wrote, and its line for people.
pub type End<'a> = (u8, &'a [u8], &'a [u8]);

/// Ends of runs that come often.
pub const USAGE: End<'static> = (2, b"", b"mkstrike: usage\n");

pub const BAD_SIZE: End<'static> = (1, b"", b"mkstrike: 60 BadSize\n");

pub const BAD_CHARS: End<'static> = (1, b"", b"mkstrike: 61 BadChars\n");

pub const READ_FAILED: End<'static> = (1, b"", b"mkstrike: 71 ReadFailed\n");

/// Runs the program on arguments, the program's name first, and returns the status.
pub(crate) fn run<R: Source, O: Sink, E: Sink>(
    alloc: Global,
    arguments: &[&str],
    reader: &mut R,
    out: &mut O,
    err: &mut E,
) -> Result<u8, AllocError>
    requires reader { R.fault_count reader.old < 2 ^ 63 }
    requires out { O.fault_count out.old < 2 ^ 63 }
    requires err { E.fault_count err.old < 2 ^ 63 }
{
    let parts = part(alloc, arguments, false, None, &[])?;
    Ok(Mkstrike::new(alloc).run(alloc, &parts, reader, out, err))
}

/// Runs the program from a source to a sink with limits, and compares how it ends. The arguments are separated by bars, the
/// program's name first.
pub(crate) fn ends_on<R: Source>(
    rt: &impl Abort,
    alloc: Global,
    arguments: &str,
    reader: &mut R,
    limits: Limits,
    end: &End<'_>,
) -> Result<(), Fail>
    requires { R.fault_count reader.old < 2 ^ 63 }
{
    let words: Vec<&str> = arguments.split('|').collect(alloc)?;
    let mut out = MemorySink::new(alloc, 4096, limits)?;
    let mut err = MemorySink::new(alloc, 256, Limits::NONE)?;
    let status = run(alloc, &words, reader, &mut out, &mut err)?;
    assert_eq!(rt; status, end.0, "{arguments}");
    assert!(rt; out.bytes() == end.1, "{arguments}");
    assert!(rt; err.bytes() == end.2, "{arguments}");
    Ok(())
}

/// The same, from an input in memory with limits. Returns the faults of its reader.
pub(crate) fn ends(
    rt: &impl Abort,
    alloc: Global,
    arguments: &str,
    input: &[u8],
    limits: Limits,
    end: &End<'_>,
) -> Result<u64, Fail> {
    let mut reader = MemorySource::new(input, limits);
    ends_on(rt, alloc, arguments, &mut reader, Limits::NONE, end)?;
    Ok(reader.faults())
}

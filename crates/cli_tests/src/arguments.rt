//! Arguments of the first line, and faults in their place.
use crate::fonts::{FONT, STRIKE};
use crate::runs::{BAD_SIZE, USAGE, ends};
use fx_cli::unread;
use fx_fixed::{Limits, MemorySink};
use std::alloc::Global;
use std::io::ErrorKind;
use std::process::Abort;
use std::test::Fail;

/// Without arguments the first line of the input has them.
#[test]
fn given_arguments(rt: HostRuntime) -> Result<(), Fail> {
    let line = b"make --ppem 0 --chars 41";
    ends(&rt, rt.alloc(), "mkstrike", line, Limits::NONE, &BAD_SIZE)?;
    ends(&rt, rt.alloc(), "mkstrike|show", line, Limits::NONE, &USAGE)?;
    Ok(())
}

/// `--all` takes the characters of the font's map, and no list beside it.
#[test]
fn all_characters(rt: HostRuntime) -> Result<(), Fail> {
    let all = "mkstrike|make|--hex|--ppem=16|--all|--name=F1";
    let counts = b"mkstrike: glyphs 3 missing 0 strays 0 steps 0\n";
    ends(
        &rt,
        rt.alloc(),
        all,
        FONT,
        Limits::NONE,
        &(0, STRIKE, counts),
    )?;
    let both = "mkstrike|make|--hex|--ppem=16|--all|--chars=41";
    ends(&rt, rt.alloc(), both, FONT, Limits::NONE, &USAGE)?;
    Ok(())
}

/// What is said of a fault in place of the arguments that the system gives, and the status.
fn unread_says(
    rt: &impl Abort,
    alloc: Global,
    kind: ErrorKind,
    status: u8,
    line: &[u8],
) -> Result<(), Fail> {
    let mut err = MemorySink::new(alloc, 64, Limits::NONE)?;
    assert_eq!(rt; unread(&mut err, kind), status);
    assert_eq!(rt; err.bytes(), line);
    Ok(())
}

#[test]
fn no_arguments_given(rt: HostRuntime) -> Result<(), Fail> {
    let memory = b"mkstrike: 90 OutOfMemory\n";
    unread_says(&rt, rt.alloc(), ErrorKind::OutOfMemory, 1, memory)?;
    unread_says(
        &rt,
        rt.alloc(),
        ErrorKind::InvalidData,
        2,
        b"mkstrike: usage\n",
    )
}

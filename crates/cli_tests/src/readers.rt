//! Readers that fail.
use crate::fonts::fixture;
use crate::runs::{BAD_CHARS, End, READ_FAILED, USAGE, ends};
use fx_fixed::Limits;
use std::alloc::Global;
use std::ops::RangeInclusive;
use std::process::Abort;
use std::test::Fail;

/// Limits of a reader that fails after this number of bytes: for good, and once.
fn broken_after(bytes: usize) -> [Limits; 2] {
    let for_good = Limits {
        bytes,
        step: 3,
        hiccup: None,
    };
    let once = Limits {
        bytes: usize::MAX,
        step: 1,
        hiccup: Some(bytes),
    };
    [for_good, once]
}

/// The reader fails after each of these numbers of bytes. Each run ends so.
fn fails_in(
    rt: &impl Abort,
    alloc: Global,
    arguments: &str,
    input: &[u8],
    after: RangeInclusive<usize>,
    end: &End<'_>,
) -> Result<(), Fail> {
    for bytes in after {
        for limits in broken_after(bytes) {
            ends(rt, alloc, arguments, input, limits, end)?;
        }
    }
    Ok(())
}

/// Arguments, or none and a first line that has them, and an input that is no font.
const INPUTS: [(&str, &[u8]); 2] = [
    (
        "mkstrike",
        b"make --ppem 16 --chars 41 --unhinted\n0001020304",
    ),
    ("mkstrike|make|--ppem|16|--chars|41|--hex", b"0001020304"),
];

/// The reader fails after each number of bytes. Each run is refused with 71.
#[test]
fn failing_readers(rt: HostRuntime) -> Result<(), Fail> {
    for (arguments, input) in INPUTS {
        let to = input.len();
        fails_in(&rt, rt.alloc(), arguments, input, 0..=to, &READ_FAILED)?;
    }
    Ok(())
}

/// Each command, whose arguments are given, or are in the first line of the input.
const COMMANDS: [(&str, &str); 6] = [
    ("mkstrike|make|--ppem|16|--chars|20,41-42", ""),
    ("mkstrike|show|--ppem|16|--char|41", ""),
    ("mkstrike|dump|--of|3", ""),
    ("mkstrike", "make --ppem 16 --chars 20,41-42\n"),
    ("mkstrike", "show --ppem 16 --char 41\n"),
    ("mkstrike", "dump --of 3\n"),
];

/// The same with a font.
#[test]
fn readers_that_fail_in_a_font(rt: HostRuntime) -> Result<(), Fail> {
    let font = fixture(rt.alloc())?;
    for (arguments, line) in COMMANDS {
        let mut input = line.as_bytes().to_vec(rt.alloc())?;
        input.extend_from_slice(&font)?;
        let to = input.len();
        fails_in(&rt, rt.alloc(), arguments, &input, 0..=to, &READ_FAILED)?;
    }
    Ok(())
}

/// First lines that are refused.
const REFUSED_LINES: [(&[u8], usize, End<'static>); 2] = [
    (b"make --ppem 16\nfont", 15, USAGE),
    (b"make --ppem 16 --chars 42-41\nfont", 29, BAD_CHARS),
];

/// A first line that was read whole is looked at before the rest is read: arguments that are not valid are told, and a list that
/// is not.
#[test]
fn readers_that_fail_after_the_first_line(rt: HostRuntime) -> Result<(), Fail> {
    for (input, line, end) in &REFUSED_LINES {
        let to = input.len();
        let within = 0..=line.saturating_sub(1);
        fails_in(&rt, rt.alloc(), "mkstrike", input, within, &READ_FAILED)?;
        fails_in(&rt, rt.alloc(), "mkstrike", input, *line..=to, end)?;
    }
    Ok(())
}

//! Lists of characters.
use fx_arguments::parse_chars;
use fx_cli::Mkstrike;
use fx_front::{Text, Tool};
use fx_request::Refusal;
use std::test::Fail;

/// Lists of characters, and lists that are not valid.
#[test]
fn lists(rt: HostRuntime) -> Result<(), Fail> {
    for (list, want) in [
        ("", [].as_slice()),
        ("20,41-42", [0x20, 0x41, 0x42].as_slice()),
        (
            "41-41,aB,0041,10FFFF",
            [0x41, 0xab, 0x41, 0x10ffff].as_slice(),
        ),
        ("FFFFFE-FFFFFF,0", [0xfffffe, 0xffffff, 0].as_slice()),
    ] {
        let chars = parse_chars(rt.alloc(), list).expect(&rt, list);
        assert_eq!(rt; chars.as_slice(), want, "{list}");
    }
    for (list, want) in [("0-FFFF", 65_536), ("1-FFFF,0", 65_536)] {
        let chars = parse_chars(rt.alloc(), list).expect(&rt, list);
        assert_eq!(rt; chars.len(), want, "{list}");
    }
    for list in [
        ",", "41,", ",41", "41,,42", "42-41", "0000041", "-", "41-", "-41", "41-42-43", "41 ",
        "+41", "G", "\u{e9}", "0-10000", "0-FFFF,0", "0-FFFFFF",
    ] {
        let refused = parse_chars(rt.alloc(), list);
        assert!(rt; matches!(&refused, Err(Refusal::BadChars)), "{list}");
    }
    Ok(())
}

/// What the program says of the first item of a list that is wrong.
#[test]
fn wrong_items(rt: HostRuntime) -> Result<(), Fail> {
    let program = Mkstrike::new(rt.alloc());
    for (list, want) in [
        (
            "41,ascii",
            "'ascii' in the list is no hexadecimal number or range",
        ),
        ("41,", "the list has a comma too many"),
        (
            "41,0x41,g",
            "'0x41' in the list is no hexadecimal number or range, but 41 is",
        ),
        (
            "0000041",
            "'0000041' in the list has a number of more than six digits",
        ),
        (
            "41-0000042",
            "'41-0000042' in the list has a number of more than six digits",
        ),
        ("43,42-41", "'42-41' in the list ends before it begins"),
        ("10ffff,110000", "'110000' in the list is above 10FFFF"),
        ("20-7e,a0", "the list has more than 65,536 numbers"),
        ("0-10ffff", "the list has more than 65,536 numbers"),
        ("", "the list has more than 65,536 numbers"),
    ] {
        let mut said = Text::new(rt.alloc());
        program.add_wrong_item(&mut said, list);
        assert_eq!(rt; said.bytes().unwrap_or(b""), want.as_bytes(), "{list}");
    }
    Ok(())
}

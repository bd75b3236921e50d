//! Characters and strikes that one striker makes, one after the other.
use crate::fonts::{READING, ROUNDED, STORING, fixture, font};
use crate::strikes::{HINTED, UNHINTED, named, request};
use crate::surveys::OfWideFrames;
use crate::tables::{NO_TABLES, Tables, with_tables};
use fx_fixed::{Limits, MemorySink};
use fx_request::{Refusal, Request};
use fx_rows::Rows;
use fx_sfnt::FontFile;
use fx_strike::{Striker, make_strike, survey};
use std::alloc::{AllocError, Global};
use std::test::Fail;

/// The box of a character's glyph: its width and height, its left column and its lowest row; none if the font lacks it.
fn box_of(
    striker: &mut Striker<'_, Rows>,
    code: u32,
) -> Result<Option<(u32, u32, i32, i32)>, Refusal> {
    let glyph = striker.glyph(code)?;
    Ok(glyph.as_ref().map(|glyph| glyph.bbox()))
}

/// A hinted request for one character at 16 pixels an em.
fn hinted(chars: &[u32]) -> Request<'_> {
    Request {
        mode: HINTED,
        ..request(16, chars)
    }
}

/// Whether the striker writes the strike of a character as `make_strike` does, and with the same counts or the same refusal.
fn writes_as_alone(
    alloc: Global,
    striker: &mut Striker<'_, Rows>,
    font: &[u8],
    code: u32,
) -> Result<bool, AllocError> {
    let chars = [code];
    let mut alone = MemorySink::new(alloc, 1024, Limits::NONE)?;
    let due = make_strike(alloc, &FontFile::of(font), &hinted(&chars), &mut alone);
    let mut out = MemorySink::new(alloc, 1024, Limits::NONE)?;
    let told = striker.write(&named("F1"), &chars, &mut out);
    Ok(told == due && out.bytes() == alone.bytes())
}

/// A ring whose program stores, and an arc whose program reads it.
fn of_storing(alloc: Global) -> Result<Vec<u8>, Fail> {
    let base = font(alloc, STORING, READING)?;
    let tables = Tables {
        cvt: "0000",
        ..NO_TABLES
    };
    with_tables(alloc, base.as_slice(), &tables)
}

/// The same of the characters of such a font, in an order that is not theirs and each twice.
fn twice_as_alone(
    alloc: Global,
    striker: &mut Striker<'_, Rows>,
    font: &[u8],
) -> Result<bool, AllocError> {
    for code in [0x42, 0x41, 0x42, 0x21, 0x41, 0x21] {
        let same = writes_as_alone(alloc, striker, font, code)?;
        if !same || box_of(striker, 0x42) != Ok(Some((2, 1, 0, 0))) {
            return Ok(false);
        }
    }
    Ok(box_of(striker, 0x21) == Ok(None))
}

/// What one character's program stores is gone when that of the next begins.
#[test]
fn characters_in_any_order(rt: HostRuntime) -> Result<(), Fail> {
    let font = of_storing(rt.alloc())?;
    let mut striker = Striker::open(rt.alloc(), &FontFile::of(font.as_slice()), 16, HINTED)?;
    assert!(rt; twice_as_alone(rt.alloc(), &mut striker, font.as_slice())?);
    Ok(())
}

/// An arc whose program divides by zero.
const DIVIDING: &str = "0001 0000 0000 0080 0080 0002 0004 B1 01 00 62 31 36 17 40 40 80 80 00";

/// The number of the refusal of a character.
fn refused_number(striker: &mut Striker<'_, Rows>, code: u32) -> Option<u8> {
    box_of(striker, code).err().map(|refusal| refusal.number())
}

/// The square is two pixels wide only if its program runs; it does after a refusal too.
fn refuses(striker: &mut Striker<'_, Rows>) -> bool {
    box_of(striker, 0x41) == Ok(Some((2, 1, 0, 0))) && refused_number(striker, 0x42) == Some(38)
}

#[test]
fn a_refusal_leaves_the_striker(rt: HostRuntime) -> Result<(), Fail> {
    let font = font(rt.alloc(), ROUNDED, DIVIDING)?;
    let mut striker = Striker::open(rt.alloc(), &FontFile::of(font.as_slice()), 16, HINTED)?;
    assert!(rt; refuses(&mut striker) && refuses(&mut striker));
    assert!(rt; writes_as_alone(rt.alloc(), &mut striker, font.as_slice(), 0x42)?);
    Ok(())
}

/// The number of the refusal of a font that is opened at a size for a character.
fn refused_for(alloc: Global, font: &[u8], ppem: u16, code: u32) -> Option<u8> {
    match Striker::open_for(alloc, &FontFile::of(font), ppem, &[code], HINTED) {
        Ok(_striker) => None,
        Err(refusal) => Some(refusal.number()),
    }
}

/// The size is checked before the characters, and both before the font.
#[test]
fn fonts_that_do_not_open_for_characters(rt: HostRuntime) -> Result<(), Fail> {
    let font = fixture(rt.alloc())?;
    assert!(rt; refused_for(rt.alloc(), font.as_slice(), 16, 0x41).is_none());
    for (ppem, code, number) in [(16, 0x41, 10), (16, 0x11_0000, 61), (0, 0x11_0000, 60)] {
        assert!(rt; refused_for(rt.alloc(), &[], ppem, code) == Some(number));
    }
    Ok(())
}

/// Whether nothing is written of the characters of a strike without a name, for this cause.
fn writes_none(
    alloc: Global,
    striker: &mut Striker<'_, Rows>,
    code: u32,
    cause: Refusal,
) -> Result<bool, AllocError> {
    let mut out = MemorySink::new(alloc, 1024, Limits::NONE)?;
    let result = striker.write(&named(""), &[code], &mut out);
    Ok(result == Err(cause) && out.bytes().is_empty())
}

/// Whether a character past the last is refused, and then a name that is empty.
fn refuses_characters_and_names(
    alloc: Global,
    striker: &mut Striker<'_, Rows>,
) -> Result<bool, AllocError> {
    Ok(
        box_of(striker, 0x110000) == Err(Refusal::BadChars)
            && striker.survey(&[0x41, 0x110000]) == Err(Refusal::BadChars)
            && writes_none(alloc, striker, 0x110000, Refusal::BadChars)?
            && writes_none(alloc, striker, 0x41, Refusal::BadName)?,
    )
}

#[test]
fn sizes_characters_and_names(rt: HostRuntime) -> Result<(), Fail> {
    let font = fixture(rt.alloc())?;
    let small = Striker::open(rt.alloc(), &FontFile::of(font.as_slice()), 0, UNHINTED).err();
    assert!(rt; small == Some(Refusal::BadSize));
    let mut striker = Striker::open(rt.alloc(), &FontFile::of(font.as_slice()), 16, UNHINTED)?;
    assert!(rt; refuses_characters_and_names(rt.alloc(), &mut striker)?);
    Ok(())
}

/// Whether a survey by a striker is that of a request, once and again.
fn surveys_as_alone(alloc: Global, striker: &mut Striker<'_, Rows>, font: &[u8]) -> bool {
    let chars = [0x42, 0x41, 0x21, 0x41];
    let due = survey(alloc, &Rows, &FontFile::of(font), &hinted(&chars));
    striker.survey(&chars) == due && striker.survey(&chars) == due
}

#[test]
fn surveys_by_a_striker(rt: HostRuntime) -> Result<(), Fail> {
    let font = fixture(rt.alloc())?;
    let mut striker = Striker::open(rt.alloc(), &FontFile::of(font.as_slice()), 16, HINTED)?;
    assert!(rt; surveys_as_alone(rt.alloc(), &mut striker, font.as_slice()));
    Ok(())
}

/// With another scan it is that scan that is asked.
#[test]
fn a_striker_asks_its_scan(rt: HostRuntime) -> Result<(), Fail> {
    let font = fixture(rt.alloc())?;
    let striker = Striker::open(rt.alloc(), &FontFile::of(font.as_slice()), 16, UNHINTED)?;
    let mut striker = striker.with_scan(&OfWideFrames);
    assert!(rt; striker.survey(&[0x42]) == Err(Refusal::OutOfMemory));
    Ok(())
}

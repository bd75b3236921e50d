//! The fixture font, complete and with parts replaced.
use hex;
use std::alloc::Global;
use std::test::Fail;

/// The first 312 bytes of the fixture font, which has 1024 units an em, four glyphs, and the characters 20, 41 and 42: its
/// directory, `head`, `maxp`, `hhea`, `hmtx` and `cmap`. Glyphs 0 and 1 are empty.
pub const FRONT: &str = "
    00010000 0007 0040 0002 0030
    636d6170 00000000 00000104 00000034
    676c7966 00000000 00000144 0000003a
    68656164 00000000 0000007c 00000036
    68686561 00000000 000000d4 00000024
    686d7478 00000000 000000f8 0000000c
    6c6f6361 00000000 00000138 0000000a
    6d617870 00000000 000000b4 00000020
    00010000 00000000 00000000 5f0f3cf5 0000 0400
    00000000 00000000 00000000 00000000 00000000
    00000000 00000000 00000000 00000000
    00010000 0004 0000 0000 0000 0000 0000 0001 0001
    0000 0000 0000 0000 0000 0000
    00010000 0320 ff20 0000 00000000 00000000 00000000
    00000000 00000000 00000000 0002
    0100 0000 0180 0000 0000 0000
    0000 0001 0003 0001 0000000c
    0004 0028 0000 0006 0004 0001 0002
    0020 0042 ffff 0000 0020 0041 ffff
    ffe1 ffc1 0001 0000 0000 0000
";

/// Its glyph 2: a ring, which is two squares of which the inner goes the other way.
pub const RING: &str = "0002 0000 0000 0140 0140 0003 0007 0000
    31 21 11 21 17 35 33 15 0140 fec0 60 80 0140 e0 80 80 00";

/// Its glyph 3: an arc over its chord.
pub const ARC: &str = "0001 0000 0000 0080 0080 0002 0000 31 36 17 40 40 80 80 00";

/// The ring with a program that stores 64 in cell 0 of the storage area and in control value 0, and moves twilight point 0 by 64.
pub const STORING: &str =
    "0002 0000 0000 0140 0140 0003 0007 000F B1 00 40 42 B1 00 40 44 B0 00 16 B1 00 40 3A
    31 21 11 21 17 35 33 15 0140 fec0 60 80 0140 e0 80 80 00";

/// The arc with a program that shifts point 1 by what cell 0 holds.
pub const READING: &str =
    "0001 0000 0000 0080 0080 0002 0005 B1 01 00 43 38 31 36 17 40 40 80 80 00";

/// A square of 90 units whose program rounds the right side up to the grid: it is 128 wide, and else 90.
pub const ROUNDED: &str =
    "0001 0000 0000 005a 005a 0003 0007 7C B1 01 00 2E 2F 31 31 33 35 23 5a 5a 5a";

/// The bytes of hexadecimal text; white space separates them.
pub fn bytes(alloc: Global, text: &str) -> Result<Vec<u8>, Fail> {
    let mut digits = Vec::new(alloc);
    for &byte in text.as_bytes() {
        if !byte.is_ascii_whitespace() {
            digits.push(byte)?;
        }
    }
    Ok(hex::decode(alloc, digits.as_slice())?)
}

/// Adds a glyph to `glyf`, and its end to `loca`.
fn add_glyph(
    alloc: Global,
    text: &str,
    glyf: &mut Vec<u8>,
    loca: &mut Vec<u8>,
) -> Result<(), Fail> {
    glyf.extend_from_slice(bytes(alloc, text)?.as_slice())?;
    if glyf.len() % 2 == 1 {
        glyf.push(0)?;
    }
    let half = u16::try_from(glyf.len() / 2)?;
    loca.extend_from_slice(&half.to_be_bytes())?;
    Ok(())
}

/// The fixture font with other tables `loca` and `glyf`; the length of `glyf` is made anew.
fn assembled(alloc: Global, loca: &[u8], glyf: &[u8]) -> Result<Vec<u8>, Fail> {
    let length = u32::try_from(glyf.len())?;
    let mut font = bytes(alloc, FRONT)?;
    patch(&mut font, 40, &length.to_be_bytes())?;
    font.extend_from_slice(loca)?;
    font.extend_from_slice(glyf)?;
    Ok(font)
}

/// The fixture font with other glyphs 2 and 3.
pub fn font(alloc: Global, second: &str, third: &str) -> Result<Vec<u8>, Fail> {
    let mut glyf = Vec::new(alloc);
    let mut loca = bytes(alloc, "0000 0000 0000")?;
    add_glyph(alloc, second, &mut glyf, &mut loca)?;
    add_glyph(alloc, third, &mut glyf, &mut loca)?;
    loca.extend_from_slice(&[0, 0])?;
    assembled(alloc, loca.as_slice(), glyf.as_slice())
}

/// The fixture font unchanged, of 382 bytes.
pub fn fixture(alloc: Global) -> Result<Vec<u8>, Fail> {
    font(alloc, RING, ARC)
}

/// Puts other bytes at a place of a font.
pub fn patch(font: &mut Vec<u8>, at: usize, new: &[u8]) -> Result<(), Fail> {
    for (i, &byte) in new.iter().enumerate() {
        let place = at.saturating_add(i);
        let old = font
            .get_mut(place)
            .ok_or("the place lies outside the font")?;
        *old = byte;
    }
    Ok(())
}

/// The strike of the fixture's three characters at 16 pixels an em, of 399 bytes.
pub const STRIKE: &str = "\
STARTFONT 2.1\n\
FONT F1\n\
SIZE 16 72 72\n\
FONTBOUNDINGBOX 5 5 0 0\n\
STARTPROPERTIES 2\n\
FONT_ASCENT 13\n\
FONT_DESCENT 4\n\
ENDPROPERTIES\n\
CHARS 3\n\
STARTCHAR uni0020\n\
ENCODING 32\n\
SWIDTH 375 0\n\
DWIDTH 6 0\n\
BBX 0 0 0 0\n\
BITMAP\n\
ENDCHAR\n\
STARTCHAR uni0041\n\
ENCODING 65\n\
SWIDTH 375 0\n\
DWIDTH 6 0\n\
BBX 5 5 0 0\n\
BITMAP\n\
F8\n\
F8\n\
D8\n\
F8\n\
F8\n\
ENDCHAR\n\
STARTCHAR uni0042\n\
ENCODING 66\n\
SWIDTH 375 0\n\
DWIDTH 6 0\n\
BBX 2 1 0 0\n\
BITMAP\n\
C0\n\
ENDCHAR\n\
ENDFONT\n";

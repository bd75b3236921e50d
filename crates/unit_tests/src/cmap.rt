//! Characters looked up in maps of formats 4 and 12.
use fx_cmap::CharMap;
use fx_sfnt::{Font, FontFile};
use std::alloc::Global;
use std::test::Fail;

/// A font of one empty glyph, up to its last table, `cmap`, which ends where the file does.
const FRONT: &[u8] = b"\0\x01\0\0\0\x07\0\0\0\0\0\0\
    cmap\0\0\0\0\0\0\0\xFE\0\0\xFF\xFF\
    glyf\0\0\0\0\0\0\0\xFE\0\0\0\0\
    head\0\0\0\0\0\0\0\x7C\0\0\0\x36\
    hhea\0\0\0\0\0\0\0\xD2\0\0\0\x24\
    hmtx\0\0\0\0\0\0\0\xF6\0\0\0\x04\
    loca\0\0\0\0\0\0\0\xFA\0\0\0\x04\
    maxp\0\0\0\0\0\0\0\xB2\0\0\0\x20\
    \0\x01\0\0\0\0\0\0\0\0\0\0\x5F\x0F\x3C\xF5\0\0\x04\0\
    \0\0\0\0\0\0\0\0\0\0\0\0\0\0\0\0\0\0\0\0\0\0\0\0\0\0\0\0\0\0\0\0\0\0\
    \0\x01\0\0\0\x01\0\0\0\0\0\0\0\0\0\0\0\0\0\0\0\0\0\0\0\0\0\0\0\0\0\0\
    \0\x01\0\0\0\0\0\0\0\0\0\0\0\0\0\0\0\0\0\0\0\0\0\0\0\0\0\0\0\0\0\0\0\0\0\x01\
    \0\0\0\0\0\0\0\0";

/// Whether codes have these glyph ids, looked up by a map and by one cursor of it.
fn has(map: &CharMap, rows: &[(u32, u16)]) -> bool {
    let mut cursor = map.cursor();
    for &(code, glyph) in rows {
        if map.glyph(code) != glyph || cursor.glyph(code) != glyph {
            return false;
        }
    }
    true
}

/// The same in the map of a font.
fn has_in(file: &[u8], rows: &[(u32, u16)]) -> Result<bool, Fail> {
    let font = Font::open(&FontFile::of(file))?;
    Ok(has(&CharMap::open(&font)?, rows))
}

/// The same in the map of these bytes of `cmap`.
fn finds(alloc: Global, cmap: &[u8], rows: &[(u32, u16)]) -> Result<bool, Fail> {
    let mut file = Vec::from_slice(alloc, FRONT)?;
    file.extend_from_slice(cmap)?;
    has_in(file.as_slice(), rows)
}

/// Two segments: 41 to 42 by the glyph ids 7 and 0, and the last one.
const TWO: &[u8] = &[
    0, 0, 0, 1, 0, 3, 0, 1, 0, 0, 0, 12, // header, and the record for Windows with Unicode
    0, 4, 0, 0x24, 0, 0, 0, 4, 0, 0, 0, 0, 0, 0, // format 4 with two segments
    0, 0x42, 0xFF, 0xFF, 0, 0, 0, 0x41, 0xFF, 0xFF, // end codes, two bytes unused, start codes
    0, 5, 0, 1, 0, 4, 0, 0, 0, 7, 0, 0, // deltas, range offsets, glyph ids
];

/// Two groups, for Windows with all of Unicode: 41 to 42 from glyph 2 on, and 1F600.
const GROUPS: &[u8] = &[
    0, 0, 0, 1, 0, 3, 0, 10, 0, 0, 0, 12, // header, and the record for Windows with all of Unicode
    0, 12, 0, 0, 0, 0, 0, 0x28, 0, 0, 0, 0, 0, 0, 0, 2, // format 12 with two groups
    0, 0, 0, 0x41, 0, 0, 0, 0x42, 0, 0, 0, 2, // the first group
    0, 1, 0xF6, 0, 0, 1, 0xF6, 0, 0, 0, 0, 3, // the second group
];

/// Codes that rise, and then fall, of the two segments.
const SEGMENT_CODES: [(u32, u16); 11] = [
    (0x40, 0),
    (0x41, 12),
    (0x42, 0),
    (0x43, 0),
    (0xFFFF, 0),
    (0x1_0041, 0),
    (0xFFFF, 0),
    (0x41, 12),
    (0x40, 0),
    (0x1_0041, 0),
    (0x41, 12),
];

/// Codes that rise, and then fall, of the two groups.
const GROUP_CODES: [(u32, u16); 9] = [
    (0x40, 0),
    (0x41, 2),
    (0x42, 3),
    (0x43, 0),
    (0x1_F5FF, 0),
    (0x1_F600, 3),
    (0x1_F601, 0),
    (0x41, 2),
    (0x40, 0),
];

/// Segments, groups, and a glyph id past the end of the table, which is no glyph.
#[test]
fn codes_in_any_order(rt: HostRuntime) -> Result<(), Fail> {
    assert!(rt; finds(rt.alloc(), TWO, &SEGMENT_CODES)?);
    assert!(rt; finds(rt.alloc(), GROUPS, &GROUP_CODES)?);
    assert!(rt; finds(rt.alloc(), &TWO[..44], &[(0x41, 0)])?);
    Ok(())
}

//! The drop-out control that glyphs come with: what `prep` asked for, or a glyph's own program.
use crate::fonts::{ARC, bytes, font};
use crate::tables::{NO_TABLES, Tables, with_tables};
use crate::worked::machine;
use fx_fixed::Ppem;
use fx_gstate::ScanType;
use fx_hint::{HintFault, outline};
use fx_machine::Machine;
use fx_sfnt::{Font, FontFile};
use std::alloc::Global;
use std::test::Fail;

/// An outline of three points with a program.
fn arc_with(alloc: Global, program: &str) -> Result<String, Fail> {
    let count = bytes(alloc, program)?.len();
    Ok(format!(in alloc;
        "0001 0000 0000 0080 0080 0002 {count:04x} {program} 31 36 17 40 40 80 80 00"
    )?)
}

/// A composite of glyph 3, without a program and with one of three bytes.
const PLAIN: &str = "ffff 0000 0000 0080 0080 0002 0003 00 00";

const WITH_TYPE_2: &str = "ffff 0000 0000 0080 0080 0102 0003 00 00 0003 B0 02 8D";

/// The font of a `prep`, with these glyphs 2 and 3.
fn with_prep(
    alloc: Global,
    prep: &'static str,
    second: &str,
    third: &str,
) -> Result<Vec<u8>, Fail> {
    let base = font(alloc, second, third)?;
    with_tables(alloc, base.as_slice(), &Tables { prep, ..NO_TABLES })
}

/// What a glyph comes with, made by a machine of its font and size.
fn wish(
    alloc: Global,
    machine: &mut Machine<'_>,
    glyph: u16,
) -> Result<Option<ScanType>, HintFault> {
    let made = outline(alloc, &machine.font(), machine.ppem(), Some(machine), glyph)?;
    Ok(made.wish)
}

/// Whether glyphs 3, 2 and 3 again come with these.
fn come_with(
    alloc: Global,
    machine: &mut Machine<'_>,
    wanted: [Option<ScanType>; 3],
) -> Result<bool, HintFault> {
    let [first, second, again] = wanted;
    for (glyph, wanted) in [(3, first), (2, second), (3, again)] {
        if wish(alloc, machine, glyph)? != wanted {
            return Ok(false);
        }
    }
    Ok(true)
}

/// The same of the glyphs of a font, at a size, with hinting on.
fn glyphs_come_with(
    alloc: Global,
    file: &[u8],
    pixels: u16,
    wanted: [Option<ScanType>; 3],
) -> Result<bool, Fail> {
    let mut machine = machine(alloc, file, pixels)?;
    Ok(come_with(alloc, &mut machine, wanted)?)
}

/// Drop-out control at all sizes, of type 4; and up to 16 pixels an em, of type 0.
const SMART: &str = "B8 01FF 85 B0 04 8D";

const UP_TO_16: &str = "B8 0110 85";

/// Programs of `prep` and of glyph 3, glyph 2, a size, and what glyphs 3, 2 and 3 again come with.
const WISHES: [(&str, &str, &str, u16, [Option<ScanType>; 3]); 12] = [
    // Nothing was asked; a type alone asks for nothing.
    ("", PLAIN, "", 16, [None, None, None]),
    ("B0 04 8D", PLAIN, "", 16, [None, None, None]),
    // Glyphs without a program take what `prep` left.
    (SMART, PLAIN, "", 16, [Some(ScanType::Nearest); 3]),
    (UP_TO_16, PLAIN, "", 15, [Some(ScanType::Leftmost); 3]),
    (UP_TO_16, PLAIN, "", 16, [Some(ScanType::Leftmost); 3]),
    (UP_TO_16, PLAIN, "", 17, [Some(ScanType::Off); 3]),
    // A glyph's program changes its own copy: not that of a composite, nor that of the glyph after it.
    (
        SMART,
        PLAIN,
        "B0 01 8D",
        16,
        [
            Some(ScanType::Leftmost),
            Some(ScanType::Nearest),
            Some(ScanType::Leftmost),
        ],
    ),
    (
        SMART,
        PLAIN,
        "B0 00 85",
        16,
        [
            Some(ScanType::Off),
            Some(ScanType::Nearest),
            Some(ScanType::Off),
        ],
    ),
    // Type 0 is the default of a program that turns it on.
    (
        "",
        PLAIN,
        "B8 01FF 85",
        16,
        [Some(ScanType::Leftmost), None, Some(ScanType::Leftmost)],
    ),
    // A composite's own program counts.
    (
        SMART,
        WITH_TYPE_2,
        "",
        16,
        [
            Some(ScanType::Nearest),
            Some(ScanType::Off),
            Some(ScanType::Nearest),
        ],
    ),
    // INSTCTRL: no program of a glyph runs; all start from the default state.
    (
        "B8 01FF 85 B0 04 8D B1 01 01 8E",
        WITH_TYPE_2,
        "B0 01 8D",
        16,
        [Some(ScanType::Nearest); 3],
    ),
    (
        "B8 01FF 85 B0 04 8D B1 01 02 8E",
        WITH_TYPE_2,
        "B0 01 8D",
        16,
        [None, None, None],
    ),
];

#[test]
fn what_glyphs_ask_for(rt: HostRuntime) -> Result<(), Fail> {
    for (prep, second, program, pixels, want) in WISHES {
        let third = arc_with(rt.alloc(), program)?;
        let file = with_prep(rt.alloc(), prep, second, third.as_str())?;
        assert!(rt;
            glyphs_come_with(rt.alloc(), file.as_slice(), pixels, want)?,
            "{prep} / {program}"
        );
    }
    Ok(())
}

#[test]
fn unhinted_glyphs_ask_for_nothing(rt: HostRuntime) -> Result<(), Fail> {
    let file = with_prep(rt.alloc(), SMART, PLAIN, ARC)?;
    let font = Font::open(&FontFile::of(file.as_slice()))?;
    let ppem = Ppem::new(16).ok_or("no size")?;
    let made = outline(rt.alloc(), &font, ppem, None, 3)?;
    assert!(rt; made.wish.is_none());
    Ok(())
}

/// What `prep` left asked for, by the machine of a block of a font at 16 pixels an em.
fn wish_of_block(
    alloc: Global,
    font: Font<'_>,
    block: &[u32],
) -> Result<Option<Option<ScanType>>, Fail> {
    let ppem = Ppem::new(16).ok_or("no size")?;
    let Some(machine) = Machine::of_block(alloc, font, ppem, block)? else {
        return Ok(None);
    };
    Ok(Some(machine.wish()))
}

/// Whether a machine's block keeps what `prep` left asked for, and one of the form before is none.
fn block_keeps(alloc: Global, machine: &Machine<'_>, want: Option<ScanType>) -> Result<bool, Fail> {
    let mut block = machine.block(alloc)?.ok_or("no block")?;
    let kept = wish_of_block(alloc, machine.font(), block.as_slice())?;
    block[0] = 0x6D6B_7301;
    let former = wish_of_block(alloc, machine.font(), block.as_slice())?;
    Ok(kept == Some(want) && former.is_none())
}

/// The same of a font at 16 pixels an em.
fn blocks_keep(alloc: Global, file: &[u8], want: Option<ScanType>) -> Result<bool, Fail> {
    let machine = machine(alloc, file, 16)?;
    block_keeps(alloc, &machine, want)
}

#[test]
fn blocks_keep_what_is_asked_for(rt: HostRuntime) -> Result<(), Fail> {
    for (prep, want) in [
        ("", None),
        ("B0 00 85", Some(ScanType::Off)),
        (UP_TO_16, Some(ScanType::Leftmost)),
        (SMART, Some(ScanType::Nearest)),
    ] {
        let file = with_prep(rt.alloc(), prep, PLAIN, ARC)?;
        assert!(rt; blocks_keep(rt.alloc(), file.as_slice(), want)?, "{prep}");
    }
    Ok(())
}

//! The fixture font as hexadecimal text, and with other bytes at a place.
use hex;
use std::alloc::Global;
use std::test::Fail;

/// A font as hexadecimal text. It has a space, A and B.
pub const FONT: &[u8] =
    b"00010000 00070040 00020030 636d6170 00000000 00000104 00000034 676c7966 00000000 00000144 0000003a 68656164 \
    00000000 0000007c 00000036 68686561 00000000 000000d4 00000024 686d7478 00000000 000000f8 0000000c 6c6f6361 \
    00000000 00000138 0000000a 6d617870 00000000 000000b4 00000020 00010000 00000000 00000000 5f0f3cf5 00000400 \
    00000000 00000000 00000000 00000000 00000000 00000000 00000000 00000000 00000000 00010000 00040000 00000000 \
    00000000 00010001 00000000 00000000 00000000 00010000 0320ff20 00000000 00000000 00000000 00000000 00000000 \
    00000000 00000002 01000000 01800000 00000000 00000001 00030001 0000000c 00040028 00000006 00040001 00020020 \
    0042ffff 00000020 0041ffff ffe1ffc1 00010000 00000000 00000000 00000012 001d0000 00020000 00000140 01400003 \
    00070000 31211121 17353315 0140fec0 60800140 e0808000 00010000 00000080 00800002 00003136 17404080 8000";

/// The strike of its three characters at 16 pixels.
pub const STRIKE: &[u8] =
    b"STARTFONT 2.1\nFONT F1\nSIZE 16 72 72\nFONTBOUNDINGBOX 5 5 0 0\nSTARTPROPERTIES 2\nFONT_ASCENT 13\n\
    FONT_DESCENT 4\nENDPROPERTIES\nCHARS 3\nSTARTCHAR uni0020\nENCODING 32\nSWIDTH 375 0\nDWIDTH 6 0\n\
    BBX 0 0 0 0\nBITMAP\nENDCHAR\nSTARTCHAR uni0041\nENCODING 65\nSWIDTH 375 0\nDWIDTH 6 0\n\
    BBX 5 5 0 0\nBITMAP\nF8\nF8\nD8\nF8\nF8\nENDCHAR\nSTARTCHAR uni0042\nENCODING 66\nSWIDTH 375 0\n\
    DWIDTH 6 0\nBBX 2 1 0 0\nBITMAP\nC0\nENDCHAR\nENDFONT\n";

/// This font, of 382 bytes.
pub(crate) fn fixture(alloc: Global) -> Result<Vec<u8>, Fail> {
    let mut digits = Vec::new(alloc);
    for &byte in FONT {
        if byte != b' ' {
            digits.push(byte)?;
        }
    }
    Ok(hex::decode(alloc, digits.as_slice())?)
}

/// Puts other bytes at a place of a font.
pub(crate) fn patch(font: &mut Vec<u8>, at: usize, new: &[u8]) -> Result<(), Fail> {
    for (i, &byte) in new.iter().enumerate() {
        let place = at.saturating_add(i);
        let old = font
            .get_mut(place)
            .ok_or("the place lies outside the font")?;
        *old = byte;
    }
    Ok(())
}

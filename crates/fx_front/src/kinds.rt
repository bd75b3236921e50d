//! What kind of file it is, by its first bytes.
ghost use Rattle.std.specs.Prelude.{◌≡◌};
ghost use Rattle.std.specs.List.{list_all};
ghost use Rattle.fx_words.specs.Parts.{text_in};
ghost use Rattle.fx_words.specs.Sets.{rows_of};
ghost use Rattle.fx_front.specs.Kinds.{is_hexadecimal, kind_among, kind_of, known_kind};

/// The first bytes of files that are no TrueType font, and what to do with each. The first row that fits counts. docs/REFUSALS.md
/// has the same rows.
const KINDS: [(&[u8], &str); 17] = [
    (
        b"OTTO",
        "the file looks like an OpenType font with CFF outlines, which is not read: give a TrueType font, or convert it: \
         strike of the package python3-mkstrike does so",
    ),
    (
        b"ttcf",
        "the file looks like a collection of fonts: it is truncated, or this face is not a TrueType font; --face chooses another",
    ),
    (
        b"wOFF",
        "the file looks like a WOFF font, which is not read: unpack it to a .ttf file first",
    ),
    (
        b"wOF2",
        "the file looks like a WOFF2 font, which is not read: unpack it to a .ttf file first",
    ),
    (
        b"\x1f\x8b",
        "the file looks like gzip data: unpack it first, with gunzip",
    ),
    (
        b"PK\x03\x04",
        "the file looks like a zip archive: unpack it first",
    ),
    (b"%PDF", "the file looks like a PDF: give a TrueType font"),
    (
        b"STARTFON",
        "the file looks like a BDF font: it is a bitmap font already",
    ),
    (
        b"\x80\x01",
        "the file looks like a Type 1 font, which is not read: give a TrueType font",
    ),
    (
        b"%!PS",
        "the file looks like a Type 1 font, which is not read: give a TrueType font",
    ),
    (
        b"\x01fcp",
        "the file looks like a PCF font: it is a bitmap font already; pcf2bdf and FontForge convert it to BDF",
    ),
    (
        b"version ",
        "the file is a Git LFS pointer: run git lfs pull to get the font",
    ),
    (
        b"<",
        "the file looks like a web page or XML: give a TrueType font",
    ),
    (
        b"\x00\x00\x01\x00\x00",
        "the file looks like a Macintosh font (.dfont): extract the .ttf with FontForge or fondu",
    ),
    (
        b"\x89PNG",
        "the file looks like a PNG picture: give a TrueType font",
    ),
    (
        b"\x00\x01\x00\x00",
        "the file begins like a TrueType font, but is shorter than its directory: it is truncated",
    ),
    (
        b"true",
        "the file begins like a TrueType font, but is shorter than its directory: it is truncated",
    ),
];

/// What a file that is no TrueType font looks like, by its first bytes, and what to do.
#[tactic(auto, unfolding(crate::specs::Kinds::known_kind))]
pub(crate) fn known_kind(start: &[u8]) -> Option<&'static str>
    ensures { text_in result ≡ known_kind start.now }
{
    kind_of(&KINDS, start)
}

/// The same by such a table.
fn kind_of(rows: &[(&'static [u8], &'static str)], start: &[u8]) -> Option<&'static str>
    ensures { text_in result ≡ kind_of (rows_of rows.now) start.now }
{
    if start.is_empty() {
        return Some("the file is empty: give a TrueType font");
    }
    match kind_among(rows, start) {
        None if looks_hexadecimal(start) => {
            Some("the file may be hexadecimal text: if so, add --hex")
        }
        kind => kind,
    }
}

/// The advice in the first row whose bytes begin these.
pub(crate) fn kind_among(
    rows: &[(&'static [u8], &'static str)],
    start: &[u8],
) -> Option<&'static str>
    ensures { text_in result ≡ kind_among (rows_of rows.now) start.now }
{
    // No row so far fits.
    'rows: for row in rows {
        if start.starts_with(row.0) {
            return Some(row.1);
        }
    }
    None
}

/// Whether the first bytes are hexadecimal digits and blanks.
fn looks_hexadecimal(start: &[u8]) -> bool
    ensures { result ≡ list_all is_hexadecimal start.now }
{
    start.iter().all(|byte| {
        byte.is_ascii_hexdigit() || *byte == b' ' || *byte == b'\r' || *byte == b'\n'
    })
}

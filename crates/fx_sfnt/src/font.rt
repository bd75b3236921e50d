//! A face of a font over the bytes of its file.

ghost use Rattle.std.specs.Prelude.{◌≡◌, ◌<◌, ◌^◌, drop, length, option_map, IfSome, IsOk};
ghost use Rattle.fx_fixed.specs.Chain.{map_ok};
ghost use Rattle.fx_sfnt.specs.Tables.{table_in, face_at, font_of};
ghost use Rattle.fx_sfnt.specs.Glyphs.{metrics_of, glyph_bytes_of};

use crate::directory::{find_table, is_directory, required_table};
use crate::fault::FontFault;
use crate::file::FontFile;
use crate::glyphs::{advance_width, glyph_data, lsb};
use crate::records::{Head, Hhea, Maxp, Metrics};
use crate::tables::read_fields;
use std::marker::Model;

/// A font: a view over the bytes of its file, with the fields of its tables.
///
/// Its file is one in which `Font::open` found no fault. `directory` is the file from the face's directory on.
#[derive(Drop)]
pub struct Font<'a> {
    file: &'a [u8],
    directory: &'a [u8],
    head: Head,
    maxp: Maxp,
    hhea: Hhea,
    hmtx: &'a [u8],
    loca: &'a [u8],
    glyf: &'a [u8],
}

impl<'a> Model for Font<'a> {
    ghost use Rattle.fx_sfnt.specs.Tables.{Face, face_at, table_of};
    ghost use Rattle.std.specs.Prelude.{◌≡◌, Ok, Some, codes};

    ghost Value = { Face };

    ghost view = { λ f.
        record { file = f.file.now; directory = f.directory.now; head = f.head; maxp = f.maxp; hhea = f.hhea } };

    ghost invariant = { λ f. (face_at f.file.now f.directory.now ≡
        Ok (record { file = f.file.now; directory = f.directory.now; head = f.head; maxp = f.maxp; hhea = f.hhea }))
        × (table_of f.file.now f.directory.now (codes "hmtx") ≡ Some f.hmtx.now)
        × (table_of f.file.now f.directory.now (codes "loca") ≡ Some f.loca.now)
        × (table_of f.file.now f.directory.now (codes "glyf") ≡ Some f.glyf.now) };
}

/// The bytes from an offset on; none if it is past the end.
fn from(bytes: &[u8], at: usize) -> &[u8]
    ensures { result.now ≡ drop at bytes.now }
{
    if at < bytes.len() { &bytes[at..] } else { &[] }
}

impl<'a> Font<'a> {
    /// Reads the face that is meant of a font file: its fields, or the first fault.
    ///
    /// The checks come in this order: where the face's directory is; the directory; that there are tables `head`, `maxp`, `hhea`,
    /// `hmtx`, `loca`, `glyf`; then the length and the fields of `head`, `maxp`, `hhea`; then the length of `hmtx`.
    #[tactic(auto, unfolding(crate::specs::Tables::font_of))]
    pub fn open(file: &FontFile<'a>) -> Result<Font<'a>, FontFault>
        ensures { result ≡ font_of file.now }
    {
        let at = file.directory_offset()?;
        Font::open_at(file.bytes(), from(file.bytes(), at))
    }

    /// Reads the face of a file whose directory begins here.
    #[tactic(auto, unfolding(crate::specs::Tables::face_at))]
    fn open_at(file: &'a [u8], directory: &'a [u8]) -> Result<Font<'a>, FontFault>
        ensures { result ≡ face_at file.entry.now directory.entry.now }
    {
        if !is_directory(directory) {
            return Err(FontFault::NotTrueType);
        }
        let head = required_table(file, directory, *b"head")?;
        let maxp = required_table(file, directory, *b"maxp")?;
        let hhea = required_table(file, directory, *b"hhea")?;
        let hmtx = required_table(file, directory, *b"hmtx")?;
        let loca = required_table(file, directory, *b"loca")?;
        let glyf = required_table(file, directory, *b"glyf")?;
        let (head, maxp, hhea) = read_fields(head, maxp, hhea, hmtx)?;
        Ok(Font {
            file,
            directory,
            head,
            maxp,
            hhea,
            hmtx,
            loca,
            glyf,
        })
    }

    /// The bytes of the table with a tag, if the directory has one: from the first such record's offset, for its length, cut at
    /// the file's end.
    pub fn table(&self, tag: [u8; 4]) -> Option<&'a [u8]>
        ensures table { option_map (λ t. t.now) result ≡ table_in self.now tag }
        ensures short { IfSome result (λ t. length t.now < 2 ^ 32) }
    {
        find_table(self.file, self.directory, tag)
    }

    /// The fields of `head`.
    pub fn head(&self) -> Head
        ensures { result ≡ self.now.head }
    {
        self.head
    }

    /// The fields of `maxp`; there is a glyph.
    pub fn maxp(&self) -> Maxp
        ensures value { result ≡ self.now.maxp }
        ensures glyphs { 0 < result.num_glyphs }
    {
        self.maxp
    }

    /// The fields of `hhea`; `hmtx` has a pair.
    pub fn hhea(&self) -> Hhea
        ensures value { result ≡ self.now.hhea }
        ensures metrics { 0 < result.number_of_h_metrics }
    {
        self.hhea
    }

    /// A glyph's advance and left side bearing, in FUnits; or `BadGlyphNumber` if there is no such glyph.
    ///
    /// A glyph past the pairs of `hmtx` has the last pair's advance, and a bearing past its end is 0 (OpenType, "hmtx").
    #[tactic(auto, unfolding(crate::specs::Glyphs::metrics_of))]
    pub fn metrics(&self, glyph: u16) -> Result<Metrics, FontFault>
        ensures value { result ≡ metrics_of self.now glyph }
        ensures given { glyph < self.now.maxp.num_glyphs → IsOk result }
    {
        if glyph >= self.maxp.num_glyphs {
            return Err(FontFault::BadGlyphNumber(glyph));
        }
        Ok(Metrics {
            advance_width: advance_width(self.hmtx, self.hhea.number_of_h_metrics, glyph),
            lsb: lsb(self.hmtx, self.hhea.number_of_h_metrics, glyph),
        })
    }

    /// A glyph's bytes, cut at the end of `glyf`; equal offsets in `loca` give none.
    ///
    /// `BadGlyphNumber` if there is no such glyph; `BadLoca` if `loca` does not include all bytes of its two offsets, the end is
    /// below the start, or the start is past `glyf` and the two are not equal (OpenType, "loca", "glyf").
    #[tactic(auto, unfolding(crate::specs::Glyphs::glyph_bytes_of))]
    pub fn glyph_bytes(&self, glyph: u16) -> Result<&'a [u8], FontFault>
        ensures { map_ok (λ b. b.now) result ≡ glyph_bytes_of self.now glyph }
    {
        if glyph >= self.maxp.num_glyphs {
            return Err(FontFault::BadGlyphNumber(glyph));
        }
        glyph_data(self.head.index_to_loc_format, self.loca, self.glyf, glyph)
    }

    /// The same view again, for a call that takes a font by value.
    pub fn shared(&self) -> Font<'a>
        ensures { result ≡ self.now }
    {
        Font {
            file: self.file,
            directory: self.directory,
            head: self.head,
            maxp: self.maxp,
            hhea: self.hhea,
            hmtx: self.hmtx,
            loca: self.loca,
            glyf: self.glyf,
        }
    }
}

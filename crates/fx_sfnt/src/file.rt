//! A font file, and which of its faces is meant (OpenType, "Font Collections").

ghost use Rattle.std.specs.Prelude.{◌≡◌};
ghost use Rattle.fx_sfnt.specs.Collections.{collection_count_of, collection_offset_of, directory_offset_of, face_count_of, face_in};
ghost use Rattle.fx_sfnt.specs.Collections.{is_collection, is_collection_header, only_offset_of};

use crate::fault::FontFault;
use crate::fields::u32_in;
use std::marker::Model;

/// The bytes of a font file, and which of its faces is meant, counted from 0.
///
/// A collection has many faces; any other file has face 0 alone.
#[derive(Drop)]
pub struct FontFile<'a> {
    bytes: &'a [u8],
    face: u32,
}

impl<'a> Model for FontFile<'a> {
    ghost use Rattle.fx_sfnt.specs.Collections.{FontFileView};

    ghost Value = { FontFileView };

    ghost view = { λ f. record { bytes = f.bytes.now; face = f.face } };
}

impl<'a> FontFile<'a> {
    /// Face 0 of a file: its only one, or the first of a collection.
    pub fn of(bytes: &'a [u8]) -> FontFile<'a>
        ensures { result ≡ face_in bytes.entry.now 0 }
    {
        FontFile { bytes, face: 0 }
    }

    /// A face of a file, counted from 0.
    pub fn new(bytes: &'a [u8], face: u32) -> FontFile<'a>
        ensures { result ≡ face_in bytes.entry.now face }
    {
        FontFile { bytes, face }
    }

    /// The bytes of the file.
    pub fn bytes(&self) -> &'a [u8]
        ensures { result.now ≡ self.now.bytes }
    {
        self.bytes
    }

    /// How many faces the file has, whichever is meant: `numFonts` of a collection; 1 for any other file.
    ///
    /// `NotTrueType` if a collection's header is truncated or has a version other than 1.0 and 2.0.
    #[tactic(auto, unfolding(crate::specs::Collections::face_count_of))]
    pub fn face_count(&self) -> Result<u32, FontFault>
        ensures { result ≡ face_count_of self.now.bytes }
    {
        if is_collection(self.bytes) {
            collection_count(self.bytes)
        } else {
            Ok(1)
        }
    }

    /// Where the face's directory begins in the file.
    ///
    /// `NotTrueType` if a collection's header is truncated or has a version other than 1.0 and 2.0; then `NoFace` if there is no
    /// such face.
    #[tactic(auto, unfolding(crate::specs::Collections::directory_offset_of))]
    pub fn directory_offset(&self) -> Result<usize, FontFault>
        ensures { result ≡ directory_offset_of self.now }
    {
        if is_collection(self.bytes) {
            collection_offset(self.bytes, self.face)
        } else {
            only_offset(self.face)
        }
    }
}

/// Whether a file begins with `ttcf`.
fn is_collection(bytes: &[u8]) -> bool
    ensures { result ≡ is_collection bytes.now }
{
    bytes.len() >= 4 && u32_in(bytes, 0) == 0x7474_6366
}

/// Whether the header of a collection has a version that is read, and the file includes its offsets.
fn is_collection_header(bytes: &[u8]) -> bool
    ensures { result ≡ is_collection_header bytes.now }
{
    if bytes.len() < 12 {
        return false;
    }
    let version = u32_in(bytes, 4);
    let count = u32_in(bytes, 8) as usize;
    (version == 0x0001_0000 || version == 0x0002_0000) && 12 + 4 * count <= bytes.len()
}

/// How many faces a collection has.
#[tactic(auto, unfolding(crate::specs::Collections::collection_count_of))]
fn collection_count(bytes: &[u8]) -> Result<u32, FontFault>
    ensures { result ≡ collection_count_of bytes.now }
{
    if !is_collection_header(bytes) {
        return Err(FontFault::NotTrueType);
    }
    Ok(u32_in(bytes, 8))
}

/// Where a face's directory begins in a collection.
#[tactic(auto, unfolding(crate::specs::Collections::collection_offset_of))]
fn collection_offset(bytes: &[u8], face: u32) -> Result<usize, FontFault>
    ensures { result ≡ collection_offset_of bytes.now face }
{
    if !is_collection_header(bytes) {
        return Err(FontFault::NotTrueType);
    }
    if u32_in(bytes, 8) <= face {
        return Err(FontFault::NoFace);
    }
    Ok(u32_in(bytes, 12 + 4 * face as usize) as usize)
}

/// Where a face's directory begins in a file that is no collection.
#[tactic(auto, unfolding(crate::specs::Collections::only_offset_of))]
fn only_offset(face: u32) -> Result<usize, FontFault>
    ensures { result ≡ only_offset_of face }
{
    if face != 0 {
        return Err(FontFault::NoFace);
    }
    Ok(0)
}

//! A character map over the bytes of `cmap`.

ghost use Rattle.std.specs.Prelude.{◌≡◌};
ghost use Rattle.fx_cmap.specs.Lookup.{char_map_of, map_of, glyph_for};

use crate::candidates::CANDIDATES;
use crate::fault::CharMapFault;
use crate::map_reader::MapReader;
use crate::mapping::Mapping;
use crate::records::chosen;
use crate::subtable::Subtable;
use fx_sfnt::{Font, u16_in};
use std::marker::Model;

/// A character map: a view over the bytes of `cmap`, in which `CharMap::open` found no fault.
#[derive(Drop)]
pub struct CharMap<'a> {
    mapping: Mapping<'a>,
}

impl<'a> Model for CharMap<'a> {
    ghost use Rattle.fx_cmap.specs.declared.mapping.Mapping.{Mapping};

    ghost Value = { Mapping };

    ghost view = { λ m. m.mapping };
}

impl<'a> CharMap<'a> {
    /// Reads the character map of a font, or returns the first fault.
    ///
    /// `NoCharMap` if there is no `cmap`; `BadCharMap` if its header or its records are truncated; `NoCharMap` if no record
    /// that is looked for has a subtable of its format; `BadCharMap` if `cmap` ends before the header of the subtable that is
    /// taken or before the fields of its segments or groups do, or if its end codes are not in ascending order. The subtable
    /// that is taken is the first candidate's that has one (`candidates.rt`): of format 12 for Windows with all of Unicode,
    /// else for Unicode; else of format 4 for Windows with Unicode, else for Unicode, else for Windows with symbols.
    #[tactic(auto, unfolding(crate::specs::Lookup::map_of))]
    pub fn open(font: &Font<'a>) -> Result<CharMap<'a>, CharMapFault>
        ensures { result ≡ map_of font.now }
    {
        match font.table(*b"cmap") {
            Some(cmap) => CharMap::read(cmap),
            None => Err(CharMapFault::NoCharMap),
        }
    }

    /// Reads the character map in the bytes of `cmap`.
    #[tactic(auto, unfolding(crate::specs::Lookup::char_map_of))]
    fn read(cmap: &'a [u8]) -> Result<CharMap<'a>, CharMapFault>
        ensures { result ≡ char_map_of cmap.now }
    {
        if cmap.len() < 4 {
            return Err(CharMapFault::BadCharMap);
        }
        if cmap.len() < 4 + 8 * u16_in(cmap, 2) as usize {
            return Err(CharMapFault::BadCharMap);
        }
        let (format, start) = chosen(cmap, &CANDIDATES).ok_or(CharMapFault::NoCharMap)?;
        let mapping = Mapping::read(cmap, format, start)?;
        Ok(CharMap { mapping })
    }

    /// A cursor, by which looking up codes in rising order is quick.
    pub fn cursor(&self) -> MapReader<'_, 'a>
        ensures { result ≡ self.now }
    {
        MapReader::new(&self.mapping)
    }

    /// The glyph of a character code, 0 if it has none; for every number (OpenType, "Format 4" and "Format 12").
    ///
    /// The segment or group that counts is the first whose last code is at least the code; it is found by halving, so a call
    /// takes a time logarithmic in their number.
    pub fn glyph(&self, code: u32) -> u16
        ensures { result ≡ glyph_for self.now code }
    {
        let mut near = 0;
        self.mapping.glyph(&mut near, code)
    }
}

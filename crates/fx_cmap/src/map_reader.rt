//! A character map that is read at one code after the other.

ghost use Rattle.std.specs.Prelude.{◌≡◌, ℕ, ◌<◌, ◌≤◌};
ghost use Rattle.fx_cmap.specs.Lookup.{glyph_for};

use crate::mapping::Mapping;
use crate::subtable::Subtable;
use std::marker::Model;

/// A character map with the place where it was read last. Contracts see it as the map.
///
/// It returns the glyphs that the map does, and is quick for codes in rising order: most of them lie in the segment or group
/// that was found last, or in the next one, which needs no search. `gap_end` says how many codes to leave out.
#[derive(Drop)]
pub struct MapReader<'m, 'a> {
    mapping: &'m Mapping<'a>,
    // The number of the segment or group that was found last.
    near: u32,
}

impl<'m, 'a> Model for MapReader<'m, 'a> {
    ghost use Rattle.fx_cmap.specs.declared.mapping.Mapping.{Mapping};

    ghost Value = { Mapping };

    ghost view = { λ c. c.mapping.now };
}

impl<'m, 'a> MapReader<'m, 'a> {
    /// A cursor at the first segment or group of a map.
    pub(crate) fn new(mapping: &'m Mapping<'a>) -> MapReader<'m, 'a>
        ensures { result ≡ mapping.now }
    {
        MapReader { mapping, near: 0 }
    }

    /// The glyph of a character code, 0 if it has none; for every number, in any order.
    pub fn glyph(&mut self, code: u32) -> u16
        ensures value { result ≡ glyph_for self.old code }
        ensures kept { self.new ≡ self.old }
    {
        self.mapping.glyph(&mut self.near, code)
    }

    /// A code up to which, from the given one on, no code has a glyph. If `glyph` returned 0 for the code just before, it is the
    /// first code of the next segment or group, or the greatest number if there is none; a number up to the code says nothing.
    pub fn gap_end(&self, code: u32) -> u32
        ensures { (c : ℕ) → code ≤ c → c < result → glyph_for self.now c ≡ 0 }
    {
        self.mapping.gap_end(self.near, code)
    }
}

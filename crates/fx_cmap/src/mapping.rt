//! The subtable that a character map is read from.

ghost use Rattle.std.specs.Prelude.{◌≡◌, ℕ, ◌<◌, ◌≤◌};
ghost use Rattle.fx_cmap.specs.Lookup.{subtable_at, glyph_for};

use crate::candidates::Format;
use crate::fault::CharMapFault;
use crate::groups::Groups;
use crate::segments::Segments;
use crate::subtable::Subtable;

/// The subtable of a `cmap` that is taken, by its format.
#[derive(Drop)]
pub enum Mapping<'a> {
    /// Format 4, for codes up to U+FFFF.
    Segments(Segments<'a>),
    /// Format 12, for every code.
    Groups(Groups<'a>),
}

impl<'a> Mapping<'a> {
    /// Reads the subtable of a format at an offset of `cmap`, or returns its first fault.
    pub fn read(cmap: &'a [u8], format: Format, start: u32) -> Result<Mapping<'a>, CharMapFault>
        ensures { result ≡ subtable_at cmap.now (format, start) }
    {
        Ok(match format {
            Format::Four => Mapping::Segments(Segments::read(cmap, start)?),
            Format::Twelve => Mapping::Groups(Groups::read(cmap, start)?),
        })
    }
}

impl<'a> Subtable for Mapping<'a> {
    ghost use Rattle.fx_cmap.specs.Lookup.{glyph_for};

    ghost glyph_of = { glyph_for };

    #[inline]
    fn glyph(&self, near: &mut u32, code: u32) -> u16 {
        match self {
            Mapping::Segments(segments) => segments.glyph(near, code),
            Mapping::Groups(groups) => groups.glyph(near, code),
        }
    }

    fn gap_end(&self, near: u32, code: u32) -> u32 {
        match self {
            Mapping::Segments(segments) => segments.gap_end(near, code),
            Mapping::Groups(groups) => groups.gap_end(near, code),
        }
    }
}

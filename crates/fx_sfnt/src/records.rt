//! The fields of tables.

use crate::units::UnitsPerEm;

/// The fields of `head` that are read (OpenType, "head").
#[derive(Clone, Copy, Debug, PartialEq, Eq)]
pub struct Head {
    /// The em square.
    pub units_per_em: UnitsPerEm,
    /// How `loca` holds an offset.
    pub index_to_loc_format: LocFormat,
}

/// How `loca` holds an offset (OpenType, "head", indexToLocFormat).
#[derive(Clone, Copy, Debug, PartialEq, Eq)]
pub enum LocFormat {
    /// Two bytes, which hold half of the offset.
    Short,
    /// Four bytes.
    Long,
}

/// The fields of `maxp` that are read, as the table has them (OpenType, "maxp" version 1.0).
#[derive(Clone, Copy, Debug, PartialEq, Eq)]
pub struct Maxp {
    /// The number of glyphs, not 0.
    pub num_glyphs: u16,
    /// The number of points in the twilight zone.
    pub max_twilight_points: u16,
    /// The number of storage cells.
    pub max_storage: u16,
    /// The number of functions that font programs define.
    pub max_function_defs: u16,
    /// The depth of the stack that font programs required_table.
    pub max_stack_elements: u16,
}

/// The fields of `hhea` that are read (OpenType, "hhea").
#[derive(Clone, Copy, Debug, PartialEq, Eq)]
pub struct Hhea {
    /// Height above the baseline, in FUnits.
    pub ascender: i16,
    /// Height above the baseline of the lowest point, in FUnits; mostly negative.
    pub descender: i16,
    /// The number of pairs in `hmtx`, not 0.
    pub number_of_h_metrics: u16,
}

/// A glyph's horizontal metrics, in FUnits (OpenType, "hmtx").
#[derive(Clone, Copy, Debug, PartialEq, Eq)]
pub struct Metrics {
    /// How far the pen moves to the right.
    pub advance_width: u16,
    /// The left side bearing: from the origin to the glyph's left edge.
    pub lsb: i16,
}

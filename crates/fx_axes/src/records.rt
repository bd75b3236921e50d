//! An axis, a value along it, and a pair of its map.

/// The values of an axis, in 16.16: the least, the default and the greatest one.
#[derive(Clone, Copy, Debug, PartialEq, Eq)]
pub struct Extent {
    pub min: i32,
    pub default: i32,
    pub max: i32,
}

/// An axis (OpenType, "fvar", "VariationAxisRecord"). Its tag is the four bytes as a big-endian number.
#[derive(Clone, Copy, Debug, PartialEq, Eq)]
pub struct Axis {
    pub tag: u32,
    pub extent: Extent,
    /// The number of its name in `name`.
    pub name: u16,
    /// Bit 0 says that no user needs to see the axis.
    pub flags: u16,
}

/// A value that is given for the axis of a tag, in 16.16.
#[derive(Clone, Copy, Debug, PartialEq, Eq)]
pub struct AxisValue {
    pub tag: u32,
    pub value: i32,
}

/// A pair of an axis's map in `avar`: a normalized coordinate, and where it goes, in 2.14.
#[derive(Clone, Copy, Debug, PartialEq, Eq)]
pub struct Mapping {
    pub from: i16,
    pub to: i16,
}

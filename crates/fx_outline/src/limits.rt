//! The limit of outlines.

/// The greatest number of points of an outline.
pub const MAX_POINTS: u32 = 16_384;

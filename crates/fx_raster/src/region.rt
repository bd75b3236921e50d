//! Boxes of pixels, of any size.

/// A box of pixels: `width` columns from `left` on, and `height` rows from `bottom` on.
#[derive(Clone, Copy, Debug, PartialEq, Eq)]
pub struct Region {
    pub left: i32,
    pub bottom: i32,
    pub width: u32,
    pub height: u32,
}

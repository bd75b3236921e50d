//! The limits of outlines.

/// The greatest number of component records below a root.
pub const MAX_COMPONENTS: u32 = 256;

/// The greatest depth of a component below its root.
pub const MAX_DEPTH: u8 = 8;

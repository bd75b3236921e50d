//! The limits of inputs (limits of this project).

/// The greatest number of bytes of an input.
pub const MAX_INPUT: usize = 67_108_864;

/// The greatest number of bytes of a line of arguments.
pub const MAX_LINE: usize = 4_096;

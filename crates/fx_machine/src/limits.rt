//! The limits of a run. None is the standard's; each is this project's own choice.

/// The most instructions that a program may execute.
pub const STEP_LIMIT: u32 = 250_000;

/// The most calls that may be open.
pub const CALL_LIMIT: usize = 32;

/// The fewest functions that a font may define, if it says fewer itself.
pub const FEWEST_FUNCTIONS: u16 = 64;

/// How many numbers more than the font says the stack has room for.
pub const SPARE_ELEMENTS: u16 = 32;

//! The limits of requests (limits of this project).

/// The greatest number of characters of a request.
pub const MAX_CHARACTERS: usize = 65_536;

/// The greatest code point of a request, U+10FFFF, which is the last of Unicode.
pub const MAX_CODE: u32 = 0x10_FFFF;

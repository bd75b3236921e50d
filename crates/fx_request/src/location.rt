//! Where a refusal is.

use fx_machine::Halt;

/// Where a refusal is. Its line on standard error and its fields in C say this after its number and name.
#[derive(Clone, Copy, Debug, PartialEq, Eq)]
pub enum Location {
    /// Nowhere in particular.
    Nowhere,
    /// A table, by its tag.
    Table([u8; 4]),
    /// A glyph, by its number.
    Glyph(u16),
    /// A property of the request, counted from 1.
    Property(u32),
    /// After this number of bytes of the output.
    Bytes(u64),
    /// An instruction of a program of the font.
    Halt(Halt),
}

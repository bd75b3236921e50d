//! A glyph.

use crate::composite::Composite;
use crate::simple::Simple;

/// A glyph in its bytes, which are complete.
#[derive(Drop)]
pub enum Glyph<'a> {
    /// No contour, no component, no program; its xMin counts as 0.
    Empty,
    /// Contours of points.
    Simple(Simple<'a>),
    /// Other glyphs, put in place.
    Composite(Composite<'a>),
}

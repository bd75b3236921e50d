//! Glyphs that the walk comes to, and which components they are.

/// Which component of a composite it is: its number in the list of the composite's components, counted from 1.
#[derive(Clone, Copy, Debug, PartialEq, Eq)]
pub struct ComponentOf {
    pub composite: u16,
    pub number: u16,
}

/// A glyph that the walk comes to: its number, and which component it is, unless it is the root.
#[derive(Clone, Copy)]
pub struct Node {
    pub component: Option<ComponentOf>,
    pub g: u16,
}

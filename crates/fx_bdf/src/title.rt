//! What a strike is called.

use crate::property::Property;

/// What a strike is called: its name, and its properties.
#[derive(Clone, Copy, Debug)]
pub struct Title<'a> {
    /// The font's name.
    pub name: &'a str,
    /// The properties beside FONT_ASCENT and FONT_DESCENT that are given, in their order.
    pub properties: &'a [Property<'a>],
    /// Whether it has the properties of the X logical font description too: those whose names the given ones leave free, before
    /// them.
    pub x11: bool,
}

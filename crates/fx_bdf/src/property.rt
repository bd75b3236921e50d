//! What a property is.

/// A property of a strike beside FONT_ASCENT and FONT_DESCENT.
#[derive(Clone, Copy, Debug, PartialEq)]
pub struct Property<'a> {
    /// 1 to 64 of the characters `A` to `Z`, `0` to `9` and `_`, a letter first.
    pub name: &'a str,
    /// What it says.
    pub value: Value<'a>,
}

/// A property's value.
#[derive(Clone, Copy, Debug, PartialEq)]
pub enum Value<'a> {
    /// A whole number.
    Number(i32),
    /// A text of at most 32,000 printed characters of ASCII, which is written between quotation marks.
    Text(&'a str),
}

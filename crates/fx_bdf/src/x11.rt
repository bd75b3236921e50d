//! The properties of the X logical font description.

ghost use Rattle.std.specs.Prelude.{◌≡◌, ◌∷◌, ◌++◌, [], ◌<◌, ◌≤◌, ◌*◌, ◌^◌, ◌==◌, codes, pos, map, filter, not, length, OnOk, IfOk};
ghost use Rattle.std.specs.List.{after_first, before_first, count_by};
ghost use Rattle.fx_bdf.specs.Properties.{AreLines, AreProperties, is_taken, seen_properties, seen_property};
ghost use Rattle.fx_bdf.specs.Text.{IsName};
ghost use Rattle.fx_bdf.specs.X11.{all_properties, before_given, charset_properties, default_properties, fields_from, is_font_name};
ghost use Rattle.fx_bdf.specs.X11.{is_hyphen, name_properties, number_property, part_of, size_properties, spacing, string_property};
ghost use Rattle.fx_bdf.specs.X11.{width_properties, x11_properties};

use crate::properties::is_taken;
use crate::property::{Property, Value};
use crate::summary::Summary;
use crate::title::Title;
use std::alloc::{AllocError, Global};

/// What follows the first hyphen of a text; nothing if it has none.
fn after_hyphen(text: &str) -> &str
    ensures { result.now ≡ after_first is_hyphen text.entry.now }
{
    match text.split_once('-') {
        Some((_, rest)) => rest,
        None => "",
    }
}

/// A text from field n on, where a hyphen is before each field but field 0.
fn fields_from(text: &str, n: u32) -> &str
    ensures { result.now ≡ fields_from n text.entry.now }
{
    let mut rest = text;
    // `rest` begins at field i.
    'fields: for i in 0..n {
        rest = after_hyphen(rest);
    }
    rest
}

/// Whether a name has 14 fields with a hyphen before each.
fn is_font_name(name: &str) -> bool
    ensures { result ≡ is_font_name name.now }
{
    let text = name.as_bytes();
    !text.is_empty() && text[0] == b'-' && text.iter().filter(|byte| **byte == b'-').count() == 14
}

/// Field n of a name that has 14 fields; of another name `instead`.
#[tactic(auto, unfolding(crate::specs::X11::part_of))]
fn part_of<'a>(name: &'a str, n: u32, instead: &'a str) -> &'a str
    ensures { result.now ≡ part_of n instead.entry.now name.entry.now }
{
    if !is_font_name(name) {
        return instead;
    }
    let rest = fields_from(name, n);
    match rest.split_once('-') {
        Some((field, _)) => field,
        None => rest,
    }
}

/// `M` for monospaced, `P` for proportional.
fn spacing(is_monospaced: bool) -> &'static str
    ensures { result.now ≡ spacing is_monospaced }
{
    if is_monospaced { "M" } else { "P" }
}

/// A property that is a text.
fn text<'a>(name: &'a str, string: &'a str) -> Property<'a>
    ensures { seen_property result ≡ string_property name.entry.now string.entry.now }
{
    Property {
        name,
        value: Value::Text(string),
    }
}

/// A property that is a number.
fn number<'a>(name: &'a str, number: i32) -> Property<'a>
    ensures { seen_property result ≡ number_property name.entry.now number }
{
    Property {
        name,
        value: Value::Number(number),
    }
}

/// The properties that a name settles.
fn name_properties(name: &str) -> [Property<'_>; 3]
    ensures { seen_properties result ≡ name_properties name.entry.now }
{
    [
        text("FAMILY_NAME", part_of(name, 2, name)),
        text("WEIGHT_NAME", part_of(name, 3, "Medium")),
        text("SLANT", part_of(name, 4, "R")),
    ]
}

/// The properties that a size and advances settle, and those that all strikes have.
fn size_properties(ppem: u16, summary: Summary) -> [Property<'static>; 8]
    ensures { seen_properties result ≡ size_properties ppem ++ (width_properties summary ++ charset_properties) }
{
    let pixels = i32::from(ppem);
    [
        number("PIXEL_SIZE", pixels),
        number("POINT_SIZE", 10 * pixels),
        number("RESOLUTION_X", 72),
        number("RESOLUTION_Y", 72),
        text("SPACING", spacing(summary.is_monospaced)),
        number("AVERAGE_WIDTH", summary.average_width),
        text("CHARSET_REGISTRY", "ISO10646"),
        text("CHARSET_ENCODING", "1"),
    ]
}

/// Adds the property of a character that stands for those that the strike lacks, if there is one.
fn push_default(all: &mut Vec<Property<'_>>, summary: Summary) -> Result<(), AllocError>
    ensures { OnOk result (seen_properties all.new.items ≡ seen_properties all.old.items
        ++ default_properties summary.has_replacement summary.has_space) }
{
    if summary.has_replacement {
        return Ok(all.push(number("DEFAULT_CHAR", 0xFFFD))?);
    }
    if summary.has_space {
        return Ok(all.push(number("DEFAULT_CHAR", 0x20))?);
    }
    Ok(())
}

/// The properties of X11 by a name, a size, and what the glyphs settle.
fn x11_properties<'a>(
    alloc: Global,
    name: &'a str,
    ppem: u16,
    summary: Summary,
) -> Result<Vec<Property<'a>>, AllocError>
    ensures { IfOk result (λ all. seen_properties all.items ≡ x11_properties name.entry.now ppem summary) }
{
    let mut all = Vec::new(alloc);
    all.extend_from_slice(&name_properties(name))?;
    all.extend_from_slice(&size_properties(ppem, summary))?;
    push_default(&mut all, summary)?;
    Ok(all)
}

/// Adds properties whose names the given ones do not have.
fn push_untaken<'a>(
    all: &mut Vec<Property<'a>>,
    more: &[Property<'a>],
    given: &[Property<'a>],
) -> Result<(), AllocError>
    ensures { OnOk result (seen_properties all.new.items ≡ seen_properties all.old.items
        ++ filter (λ p. not (is_taken (seen_properties given.now) p.name)) (seen_properties more.now)) }
{
    // Those of the properties so far whose names the given ones do not have were added.
    'more: for property in more {
        if !is_taken(given, property.name) {
            all.push(*property)?;
        }
    }
    Ok(())
}

/// Properties before given ones; those whose names the given ones have are left out.
#[tactic(auto, unfolding(crate::specs::X11::before_given))]
fn before_given<'a>(
    alloc: Global,
    more: &[Property<'a>],
    given: &[Property<'a>],
) -> Result<Vec<Property<'a>>, AllocError>
    ensures { IfOk result (λ all. seen_properties all.items ≡
        before_given (seen_properties more.now) (seen_properties given.now)) }
{
    let mut all = Vec::new(alloc);
    push_untaken(&mut all, more, given)?;
    all.extend_from_slice(given)?;
    Ok(all)
}

impl<'a> Title<'a> {
    /// The properties of a strike of this title beside FONT_ASCENT and FONT_DESCENT, in their order, by its size and what its
    /// glyphs settle. If it has those of X11 the given ones follow them, and one that is given takes the place of X11's of its
    /// name.
    pub fn all_properties(
        &self,
        alloc: Global,
        ppem: u16,
        summary: Summary,
    ) -> Result<Vec<Property<'a>>, AllocError>
        requires name { IsName self.now.name.now }
        requires properties { AreProperties (seen_properties self.now.properties.now) }
        ensures all { IfOk result (λ all. seen_properties all.items ≡
            all_properties self.now.x11 self.now.name.now ppem summary (seen_properties self.now.properties.now)) }
        ensures lines { IfOk result (λ all. AreLines (seen_properties all.items)) }
    {
        if self.x11 {
            let more = x11_properties(alloc, self.name, ppem, summary)?;
            return before_given(alloc, &more, self.properties);
        }
        Vec::from_slice(alloc, self.properties)
    }
}

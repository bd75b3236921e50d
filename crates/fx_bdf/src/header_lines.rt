//! Writing the lines before the glyphs.

ghost use Rattle.std.specs.Prelude.{◌≡◌, ◌+◌, ◌++◌, ◌<◌, ◌≤◌, ◌^◌, ℕ, List, [], codes, length};
ghost use Rattle.std.specs.Fmt.{decimal};
ghost use Rattle.std.specs.List.{flat_map};
ghost use Rattle.fx_fixed.specs.Texts.{Adds, Fails};
ghost use Rattle.fx_bdf.specs.Properties.{AreLines, doubled, most_more, most_properties, property_text, seen_properties};
ghost use Rattle.fx_bdf.specs.Properties.{seen_property};
ghost use Rattle.fx_bdf.specs.Text.{IsName, front_text, header_text, longest_header};

use crate::header::Header;
use crate::property::{Property, Value};
use fx_fixed::{Backward, Digits, Sink, TextWriter, WriteFailed};

/// Puts together what follows the name in the lines up to FONT_DESCENT, from the last number to the first.
fn put_numbers(count: usize, header: &Header, numbers: &mut Backward)
    requires none { numbers.old ≡ [] }
    requires count { count ≤ most_properties + most_more }
    ensures { (name : List ℕ) → codes "STARTFONT 2.1\nFONT " ++ (name ++ numbers.new) ≡ front_text name count header.now }
{
    numbers.put_signed(header.descent, b"\n");
    numbers.put_signed(header.ascent, b"\nFONT_DESCENT ");
    numbers.put_unsigned(2 + count as u64, b"\nFONT_ASCENT ");
    numbers.put(b"STARTPROPERTIES ");
    header.bounds.put(numbers);
    numbers.put_unsigned(u64::from(header.ppem), b" 72 72\nFONTBOUNDINGBOX ");
    numbers.put(b"\nSIZE ");
}

/// Adds the lines up to FONT_DESCENT. STARTPROPERTIES counts `count` properties that follow it, FONT_ASCENT and FONT_DESCENT.
fn add_front<W: Sink>(
    name: &str,
    count: usize,
    header: &Header,
    text: &mut TextWriter<'_, W>,
) -> Result<(), WriteFailed>
    requires faults { text.old.faults < 2 ^ 63 }
    requires name { IsName name.now }
    requires count { count ≤ most_properties + most_more }
    ensures text { Adds Fails text.old text.new (front_text name.now count header.now) result }
    ensures short { length (front_text name.now count header.now) ≤ 1000 }
{
    let mut numbers = Backward::new();
    put_numbers(count, header, &mut numbers);
    text.add(&[b"STARTFONT 2.1\nFONT ", name.as_bytes(), numbers.text()])
}

/// A character of a text, as it stands between quotation marks.
fn doubled(byte: &u8) -> &[u8]
    ensures { result.now ≡ doubled byte.now }
{
    if *byte == b'"' {
        b"\"\""
    } else {
        std::slice::from_ref(byte)
    }
}

/// Adds the characters of a text, each quotation mark twice.
fn add_doubled<W: Sink>(string: &[u8], text: &mut TextWriter<'_, W>) -> Result<(), WriteFailed>
    requires { text.old.faults < 2 ^ 63 }
    ensures { Adds Fails text.old text.new (flat_map doubled string.now) result }
{
    // The characters so far were added.
    'characters: for byte in string {
        text.add(&[doubled(byte)])?;
    }
    Ok(())
}

/// Adds the line of a property. A text stands between quotation marks.
#[tactic(auto, unfolding(crate::specs::Properties::quoted))]
fn add_property<W: Sink>(
    property: &Property<'_>,
    text: &mut TextWriter<'_, W>,
) -> Result<(), WriteFailed>
    requires { text.old.faults < 2 ^ 63 }
    ensures { Adds Fails text.old text.new (property_text (seen_property property.now)) result }
{
    let name = property.name.as_bytes();
    match property.value {
        Value::Number(number) => text.add(&[name, b" ", Digits::signed(number).text(), b"\n"]),
        Value::Text(string) => {
            text.add(&[name, b" \""])?;
            add_doubled(string.as_bytes(), text)?;
            text.add(&[b"\"\n"])
        }
    }
}

/// Adds the lines of properties.
fn add_properties<W: Sink>(
    properties: &[Property<'_>],
    text: &mut TextWriter<'_, W>,
) -> Result<(), WriteFailed>
    requires { text.old.faults < 2 ^ 63 }
    ensures { Adds Fails text.old text.new (flat_map property_text (seen_properties properties.now)) result }
{
    let mut i = 0;
    // The lines of the properties before i were added.
    'properties: while i < properties.len() {
        add_property(&properties[i], text)?;
        i += 1;
    }
    Ok(())
}

/// Adds the lines before the glyphs, of which `glyphs` is the number.
#[tactic(auto, unfolding(crate::specs::Text::header_text))]
fn add_header<W: Sink>(
    name: &str,
    properties: &[Property<'_>],
    header: &Header,
    glyphs: &[u8],
    text: &mut TextWriter<'_, W>,
) -> Result<(), WriteFailed>
    requires faults { text.old.faults < 2 ^ 63 }
    requires name { IsName name.now }
    requires properties { length properties.now ≤ most_properties + most_more }
    requires glyphs { glyphs.now ≡ decimal header.now.glyphs }
    ensures text { Adds Fails text.old text.new (header_text name.now (seen_properties properties.now) header.now) result }
    ensures short { length (front_text name.now (length properties.now) header.now) ≤ 1000 }
{
    add_front(name, properties.len(), header, text)?;
    add_properties(properties, text)?;
    text.add(&[b"ENDPROPERTIES\nCHARS ", glyphs, b"\n"])
}

/// Writes the lines before the glyphs. The properties follow FONT_ASCENT and FONT_DESCENT.
#[tactic(auto, using(crate::proofs::Headers::header_long))]
pub fn write_header<W: Sink>(
    name: &str,
    properties: &[Property<'_>],
    header: &Header,
    text: &mut TextWriter<'_, W>,
) -> Result<(), WriteFailed>
    requires faults { text.old.faults < 2 ^ 63 }
    requires name { IsName name.now }
    requires properties { AreLines (seen_properties properties.now) }
    ensures text { Adds Fails text.old text.new (header_text name.now (seen_properties properties.now) header.now) result }
    ensures short { length (header_text name.now (seen_properties properties.now) header.now) ≤ longest_header }
{
    let digits = Digits::unsigned(u64::from(header.glyphs));
    add_header(name, properties, header, digits.text(), text)
}

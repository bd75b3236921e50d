//! Which properties are good.

ghost use Rattle.std.specs.Prelude.{◌≡◌, ◌≤◌, length, IfSome};
ghost use Rattle.std.specs.List.{list_all};
ghost use Rattle.fx_bdf.specs.Properties.{first_bad, is_letter, is_reserved, is_taken, is_value, is_word, is_word_part};
ghost use Rattle.fx_bdf.specs.Properties.{may_follow, most_properties, seen_properties, seen_property, seen_value};

use crate::name::all_printed;
use crate::property::{Property, Value};

/// The greatest number of properties beside FONT_ASCENT and FONT_DESCENT.
const MOST: usize = 64;

/// The greatest number of bytes of a name.
const LONGEST_WORD: usize = 64;

/// The greatest number of bytes of a text.
const LONGEST_STRING: usize = 32_000;

/// Whether a byte is a capital letter.
fn is_letter(byte: u8) -> bool
    ensures { result ≡ is_letter byte }
{
    byte >= b'A' && byte <= b'Z'
}

/// Whether a byte can stand in a name.
fn is_word_part(byte: u8) -> bool
    ensures { result ≡ is_word_part byte }
{
    is_letter(byte) || byte >= b'0' && byte <= b'9' || byte == b'_'
}

/// Whether all bytes can stand in a name.
fn are_word_parts(text: &[u8]) -> bool
    ensures { result ≡ list_all is_word_part text.now }
{
    text.iter().all(|byte| is_word_part(*byte))
}

/// Whether a name is one that each strike has, or a word that means something else in the block of properties.
#[tactic(auto, unfolding(crate::specs::Properties::is_reserved))]
fn is_reserved(name: &str) -> bool
    ensures { result ≡ is_reserved name.now }
{
    name == "FONT_ASCENT" || name == "FONT_DESCENT" || name == "ENDPROPERTIES" || name == "COMMENT"
}

/// Whether a property can have this name.
#[tactic(auto, unfolding(crate::specs::Properties::is_word))]
fn is_word(name: &str) -> bool
    ensures { result ≡ is_word name.now }
{
    let text = name.as_bytes();
    if text.is_empty() || text.len() > LONGEST_WORD || !are_word_parts(text) {
        return false;
    }
    is_letter(text[0]) && !is_reserved(name)
}

/// Whether a property can have this value.
#[tactic(auto, unfolding(crate::specs::Properties::is_string))]
fn is_value(value: Value<'_>) -> bool
    ensures { result ≡ is_value (seen_value value.entry) }
{
    match value {
        Value::Number(_) => true,
        Value::Text(text) => text.len() <= LONGEST_STRING && all_printed(text.as_bytes()),
    }
}

/// Whether one of properties has this name.
pub(crate) fn is_taken(properties: &[Property<'_>], name: &str) -> bool
    ensures { result ≡ is_taken (seen_properties properties.now) name.now }
{
    // None of the properties so far has it.
    'properties: for property in properties {
        if property.name == name {
            return true;
        }
    }
    false
}

/// Whether a property may follow others.
#[tactic(auto, unfolding(crate::specs::Properties::may_follow))]
fn may_follow(before: &[Property<'_>], property: &Property<'_>) -> bool
    ensures { result ≡ may_follow (seen_properties before.now) (seen_property property.now) }
{
    before.len() < MOST
        && is_word(property.name)
        && is_value(property.value)
        && !is_taken(before, property.name)
}

/// The index of the first bad property: one whose name or value is bad, whose name one before it has, or that follows 64 others.
#[tactic(auto, using(crate::proofs::GoodProperties::left_bad, crate::proofs::GoodProperties::left_more, crate::proofs::GoodProperties::left_none, crate::proofs::GoodProperties::left_room))]
pub fn first_bad(properties: &[Property<'_>]) -> Option<usize>
    ensures first { result ≡ first_bad (seen_properties properties.now) }
    ensures few { IfSome result (λ i. i ≤ most_properties) }
{
    let mut i = 0;
    // None of the properties before i is bad.
    'properties: while i < properties.len() {
        if !may_follow(&properties[..i], &properties[i]) {
            return Some(i);
        }
        i += 1;
    }
    None
}

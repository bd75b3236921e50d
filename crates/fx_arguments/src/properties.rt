//! Properties as arguments.
ghost use Rattle.std.specs.Prelude.{◌≡◌, option_map};
ghost use Rattle.fx_bdf.specs.Properties.{seen_properties, seen_property, seen_value};
ghost use Rattle.fx_arguments.specs.Arguments.{properties_by, texts};
ghost use Rattle.fx_arguments.specs.Properties.{between_marks, has_plus, property_of, value_of, whole_of};
ghost use Rattle.fx_arguments.specs.Wrong.{Reads};

use crate::wrong::Wrong;
use fx_bdf::{Property, Value};
use std::alloc::Global;

/// The properties of texts, each `KEY=VALUE`.
#[tactic(auto, using(crate::proofs::Given::rest_steps))]
pub fn properties_by<'a>(alloc: Global, given: &[&'a str]) -> Result<Vec<Property<'a>>, Wrong<'a>>
    ensures { Reads (λ all. seen_properties all.items) result (properties_by (texts given.entry.now)) }
{
    let mut all = Vec::new(alloc);
    // The properties of the texts so far were pushed.
    'given: for text in given {
        let Some(property) = property_of(text) else {
            return Err(Wrong::NotTaken("--property takes KEY=VALUE", text));
        };
        all.push(property)?;
    }
    Ok(all)
}

/// A name, and a value after the first `=`.
#[tactic(auto, using(crate::proofs::Given::property_whole))]
fn property_of(text: &str) -> Option<Property<'_>>
    ensures { option_map seen_property result ≡ property_of text.entry.now }
{
    match text.split_once('=') {
        Some((name, value)) => Some(Property {
            name,
            value: value_of(value),
        }),
        None => None,
    }
}

/// A value: the text between quotation marks, a whole number, or the text itself.
fn value_of(value: &str) -> Value<'_>
    ensures { seen_value result ≡ value_of value.entry.now }
{
    match between_marks(value) {
        Some(string) => Value::Text(string),
        None => match whole_of(value) {
            Some(number) => Value::Number(number),
            None => Value::Text(value),
        },
    }
}

/// The text between a quotation mark at the start and one at the end.
fn between_marks(value: &str) -> Option<&str>
    ensures { option_map (λ string. string.now) result ≡ between_marks value.entry.now }
{
    match value.strip_prefix('"') {
        Some(rest) => rest.strip_suffix('"'),
        None => None,
    }
}

/// Whether a text begins with a plus.
fn has_plus(value: &str) -> bool
    ensures { result ≡ has_plus value.now }
{
    matches!(value.as_bytes(), [b'+', ..])
}

/// A whole number of 32 bits in decimal digits, perhaps a minus before them.
#[tactic(auto, using(crate::proofs::Given::whole_parsed, crate::proofs::Given::whole_plus))]
fn whole_of(value: &str) -> Option<i32>
    ensures { result ≡ whole_of value.now }
{
    if has_plus(value) {
        return None;
    }
    value.parse::<i32>().ok()
}

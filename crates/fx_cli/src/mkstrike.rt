//! The program that a front runs.
ghost use Rattle.std.specs.Prelude.{◌≡◌, ◌==◌, ◌<◌, ◌^◌, IfOk, map, string_bytes};
ghost use Rattle.std.specs.List.{after_first, before_first};
ghost use Rattle.fx_fixed.specs.Changes.{change_of};
ghost use Rattle.fx_front.specs.Lines.{Says};
ghost use Rattle.fx_cli.specs.Items.{fault_said, hyphen_of, item_said, meant_said, no_item_said, number_said, one_item_said};
ghost use Rattle.fx_cli.specs.Items.{range_said, right_said, without_mark};

use crate::program::{read_and_do, read_line_and_do};
use crate::seen::unseen;
use crate::watch::Watch;
use fx_arguments::{ItemFault, ReadAhead, Teller, explain, wrong_item};
use fx_fixed::{Sink, Source};
use fx_front::{Facts, Parts, Text, Tool};
use fx_words::after_start;
use std::alloc::{AllocError, Global};
use std::marker::Model;

/// The program, and what a front learns of its last run. Contracts see that.
#[derive(Drop)]
pub struct Mkstrike {
    facts: Facts,
}

impl Model for Mkstrike {
    ghost use Rattle.fx_front.specs.declared.facts.Facts.{Facts};

    ghost Value = { Facts };

    ghost view = { λ m. m.facts };
}

impl Mkstrike {
    ghost use Rattle.std.specs.Prelude.{None};
    ghost use Rattle.fx_cli.specs.Seen.{unseen};

    /// The program before a run.
    pub fn new(alloc: Global) -> Mkstrike
        ensures { result ≡ record { strike = None; refused = None; font = unseen } }
    {
        Mkstrike {
            facts: Facts {
                strike: None,
                refused: None,
                font: unseen(alloc),
            },
        }
    }
}

impl Tool for Mkstrike {
    ghost use Rattle.fx_arguments.specs.Mistakes.{checked, line_of};
    ghost use Rattle.fx_cli.specs.Items.{wrong_item_said};
    ghost use Rattle.fx_cli.specs.Runs.{Runs};

    ghost Ran = { Runs };

    ghost learned = { λ facts. facts };

    ghost wrong_in = { λ words. line_of (checked words) };

    ghost wrong_item = { wrong_item_said };

    fn run<R: Source, O: Sink, E: Sink>(
        &mut self,
        alloc: Global,
        parts: &Parts<'_>,
        reader: &mut R,
        out: &mut O,
        err: &mut E,
    ) -> u8 {
        let mut watch = Watch::new(alloc, parts.names_all);
        let words = parts.words.as_slice();
        let mut teller = Teller::new(err);
        let outcome = if words.len() < 2 {
            read_line_and_do(alloc, words, reader, out, &mut teller, &mut watch)
        } else {
            let ahead = ReadAhead::none();
            read_and_do(alloc, words, &ahead, reader, out, &mut teller, &mut watch)
        };
        let status = teller.status(&outcome);
        teller.close();
        self.facts = watch.end(&outcome);
        status
    }

    fn facts(&self) -> &Facts
        ensures { result.now ≡ self.now }
    {
        &self.facts
    }

    fn wrong(&self, alloc: Global, words: &[&str]) -> Result<String, AllocError> {
        match explain(alloc, words) {
            Ok(line) => text_of(line),
            Err(_) => Err(AllocError),
        }
    }

    fn add_wrong_item(&self, text: &mut Text, list: &str) {
        match wrong_item(list) {
            None => text.add_text("the list has more than 65,536 numbers"),
            Some((item, why)) => add_item(text, item, why),
        }
    }
}

/// The text of a line. The pieces of a line are texts, so it always has one.
fn text_of(line: Vec<u8>) -> Result<String, AllocError>
    ensures { IfOk result (λ text. string_bytes text ≡ line.items) }
{
    match String::from_utf8(line) {
        Ok(text) => Ok(text),
        Err(_) => Err(AllocError),
    }
}

/// Adds what is wrong with an item.
fn add_item(text: &mut Text, item: &str, why: ItemFault)
    ensures { Says text.old text.new (item_said why item.now) }
{
    if item.is_empty() {
        add_no_item(text, why);
    } else {
        add_one_item(text, item, why);
    }
}

/// Adds what is wrong with an item without bytes.
fn add_no_item(text: &mut Text, why: ItemFault)
    ensures { Says text.old text.new (no_item_said why) }
{
    match why {
        ItemFault::NoNumber => text.add_text("the list has a comma too many"),
        why => add_one_item(text, "", why),
    }
}

/// Adds what is wrong with an item that has bytes.
fn add_one_item(text: &mut Text, item: &str, why: ItemFault)
    ensures { Says text.old text.new (one_item_said why item.now) }
{
    text.add_text("'");
    text.add_text(item);
    text.add_text(what_is_wrong(why));
    add_meant(text, item, why);
}

/// What is wrong with an item of a list.
fn what_is_wrong(why: ItemFault) -> &'static str
    ensures { result.now ≡ fault_said why }
{
    match why {
        ItemFault::NoNumber => "' in the list is no hexadecimal number or range",
        ItemFault::TooLong => "' in the list has a number of more than six digits",
        ItemFault::TooHigh => "' in the list is above 10FFFF",
        ItemFault::Falls => "' in the list ends before it begins",
    }
}

/// Adds which number or range is meant by an item that is none.
fn add_meant(text: &mut Text, item: &str, why: ItemFault)
    ensures { Says text.old text.new (meant_said why item.now) }
{
    if let ItemFault::NoNumber = why {
        add_number_meant(text, item);
    }
}

/// Adds which number or range an item would be without the marks before its numbers.
fn add_number_meant(text: &mut Text, item: &str)
    ensures { Says text.old text.new (number_said item.now) }
{
    add_range(
        text,
        without_mark(low_of(item)),
        without_mark(high_of(item)),
    );
}

/// What is before the hyphen of a range, or a number.
fn low_of<'a>(item: &'a str) -> &'a str
    ensures { result.now ≡ before_first (λ b. b == 45) item.entry.now }
{
    match item.split_once('-') {
        Some((low, _)) => low,
        None => item,
    }
}

/// What is after the hyphen of a range.
fn high_of<'a>(item: &'a str) -> &'a str
    ensures { result.now ≡ after_first (λ b. b == 45) item.entry.now }
{
    match item.split_once('-') {
        Some((_, high)) => high,
        None => "",
    }
}

/// Adds this number or range, if it is right.
fn add_range(text: &mut Text, low: &str, high: &str)
    ensures { Says text.old text.new (range_said low.now high.now) }
{
    if !low.is_empty() && wrong_item(low).is_none() && wrong_item(high).is_none() {
        add_right(text, low, high);
    }
}

/// Adds this number or range.
fn add_right(text: &mut Text, low: &str, high: &str)
    ensures { Says text.old text.new (right_said low.now high.now) }
{
    text.add_text(", but ");
    text.add_text(low);
    text.add_text(hyphen_of(high));
    text.add_text(high);
    text.add_text(" is");
}

/// The hyphen of a range.
fn hyphen_of(high: &str) -> &'static str
    ensures { result.now ≡ hyphen_of high.now }
{
    if high.is_empty() { "" } else { "-" }
}

/// A number without `0x` or `U+` before it.
fn without_mark<'a>(text: &'a str) -> &'a str
    ensures { result.now ≡ without_mark text.entry.now }
{
    after_start("0x", text)
        .or(after_start("0X", text))
        .or(after_start("U+", text))
        .or(after_start("u+", text))
        .unwrap_or(text)
}

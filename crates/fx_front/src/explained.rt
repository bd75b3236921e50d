//! The lines after a run: what to do.
ghost use Rattle.std.specs.Prelude.{◌≡◌, ◌<◌, ◌&&◌, codes, if◌then◌else◌};
ghost use Rattle.fx_fixed.specs.Changes.{change_of};
ghost use Rattle.fx_words.specs.Parts.{seen, text_in, texts, value_in};
ghost use Rattle.fx_front.specs.Lines.{Says, SaysLine, Tells};
ghost use Rattle.fx_front.specs.Places.{is_named};
ghost use Rattle.fx_front.specs.Advised.{after_halt, are_missing, code_said, codes_said, ends_in, file_said};
ghost use Rattle.fx_front.specs.Advised.{first_line, first_said, fonts_in, fonts_said, is_other, missing_said, named_said};
ghost use Rattle.fx_front.specs.Advised.{no_glyph_said, refusal_said, second_line, several_said, start_of, strike_said, why_no_glyph};

use crate::asked::AskedRun;
use crate::facts::{Counts, Facts, RefusalFacts};
use crate::kinds::known_kind;
use crate::lines::tell;
use crate::listed::add_list;
use crate::mistaken::add_usage;
use crate::run::Ended;
use crate::text::Text;
use crate::tool::Tool;
use fx_fixed::{Digits, Sink};
use fx_words::has;
use std::alloc::Global;

/// The endings of files of other formats.
const OTHERS: [&str; 14] = [
    ".psf", ".psfu", ".pcf", ".otb", ".png", ".pbm", ".h", ".c", ".gz", ".pf2", ".fnt", ".fon",
    ".hex", ".ttf",
];

/// The advice on a file whose name has such an ending.
const IS_BDF: &str =
    "'%' is BDF, like every strike; strike --format of the package python3-mkstrike makes psf, pcf, otb, png, c and gfx";

const IS_VARIABLE: &str = "the font is a variable font, and this is its default instance";

const HAS_BITMAPS: &str =
    "the font has bitmaps of its own at this size, which are not used: the strike is drawn from its outlines";

const LACKS_ALL: &str =
    "the font has none of the requested characters; --chars is hexadecimal, and the letter A is 41";

const IS_CUT: &str =
    "the font has more than 65,536 characters, and the strike has only the first of them; --chars chooses others";

const IS_BLANK: &str = "no pixel of the strike is set: its characters are blank";

/// Writes at most two lines after a run, which say what to do.
pub(crate) fn say_after<G: Tool, E: Sink>(
    alloc: Global,
    program: &G,
    task: &AskedRun<'_, '_>,
    ended: Ended,
    err: &mut E,
)
    ensures { let parts = seen task.now.parts.now in (between : E)
        × SaysLine (change_of E.held E.fault_count err.old between) × SaysLine (change_of E.held E.fault_count between err.new)
        × Tells (change_of E.held E.fault_count err.old between) (first_line (G.learned program.now) ended.status parts)
        × Tells (change_of E.held E.fault_count between err.new) (second_line (G.learned program.now) ended.status ended.is_blank
        parts (text_in task.now.command) G.wrong_in G.wrong_item) }
{
    let mut file = Text::new(alloc);
    add_first_line(&mut file, program.facts(), task, ended.status);
    tell(alloc, err, &file);
    let mut run = Text::new(alloc);
    add_run(alloc, &mut run, program, task, ended);
    tell(alloc, err, &run);
}

/// Adds advice on the font or on the name of the file, after a run that is done.
fn add_first_line(text: &mut Text, facts: &Facts, task: &AskedRun<'_, '_>, status: u8)
    ensures { Says text.old text.new (first_line facts.now status (seen task.now.parts.now)) }
{
    if status == 0 {
        add_font_or_file(text, facts, task);
    }
}

/// Adds advice on a file name that promises another format, on a variable font, or on a font with bitmaps.
fn add_font_or_file(text: &mut Text, facts: &Facts, task: &AskedRun<'_, '_>)
    ensures { let parts = seen task.now.parts.now in
        Says text.old text.new (file_said facts.now parts.is_make parts.output) }
{
    if task.parts.is_make && is_other(task.parts.output) {
        text.add_with(IS_BDF, task.output_name());
    } else if facts.font.is_variable {
        text.add_text(IS_VARIABLE);
    } else if facts.font.has_bitmaps {
        text.add_text(HAS_BITMAPS);
    }
}

/// Whether a name ends like that of a file of another format.
#[tactic(auto, unfolding(crate::specs::Advised::endings))]
fn is_other(name: Option<&str>) -> bool
    ensures { result ≡ is_other (text_in name.entry) }
{
    match name {
        Some(name) => ends_in(&OTHERS, name),
        None => false,
    }
}

/// Whether a name has one of these endings.
fn ends_in(endings: &[&str], name: &str) -> bool
    ensures { result ≡ ends_in (texts endings.now) name.now }
{
    // No ending so far is the name's.
    'endings: for ending in endings {
        if name.as_bytes().ends_with(ending.as_bytes()) {
            return true;
        }
    }
    false
}

/// Adds advice on a run.
#[tactic(auto, unfolding(crate::specs::Advised::second_line))]
fn add_run<G: Tool>(
    alloc: Global,
    text: &mut Text,
    program: &G,
    task: &AskedRun<'_, '_>,
    ended: Ended,
)
    ensures { Says text.old text.new (second_line (G.learned program.now) ended.status ended.is_blank (seen task.now.parts.now)
        (text_in task.now.command) G.wrong_in G.wrong_item) }
{
    let facts = program.facts();
    match (ended.status, facts.strike, facts.refused) {
        (0, Some(counts), _) => add_strike(text, task, facts, counts, ended.is_blank),
        (1, _, Some(refused)) => add_refusal(alloc, text, program, task, refused),
        (0 | 1, _, _) => {}
        _ => add_usage(alloc, text, program, task),
    }
}

/// Adds advice on a strike.
fn add_strike(
    text: &mut Text,
    task: &AskedRun<'_, '_>,
    facts: &Facts,
    counts: Counts,
    is_blank: bool,
)
    ensures { Says text.old text.new (strike_said facts.now counts is_blank (seen task.now.parts.now)) }
{
    if facts.font.is_cut {
        text.add_text(IS_CUT);
    } else if counts.glyphs == 0 {
        add_no_glyph(text, task, facts, counts);
    } else if counts.missing > 0 {
        add_missing(text, facts, counts.missing);
    } else {
        text.add_if(is_blank, IS_BLANK);
    }
}

/// Adds why a strike has no glyph.
fn add_no_glyph(text: &mut Text, task: &AskedRun<'_, '_>, facts: &Facts, counts: Counts)
    ensures { Says text.old text.new (no_glyph_said facts.now counts (seen task.now.parts.now)) }
{
    text.add_with("the strike has no glyph: %", why_no_glyph(task, counts));
    add_first(text, facts.font.first, counts.missing);
}

/// Adds where the characters of a font begin that has none of the requested ones, as a symbol font or a font of icons.
fn add_first(text: &mut Text, first: Option<u32>, missing: u32)
    ensures { Says text.old text.new (first_said missing first) }
{
    match first {
        Some(first) if missing > 0 => add_code(text, first),
        _ => {}
    }
}

/// Adds the first character of a font.
fn add_code(text: &mut Text, first: u32)
    ensures { Says text.old text.new (code_said first) }
{
    text.add_text("; the font's characters begin at U+");
    text.add(Digits::hexadecimal(u64::from(first), 4).text());
}

/// Why a strike has no glyph.
fn why_no_glyph(task: &AskedRun<'_, '_>, counts: Counts) -> &'static str
    ensures { let parts = task.now.parts.now in let words = texts parts.words.items in
        result.now ≡ why_no_glyph counts.missing
        (value_in (if parts.is_make then codes "--chars" else codes "--char") words) words }
{
    if counts.missing > 0 {
        LACKS_ALL
    } else if task.list() == Some("") {
        "the list of characters is empty"
    } else if has(&task.parts.words, "--all") {
        "the font has no character, or all are refused"
    } else {
        "the requested characters are refused"
    }
}

/// Adds which characters are missing.
fn add_missing(text: &mut Text, facts: &Facts, count: u32)
    ensures { Says text.old text.new (missing_said count facts.now.font.missing facts.now.font.has_more) }
{
    text.add_number(u64::from(count));
    text.add_text(are_missing(count));
    add_named(text, &facts.font.missing, facts.font.has_more);
}

/// That this number of characters is missing.
fn are_missing(count: u32) -> &'static str
    ensures { result.now ≡ are_missing count }
{
    if count == 1 {
        " of the requested characters is missing in the font"
    } else {
        " of the requested characters are missing in the font"
    }
}

/// Adds these characters by name, if there are any.
fn add_named(text: &mut Text, missing: &Text, has_more: bool)
    ensures { Says text.old text.new (named_said missing.now has_more) }
{
    match missing.bytes() {
        Some(named) if !named.is_empty() => add_codes(text, named, has_more),
        _ => {}
    }
}

/// Adds these characters, and whether there are more.
fn add_codes(text: &mut Text, missing: &[u8], has_more: bool)
    ensures { Says text.old text.new (codes_said missing.now has_more) }
{
    text.add_text(": ");
    text.add(missing);
    text.add_if(has_more, ",..; --missing names all");
}

/// Adds what to do after a refusal.
fn add_refusal<G: Tool>(
    alloc: Global,
    text: &mut Text,
    program: &G,
    task: &AskedRun<'_, '_>,
    refused: RefusalFacts,
)
    ensures { Says text.old text.new (refusal_said refused (start_of (G.learned program.now))
        (is_named (text_in task.now.command) (codes "trace")) (seen task.now.parts.now) G.wrong_item) }
{
    let advice = refused.advice;
    match (refused.number, &program.facts().font.start) {
        (10, Some(start)) => text.add_text(known_kind(start).unwrap_or(advice)),
        (17..=23, _) if task.parts.is_make => {
            text.add_with("%; --refused leave-out does so", advice)
        }
        (24, _) if task.names_glyph(refused.glyph) => {
            text.add_text("the font has no glyph of that number")
        }
        (25, Some(start)) => add_faces(text, fonts_in(start)),
        (30..=41, _) => add_halt(text, task, refused),
        (61, _) => add_list(alloc, text, program, task, advice),
        _ => text.add_text(advice),
    }
}

/// Adds what to do after a halt. A trace always runs the programs.
fn add_halt(text: &mut Text, task: &AskedRun<'_, '_>, refused: RefusalFacts)
    ensures { Says text.old text.new (after_halt task.now.parts.now.is_make refused.is_halted_glyph
        (is_named (text_in task.now.command) (codes "trace")) refused.advice.now) }
{
    text.add_if(
        draws_unhinted(task, refused),
        "--refused unhinted draws such characters without hinting; ",
    );
    text.add_if(
        !task.is("trace"),
        "with --unhinted no program of the font runs; ",
    );
    text.add_with("to fix the font, %", refused.advice);
}

/// Whether a strike may draw the refused glyph without hinting.
fn draws_unhinted(task: &AskedRun<'_, '_>, refused: RefusalFacts) -> bool
    ensures { result ≡ (task.now.parts.now.is_make && refused.is_halted_glyph) }
{
    task.parts.is_make && refused.is_halted_glyph
}

/// How many fonts a collection has, by its first twelve bytes; none for another file.
fn fonts_in(start: &[u8]) -> Option<u32>
    ensures { result ≡ fonts_in start.now }
{
    match start {
        [t, u, v, w, _, _, _, _, a, b, c, d] if [*t, *u, *v, *w] == *b"ttcf" => {
            Some(u32::from_be_bytes([*a, *b, *c, *d]))
        }
        _ => None,
    }
}

/// Adds how many faces a file has; none, if it is no collection.
fn add_faces(text: &mut Text, fonts: Option<u32>)
    ensures { Says text.old text.new (fonts_said fonts) }
{
    match fonts {
        None => text.add_text("the file is no collection: leave --face out"),
        Some(0) => text.add_text("the collection has no font"),
        Some(1) => text.add_text("the collection has one font: leave --face out"),
        Some(count) => add_several(text, count),
    }
}

/// Adds how many fonts a collection has.
fn add_several(text: &mut Text, count: u32)
    requires { 0 < count }
    ensures { Says text.old text.new (several_said count) }
{
    text.add_text("the collection has ");
    text.add_number(u64::from(count));
    text.add_text(" fonts: --face takes 0 to ");
    text.add_number(u64::from(count - 1));
}

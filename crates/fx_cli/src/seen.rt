//! What a front learns of the font of a run.
ghost use Rattle.std.specs.Prelude.{◌≡◌, ◌⊎◌, [], option_map, slice_get};
ghost use Rattle.fx_arguments.specs.Commands.{seen, seen_characters, seen_make, seen_task};
ghost use Rattle.fx_cmap.specs.Lookup.{map_of};
ghost use Rattle.fx_request.specs.Characters.{rising};
ghost use Rattle.fx_cli.specs.Missing.{Names, lacking, ranges_of};
ghost use Rattle.fx_cli.specs.Seen.{Sees, SeesStart, characters_of, draws, first_of, has_own_bitmaps, has_too_many, is_cut};
ghost use Rattle.fx_cli.specs.Seen.{is_variable, lacked_in, lacked_of, made_of, made_with, seen_made, takes_all, unseen};

use crate::bitmaps::has_bitmaps;
use crate::missing::{Missing, missing_of};
use fx_arguments::{CharacterChoice, Command, Done, Make, Task};
use fx_cmap::CharMap;
use fx_front::{FontFacts, Text};
use fx_request::{MAX_CHARACTERS, MAX_CODE, Refusal, Report, rising_codes};
use fx_sfnt::{Font, FontFault, FontFile};
use std::alloc::Global;

/// A strike that was made: its counts, the size and the characters that were asked for, its font and the font's map.
#[derive(Drop)]
pub struct Made<'s, 'f> {
    pub report: Report,
    pub ppem: u16,
    pub chars: &'s CharacterChoice,
    pub font: &'s Font<'f>,
    pub map: CharMap<'f>,
}

/// Before a run nothing is known of its font.
pub(crate) fn unseen(alloc: Global) -> FontFacts
    ensures { result ≡ unseen }
{
    FontFacts {
        start: None,
        is_variable: false,
        has_bitmaps: false,
        missing: Text::new(alloc),
        has_more: false,
        first: None,
        is_cut: false,
    }
}

/// What is seen of a font, when the task of a command with it came to this.
pub(crate) fn seen_of(
    alloc: Global,
    names_all: bool,
    command: &Command<'_>,
    font: &FontFile<'_>,
    outcome: &Result<Done, Refusal>,
) -> FontFacts
    ensures { Sees (seen command.now) font.now outcome.now names_all result }
{
    let opened = Font::open(font);
    let made = made_of(outcome, &command.task, &opened);
    let missing = missing_in(alloc, &made, names_all);
    FontFacts {
        start: start_of(alloc, command.hex, font.bytes()),
        is_variable: is_variable(outcome, &opened),
        has_bitmaps: has_own_bitmaps(&made),
        missing: missing.text,
        has_more: missing.has_more,
        first: first_of(&made),
        is_cut: is_cut(&made),
    }
}

/// The first bytes of a font's file, unless it is hexadecimal text, if there is memory for them.
fn start_of(alloc: Global, is_hex: bool, bytes: &[u8]) -> Option<Vec<u8>>
    ensures { SeesStart is_hex bytes.now (option_map (λ start. start.items) result) }
{
    if is_hex {
        return None;
    }
    let start = bytes.get(..12).unwrap_or(bytes);
    Vec::from_slice(alloc, start).ok()
}

/// Whether glyphs of a variable font were drawn.
fn is_variable(outcome: &Result<Done, Refusal>, font: &Result<Font<'_>, FontFault>) -> bool
    ensures { result ≡ is_variable outcome.now font.now }
{
    match (outcome, font) {
        (Ok(done), Ok(font)) => draws(*done) && font.table(*b"fvar").is_some(),
        _ => false,
    }
}

/// Whether a task draws glyphs: of a variable font these are its default instance's.
fn draws(done: Done) -> bool
    ensures { result ≡ draws done }
{
    !matches!(done, Done::Listing | Done::Faces | Done::Explanation)
}

/// The strike that a task came to.
fn made_of<'s, 'f>(
    outcome: &Result<Done, Refusal>,
    task: &'s Task<'_>,
    font: &'s Result<Font<'f>, FontFault>,
) -> Option<Made<'s, 'f>>
    ensures { option_map seen_made result ≡ made_of outcome.now (seen_task task.entry.now) font.entry.now }
{
    match (outcome, task, font) {
        (Ok(Done::Strike(report)), Task::Strike(make), Ok(font)) => made_with(*report, make, font),
        _ => None,
    }
}

/// A strike of a font, unless the font's map can't be opened.
fn made_with<'s, 'f>(report: Report, make: &'s Make<'_>, font: &'s Font<'f>) -> Option<Made<'s, 'f>>
    ensures { option_map seen_made result ≡ made_with report (seen_make make.entry.now) font.entry.now (map_of font.entry.now) }
{
    match CharMap::open(font) {
        Ok(map) => Some(Made {
            report,
            ppem: make.ppem,
            chars: &make.chars,
            font,
            map,
        }),
        Err(_) => None,
    }
}

/// Whether the font of a strike has bitmaps of its own at the strike's size.
fn has_own_bitmaps(made: &Option<Made<'_, '_>>) -> bool
    ensures { result ≡ has_own_bitmaps (option_map seen_made made.now) }
{
    match made {
        Some(made) => has_bitmaps(made.font, made.ppem),
        None => false,
    }
}

/// The first character of the map of a strike that has no glyph.
fn first_of(made: &Option<Made<'_, '_>>) -> Option<u32>
    ensures { result ≡ first_of (option_map seen_made made.now) }
{
    match made {
        Some(made) if made.report.glyphs == 0 => first_in(&made.map),
        _ => None,
    }
}

/// The first character of a map.
fn first_in(map: &CharMap<'_>) -> Option<u32>
    ensures { result ≡ slice_get (characters_of map.now) 0 }
{
    let mut codes = [0];
    if map.mapped_below(MAX_CODE + 1, &mut codes) == 0 {
        return None;
    }
    Some(codes[0])
}

/// Whether all characters were asked for, and the map has more than a strike takes.
fn is_cut(made: &Option<Made<'_, '_>>) -> bool
    ensures { result ≡ is_cut (option_map seen_made made.now) }
{
    match made {
        Some(made) => takes_all(made.chars) && has_too_many(&made.map),
        None => false,
    }
}

/// Whether all characters of a map were asked for.
fn takes_all(chars: &CharacterChoice) -> bool
    ensures { result ≡ takes_all (seen_characters chars.now) }
{
    matches!(chars, CharacterChoice::All)
}

/// Whether a map has more characters than a strike takes.
fn has_too_many(map: &CharMap<'_>) -> bool
    ensures { result ≡ has_too_many map.now }
{
    map.mapped_below(MAX_CODE + 1, &mut []) > MAX_CHARACTERS
}

/// The characters that are missing in a strike; none if there is no memory for them.
fn missing_in(alloc: Global, made: &Option<Made<'_, '_>>, names_all: bool) -> Missing
    ensures { Names names_all (lacked_of (option_map seen_made made.now)) result.text result.has_more
        ⊎ Names names_all [] result.text result.has_more }
{
    match made {
        Some(made) if made.report.missing > 0 => {
            lacked_in(alloc, made.chars, &made.map, names_all)
        }
        _ => Missing::new(alloc, names_all),
    }
}

/// Which of these characters a map lacks; none if there is no memory for them.
fn lacked_in(alloc: Global, chars: &CharacterChoice, map: &CharMap<'_>, names_all: bool) -> Missing
    ensures { Names names_all (lacked_in (seen_characters chars.now) map.now) result.text result.has_more
        ⊎ Names names_all [] result.text result.has_more }
{
    match chars {
        CharacterChoice::Listed(chars) => listed_missing(alloc, chars, map, names_all),
        CharacterChoice::All => Missing::new(alloc, names_all),
    }
}

/// Which characters of a list a map lacks; none if there is no memory for them.
fn listed_missing(alloc: Global, chars: &[u32], map: &CharMap<'_>, names_all: bool) -> Missing
    ensures { Names names_all (ranges_of (lacking map.now (rising chars.now))) result.text result.has_more
        ⊎ Names names_all [] result.text result.has_more }
{
    match rising_codes(alloc, chars) {
        Ok(codes) => missing_of(alloc, &codes, map, names_all),
        Err(_) => Missing::new(alloc, names_all),
    }
}

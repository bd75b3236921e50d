//! From a request and a file to a size, a font and its character map.
ghost use Rattle.std.specs.Prelude.{◌≡◌, nat_lt, Ok, IfErr, OnOk};
ghost use Rattle.std.specs.List.{list_any};
ghost use Rattle.fx_strike.specs.Title.{title_of, titled};
ghost use Rattle.fx_strike.specs.Strike.{checked_chars, checked_properties, checked_text, checked_title, font_with_map};
ghost use Rattle.fx_strike.specs.Strike.{opened_many_of, opened_at, max_code};
ghost use Rattle.fx_strike.specs.inner.Surveying.{AreChars, IsChecked};
ghost use Rattle.fx_strike.specs.Headline.{IsCause, opening_of};

use crate::opened::Opened;
use fx_bdf::{Title, check_name, first_bad};
use fx_cmap::CharMap;
use fx_fixed::Ppem;
use fx_request::{MAX_CHARACTERS, MAX_CODE, Refusal, Request};
use fx_sfnt::{Font, FontFile};

/// Whether a code point is past U+10FFFF. It looks at all of them, since the compiler then takes several at once.
fn is_past(chars: &[u32]) -> bool
    ensures { result ≡ list_any (nat_lt max_code) chars.now }
{
    let mut past = false;
    // `past` says whether one of the code points before this one is.
    'codes: for code in chars {
        past |= MAX_CODE < *code;
    }
    past
}

/// Whether characters are within their limits.
#[tactic(auto, unfolding(crate::specs::Strike::checked_chars))]
pub fn check_chars(chars: &[u32]) -> Result<(), Refusal>
    ensures due { result ≡ checked_chars chars.now }
    ensures named { IfErr result IsCause }
    ensures passed { OnOk result (AreChars chars.now) }
{
    if MAX_CHARACTERS < chars.len() || is_past(chars) {
        return Err(Refusal::BadChars);
    }
    Ok(())
}

/// Whether characters, a name and properties are within their limits.
#[tactic(auto, unfolding(crate::specs::Strike::checked_text, crate::specs::Strike::checked_title, crate::specs::Strike::checked_properties))]
pub(crate) fn check_text(title: &Title<'_>, chars: &[u32]) -> Result<(), Refusal>
    ensures due { result ≡ checked_text (titled title.now) chars.now }
    ensures named { IfErr result IsCause }
    ensures passed { OnOk result (AreChars chars.now) }
    ensures title { OnOk result (IsChecked (titled title.now)) }
{
    check_chars(chars)?;
    if check_name(title.name).is_err() {
        return Err(Refusal::BadName);
    }
    match first_bad(title.properties) {
        Some(i) => Err(Refusal::BadProperty(i as u32 + 1)),
        None => Ok(()),
    }
}

/// A font with its character map.
#[tactic(auto, unfolding(crate::specs::Strike::font_with_map))]
pub fn font_with_map<'a>(file: &FontFile<'a>) -> Result<(Font<'a>, CharMap<'a>), Refusal>
    ensures due { result ≡ font_with_map file.now }
    ensures named { IfErr result IsCause }
{
    let font = Font::open(file)?;
    let map = CharMap::open(&font)?;
    Ok((font, map))
}

/// The size, the font and its character map, for a request that passes its checks. No memory is taken.
#[tactic(auto, unfolding(crate::specs::Strike::opened_after))]
pub(crate) fn open<'a>(file: &FontFile<'a>, request: &Request<'_>) -> Result<Opened<'a>, Refusal>
    ensures due { result ≡ opening_of file.now request.now }
    ensures named { IfErr result IsCause }
    ensures passed { OnOk result (AreChars request.now.chars.now) }
    ensures title { OnOk result (IsChecked (title_of request.now)) }
{
    let ppem = Ppem::new(request.ppem).ok_or(Refusal::BadSize)?;
    check_text(&request.title, request.chars)?;
    let (font, map) = font_with_map(file)?;
    Ok(Opened { ppem, font, map })
}

/// The size, the font and its character map, for characters that are made one by one.
#[tactic(auto, unfolding(crate::specs::Strike::opened_after))]
pub fn open_many<'a>(file: &FontFile<'a>, ppem: u16, chars: &[u32]) -> Result<Opened<'a>, Refusal>
    ensures due { result ≡ opened_many_of file.now ppem chars.now }
    ensures named { IfErr result IsCause }
    ensures passed { OnOk result (Ok tt ≡ checked_chars chars.now) }
{
    let ppem = Ppem::new(ppem).ok_or(Refusal::BadSize)?;
    check_chars(chars)?;
    let (font, map) = font_with_map(file)?;
    Ok(Opened { ppem, font, map })
}

/// The size, the font and its character map, for no character yet.
#[tactic(auto, unfolding(crate::specs::Strike::checked_chars))]
pub fn open_at<'a>(file: &FontFile<'a>, ppem: u16) -> Result<Opened<'a>, Refusal>
    ensures due { result ≡ opened_at file.now ppem }
    ensures named { IfErr result IsCause }
{
    open_many(file, ppem, &[])
}

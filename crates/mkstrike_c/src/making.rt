//! A strike for C.
ghost use Rattle.std.specs.Prelude.{◌≡◌, ◌<◌, ◌≤◌, ◌^◌, true, IfOk, IfErr};
ghost use Rattle.fx_fixed.specs.Changes.{change_of};
ghost use Rattle.fx_strike.specs.Strike.{opened_of, plan_of};
ghost use Rattle.fx_strike.specs.Headline.{Makes, opening_of, strike_of};
ghost use Rattle.mkstrike_c.specs.FontAt.{file_at};
ghost use Rattle.mkstrike_c.specs.Made.{AreNamesAlike, HoldsText, IsMade, called, told_of};
ghost use Rattle.mkstrike_c.specs.Modes.{is_strike_mode, mode_of};
ghost use Rattle.mkstrike_c.specs.Refused.{IsReason, IsRefused};

use crate::buffer::put_front;
use crate::font_at::FontAt;
use crate::mode::{is_strike_mode, is_x11, mode_of};
use crate::refused::{Refused, refuse, refuse_mode};
use crate::sink::TextSink;
use fx_fixed::Sink;
use fx_request::{OnRefused, Refusal, Report, Request};
use fx_sfnt::FontFile;
use fx_strike::{Title, make_strike, make_strike_sparing};
use std::alloc::Global;

/// What is told of a strike.
#[repr(C)]
#[derive(Clone, Copy)]
pub struct Told {
    /// The number of bytes of the strike's text.
    pub bytes: usize,
    /// The number of glyphs: one for each requested character that the font has.
    pub glyphs: u32,
    /// The number of requested characters that the font does not have.
    pub missing: u32,
    /// The numbers outside their tables that font programs named; the count stays at the greatest `u64`.
    pub strays: u64,
    /// The instructions that font programs executed; the count stays at the greatest `u64`.
    pub steps: u64,
}

/// What is told of a strike of this text.
fn told_of(text: &[u8], report: Report) -> Told
    ensures { result ≡ told_of text.now report }
{
    Told {
        bytes: text.len(),
        glyphs: report.glyphs,
        missing: report.missing,
        strays: report.usage.strays,
        steps: report.usage.steps,
    }
}

/// The text of a strike in memory, and what was counted over it. If memory runs out, all of it is given back, and the strike is
/// made once more in as little as it needs: more memory never fails where less is enough.
fn text_of(
    alloc: Global,
    font: &FontFile<'_>,
    request: &Request<'_>,
) -> Result<(TextSink, Report), Refusal>
    ensures text { IfOk result (λ made. HoldsText (strike_of font.now request.now) (⟦<TextSink as Sink>⟧.held made.0) made.1) }
    ensures refused { IfErr result (IsReason (opening_of font.now request.now) (strike_of font.now request.now)) }
{
    match text_in(alloc, font, request, true) {
        Err(Refusal::OutOfMemory) => text_in(alloc, font, request, false),
        done => done,
    }
}

/// Makes a strike, with room for what is only kept to save time or without.
fn strike_in<W: Sink>(
    alloc: Global,
    font: &FontFile<'_>,
    request: &Request<'_>,
    has_room: bool,
    out: &mut W,
) -> Result<Report, Refusal>
    requires { W.fault_count out.old < 2 ^ 63 }
    ensures { Makes (opening_of font.now request.now) (strike_of font.now request.now)
        (change_of W.held W.fault_count out.old out.new) result }
{
    if has_room {
        make_strike(alloc, font, request, out)
    } else {
        make_strike_sparing(alloc, font, request, out)
    }
}

/// The same in memory.
fn text_in(
    alloc: Global,
    font: &FontFile<'_>,
    request: &Request<'_>,
    has_room: bool,
) -> Result<(TextSink, Report), Refusal>
    ensures text { IfOk result (λ made. HoldsText (strike_of font.now request.now) (⟦<TextSink as Sink>⟧.held made.0) made.1) }
    ensures refused { IfErr result (IsReason (opening_of font.now request.now) (strike_of font.now request.now)) }
{
    let mut sink = TextSink::new(alloc);
    match strike_in(alloc, font, request, has_room, &mut sink) {
        Ok(report) => Ok((sink, report)),
        Err(Refusal::WriteFailed(_)) => Err(Refusal::OutOfMemory),
        Err(refusal) => Err(refusal),
    }
}

/// A name as text. If it is not UTF-8 the text is empty, which is no name either.
fn name_of(name: &[u8]) -> &str
    ensures { AreNamesAlike name.now result.now }
{
    match str::from_utf8(name) {
        Ok(text) => text,
        Err(_) => "",
    }
}

/// The same for a name of any bytes.
fn text_for<'r>(
    alloc: Global,
    font: &FontFile<'_>,
    ppem: u16,
    mode: u32,
    chars: &'r [u32],
    name: &'r [u8],
) -> Result<(TextSink, Report), Refusal>
    ensures text { IfOk result (λ made. HoldsText
        (plan_of font.now ppem (called mode name.now) chars.now (mode_of mode) OnRefused.Stop)
        (⟦<TextSink as Sink>⟧.held made.0) made.1) }
    ensures refused { IfErr result (IsReason (opened_of font.now ppem (called mode name.now) chars.now)
        (plan_of font.now ppem (called mode name.now) chars.now (mode_of mode) OnRefused.Stop)) }
{
    let request = Request {
        ppem,
        title: Title {
            name: name_of(name),
            properties: &[],
            x11: is_x11(mode),
        },
        chars,
        mode: mode_of(mode),
        on_refused: OnRefused::Stop,
    };
    text_of(alloc, font, &request)
}

/// Makes the strike of a font. Copies as much of its text to the front of `out` as fits, and tells of it; the number of bytes is
/// that of the whole text. Returns 0; or the number of a refusal, whose fields it puts into `refused`.
#[unsafe(no_mangle)]
pub extern "C" fn proved_mkstrike_make(
    at: &FontAt<'_>,
    chars: &[u32],
    name: &[u8],
    out: &mut [u8],
    told: &mut Told,
    refused: &mut Refused,
) -> u32
    // No bit of the mode is unknown.
    ensures known { result ≡ 0 → is_strike_mode at.now.mode ≡ true }
    // The strike exists, and as much of its text as fits was copied.
    ensures made { result ≡ 0 → IsMade
        (plan_of (file_at at.now) at.now.ppem (called at.now.mode name.now) chars.now (mode_of at.now.mode) OnRefused.Stop)
        out.old out.new told.new }
    // The mode was named; or the first cause; or memory was refused, after the request passed its checks and the font and its map
    // opened.
    ensures refused { 0 < result → IsRefused (is_strike_mode at.now.mode)
        (opened_of (file_at at.now) at.now.ppem (called at.now.mode name.now) chars.now)
        (plan_of (file_at at.now) at.now.ppem (called at.now.mode name.now) chars.now (mode_of at.now.mode) OnRefused.Stop)
        result refused.new }
    // A refusal leaves the buffer and what is told as they were, and a strike the refusal's fields.
    ensures kept { 0 < result → (out.new ≡ out.old) × (told.new ≡ told.old) }
    ensures silent { result ≡ 0 → refused.new ≡ refused.old }
{
    if !is_strike_mode(at.mode) {
        return refuse_mode(refused);
    }
    match text_for(at.alloc, &at.file(), at.ppem, at.mode, chars, name) {
        Ok((sink, report)) => {
            put_front(out, sink.text());
            *told = told_of(sink.text(), report);
            0
        }
        Err(refusal) => refuse(refusal, refused),
    }
}

//! From a font and a request to a strike, or to its survey.
ghost use Rattle.std.specs.Prelude.{◌<◌, ◌^◌, IfOk, IfErr, IsErrOf};
ghost use Rattle.fx_fixed.specs.Changes.{change_of};
ghost use Rattle.fx_request.specs.Notices.{Told};
ghost use Rattle.fx_strike.specs.Faults.{Fails};
ghost use Rattle.fx_strike.specs.Headline.{Late, Makes, Surveyed, notices_of, opening_of, strike_of};

use crate::open::open;
use crate::striker::Striker;
use crate::surveyed::Survey;
use fx_fixed::Sink;
use fx_raster::{Rows, Scan};
use fx_request::{Deaf, Listener, Refusal, Report, Request};
use fx_sfnt::FontFile;
use std::alloc::Global;

/// Makes the strike of a font and writes its text, with a scan of the caller's choice.
///
/// There are two passes over the characters: the first makes each, surveys the strike and keeps the lines of the first ones, up
/// to 8 MiB; the second writes these, makes the others again and writes theirs. Hence nothing is written before every character
/// was made once, and beside the font, its machine with the components that it keeps, the code points and those lines only few
/// characters are held at a time. The first cause is returned, in this order: the size, the characters, the name, the properties;
/// the font's tables, its character map; with hinting on the halts of `fpgm`, then of `prep`; then, if the request stops at
/// refused characters, the characters in rising order, each by its outline, then how far out it lies and how large it is.
/// `OutOfMemory` may be returned in place of any step after the character map, and of none before it. After `WriteFailed(n)` the
/// writer holds the first n bytes of the text; after any other refusal but `OutOfMemory` nothing was written.
pub fn make_strike_with<S: Scan, W: Sink>(
    alloc: Global,
    scan: &S,
    font: &FontFile<'_>,
    request: &Request<'_>,
    out: &mut W,
) -> Result<Report, Refusal>
    requires { W.fault_count out.old < 2 ^ 63 }
    // Five clauses: `text`, `cause`, `memory`, `late` and `writer`.
    ensures { Makes (opening_of font.now request.now) (strike_of font.now request.now)
        (change_of W.held W.fault_count out.old out.new) result }
{
    make_strike_telling(alloc, scan, font, request, out, &mut Deaf)
}

/// Makes the strike of a font and writes its text.
///
/// This is `make_strike_with` with the scan by rows.
pub fn make_strike<W: Sink>(
    alloc: Global,
    font: &FontFile<'_>,
    request: &Request<'_>,
    out: &mut W,
) -> Result<Report, Refusal>
    requires { W.fault_count out.old < 2 ^ 63 }
    // Five clauses: `text`, `cause`, `memory`, `late` and `writer`.
    ensures { Makes (opening_of font.now request.now) (strike_of font.now request.now)
        (change_of W.held W.fault_count out.old out.new) result }
{
    make_strike_with(alloc, &Rows, font, request, out)
}

/// Makes the strike of a font and writes its text, as `make_strike_with` does, and tells a listener of the refused characters that
/// do not stop the strike.
///
/// The first pass tells of each such character once, in rising order, before the first byte is written.
pub fn make_strike_telling<S: Scan, W: Sink, L: Listener>(
    alloc: Global,
    scan: &S,
    font: &FontFile<'_>,
    request: &Request<'_>,
    out: &mut W,
    listener: &mut L,
) -> Result<Report, Refusal>
    requires { W.fault_count out.old < 2 ^ 63 }
    // Five clauses: `text`, `cause`, `memory`, `late` and `writer`.
    ensures made { Makes (opening_of font.now request.now) (strike_of font.now request.now)
        (change_of W.held W.fault_count out.old out.new) result }
    // The listener heard the strike's notices in turn; if memory ran out, perhaps only the first of them.
    ensures told { Told L.Hears listener.old listener.new (notices_of (strike_of font.now request.now)) result }
{
    make_strike_in(alloc, scan, font, request, true, out, listener)
}

/// Makes the strike of a font and writes its text, as `make_strike` does, and takes less memory and more time: it keeps no lines
/// and no components. What memory it asks for does not depend on how much there is.
pub fn make_strike_sparing<W: Sink>(
    alloc: Global,
    font: &FontFile<'_>,
    request: &Request<'_>,
    out: &mut W,
) -> Result<Report, Refusal>
    requires { W.fault_count out.old < 2 ^ 63 }
    // Five clauses: `text`, `cause`, `memory`, `late` and `writer`.
    ensures { Makes (opening_of font.now request.now) (strike_of font.now request.now)
        (change_of W.held W.fault_count out.old out.new) result }
{
    make_strike_in(alloc, &Rows, font, request, false, out, &mut Deaf)
}

/// The same for all of these. If there is to be no room, nothing is kept that is only made to save time.
fn make_strike_in<S: Scan, W: Sink, L: Listener>(
    alloc: Global,
    scan: &S,
    font: &FontFile<'_>,
    request: &Request<'_>,
    has_room: bool,
    out: &mut W,
    listener: &mut L,
) -> Result<Report, Refusal>
    requires { W.fault_count out.old < 2 ^ 63 }
    ensures made { Makes (opening_of font.now request.now) (strike_of font.now request.now)
        (change_of W.held W.fault_count out.old out.new) result }
    ensures told { Told L.Hears listener.old listener.new (notices_of (strike_of font.now request.now)) result }
{
    let mut striker = Striker::of(alloc, scan, open(font, request), request.mode)?;
    striker.set_room(has_room);
    striker.write_strike(
        &request.title,
        request.chars,
        request.on_refused,
        out,
        listener,
    )
}

/// Surveys the strike of a font: the numbers of its header, and what is counted over it, with a scan of the caller's choice.
///
/// It is refused as the strike is, but for the writer. `OutOfMemory` may be returned in place of any step after the character
/// map, and of none before it.
pub fn survey<S: Scan>(
    alloc: Global,
    scan: &S,
    font: &FontFile<'_>,
    request: &Request<'_>,
) -> Result<Survey, Refusal>
    // The strike exists, and these are its numbers.
    ensures survey { IfOk result (Surveyed (strike_of font.now request.now)) }
    // The first cause was named, or memory ran out.
    ensures cause { IfErr result (λ refusal. Fails refusal (strike_of font.now request.now)) }
    // The request passed its checks, and the font and its character map opened.
    ensures late { IsErrOf result Refusal.OutOfMemory → Late (opening_of font.now request.now) }
{
    let mut striker = Striker::of(alloc, scan, open(font, request), request.mode)?;
    striker.survey_chars(request.chars, request.on_refused)
}

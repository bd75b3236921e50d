//! A run of a program, whose output is a new file at a place.
ghost use Rattle.std.specs.Prelude.{◌≡◌, ◌⊎◌, ◌<◌, ◌^◌, ◌&&◌, true, false, is_some, nat_lt, not};
ghost use Rattle.fx_fixed.specs.Changes.{change_of};
ghost use Rattle.fx_words.specs.Parts.{seen, text_in};
ghost use Rattle.fx_front.specs.Fronts.{RunsFrom};
ghost use Rattle.fx_front.specs.Places.{IsStatus, ended_status, held_by, keeps};
ghost use Rattle.fx_front.specs.Lines.{SaysLine, Tells, unwritten};
ghost use Rattle.fx_front.specs.Told.{told_first, told_second, why_unwritten};

use crate::asked::AskedRun;
use crate::destination::Destination;
use crate::explained::say_after;
use crate::late::Late;
use crate::lines::say;
use crate::target::NO_FOLDER;
use crate::tool::Tool;
use fx_fixed::{Sink, Source};
use std::alloc::Global;

/// How a run ended.
#[derive(Clone, Copy)]
pub struct Ended {
    /// The status of the program.
    pub status: u8,
    /// Whether no pixel of a strike is set.
    pub is_blank: bool,
    /// Whether the file got its name.
    pub is_named: bool,
    /// Whether the file was to be made, and was not.
    pub is_unmade: bool,
}

/// Runs a program whose output is a new file at a place, and says what to do after it. The file gets its name if the status is 0,
/// or if a trace halted after some lines; else it is removed. Returns the status for the user.
pub fn run_to_file<G: Tool, P: Destination, R: Source, E: Sink>(
    alloc: Global,
    program: &mut G,
    task: &AskedRun<'_, '_>,
    reader: &mut R,
    place: &mut P,
    err: &mut E,
) -> u8
    requires reader { R.fault_count reader.old < 2 ^ 63 }
    requires err { E.fault_count err.old < 2 ^ 63 }
    ensures ran { RunsFrom (G.Ran (seen task.now.parts.now)) (change_of R.left R.fault_count) P.Names P.works P.fresh P.New.contents
        (change_of E.held E.fault_count) G.wrong_in G.wrong_item (G.learned program.new) (seen task.now.parts.now)
        (text_in task.now.command) err.old err.new result reader.old reader.new place.old place.new }
    ensures status { IsStatus result }
{
    let mut late = Late::new(&*place);
    let status = program.run(alloc, task.parts, reader, &mut late, err);
    let is_blank = late.is_blank();
    let faults = late.faults();
    let new = late.close();
    let is_unmade = is_unmade(faults, &new);
    let is_kept = keeps(&*program, task.is("trace"), status);
    let ended = Ended {
        status,
        is_blank,
        is_named: settle(place, new, status, is_kept),
        is_unmade,
    };
    say_end(alloc, &*program, task, ended, err);
    ended_status(ended.status, ended.is_named)
}

/// Whether a file was to be made, and was not: the sink that makes it counted faults.
fn is_unmade<N>(faults: u64, new: &Option<N>) -> bool
    ensures { result ≡ (nat_lt 0 faults && not (is_some new.now)) }
{
    faults > 0 && new.is_none()
}

/// The status for the user: 1 if the run was done and its file did not get its name, else the program's own.
fn ended_status(status: u8, is_named: bool) -> u8
    ensures { result ≡ ended_status status is_named }
{
    if status == 0 && !is_named { 1 } else { status }
}

/// Says after a run why its file was not made or did not get its name, or else what to do.
fn say_end<G: Tool, E: Sink>(
    alloc: Global,
    program: &G,
    task: &AskedRun<'_, '_>,
    ended: Ended,
    err: &mut E,
)
    ensures { let parts = seen task.now.parts.now in (between : E)
        × SaysLine (change_of E.held E.fault_count err.old between) × SaysLine (change_of E.held E.fault_count between err.new)
        × Tells (change_of E.held E.fault_count err.old between) (told_first (G.learned program.now) ended parts)
        × Tells (change_of E.held E.fault_count between err.new) (told_second (G.learned program.now) ended parts
        (text_in task.now.command) G.wrong_in G.wrong_item) }
{
    match why_unwritten(ended) {
        Some(why) => say_unwritten(alloc, task.output_name(), why, err),
        None => say_after(alloc, program, task, ended, err),
    }
}

/// Why the file of a run is not written: it could not be made, or did not get its name.
fn why_unwritten(ended: Ended) -> Option<&'static str>
    ensures { text_in result ≡ why_unwritten ended }
{
    if ended.is_unmade && ended.status == 1 {
        Some(NO_FOLDER)
    } else if ended.status == 0 && !ended.is_named {
        Some("the system failed to store the new file")
    } else {
        None
    }
}

/// Says why an output is not written.
pub(crate) fn say_unwritten<E: Sink>(alloc: Global, name: &str, why: &str, err: &mut E)
    ensures line { SaysLine (change_of E.held E.fault_count err.old err.new) }
    ensures told { Tells (change_of E.held E.fault_count err.old err.new)
        (unwritten name.now why.now) }
{
    say(alloc, err, &["can't write '", name, "': ", why]);
}

/// Whether the output of a failed run is kept: a trace keeps its lines before a halt.
fn keeps<G: Tool>(program: &G, is_trace: bool, status: u8) -> bool
    ensures { result ≡ keeps is_trace status (G.learned program.now) }
{
    is_trace && status == 1 && matches!(program.facts().refused, Some(refused) if refused.is_halted)
}

/// Gives a new file its name if the status is 0, also if nothing was written, or if it is kept; else removes it. Returns whether it
/// got its name.
fn settle<P: Destination>(place: &mut P, new: Option<P::New>, status: u8, is_kept: bool) -> bool
    ensures due { result ≡ true → (status ≡ 0) ⊎ (is_kept ≡ true) }
    ensures named { result ≡ true → P.Names place.old (held_by P.New.contents P.fresh new) place.new }
    ensures spared { result ≡ false → place.new ≡ place.old }
    ensures sure { status ≡ 0 → P.works place.old ≡ true → result ≡ true }
{
    let new = match new {
        None if status == 0 => place.make(),
        made => made,
    };
    match new {
        Some(new) if status == 0 || is_kept => place.name(new),
        Some(new) => {
            place.remove(new);
            false
        }
        None => false,
    }
}

//! What the arguments of a run ask for.
ghost use Rattle.std.specs.Prelude.{◌≡◌, ◌⊎◌, ◌<◌, ◌≤◌, ◌^◌, length, true, Some, None, IfOk, IfErr};
ghost use Rattle.std.specs.Io.KnownBytes.{IsAtEnd};
ghost use Rattle.fx_fixed.specs.Chain.{map_fault};
ghost use Rattle.fx_arguments.specs.Arguments.{texts};
ghost use Rattle.fx_arguments.specs.Commands.{mapped, seen_characters, seen_task};
ghost use Rattle.fx_fixed.specs.Changes.{change_of};
ghost use Rattle.fx_request.specs.declared.refusal.Refusal.TheVariants.{BadHex, OutOfMemory};
ghost use Rattle.fx_cli.specs.Mapped.{all_mapped, chosen_of};
ghost use Rattle.fx_cli.specs.Runs.{Ends, TaskLeaves, called, font_bytes};
ghost use Rattle.fx_cli.specs.Seen.{unseen};
ghost use Rattle.fx_cli.specs.Steps.{EndsFrom, Telling};

use crate::faces::put_faces;
use crate::mapped::mapped_of;
use crate::seen::seen_of;
use crate::show::put_picture;
use crate::watch::Watch;
use fx_arguments::{
    CharacterChoice, Done, Fault, LINE_BUFFER, ReadAhead, Task, Teller, arguments_of_line,
    decode_hex, read_arguments, read_line,
};
use fx_fixed::{Sink, Source, put_all};
use fx_request::Refusal;
use fx_sfnt::FontFile;
use fx_strike::{Rows, make_strike_telling};
use fx_views::{listing_of, trace_of, write_outline};
use std::alloc::{AllocError, Global};

/// Without arguments the input's first line holds them, and what follows it is the font. Does the same as `read_and_do`.
pub(crate) fn read_line_and_do<R: Source, O: Sink, E: Sink>(
    alloc: Global,
    arguments: &[&str],
    reader: &mut R,
    out: &mut O,
    teller: &mut Teller<'_, E>,
    watch: &mut Watch,
) -> Result<Done, Fault>
    requires reader { R.fault_count reader.old < 2 ^ 63 }
    requires out { O.fault_count out.old < 2 ^ 63 }
    requires given { length arguments.now ≤ 1 }
    requires unseen { watch.old.font ≡ unseen }
    ensures ends { Telling teller.old teller.new (λ told. Ends (texts arguments.now)
        (change_of R.left R.fault_count reader.old reader.new) (change_of O.held O.fault_count out.old out.new) told watch.new
        result) }
    ensures names { watch.new.names_all ≡ watch.old.names_all }
{
    let mut buffer = [0u8; LINE_BUFFER];
    let (filled, end) = read_line(reader, &mut buffer)?;
    let got = &buffer[..filled];
    let Ok(line) = str::from_utf8(&got[..end]) else {
        return Err(Fault::Usage);
    };
    let arguments = arguments_of_line(alloc, program_name(arguments), line)?;
    let ahead = ReadAhead::of(got, end);
    read_and_do(alloc, &arguments, &ahead, reader, out, teller, watch)
}

/// The program's name.
fn program_name<'a>(arguments: &[&'a str]) -> &'a str
    ensures { result.now ≡ called (texts arguments.now) }
{
    match arguments.first() {
        Some(program) => program,
        None => "mkstrike",
    }
}

/// Does what arguments ask for, with the font that it reads after what was read ahead. Tells a teller of refused characters, and
/// shows a watch that font, unless it stops before.
pub(crate) fn read_and_do<R: Source, O: Sink, E: Sink>(
    alloc: Global,
    arguments: &[&str],
    ahead: &ReadAhead<'_>,
    reader: &mut R,
    out: &mut O,
    teller: &mut Teller<'_, E>,
    watch: &mut Watch,
) -> Result<Done, Fault>
    requires reader { R.fault_count reader.old < 2 ^ 63 }
    requires out { O.fault_count out.old < 2 ^ 63 }
    requires ended { ahead.now.ended ≡ true → IsAtEnd (R.left reader.old) }
    requires unseen { watch.old.font ≡ unseen }
    ensures ends { Telling teller.old teller.new (λ told. EndsFrom (texts arguments.now) ahead.now
        (change_of R.left R.fault_count reader.old reader.new) (change_of O.held O.fault_count out.old out.new) told watch.new
        result) }
    ensures names { watch.new.names_all ≡ watch.old.names_all }
{
    let command = read_arguments(alloc, arguments)?;
    let text = ahead.read_on(alloc, reader)?;
    let bytes = font_bytes(alloc, command.hex, text)?;
    let font = FontFile::new(&bytes, command.face);
    let outcome = run_task(alloc, &command.task, &font, out, teller);
    watch.font = seen_of(alloc, watch.names_all, &command, &font, &outcome);
    late(outcome)
}

/// The bytes of the font: the text itself, or what it writes in hexadecimal digits.
fn font_bytes(alloc: Global, is_hex: bool, text: Vec<u8>) -> Result<Vec<u8>, Refusal>
    ensures bytes { IfOk result (λ bytes. font_bytes is_hex text.items ≡ Some bytes.items) }
    ensures refused { IfErr result (λ refusal. (refusal ≡ OutOfMemory)
        ⊎ ((refusal ≡ BadHex) × (font_bytes is_hex text.items ≡ None))) }
{
    if is_hex {
        decode_hex(alloc, &text)
    } else {
        Ok(text)
    }
}

/// Does a task with a font.
fn run_task<O: Sink, E: Sink>(
    alloc: Global,
    task: &Task<'_>,
    font: &FontFile<'_>,
    out: &mut O,
    teller: &mut Teller<'_, E>,
) -> Result<Done, Refusal>
    requires { O.fault_count out.old < 2 ^ 63 }
    ensures { Telling teller.old teller.new (λ told. TaskLeaves (seen_task task.now) font.now
        (change_of O.held O.fault_count out.old out.new) told result) }
{
    match task {
        Task::Strike(make) => {
            let all = all_mapped(alloc, &make.chars, font)?;
            let request = make.request(chosen_of(&make.chars, &all));
            let report = make_strike_telling(alloc, &Rows, font, &request, out, teller)?;
            Ok(Done::Strike(report))
        }
        Task::Picture(show) => {
            put_picture(alloc, show, font, out)?;
            Ok(Done::Picture)
        }
        Task::Outline(show) => {
            write_outline(alloc, font, show.ppem, show.choice, show.mode, out)?;
            Ok(Done::Outline)
        }
        Task::Listing(what) => {
            listing_of(font, *what, out)?;
            Ok(Done::Listing)
        }
        Task::Trace(trace) => {
            let there = trace_of(alloc, font, trace.ppem, trace.traced, trace.careful, out)?;
            Ok(Done::Trace(there))
        }
        Task::Faces => {
            put_faces(font, out)?;
            Ok(Done::Faces)
        }
        Task::Explanation(line) => {
            put_all(out, line)?;
            Ok(Done::Explanation)
        }
    }
}

/// The characters of a font's map, if all are asked for.
fn all_mapped(
    alloc: Global,
    chars: &CharacterChoice,
    font: &FontFile<'_>,
) -> Result<Vec<u32>, AllocError>
    ensures codes { IfOk result (λ codes. codes.items ≡ all_mapped (seen_characters chars.now) font.now) }
    ensures refused { IfErr result (λ _. seen_characters chars.now ≡ mapped) }
{
    match chars {
        CharacterChoice::Listed(_) => Ok(Vec::new(alloc)),
        CharacterChoice::All => mapped_of(alloc, font),
    }
}

/// The characters of a list, or all of these.
fn chosen_of<'a>(chars: &'a CharacterChoice, all: &'a [u32]) -> &'a [u32]
    ensures { result.now ≡ chosen_of (seen_characters chars.entry.now) all.entry.now }
{
    match chars {
        CharacterChoice::Listed(chars) => chars,
        CharacterChoice::All => all,
    }
}

/// A task's result as the end of a run.
fn late(outcome: Result<Done, Refusal>) -> Result<Done, Fault>
    ensures { result ≡ map_fault Fault.Late outcome }
{
    match outcome {
        Ok(done) => Ok(done),
        Err(refusal) => Err(Fault::Late(refusal)),
    }
}

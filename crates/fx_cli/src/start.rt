//! The start of the program.
ghost use Rattle.std.specs.Prelude.{◌≡◌, ◌<◌, ◌^◌, map, string_bytes, IfOk};
ghost use Rattle.fx_fixed.specs.Changes.{change_of};
ghost use Rattle.fx_arguments.specs.Arguments.{texts};
ghost use Rattle.fx_arguments.specs.Lines.{Tells, outcome_line, status_of};
ghost use Rattle.fx_front.specs.Places.{IsStatus};
ghost use Rattle.fx_cli.specs.Runs.{unread_outcome};

use crate::mkstrike::Mkstrike;
use fx_arguments::{Done, Fault, Teller};
use fx_fixed::{Sink, ToSink};
use fx_front::{System, answer_or_run, say_not_text};
use fx_request::Refusal;
use std::alloc::{AllocError, Global};
use std::io::ErrorKind;
use std::{env, io};

/// Runs the program on the arguments that the system gives, with its font and its output by name or on the standard streams.
/// Returns the status: 0, 1 or 2. Nothing is buffered between it and the system's files, so that no byte is lost after it returns.
pub fn run_program(rt: &HostRuntime) -> u8
    ensures { IsStatus result }
{
    let alloc = rt.alloc();
    let arguments = match arguments_of(rt) {
        Ok(arguments) => arguments,
        Err(fault) => return say_unread(rt, &fault),
    };
    let words = match texts_of(alloc, &arguments) {
        Ok(words) => words,
        Err(fault) => return say_unread(rt, &io::Error::from(fault)),
    };
    let mut program = Mkstrike::new(alloc);
    let mut out = ToSink::new(rt.stdout());
    let mut err = ToSink::new(rt.stderr());
    match answer_or_run(
        alloc,
        &mut program,
        &words,
        &System { rt },
        &mut out,
        &mut err,
    ) {
        Ok(status) => status,
        Err(fault) => say_unread(rt, &io::Error::from(fault)),
    }
}

/// The arguments that the system gives.
fn arguments_of(rt: &HostRuntime) -> io::Result<Vec<String>> {
    Ok(env::args(rt)?.collect(rt.alloc())?)
}

/// Says why there are no arguments, or that memory ran out before the program began. Returns the status.
#[tactic(auto, using(crate::proofs::Telling::status_is))]
fn say_unread(rt: &HostRuntime, fault: &io::Error) -> u8
    ensures { IsStatus result }
{
    let mut err = ToSink::new(rt.stderr());
    let status = unread(&mut err, fault.kind());
    if status == 2 {
        say_not_text(rt.alloc(), &mut err);
    }
    status
}

/// The arguments as texts.
fn texts_of<'a>(alloc: Global, arguments: &'a [String]) -> Result<Vec<&'a str>, AllocError>
    ensures { IfOk result (λ all. texts all.items ≡ map string_bytes arguments.entry.now) }
{
    let mut texts = Vec::new(alloc);
    // The arguments so far were pushed.
    'arguments: for argument in arguments {
        texts.push(argument.as_str())?;
    }
    Ok(texts)
}

/// Writes why the system gives no arguments: out of memory, or an argument that is not text, which is a usage fault. Returns the
/// status.
pub fn unread<E: Sink>(err: &mut E, kind: ErrorKind) -> u8
    requires { E.fault_count err.old < 2 ^ 63 }
    ensures status { result ≡ status_of (unread_outcome kind) }
    ensures line { Tells (outcome_line (unread_outcome kind)) (change_of E.held E.fault_count err.old err.new) }
{
    let mut teller = Teller::new(err);
    let status = teller.status(&unread_outcome(kind));
    teller.close();
    status
}

/// How a run ends without arguments.
fn unread_outcome(kind: ErrorKind) -> Result<Done, Fault>
    ensures { result ≡ unread_outcome kind }
{
    match kind {
        ErrorKind::OutOfMemory => Err(Fault::Early(Refusal::OutOfMemory)),
        _ => Err(Fault::Usage),
    }
}

//! A watcher that writes a trace.

ghost use Rattle.std.specs.Prelude.{◌≡◌, ◌<◌, ◌^◌, [], Some, None, OnOk};
ghost use Rattle.fx_fixed.specs.Texts.{begun};
ghost use Rattle.fx_trace.specs.Lines.{begin_text, line_text};
ghost use Rattle.fx_trace.specs.Snapshots.{snapshot_of};
ghost use Rattle.fx_trace.specs.inner.Telling.{Says, unstopped};

use crate::fault::Stop;
use crate::line::{add_begin, add_line};
use crate::snapshot::Snapshot;
use crate::text::TraceText;
use crate::wanted::TracedPrograms;
use fx_code::Code;
use fx_fixed::Sink;
use fx_hint::{ComponentOf, RunWatching, RunningProgram};
use fx_machine::{FontProgram, State};
use std::alloc::{AllocError, Global};

/// Adds lines to a text, until the text stops.
#[derive(Drop)]
pub struct Tracer<'w, S: Sink> {
    pub alloc: Global,
    pub text: TraceText<'w, S>,
    pub wanted: TracedPrograms,
    /// What is kept of the state before the next instruction, if lines are written.
    pub before: Option<Snapshot>,
}

/// Adds the line of a program that begins, and keeps its first state.
fn begin_text<S: Sink>(
    alloc: Global,
    text: &mut TraceText<'_, S>,
    component: Option<ComponentOf>,
    program: FontProgram,
    kept: &mut Option<Snapshot>,
    state: &State,
)
    ensures said { Says text.old text.new (begin_text component program) }
    ensures kept { OnOk text.new.outcome (kept.new ≡ Some (snapshot_of state.now)) }
{
    match Snapshot::of(alloc, state) {
        Ok(first) => {
            add_begin(text, component, program);
            *kept = Some(first);
        }
        Err(AllocError) => text.stop(Stop::OutOfMemory),
    }
}

/// Adds the line of an instruction, and keeps the state after it.
fn tell<S: Sink>(
    text: &mut TraceText<'_, S>,
    program: FontProgram,
    code: &Code<'_>,
    address: usize,
    kept: &mut Snapshot,
    state: &State,
)
    ensures said { Says text.old text.new (line_text program code.now address kept.old state.now) }
    ensures kept { OnOk text.new.outcome (kept.new ≡ snapshot_of state.now) }
{
    match kept.room_for(state) {
        Ok(room) => {
            add_line(text, program, code, address, kept, state);
            kept.renew(room, state);
        }
        Err(AllocError) => text.stop(Stop::OutOfMemory),
    }
}

impl<'w, S: Sink> Tracer<'w, S> {
    /// Nothing was seen yet.
    pub fn new(alloc: Global, sink: &'w mut S, wanted: TracedPrograms) -> Tracer<'w, S>
        requires { S.fault_count sink.old < 2 ^ 63 }
        ensures text { result.text ≡ unstopped (begun sink.entry.ghost_name (S.held sink.old) (S.fault_count sink.old)) }
        ensures wanted { result.wanted ≡ wanted }
        ensures before { result.before ≡ None }
    {
        Tracer {
            alloc,
            text: TraceText::new(sink),
            wanted,
            before: None,
        }
    }

    /// Ends the text, and tells whether it stopped.
    pub fn end(&mut self) -> Result<(), Stop>
        ensures said { Says self.old.text self.new.text [] }
        ensures outcome { result ≡ self.new.text.outcome }
        ensures whole { OnOk result (self.new.text.text.waiting ≡ []) }
    {
        self.text.end()
    }

    /// The sink. Bytes that wait are lost.
    pub fn close(self) -> &'w mut S
        ensures name { result.ghost_name ≡ self.entry.text.text.sink }
        ensures held { S.held result.now ≡ self.entry.text.text.held }
        ensures faults { S.fault_count result.now ≡ self.entry.text.text.faults }
    {
        let Tracer { text, .. } = self;
        text.close()
    }
}

impl<'w, S: Sink> RunWatching for Tracer<'w, S> {
    ghost use Rattle.std.specs.Prelude.{false};
    ghost use Rattle.fx_machine.specs.Events.{never};
    ghost use Rattle.fx_trace.specs.inner.Telling.{Tells};

    ghost Sees = { λ was x now. Tells was.wanted was.text was.before x now.text now.before × (now.wanted ≡ was.wanted) };

    ghost stops = { λ _. false };

    fn stops(&self) -> bool {
        false
    }

    ghost sees_no_more = { λ _ e _. never e };

    fn begin(&mut self, running: RunningProgram, state: &State) {
        self.before = None;
        if self.wanted.wants(running.program) {
            begin_text(
                self.alloc,
                &mut self.text,
                running.component,
                running.program,
                &mut self.before,
                state,
            );
        }
    }

    fn see(
        &mut self,
        running: RunningProgram,
        code: &Code<'_>,
        address: usize,
        _calls: usize,
        state: &State,
    ) {
        if let Some(kept) = &mut self.before {
            tell(&mut self.text, running.program, code, address, kept, state);
        }
    }
}

//! The text of a trace, until it stops.

ghost use Rattle.std.specs.Prelude.{◌≡◌, ◌<◌, ◌^◌, [], OnOk};
ghost use Rattle.std.specs.List.{flat_map};
ghost use Rattle.fx_code.specs.Listing.{instruction_text};
ghost use Rattle.fx_fixed.specs.Texts.{begun};
ghost use Rattle.fx_trace.specs.inner.Telling.{Says, stop_of, stopped, unstopped};

use crate::fault::Stop;
use fx_code::Code;
use fx_fixed::{Sink, TextWriter, WriteFailed};
use std::marker::Model;

/// A writer's fault, as what stops the text of a trace.
fn stop_of(added: Result<(), WriteFailed>) -> Result<(), Stop>
    ensures { result ≡ stop_of added }
{
    match added {
        Ok(()) => Ok(()),
        Err(WriteFailed(n)) => Err(Stop::WriterFailed(n)),
    }
}

/// A text on its way to its sink, until it stops: then nothing more is added.
#[derive(Drop)]
pub struct TraceText<'w, S: Sink> {
    text: TextWriter<'w, S>,
    outcome: Result<(), Stop>,
}

impl<'w, S: Sink> Model for TraceText<'w, S> {
    ghost use Rattle.std.specs.Prelude.{◌≡◌, ◌<◌, ◌^◌, Ok};
    ghost use Rattle.fx_trace.specs.inner.Telling.{TraceTextView};

    ghost Value = { TraceTextView };

    ghost view = { λ t. record { text = t.text; outcome = t.outcome } };

    ghost invariant = { λ t. t.outcome ≡ Ok tt → t.text.faults < 2 ^ 63 };
}

impl<'w, S: Sink> TraceText<'w, S> {
    /// An empty text.
    pub fn new(sink: &'w mut S) -> TraceText<'w, S>
        requires { S.fault_count sink.old < 2 ^ 63 }
        ensures { result ≡ unstopped (begun sink.entry.ghost_name (S.held sink.old) (S.fault_count sink.old)) }
    {
        TraceText {
            text: TextWriter::new(sink),
            outcome: Ok(()),
        }
    }

    /// Adds pieces in turn.
    #[tactic(auto, using(crate::proofs::Texts::said))]
    pub fn add(&mut self, pieces: &[&[u8]])
        ensures { Says self.old self.new (flat_map (λ p. p.now) pieces.now) }
    {
        if self.outcome.is_ok() {
            self.outcome = stop_of(self.text.add(pieces));
        }
    }

    /// Adds the instruction at an address, as in the listing of its program.
    #[tactic(auto, using(crate::proofs::Texts::said))]
    pub fn add_instruction(&mut self, code: &Code<'_>, address: usize)
        ensures { Says self.old self.new (instruction_text code.now address) }
    {
        if self.outcome.is_ok() {
            self.outcome = stop_of(code.add_instruction(&mut self.text, address));
        }
    }

    /// Stops so, if it has not stopped before.
    pub fn stop(&mut self, stop: Stop)
        ensures { self.new ≡ stopped stop self.old }
    {
        if self.outcome.is_ok() {
            self.outcome = Err(stop);
        }
    }

    /// Ends the text, and tells whether it stopped.
    #[tactic(auto, using(crate::proofs::Texts::said))]
    pub fn end(&mut self) -> Result<(), Stop>
        ensures said { Says self.old self.new [] }
        ensures outcome { result ≡ self.new.outcome }
        ensures whole { OnOk result (self.new.text.waiting ≡ []) }
    {
        if self.outcome.is_ok() {
            self.outcome = stop_of(self.text.end());
        }
        self.outcome
    }

    /// The sink. Bytes that wait are lost.
    pub fn close(self) -> &'w mut S
        ensures name { result.ghost_name ≡ self.entry.text.sink }
        ensures held { S.held result.now ≡ self.entry.text.held }
        ensures faults { S.fault_count result.now ≡ self.entry.text.faults }
    {
        self.text.close()
    }
}

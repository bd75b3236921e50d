//! Standard error during a run: a line for each refused character, and a line for how the run ended.
ghost use Rattle.std.specs.Prelude.{◌≡◌, ◌∷◌, [], ◌++◌, ◌<◌, ◌^◌, length};
ghost use Rattle.fx_arguments.specs.declared.line.TheConstants.{CAPACITY};
ghost use Rattle.fx_arguments.specs.Lines.{done_line, outcome_line, status_of};
ghost use Rattle.fx_arguments.specs.Tellers.{Tells, begun};

use crate::done::Done;
use crate::fault::Fault;
use crate::line::MessageLine;
use crate::lines::{
    line_of_missing, line_of_notice, line_of_refusal, line_of_report, line_of_usage,
};
use fx_fixed::{Sink, put_all};
use fx_request::{Listener, Notice};
use std::marker::Model;

/// A sink for lines to people, which as a listener writes a line for each notice. It writes each line at once. Once the sink fails
/// it writes nothing more, and reports no fault.
#[derive(Drop)]
pub struct Teller<'e, E: Sink> {
    sink: &'e mut E,
    failed: bool,
}

impl<'e, E: Sink> Model for Teller<'e, E> {
    ghost use Rattle.std.specs.Prelude.{◌≡◌, ◌<◌, ◌^◌, false};
    ghost use Rattle.fx_arguments.specs.Tellers.{TellerView};

    ghost Value = { TellerView };

    ghost view = { λ t. record {
      sink = t.sink.ghost_name;
      held = E.held t.sink.now;
      faults = E.fault_count t.sink.now;
      failed = t.failed;
    } };

    ghost invariant = { λ t. t.failed ≡ false → E.fault_count t.sink.now < 2 ^ 63 };
}

impl<'e, E: Sink> Teller<'e, E> {
    /// A teller that was told nothing yet.
    pub fn new(sink: &'e mut E) -> Teller<'e, E>
        requires { E.fault_count sink.old < 2 ^ 63 }
        ensures { result ≡ begun sink.entry.ghost_name (E.held sink.old) (E.fault_count sink.old) }
    {
        Teller {
            sink,
            failed: false,
        }
    }

    /// Tells a line.
    fn tell(&mut self, mut line: MessageLine)
        requires { length line < CAPACITY }
        ensures { Tells self.old self.new (line ++ 10 ∷ []) }
    {
        if self.failed {
            return;
        }
        line.put(b"\n");
        match put_all(&mut *self.sink, line.text()) {
            Ok(()) => {}
            Err(_) => self.failed = true,
        }
    }

    /// Tells how a run ended, and returns the status.
    pub fn status(&mut self, outcome: &Result<Done, Fault>) -> u8
        ensures status { result ≡ status_of outcome.now }
        ensures line { Tells self.old self.new (outcome_line outcome.now) }
    {
        match outcome {
            Ok(done) => {
                self.tell_done(*done);
                0
            }
            Err(Fault::Usage) => {
                self.tell(line_of_usage());
                2
            }
            Err(Fault::Early(refusal)) | Err(Fault::Late(refusal)) => {
                self.tell(line_of_refusal(*refusal));
                1
            }
        }
    }

    /// Tells what a run did. Only a strike has a line, and the trace of a missing character.
    fn tell_done(&mut self, done: Done)
        ensures { Tells self.old self.new (done_line done) }
    {
        match done {
            Done::Strike(report) => self.tell(line_of_report(report)),
            Done::Trace(false) => self.tell(line_of_missing()),
            Done::Picture
            | Done::Outline
            | Done::Listing
            | Done::Trace(true)
            | Done::Faces
            | Done::Explanation => {}
        }
    }

    /// The sink.
    pub fn close(self) -> &'e mut E
        ensures name { result.ghost_name ≡ self.entry.sink }
        ensures held { E.held result.now ≡ self.entry.held }
        ensures faults { E.fault_count result.now ≡ self.entry.faults }
    {
        self.sink
    }
}

impl<'e, E: Sink> Listener for Teller<'e, E> {
    ghost use Rattle.fx_arguments.specs.Tellers.{HearsLine};

    ghost Hears = { HearsLine };

    fn hear(&mut self, notice: Notice) {
        self.tell(line_of_notice(notice));
    }
}

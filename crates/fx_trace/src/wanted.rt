//! Which programs are traced.

ghost use Rattle.std.specs.Prelude.{◌≡◌};
ghost use Rattle.fx_trace.specs.Traces.{is_wanted};

use fx_machine::FontProgram;

/// Which programs are traced, each with the functions that it calls.
#[derive(Clone, Copy)]
pub enum TracedPrograms {
    /// `fpgm`.
    Fpgm,
    /// `prep`.
    Prep,
    /// Each program that runs.
    Each,
}

impl TracedPrograms {
    /// Whether a program that begins is traced.
    pub fn wants(self, program: FontProgram) -> bool
        ensures { result ≡ is_wanted self program }
    {
        match (self, program) {
            (TracedPrograms::Fpgm, FontProgram::Fpgm) => true,
            (TracedPrograms::Prep, FontProgram::Prep) => true,
            (TracedPrograms::Each, _) => true,
            _ => false,
        }
    }
}

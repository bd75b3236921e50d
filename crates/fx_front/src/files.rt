//! What a front asks of a system: inputs and outputs by their names.

use crate::destination::Destination;
use fx_fixed::Source;
use std::alloc::AllocError;

/// Inputs and outputs by their names.
pub trait Files {
    ghost use Rattle.std.specs.Prelude.{◌≡◌, ℕ, Bool, List, Option, None, IfOk, IfErr};
    ghost use Rattle.fx_words.specs.Parts.{text_in};

    type Input: Source + Drop;

    type Place: Destination + Drop;

    // Whether standard input is a terminal.
    ghost IsTerminal: { Self → Bool → Type 0 };

    // The input of a name; that of none is standard input.
    ghost Opens: { Self → Option (List ℕ) → Self.Input → Type 0 };

    // Why the input of a name can't be read.
    ghost Unopened: { Self → Option (List ℕ) → List ℕ → Type 0 };

    // An input without bytes.
    ghost IsEmpty: { Self.Input → Type 0 };

    // The place of an output of a name; that of none is standard output.
    ghost Places: { Self → Option (List ℕ) → Self.Place → Type 0 };

    // Why the output of a name is not written.
    ghost Unplaced: { Self → Option (List ℕ) → List ℕ → Type 0 };

    /// Whether standard input is a terminal.
    fn has_terminal(&self) -> bool
        ensures { IsTerminal self.now result };

    /// An input without bytes.
    fn nothing(&self) -> Self::Input
        ensures empty { IsEmpty result }
        ensures faults { Self.Input.fault_count result ≡ 0 };

    /// The input of this name, by default standard input; or why it can't be read.
    fn open(&self, name: Option<&str>) -> Result<Self::Input, &'static str>
        ensures opened { IfOk result (λ input. Opens self.now (text_in name.entry) input) }
        ensures unopened { IfErr result (λ why. Unopened self.now (text_in name.entry) why.now) }
        ensures faults { IfOk result (λ input. Self.Input.fault_count input ≡ 0) };

    /// Standard output.
    fn standard(&self) -> Self::Place
        ensures { Places self.now None result };

    /// The place of an output of this name, by default standard output; or why it is not written. It is never the font.
    fn place(
        &self,
        name: Option<&str>,
        font: &str,
    ) -> Result<Result<Self::Place, &'static str>, AllocError>
        ensures placed { IfOk result (λ found. IfOk found (λ place. Places self.now (text_in name.entry) place)) }
        ensures unplaced { IfOk result (λ found. IfErr found (λ why. Unplaced self.now (text_in name.entry) why.now)) };
}

//! What a front runs.
use crate::facts::Facts;
use crate::text::Text;
use fx_fixed::{Sink, Source};
use fx_words::Parts;
use std::alloc::{AllocError, Global};

/// A program that takes the words of a command line, an input and an output, and writes lines for people.
pub trait Tool {
    ghost use Rattle.std.specs.Prelude.{◌≡◌, ◌<◌, ◌^◌, ℕ, List, IfOk, string_bytes};
    ghost use Rattle.fx_fixed.specs.Changes.{Change, change_of};
    ghost use Rattle.fx_words.specs.Parts.{PartsView, seen, texts};
    ghost use Rattle.fx_front.specs.Lines.{Says};
    ghost use Rattle.fx_front.specs.Places.{IsStatus};
    ghost use Rattle.fx_front.specs.declared.facts.Facts.{Facts};

    // What a front learns of the last run.
    ghost learned: { Self → Facts };

    // A run on the words for the program, its name first: what became of its source, its sink and its lines, its status, and what a
    // front learns of it.
    ghost Ran: { PartsView → Change → Change → Change → ℕ → Facts → Type 0 };

    // The line that says what is wrong first with words after the program's name. It has no bytes if nothing is.
    ghost wrong_in: { List (List ℕ) → List ℕ };

    // What is wrong first with a list of characters.
    ghost wrong_item: { List ℕ → List ℕ };

    /// Runs on the words for the program, and returns the status. If `names_all` of the parts is set, the facts name all missing
    /// characters, else only the first.
    fn run<R: Source, O: Sink, E: Sink>(
        &mut self,
        alloc: Global,
        parts: &Parts<'_>,
        reader: &mut R,
        out: &mut O,
        err: &mut E,
    ) -> u8
        requires reader { R.fault_count reader.old < 2 ^ 63 }
        requires out { O.fault_count out.old < 2 ^ 63 }
        requires err { E.fault_count err.old < 2 ^ 63 }
        ensures ran { Ran (seen parts.now) (change_of R.left R.fault_count reader.old reader.new)
            (change_of O.held O.fault_count out.old out.new) (change_of E.held E.fault_count err.old err.new) result
            (learned self.new) }
        ensures status { IsStatus result };

    /// What a front learns of the last run.
    fn facts(&self) -> &Facts
        ensures { result.now ≡ learned self.now };

    /// The line that says what is wrong first with the words of a command line after the program's name; no bytes if nothing is.
    fn wrong(&self, alloc: Global, words: &[&str]) -> Result<String, AllocError>
        ensures { IfOk result (λ line. string_bytes line ≡ wrong_in (texts words.now)) };

    /// Adds what is wrong first with a list of characters that is refused.
    fn add_wrong_item(&self, text: &mut Text, list: &str)
        ensures { Says text.old text.new (wrong_item list.now) };
}

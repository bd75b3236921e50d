//! The commands that have options.
ghost use Rattle.std.specs.Prelude.{◌≡◌};
ghost use Rattle.fx_arguments.specs.Arguments.{texts, verb_named, verb_of};

/// A command that has options.
#[derive(Clone, Copy)]
pub enum Verb {
    /// `make`.
    Make,
    /// `show`.
    Show,
    /// `outline`.
    Outline,
    /// `dump`.
    Dump,
    /// `trace`.
    Trace,
    /// `faces`.
    Faces,
}

/// The command that the first word names.
pub fn verb_of(words: &[&str]) -> Option<Verb>
    ensures { result ≡ verb_of (texts words.now) }
{
    match words.first() {
        Some(word) => verb_named(word),
        None => None,
    }
}

/// The command of a name.
fn verb_named(name: &str) -> Option<Verb>
    ensures { result ≡ verb_named name.now }
{
    match name {
        "make" => Some(Verb::Make),
        "show" => Some(Verb::Show),
        "outline" => Some(Verb::Outline),
        "dump" => Some(Verb::Dump),
        "trace" => Some(Verb::Trace),
        "faces" => Some(Verb::Faces),
        _ => None,
    }
}

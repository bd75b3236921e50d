//! What a front learns of a run.
ghost use Rattle.std.specs.Prelude.{◌≡◌, option_map};
ghost use Rattle.fx_cli.specs.Seen.{unseen};
ghost use Rattle.fx_cli.specs.Watch.{Knows, counts_of, facts_of, glyph_at, is_glyph_halt, is_halt, refused_of, seen_refused};

use crate::seen::unseen;
use fx_arguments::{Done, Fault};
use fx_front::{Counts, Facts, FontFacts, RefusalFacts};
use fx_machine::FontProgram;
use fx_request::{Location, Refusal};
use std::alloc::Global;

/// Watches a run for a front.
#[derive(Drop)]
pub struct Watch {
    /// What the front learns of the font.
    pub font: FontFacts,
    /// Whether all missing characters are named.
    pub names_all: bool,
}

impl Watch {
    /// Nothing was seen yet.
    pub(crate) fn new(alloc: Global, names_all: bool) -> Watch
        ensures { result ≡ record { font = unseen; names_all = names_all } }
    {
        Watch {
            font: unseen(alloc),
            names_all,
        }
    }

    /// What the front learns of a run that ended so.
    pub(crate) fn end(self, outcome: &Result<Done, Fault>) -> Facts
        ensures known { Knows outcome.now result }
        ensures font { result.font ≡ self.font }
    {
        Facts {
            strike: counts_of(outcome),
            refused: refused_of(outcome),
            font: self.font,
        }
    }
}

/// The counts of a strike that was made.
fn counts_of(outcome: &Result<Done, Fault>) -> Option<Counts>
    ensures { result ≡ counts_of outcome.now }
{
    match outcome {
        Ok(Done::Strike(report)) => Some(Counts {
            glyphs: report.glyphs,
            missing: report.missing,
        }),
        _ => None,
    }
}

/// What a front learns of a refusal.
fn refused_of(outcome: &Result<Done, Fault>) -> Option<RefusalFacts>
    ensures { option_map seen_refused result ≡ refused_of outcome.now }
{
    match outcome {
        Err(Fault::Early(refusal)) | Err(Fault::Late(refusal)) => Some(facts_of(*refusal)),
        Ok(_) | Err(Fault::Usage) => None,
    }
}

/// The same of the refusal.
fn facts_of(refusal: Refusal) -> RefusalFacts
    ensures { seen_refused result ≡ facts_of refusal }
{
    let location = refusal.location();
    RefusalFacts {
        number: refusal.number(),
        advice: refusal.advice(),
        glyph: glyph_at(location),
        is_halted: is_halt(location),
        is_halted_glyph: is_glyph_halt(location),
    }
}

/// The glyph that is refused.
fn glyph_at(location: Location) -> Option<u16>
    ensures { result ≡ glyph_at location }
{
    match location {
        Location::Glyph(glyph) => Some(glyph),
        _ => None,
    }
}

/// Whether a program of the font halted.
fn is_halt(location: Location) -> bool
    ensures { result ≡ is_halt location }
{
    matches!(location, Location::Halt(_))
}

/// Whether the program of a glyph halted.
fn is_glyph_halt(location: Location) -> bool
    ensures { result ≡ is_glyph_halt location }
{
    match location {
        Location::Halt(halt) => matches!(halt.during, FontProgram::Glyph(_)),
        _ => false,
    }
}

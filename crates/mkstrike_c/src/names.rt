//! The names of what calls return, and what to do after each.
ghost use Rattle.std.specs.Prelude.{◌≡◌};
ghost use Rattle.mkstrike_c.specs.Reasons.{advice_of, reason_of};

use crate::refused::{BAD_BLOCK, BAD_MODE};
use fx_request::{advised, named};

/// The name of a number; `Unknown` if no call returns it.
#[tactic(auto, unfolding(crate::specs::Reasons::reason_of))]
pub(crate) fn reason(number: u32) -> &'static str
    ensures { result.now ≡ reason_of number }
{
    match number {
        0 => "Done",
        1 => "Missing",
        BAD_MODE => "BadMode",
        BAD_BLOCK => "BadBlock",
        _ => named(number).unwrap_or("Unknown"),
    }
}

/// What to do after a number, in the words of docs/REFUSALS.md; nothing if it is no refusal's.
#[tactic(auto, unfolding(crate::specs::Reasons::advice_of))]
pub(crate) fn advice(number: u32) -> &'static str
    ensures { result.now ≡ advice_of number }
{
    match number {
        BAD_MODE => "give a sum of the modes of mkstrike.h",
        BAD_BLOCK => "make the block by mkstrike_prepare for this font, face, size and mode",
        _ => advised(number).unwrap_or(""),
    }
}

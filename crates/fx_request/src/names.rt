//! The names of the refusals by their numbers, and what to do after each.
ghost use Rattle.std.specs.Prelude.{◌≡◌, option_map};
ghost use Rattle.fx_request.specs.Advice.{advised};
ghost use Rattle.fx_request.specs.Refusals.{cause_among, named, refusal_among};

use crate::advice::after_halt;
use crate::refusal::{EACH_CAUSE, EACH_REFUSAL, Refusal};
use fx_machine::Cause;

/// The first of these refusals that has a number.
fn refusal_among(refusals: &[Refusal], number: u32) -> Option<Refusal>
    ensures { result ≡ refusal_among refusals.now number }
{
    // The first refusal with the number among those that are left is that among all.
    'refusals: for refusal in refusals {
        if u32::from(refusal.number()) == number {
            return Some(*refusal);
        }
    }
    None
}

/// The first of these causes that has a number.
fn cause_among(causes: &[Cause], number: u32) -> Option<Cause>
    ensures { result ≡ cause_among causes.now number }
{
    // The first cause with the number among those that are left is that among all.
    'causes: for cause in causes {
        if u32::from(cause.number()) == number {
            return Some(*cause);
        }
    }
    None
}

/// The name of the refusals that have a number, those of halts too. None if no refusal has it.
#[tactic(auto, unfolding(crate::specs::Refusals::named))]
pub fn named(number: u32) -> Option<&'static str>
    ensures { option_map (λ name. name.now) result ≡ named number }
{
    match refusal_among(&EACH_REFUSAL, number) {
        Some(refusal) => Some(refusal.name()),
        None => Some(cause_among(&EACH_CAUSE, number)?.name()),
    }
}

/// What to do after the refusals that have a number, in the words of docs/REFUSALS.md. None if no refusal has it.
#[tactic(auto, unfolding(crate::specs::Advice::advised))]
pub fn advised(number: u32) -> Option<&'static str>
    ensures { option_map (λ text. text.now) result ≡ advised number }
{
    match refusal_among(&EACH_REFUSAL, number) {
        Some(refusal) => Some(refusal.advice()),
        None => Some(after_halt(cause_among(&EACH_CAUSE, number)?)),
    }
}

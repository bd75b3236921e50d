//! What a caller asks for and what it is told: requests for strikes and their limits, reports, and refusals.
//!
//! A refusal has a number that never changes, a name and a location: `Refusal::entry` is their table. The faults of the crates
//! below become refusals here. The code points of a request are made in rising order, each once, by `rising_codes`. A `Listener` is
//! told of the characters that were refused and did not stop the strike.
#![tactic(auto)]

mod advice;
mod characters;
mod faults;
pub mod laws;
mod limits;
mod location;
mod names;
mod notice;
mod refusal;
mod request;

pub use characters::rising_codes;
pub use limits::{MAX_CHARACTERS, MAX_CODE};
pub use location::Location;
pub use names::{advised, named};
pub use notice::{Deaf, Listener, Notice};
pub use refusal::Refusal;
pub use request::{Choice, Dropout, Mode, OnRefused, Report, Request, TraceSubject};

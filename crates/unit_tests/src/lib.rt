//! Tests of public calls of the crates below the machine, and of the front, that no command shows: writers that fail, lookups in
//! any order, texts of faults. They stand here, since a crate with tests is proved twice. Their expected values come from the
//! public formats and from arithmetic by hand.
#![tactic(auto)]

#[cfg(test)]
mod bdf;
#[cfg(test)]
mod cmap;
#[cfg(test)]
mod code;
#[cfg(test)]
mod faults;
#[cfg(test)]
mod fixed;
#[cfg(test)]
mod front;
#[cfg(test)]
mod gstate;
#[cfg(test)]
mod shapes;
#[cfg(test)]
mod vary;

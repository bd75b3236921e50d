//! Tests of public calls from the machine up, where a call of a library shows what no command does: strikes by other scans,
//! strikers, surveys, damaged fonts, writers that fail. Their expected values come from the public formats and from arithmetic by
//! hand, never from the program's own output.
#![tactic(auto)]

#[cfg(test)]
mod damaged;
#[cfg(test)]
mod fonts;
#[cfg(test)]
mod outlines;
#[cfg(test)]
mod refusals;
#[cfg(test)]
mod scans;
#[cfg(test)]
mod sizes;
#[cfg(test)]
mod strikers;
#[cfg(test)]
mod strikes;
#[cfg(test)]
mod surveys;
#[cfg(test)]
mod tables;
#[cfg(test)]
mod wishes;
#[cfg(test)]
mod worked;
#[cfg(test)]
mod writers;

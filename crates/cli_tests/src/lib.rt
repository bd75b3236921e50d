//! Tests of the program where no system stands in: readers and writers that fail at each byte, and arguments that the system does
//! not give. They stand here, since a crate with tests is proved twice. What the program does with a command line and a font is in
//! `tests/program`.
#![tactic(auto)]

#[cfg(test)]
mod arguments;
#[cfg(test)]
mod fonts;
#[cfg(test)]
mod lists;
#[cfg(test)]
mod readers;
#[cfg(test)]
mod refused;
#[cfg(test)]
mod runs;
#[cfg(test)]
mod writers;

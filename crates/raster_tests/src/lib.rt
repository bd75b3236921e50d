//! Tests of public calls of the crates from pieces to pixels that no command shows: scans against the tests of points, arcs and
//! their halves, frames, gaps. Their expected values come from the definitions by hand; random outlines are compared with the
//! definitions.
#![tactic(auto)]

#[cfg(test)]
mod agreement;
#[cfg(test)]
mod closed;
#[cfg(test)]
mod contours;
#[cfg(test)]
mod covering;
#[cfg(test)]
mod curves;
#[cfg(test)]
mod dropout;
#[cfg(test)]
mod dropout_frames;
#[cfg(test)]
mod halves;
#[cfg(test)]
mod parts;
#[cfg(test)]
mod random;
#[cfg(test)]
mod scans;
#[cfg(test)]
mod work;

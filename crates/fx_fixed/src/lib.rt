//! Fixed-point numbers of the TrueType rasterizer, and the sinks and sources of bytes that all crates above use.
//!
//! 26.6 counts 1/64 pixel, 2.14 counts 1/16384. Exact quotients are rounded by `near` or cut by `cut`, sums are taken
//! modulo 2^32 by `w32`, and `unit` gives a direction's unit vector. `Digits` are numbers as text, `Backward` is a short text
//! with numbers in it. Nothing here takes memory but the sinks and sources for tests.
#![tactic(auto)]

mod backward;
mod digits;
mod memory;
mod numbers;
mod places;
mod products;
mod quotients;
mod sink;
mod sizes;
mod slices;
mod source;
mod text;
mod vectors;

pub use backward::Backward;
pub use digits::{Digits, hex_digit};
pub use memory::{Limits, MemorySink, MemorySource};
pub use numbers::{
    F2, F26, cut, near, near_64, near_16384, rounding_functions, rounding_laws, w32,
};
pub use places::{Axis, Place};
pub use products::{product, product_16, wide_product};
pub use quotients::near_quotient;
pub use sink::{Sink, ToSink, WriteFailed, put_all};
pub use sizes::{MAX_PPEM, Ppem};
pub use slices::{after, before, part, put_over};
pub use source::{FromReader, Source};
pub use text::{Fill, TextWriter};
pub use vectors::{unit, unit_laws};

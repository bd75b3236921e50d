//! FUnits at a size: points, control values and phantom points in 26.6 pixels.
//!
//! A value of v FUnits at ppem pixels an em is v * ppem * 64 / unitsPerEm, rounded to the nearest whole number, halves away
//! from zero. Pixels are square.
#![tactic(auto)]

mod cvt;
mod factor;
mod phantom;
mod scale;
mod source;
mod zone;

pub use cvt::cvt_of;
pub use phantom::{PhantomPoints, fitted, phantoms};
pub use scale::{Scale, scaled};
pub use source::PointSource;
pub use zone::fill_zone;

//! A point along an axis.

/// A coordinate of a point: whether a tuple names the point, the delta that it gives it, how far the point is moved, in 1/65536,
/// and
/// the sum over tuples, in 1/2^58.
#[derive(Clone, Copy, Debug, PartialEq, Eq)]
pub struct GivenPoint {
    pub at: i16,
    pub named: bool,
    pub delta: i16,
    pub moved: i64,
    pub sum: i128,
}

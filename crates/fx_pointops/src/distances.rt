//! Distances: sizes, signs, the single width and the minimum distance.

ghost use Rattle.std.specs.Prelude.{◌≡◌, int_lt};
ghost use Rattle.fx_pointops.specs.Distances.{size_of, negative_of, on_side_of, single_of, at_least, relative_of, rounded_by, kept_by};

use fx_fixed::{F26, w32};
use fx_gstate::GState;

/// What the low bits of MDRP and MIRP say (Apple TrueType Reference Manual, MDRP).
#[derive(Clone, Copy, Debug, PartialEq, Eq)]
pub struct Relative {
    /// Reference point 0 becomes the point; this is the caller's to do.
    pub sets_rp0: bool,
    /// The distance stays at least the minimum distance.
    pub keeps_minimum: bool,
    /// The distance is rounded.
    pub rounds: bool,
}

impl Relative {
    /// What the low bits of an opcode of MDRP or MIRP say.
    pub fn of(opcode: u8) -> Relative
        ensures { result ≡ relative_of opcode }
    {
        Relative {
            sets_rp0: opcode / 16 % 2 == 1,
            keeps_minimum: opcode / 8 % 2 == 1,
            rounds: opcode / 4 % 2 == 1,
        }
    }
}

/// Whether a distance is below another.
pub fn is_below(a: F26, b: F26) -> bool
    ensures { result ≡ int_lt a b }
{
    a.0 < b.0
}

/// The size of a distance, modulo 2^32.
pub fn size(d: F26) -> F26
    ensures { result ≡ size_of d }
{
    F26(w32(i128::from(d.0.unsigned_abs())))
}

/// The negative of a distance, modulo 2^32.
pub fn negative(d: F26) -> F26
    ensures { result ≡ negative_of d }
{
    F26(w32(-i128::from(d.0)))
}

/// A width on the side of a distance; 0 counts as positive.
fn on_side_of(o: F26, width: F26) -> F26
    ensures { result ≡ on_side_of o width }
{
    if o.0 < 0 { negative(width) } else { width }
}

/// The single width in place of a distance whose size is nearer to it than its cut-in.
#[tactic(auto, unfolding(crate::specs::Distances::single_of))]
pub fn single(g: &GState, o: F26) -> F26
    ensures { result ≡ single_of g.now o }
{
    let apart = size(size(o).minus(g.single_width));
    if is_below(apart, g.single_width_cut_in) {
        on_side_of(o, g.single_width)
    } else {
        o
    }
}

/// At least the minimum distance, on the side of `o`.
fn at_least(g: &GState, o: F26, d: F26) -> F26
    ensures { result ≡ at_least g.now o d }
{
    if o.0 < 0 {
        let most = negative(g.minimum_distance);
        if is_below(most, d) { most } else { d }
    } else if is_below(d, g.minimum_distance) {
        g.minimum_distance
    } else {
        d
    }
}

/// A distance, rounded if the row rounds.
pub fn rounded_by(g: &GState, how: Relative, d: F26) -> F26
    ensures { result ≡ rounded_by g.now how d }
{
    if how.rounds { g.round(d) } else { d }
}

/// A distance, at least the minimum on the side of `o` if the row keeps it.
pub fn kept_by(g: &GState, how: Relative, o: F26, d: F26) -> F26
    ensures { result ≡ kept_by g.now how o d }
{
    if how.keeps_minimum {
        at_least(g, o, d)
    } else {
        d
    }
}

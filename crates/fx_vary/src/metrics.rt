//! The origin and the advance of a glyph at a place.

ghost use Rattle.std.specs.Prelude.{◌≡◌, ◌≤◌, ◌^◌, ◌+ℤ◌, ◌-ℤ◌, ◌*ℤ◌, ◌≤ℤ◌, neg_ℤ, pos, unsigned_abs, IfSome};
ghost use Rattle.fx_vary.specs.Metrics.{origin_of, advance_of, bearings_by, bearings_of, one_of_sums};

use fx_axes::near_up;
use fx_sfnt::Metrics;

/// Where a glyph's origin is along x, and its advance, in FUnits. Both are within 65,535, as in a font without variations.
#[derive(Clone, Copy, Debug, PartialEq, Eq)]
pub struct Bearings {
    pub origin: i32,
    pub advance: u16,
}

/// A whole number of FUnits, as sums count.
fn raised(n: i32) -> i128
    requires { unsigned_abs n ≤ 2 ^ 17 }
    ensures value { result ≡ n *ℤ one_of_sums }
    ensures bound { unsigned_abs result ≤ 2 ^ 75 }
{
    i128::from(n) * (1 << 58)
}

/// A sum of what tuples add, and a whole number.
fn placed(n: i32, sum: i128) -> i128
    requires small { unsigned_abs n ≤ 2 ^ 17 }
    requires sum { unsigned_abs sum ≤ 2 ^ 118 }
    ensures value { result ≡ n *ℤ one_of_sums +ℤ sum }
    ensures bound { unsigned_abs result ≤ 2 ^ 119 }
{
    raised(n) + sum
}

/// The opposite number.
fn opposite(n: i128) -> i128
    requires { unsigned_abs n ≤ 2 ^ 120 }
    ensures value { result ≡ neg_ℤ n }
    ensures bound { unsigned_abs result ≤ 2 ^ 120 }
{
    -n
}

/// Where the origin of a glyph is along x, by where it is at the defaults and by the sum of the first phantom point.
#[tactic(auto, unfolding(crate::specs::Metrics::origin_of))]
fn origin(at: i32, sum: i128) -> i128
    requires small { unsigned_abs at ≤ 2 ^ 17 }
    requires sum { unsigned_abs sum ≤ 2 ^ 118 }
    ensures value { result ≡ origin_of at sum }
    ensures bound { unsigned_abs result ≤ 2 ^ 120 }
{
    let exact = opposite(placed(at, sum));
    opposite(near_up(exact, 1 << 58))
}

/// The advance of a glyph, by its advance at the defaults and by the sums of the first two phantom points; not below 0.
#[tactic(auto, unfolding(crate::specs::Metrics::advance_of))]
fn advance(width: u16, first: i128, second: i128) -> i128
    requires first { unsigned_abs first ≤ 2 ^ 117 }
    requires second { unsigned_abs second ≤ 2 ^ 117 }
    ensures value { result ≡ advance_of width first second }
    ensures not_below { pos 0 ≤ℤ result }
{
    let exact = near_up(placed(i32::from(width), second - first), 1 << 58);
    if exact < 0 { 0 } else { exact }
}

/// Both, if a font can have them.
fn bearings_by(origin: i128, advance: i128) -> Option<Bearings>
    requires { pos 0 ≤ℤ advance }
    ensures value { result ≡ bearings_by origin advance }
    ensures origin { IfSome result (λ b. unsigned_abs b.origin ≤ 65535) }
{
    if origin.unsigned_abs() <= 65_535 && advance.unsigned_abs() <= 65_535 {
        Some(Bearings {
            origin: origin as i32,
            advance: advance as u16,
        })
    } else {
        None
    }
}

/// The x of the origin as the font has it.
pub fn margin(x_min: i16, lsb: i16) -> i32
    ensures value { result ≡ x_min -ℤ lsb }
    ensures small { unsigned_abs result ≤ 65535 }
{
    i32::from(x_min) - i32::from(lsb)
}

/// The origin and the advance of a glyph, by its xMin and metrics at the defaults and by the sums of the first two phantom points;
/// none if no font can have them.
#[tactic(auto, unfolding(crate::specs::Metrics::bearings_of))]
pub fn metrics_at_place(metrics: Metrics, x_min: i16, first: i128, second: i128) -> Option<Bearings>
    requires first { unsigned_abs first ≤ 2 ^ 117 }
    requires second { unsigned_abs second ≤ 2 ^ 117 }
    ensures value { result ≡ bearings_of metrics x_min first second }
    ensures origin { IfSome result (λ b. unsigned_abs b.origin ≤ 65535) }
{
    bearings_by(
        origin(margin(x_min, metrics.lsb), first),
        advance(metrics.advance_width, first, second),
    )
}

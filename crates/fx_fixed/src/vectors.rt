//! Unit vectors.

ghost use Rattle.std.specs.Prelude.{◌≡◌, ◌≢◌, ℕ, ◌+◌, ◌*◌, ◌/◌, ◌^◌, ◌≤◌, unsigned_abs};
ghost use Rattle.fx_fixed.specs.Ranges.{IsWithin};
ghost use Rattle.fx_fixed.specs.Greatest.{IsGreatestOrZero};
ghost use Rattle.fx_fixed.specs.Unit.{Admits, IsComponent, IsUnit, PointsAlong, UnitIsFunctional, UnitOfIsUnit, unit_of};

use super::numbers::F2;

/// The unit vector in 2.14 of the direction (dx, dy), whatever its unit; of no direction the x axis, (1, 0). Each component is the
/// greatest size that lies no more than half of 1/16384 above the exact one, with its coordinate's sign.
#[tactic(auto, using(crate::proofs::Units::same_unit), unfolding(crate::specs::Unit::PointsAlong))]
pub fn unit(dx: i32, dy: i32) -> (F2, F2)
    ensures direction { PointsAlong dx dy result.0 result.1 }
    ensures horizontal { result.0 ≡ (unit_of dx dy).0 }
    ensures vertical { result.1 ≡ (unit_of dx dy).1 }
    ensures within { IsWithin 16384 result.0 × IsWithin 16384 result.1 }
{
    direction(dx, dy)
}

/// The unit vector, by the inequalities.
fn direction(dx: i32, dy: i32) -> (F2, F2)
    ensures unit { IsUnit dx dy result.0 result.1 }
    ensures within { IsWithin 16384 result.0 × IsWithin 16384 result.1 }
{
    let x = u64::from(dx.unsigned_abs());
    let y = u64::from(dy.unsigned_abs());
    let square = squares(x, y);
    if square == 0 {
        return (F2::ONE, F2(0));
    }
    (F2(component(dx, square)), F2(component(dy, square)))
}

/// The squared length.
fn squares(x: u64, y: u64) -> u64
    requires x_size { x ≤ 2 ^ 31 }
    requires y_size { y ≤ 2 ^ 31 }
    ensures value { result ≡ x * x + y * y }
    ensures bound { result ≤ 2 ^ 63 }
{
    x * x + y * y
}

/// One component, at a squared length.
fn component(coordinate: i32, square: u64) -> i16
    requires positive { square ≢ 0 }
    requires bound { square ≤ 2 ^ 63 }
    requires within { unsigned_abs coordinate * unsigned_abs coordinate ≤ square }
    ensures component { IsComponent coordinate square result }
    ensures within { IsWithin 16384 result }
{
    let size = greatest(coordinate.unsigned_abs(), square) as i16;
    if coordinate < 0 { -size } else { size }
}

/// The greatest size that is admitted: of an admitted size c, 2c - 1 is at most the root of the ratio.
#[tactic(auto, using(crate::proofs::Roots::admitted_by_root))]
fn greatest(coordinate: u32, square: u64) -> u16
    requires positive { square ≢ 0 }
    requires within { coordinate * coordinate ≤ square }
    ensures bound { result ≤ 16384 }
    ensures value { IsGreatestOrZero (Admits coordinate square) result }
{
    ((root(ratio(coordinate, square)) + 1) / 2) as u16
}

/// 2^30 times the square of a coordinate, divided by the squared length, rounded down; in 64 bits if the product fits them.
fn ratio(coordinate: u32, square: u64) -> u32
    requires positive { square ≢ 0 }
    requires within { coordinate * coordinate ≤ square }
    ensures value { result ≡ 2 ^ 30 * (coordinate * coordinate) / square }
    ensures bound { result ≤ 2 ^ 30 }
{
    if coordinate < 1 << 17 {
        let size = u64::from(coordinate);
        return ((1 << 30) * (size * size) / square) as u32;
    }
    let size = u128::from(coordinate);
    ((1 << 30) * (size * size) / u128::from(square)) as u32
}

/// The square root of a number, rounded down, by Newton's method.
#[tactic(auto, using(crate::proofs::Roots::root_below_first))]
fn root(n: u32) -> u32
    requires bound { n ≤ 2 ^ 30 }
    ensures bound { result ≤ 32768 }
    ensures square { result * result ≤ n }
    ensures next { (k : ℕ) → k * k ≤ n → k ≤ result }
{
    if n == 0 {
        return 0;
    }
    let mut guess = 1 << 15;
    let mut quotient = n / guess;
    // The root is not above the guess.
    'guesses: while quotient < guess {
        guess = (guess + quotient) / 2;
        quotient = n / guess;
    }
    guess
}

/// A direction has one unit vector, and `unit_of` gives it.
pub fn unit_laws()
    ensures one { UnitIsFunctional }
    ensures function { UnitOfIsUnit }
{}

//! The sweep over contours.

ghost use Rattle.std.specs.Prelude.{◌≡◌, ◌+◌, ◌≤◌, ◌<◌, length, drop, reverse, slice_index_or};
ghost use Rattle.std.specs.List.{All};
ghost use Rattle.fx_between.specs.Contours.{first_named, contour_filled, contours_filled};
ghost use Rattle.fx_between.specs.inner.Runs.{unnamed_run, point_before};

use crate::rule::Rule;

/// The number of unnamed points before the first named one; of all points if none is.
#[inline(always)]
#[tactic(auto, using(crate::proofs::Named::run_steps))]
fn unnamed_run<R: Rule>(rule: &R, points: &[R::Point]) -> usize
    ensures { result ≡ unnamed_run (R.is_named rule.now) points.now }
{
    // The points that were seen are unnamed.
    'run: for end in 0..points.len() {
        if rule.is_named(&points[end]) {
            return end;
        }
    }
    points.len()
}

/// The number of the first named point from a number on; that of all points if there is none.
#[inline(always)]
#[tactic(auto, using(crate::proofs::Named::run_fits))]
fn run_end<R: Rule>(rule: &R, points: &[R::Point], start: usize) -> usize
    requires { start ≤ length points.now }
    ensures value { result ≡ start + unnamed_run (R.is_named rule.now) (drop start points.now) }
    ensures within { result ≤ length points.now }
{
    start + unnamed_run(rule, &points[start..])
}

/// The point of a number.
fn numbered<P: Copy>(points: &[P], number: usize) -> P
    requires { number < length points.now }
    ensures { result ≡ slice_index_or points.now number result }
{
    points[number]
}

/// The point of a number; another one if it is outside.
#[inline(always)]
fn numbered_or<P: Copy>(points: &[P], number: usize, other: &P) -> P
    ensures { result ≡ slice_index_or points.now number other.now }
{
    if number < points.len() {
        numbered(points, number)
    } else {
        *other
    }
}

/// The point before the one of a number; before the first the contour's last named one.
#[inline(always)]
fn point_before<P: Copy>(points: &[P], number: usize, last: &P) -> P
    requires { number ≤ length points.now }
    ensures { result ≡ point_before last.now number points.now }
{
    if number == 0 {
        *last
    } else {
        numbered(points, number - 1)
    }
}

/// The last named point.
#[inline(always)]
#[tactic(auto, using(crate::proofs::Named::last_steps))]
fn last_named<R: Rule>(rule: &R, points: &[R::Point]) -> Option<R::Point>
    ensures { result ≡ first_named (R.is_named rule.now) (reverse points.now) }
{
    let mut left = points.len();
    // The points from `left` on are unnamed.
    'last: while left > 0 {
        left -= 1;
        let point = numbered(points, left);
        if rule.is_named(&point) {
            return Some(point);
        }
    }
    None
}

/// Fills the runs of a contour.
#[inline(always)]
fn fill_contour<R: Rule>(rule: &R, points: &mut [R::Point])
    ensures { points.new ≡ contour_filled (R.is_named rule.now) (R.between rule.now) points.old }
{
    let Some(last) = last_named(rule, points) else {
        return;
    };
    let first = numbered(points, unnamed_run(rule, points));
    let mut start = 0;
    // The points before `start` are done.
    'points: while start < points.len() {
        if rule.is_named(&points[start]) {
            start += 1;
        } else {
            let end = run_end(rule, points, start + 1);
            let before = point_before(points, start, &last);
            let after = numbered_or(points, end, &first);
            rule.fill_run(&mut points[start..end], &before, &after);
            start = end;
        }
    }
}

/// Fills the runs of each contour, by the numbers of the contours' last points.
#[inline(always)]
#[tactic(auto, using(crate::proofs::Contouring::contours_long))]
pub fn fill_contours<R: Rule>(rule: &R, points: &mut [R::Point], ends: &[u16])
    requires { All (λ e. e < length points.old) ends.now }
    ensures value { points.new ≡ contours_filled (R.is_named rule.now) (R.between rule.now) ends.now (length ends.now) points.old }
    ensures long { length points.new ≡ length points.old }
{
    let mut first = 0;
    // The contours before this one are done, and `first` is where it begins.
    'contours: for end in ends.iter() {
        let past = usize::from(*end) + 1;
        if first < past {
            fill_contour(rule, &mut points[first..past]);
        }
        first = past;
    }
}

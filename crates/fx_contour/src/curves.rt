//! From contours to pieces.

ghost use Rattle.std.specs.Prelude.{◌≡◌, pos, ◌+◌, ◌-◌, ◌+ℤ◌, ◌*ℤ◌, ◌≤◌, ◌<◌, ◌^◌, ◌++◌, ◌⊎◌, ◌↔◌, All, IsTrue, IfOk, IfErr, IsErrOf, length, map, take, drop, option_map, option_to_list, vec_len, vec_capacity};
ghost use Rattle.fx_fixed.specs.Ranges.{IsWithin};
ghost use Rattle.fx_outline.specs.Limits.{max_points};
ghost use Rattle.fx_winding.specs.Winding.{place_of, span_of};
ghost use Rattle.fx_winding.specs.Outside.{AreOfOutline};
ghost use Rattle.fx_contour.specs.Curve.{doubled_of, middle_of, joint_of, span_at, first_or, curve_of};
ghost use Rattle.fx_fixed.specs.Chain.{GivesUnless};
ghost use Rattle.fx_contour.specs.Contours.{farthest, spans_of, drawn_of, IsInReach};
ghost use Rattle.fx_contour.specs.Bounds.{HaveTwo};
ghost use Rattle.fx_contour.specs.Faults.{Fails};

use crate::extent::Extent;
use crate::fault::ContourFault;
use fx_fixed::F26;
use fx_outline::{Outline, OutlinePoint};
use fx_winding::{Piece, Pieces, Point};
use std::alloc::{AllocError, Global};

/// The piece that one point of a contour adds, if it adds one, and the place of the curve after the point.
#[derive(Clone, Copy)]
struct Step {
    piece: Option<Piece>,
    to: Point,
}

/// Whether all points are within the limit.
fn are_in_reach(points: &[OutlinePoint]) -> bool
    ensures { IsTrue result ↔ All IsInReach points.now }
{
    match Extent::of(points) {
        None => true,
        Some(extent) => extent.keeps_limit(),
    }
}

/// A coordinate in 1/128 pixel.
pub(crate) fn twice(z: F26) -> i32
    requires { IsWithin farthest z }
    ensures value { result ≡ pos 2 *ℤ z }
    ensures near { IsWithin (2 ^ 22) result }
{
    2 * z.0
}

/// Half of a sum of two coordinates, in 1/128 pixel.
fn half_sum(a: F26, b: F26) -> i32
    requires near_a { IsWithin farthest a }
    requires near_b { IsWithin farthest b }
    ensures value { result ≡ a +ℤ b }
    ensures near { IsWithin (2 ^ 22) result }
{
    a.0 + b.0
}

/// A point in 1/128 pixel.
fn doubled(p: &OutlinePoint) -> Point
    requires { IsInReach p.now }
    ensures { place_of result ≡ doubled_of p.now }
{
    Point {
        x: twice(p.x),
        y: twice(p.y),
    }
}

/// The midpoint, in 1/128 pixel.
fn middle(p: &OutlinePoint, q: &OutlinePoint) -> Point
    requires near_p { IsInReach p.now }
    requires near_q { IsInReach q.now }
    ensures { place_of result ≡ middle_of p.now q.now }
{
    Point {
        x: half_sum(p.x, q.x),
        y: half_sum(p.y, q.y),
    }
}

/// The place of the curve between two neighbours: at the first that is on it, else half way.
fn joint(p: &OutlinePoint, q: &OutlinePoint) -> Point
    requires near_p { IsInReach p.now }
    requires near_q { IsInReach q.now }
    ensures { place_of result ≡ joint_of p.now q.now }
{
    if p.on_curve {
        return doubled(p);
    }
    if q.on_curve {
        return doubled(q);
    }
    middle(p, q)
}

/// What a point q between its neighbours p and r adds, and the place of the curve between q and r; `from` is the one between p
/// and q.
fn step_at(p: &OutlinePoint, q: &OutlinePoint, r: &OutlinePoint, from: Point) -> Step
    requires near_q { IsInReach q.now }
    requires near_r { IsInReach r.now }
    requires from { place_of from ≡ joint_of p.now q.now }
    ensures piece { option_map span_of result.piece ≡ span_at p.now q.now r.now }
    ensures to { place_of result.to ≡ joint_of q.now r.now }
{
    let to = joint(q, r);
    if !q.on_curve {
        let arc = Piece {
            a: from,
            b: Some(doubled(q)),
            c: to,
        };
        return Step {
            piece: Some(arc),
            to,
        };
    }
    if p.on_curve {
        let line = Piece {
            a: from,
            b: None,
            c: to,
        };
        return Step {
            piece: Some(line),
            to,
        };
    }
    Step { piece: None, to }
}

/// Adds a piece, if there is one.
fn push_some(made: &mut Vec<Piece>, piece: Option<Piece>)
    requires { vec_len made.old < vec_capacity made.old }
    ensures items { made.new.items ≡ made.old.items ++ option_to_list piece }
    ensures room { vec_capacity made.new ≡ vec_capacity made.old }
{
    if let Some(piece) = piece {
        made.push_reserved(piece);
    }
}

/// Adds the pieces of a contour, for which there is room.
fn add_contour(made: &mut Vec<Piece>, points: &[OutlinePoint])
    requires near { All IsInReach points.now }
    requires room { vec_len made.old + length points.now ≤ vec_capacity made.old }
    ensures spans { map span_of made.new.items ≡ map span_of made.old.items ++ curve_of points.now }
    ensures few { vec_len made.new ≤ vec_len made.old + length points.now }
    ensures room { vec_capacity made.new ≡ vec_capacity made.old }
{
    if points.len() < 2 {
        return;
    }
    let first = &points[0];
    let mut before = &points[points.len() - 1];
    let mut here = first;
    let mut from = joint(before, first);
    // The pieces of the points before `here` were added, and `here` comes before point i; the curve has come to `from`, between
    // `before` and `here`.
    'points: for i in 1..points.len() {
        let next = &points[i];
        let step = step_at(before, here, next, from);
        push_some(made, step.piece);
        before = here;
        here = next;
        from = step.to;
    }
    push_some(made, step_at(before, here, first, from).piece);
}

/// Whether each of the contours with these last points has two points or more.
pub(crate) fn have_two(ends: &[u16]) -> bool
    ensures { IsTrue result ↔ HaveTwo 0 ends.now }
{
    let mut start = 0;
    // The contours so far have two points or more, and the next one begins at `start`.
    'contours: for end in ends {
        let last = usize::from(*end);
        if last <= start {
            return false;
        }
        start = last + 1;
    }
    true
}

/// The points of a contour, from `start` to the one before `next`.
pub(crate) fn contour(points: &[OutlinePoint], start: usize, next: usize) -> &[OutlinePoint]
    requires order { start ≤ next }
    requires within { next ≤ length points.now }
    ensures { result.now ≡ take (next - start) (drop start points.now) }
{
    &points[start..next]
}

/// The pieces of an outline whose points are all within the limit, in 1/128 pixel: those of each contour, a closed chain, one
/// contour after the other. A contour of fewer than two points has none. They are put into the buffer of other pieces, which are
/// lost.
pub fn pieces_in_reach(buffer: Pieces, outline: &Outline) -> Result<Pieces, AllocError>
    requires reach { All IsInReach outline.now.points.items }
    ensures ok { IfOk result (λ ps. map span_of ps ≡ spans_of outline.now.ends.items outline.now.points.items) }
    ensures closed { IfOk result (λ ps. AreOfOutline (map span_of ps)) }
{
    let mut made = buffer.into_list(outline.points.len())?;
    let mut start = 0;
    // The pieces of the contours so far were added, and the next one begins at `start`.
    'contours: for end in &outline.ends {
        let next = usize::from(*end) + 1;
        add_contour(&mut made, contour(&outline.points, start, next));
        start = next;
    }
    Ok(Pieces::of_list(made))
}

/// The pieces of an outline, as `pieces_in_reach` returns them. `TooFar` if a point, of any contour, lies more than `FARTHEST`
/// from an axis.
pub fn pieces(alloc: Global, outline: &Outline) -> Result<Pieces, ContourFault>
    ensures ok { IfOk result (λ ps. map span_of ps ≡ spans_of outline.now.ends.items outline.now.points.items) }
    ensures closed { IfOk result (λ ps. AreOfOutline (map span_of ps)) }
    ensures exact { GivesUnless Fails (map span_of) result (drawn_of outline.now.ends.items outline.now.points.items) }
    ensures far { IsErrOf result ContourFault.TooFar ↔ ¬ (All IsInReach outline.now.points.items) }
    ensures other { IfErr result (λ e. (e ≡ ContourFault.TooFar) ⊎ (e ≡ ContourFault.OutOfMemory)) }
{
    if !are_in_reach(&outline.points) {
        return Err(ContourFault::TooFar);
    }
    Ok(pieces_in_reach(Pieces::new(alloc), outline)?)
}

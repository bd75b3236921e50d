//! Bent arcs that are walked along: from row to row and from column to column the areas of one column's centre change evenly.

ghost use Rattle.std.specs.Prelude.{◌≡◌, ◌≢◌, ℕ, ℤ, ◌+◌, ◌-◌, ◌<◌, ◌≤◌, pos, ◌+ℤ◌, ◌-ℤ◌, ◌*ℤ◌, ◌≤ℤ◌, ◌<ℤ◌, IsTrue, ◌↔◌};
ghost use Rattle.std.specs.Prelude.{false, Some};
ghost use Rattle.fx_winding.specs.Area.{gap_of};
ghost use Rattle.fx_winding.specs.Winding.{Span, span_of, centre, IsOn};
ghost use Rattle.fx_rows.specs.inner.Arcs.{gap, AreAreas, IsBentBy, IsTurned, MissesCentres};
ghost use Rattle.fx_rows.specs.inner.Bands.{bounded_span};
ghost use Rattle.fx_rows.specs.inner.Candidates.{IsOnStrip};
ghost use Rattle.fx_rows.specs.inner.Cuts.{Counts, CountsAt, CountsFirst, IsEndOfCount, IsLast};
ghost use Rattle.fx_rows.specs.inner.Points.{IsInner};
ghost use Rattle.fx_rows.specs.inner.Sides.{end_at, place_at};
ghost use Rattle.fx_rows.specs.inner.Walks.{AreSmall, IsSum, IsReversed, AreTurned, IsStep, right_of, IsSpot, IsArcAt, IsArcOrFlat};

use crate::above::lift_of;
use crate::arc::{step_of, total_of};
use crate::bounded::{Bounded, foot_x};
use crate::cells::Cut;
use crate::cuts::Cuts;
use crate::narrow::columns_before;
use crate::on::on_one;
use crate::part::OnRow;
use crate::rest::is_right;
use crate::strip::{Strip, areas_at};
use fx_fixed::wide_product;
use fx_winding::{Piece, Point, Tally, Weights, curve_gap, first_from};

/// Whether an arc can touch the centre of a pixel, from its areas at one. From centre to centre the areas change by multiples of
/// 128, and so their gap changes by multiples of 256. If the gap is no such multiple at one centre, it is 0 at none. If it is one,
/// the arc may touch no centre all the same: no clause says that it does.
fn may_touch(areas: Weights) -> bool
    ensures { (s : Span) (col row : ℤ) → AreAreas s (centre col row) areas → result ≡ false → MissesCentres s }
{
    curve_gap(areas) % 256 == 0
}

/// Areas after a step.
#[inline(always)]
fn after(areas: Weights, step: Weights) -> Weights
    requires { AreSmall (areas.u +ℤ step.u) (areas.v +ℤ step.v) (areas.w +ℤ step.w) }
    ensures { IsSum areas step result }
{
    Weights {
        u: areas.u + step.u,
        v: areas.v + step.v,
        w: areas.w + step.w,
    }
}

/// The changes the other way.
#[inline(always)]
fn reversed(step: Weights) -> Weights
    ensures { IsReversed step result }
{
    Weights {
        u: -step.u,
        v: -step.v,
        w: -step.w,
    }
}

/// Areas with the sign of the chord's rise.
#[inline(always)]
#[tactic(auto, using(fx_fixed::proofs::Linear::signed_linear, crate::proofs::Sides::sign_above, crate::proofs::Sides::sign_below))]
fn turned_areas(piece: &Piece, areas: Weights) -> Weights
    requires slanted { piece.now.a.y ≢ piece.now.c.y }
    ensures { AreTurned (piece.now.c.y -ℤ piece.now.a.y) areas result }
{
    if piece.a.y < piece.c.y {
        return areas;
    }
    reversed(areas)
}

/// A bent arc: whether it lies right of its chord, whether it can touch a centre, and the changes of a column's areas to the next
/// column and to the row above. All areas have the sign of the chord's rise, so that the second is the column's
/// side of the chord.
#[derive(Clone, Copy)]
pub(crate) struct Arc {
    right: bool,
    touches: bool,
    next: Weights,
    up: Weights,
}

/// A column of a row, and the areas of its centre.
#[derive(Clone, Copy)]
pub(crate) struct Spot {
    k: u32,
    areas: Weights,
}

/// The cuts of a bent arc: the arc, and where the columns of the row below ended.
#[derive(Clone, Copy)]
pub(crate) struct ArcCuts {
    arc: Arc,
    spot: Spot,
}

/// Whether the gap of these areas is at least 0. Its factor 4 goes into a product of 64 bits.
#[inline(always)]
fn is_reached(areas: Weights) -> bool
    ensures { IsTrue result ↔ (pos 0 ≤ℤ gap_of areas.u areas.v areas.w) }
{
    wide_product(4 * areas.u, areas.w) >= wide_product(areas.v, areas.v)
}

/// Whether a column with these areas counts: it is left of the chord, or in the region right of it; or left of both.
#[inline(always)]
fn is_counted(right: bool, areas: Weights) -> bool
    ensures { IsTrue result ↔ Counts right areas.v (gap_of areas.u areas.v areas.w) }
{
    if right {
        areas.v < 0 || is_reached(areas)
    } else {
        areas.v < 0 && !is_reached(areas)
    }
}

/// Whether a column counts.
#[inline(always)]
#[tactic(auto, using(crate::proofs::Walks::counts_at))]
fn counts(piece: &Piece, right: bool, spot: Spot, strip: Strip) -> bool
    requires { IsSpot spot piece.now (place_at strip 0) (end_at strip) }
    ensures { IsTrue result ↔ CountsAt (span_of piece.now) right strip spot.k }
{
    is_counted(right, spot.areas)
}

/// Whether a column counts and is in the strip.
#[inline(always)]
fn is_short(piece: &Piece, right: bool, spot: Spot, strip: Strip) -> bool
    requires { IsSpot spot piece.now (place_at strip 0) (end_at strip) }
    ensures short { IsTrue result → (spot.k < strip.stop) × CountsAt (span_of piece.now) right strip spot.k }
    ensures not { ¬ (IsTrue result) → spot.k < strip.stop → ¬ (CountsAt (span_of piece.now) right strip spot.k) }
{
    spot.k < strip.stop && counts(piece, right, spot, strip)
}

/// Another column of the row, one step away.
#[inline(always)]
fn beside(piece: &Piece, spot: Spot, strip: Strip, k: u32, step: Weights) -> Spot
    requires at { IsSpot spot piece.now (place_at strip 0) (end_at strip) }
    requires step { IsStep (span_of piece.now) (right_of (place_at strip 0) spot.k) (right_of (place_at strip 0) k) step }
    requires within { k ≤ strip.stop }
    ensures at { IsSpot result piece.now (place_at strip 0) (end_at strip) }
    ensures column { result.k ≡ k }
{
    Spot {
        k,
        areas: after(spot.areas, step),
    }
}

/// The same column in the row above, which need not be a row of pixels.
#[inline(always)]
fn above(piece: &Piece, spot: Spot, strip: Strip, step: Weights) -> Spot
    requires at { IsSpot spot piece.now (place_at strip 0) (end_at strip) }
    requires step { IsStep (span_of piece.now) (right_of (place_at strip 0) spot.k)
        (right_of (centre (strip.base +ℤ pos 0) (strip.row +ℤ pos 1)) spot.k) step }
    ensures { IsSpot result piece.now (centre (strip.base +ℤ pos 0) (strip.row +ℤ pos 1)) (end_at strip) }
{
    Spot {
        k: spot.k,
        areas: after(spot.areas, step),
    }
}

/// Goes to where the columns that count end: right while they do, or else left while they do not.
#[inline(always)]
fn to_end(piece: &Piece, cuts: ArcCuts, strip: Strip) -> Spot
    requires first { CountsFirst (span_of piece.now) cuts.arc.right strip }
    requires at { IsArcAt cuts piece.now (place_at strip 0) (end_at strip) }
    ensures at { IsSpot result piece.now (place_at strip 0) (end_at strip) }
    ensures end { IsEndOfCount (span_of piece.now) cuts.arc.right strip result.k }
    ensures within { result.k ≤ strip.stop }
{
    let arc = cuts.arc;
    let mut here = cuts.spot;
    if is_short(piece, arc.right, here, strip) {
        here = beside(piece, here, strip, here.k + 1, arc.next);
        // The columns before this one count.
        'right: while is_short(piece, arc.right, here, strip) {
            here = beside(piece, here, strip, here.k + 1, arc.next);
        }
        return here;
    }
    // The columns from this one on do not count.
    'left: while here.k > 0 {
        let left = beside(piece, here, strip, here.k - 1, reversed(arc.next));
        if counts(piece, arc.right, left, strip) {
            return here;
        }
        here = left;
    }
    here
}

/// Whether the gap of these areas is not 0, as its low 64 bits show.
#[inline(always)]
fn is_off(areas: Weights) -> bool
    ensures { IsTrue result → gap_of areas.u areas.v areas.w ≢ pos 0 }
{
    (4 * areas.u).wrapping_mul(areas.w) != areas.v.wrapping_mul(areas.v)
}

/// The column, if it is in the strip and on a bent arc. No other can be. Few gaps are 0, so the gap is looked at first.
#[inline(always)]
#[tactic(auto, using(crate::proofs::Contacts::none_on, crate::proofs::Walks::gap_at_column))]
fn on_column(piece: &Piece, spot: Spot, strip: Strip, tally: &mut Tally) -> OnRow
    requires at { IsSpot spot piece.now (place_at strip 0) (end_at strip) }
    requires only { (k : ℕ) → k < strip.stop → IsOn (place_at strip k) (span_of piece.now) →
        (k ≡ spot.k) × (gap (span_of piece.now) (place_at strip k) ≡ pos 0) }
    ensures on { IsOnStrip (span_of piece.now) strip result }
    ensures count { tally.new.count ≤ tally.old.count + 1 }
{
    if is_off(spot.areas) {
        return OnRow::None;
    }
    if spot.k >= strip.stop {
        return OnRow::None;
    }
    on_one(piece, strip, spot.k, tally)
}

/// The column beside the end of those that count, if it is on a bent arc. No other can be, and none if the arc touches no centre.
#[inline(always)]
fn on_end(piece: &Piece, cuts: ArcCuts, strip: Strip, tally: &mut Tally) -> OnRow
    requires at { IsArcAt cuts piece.now (place_at strip 0) (end_at strip) }
    requires only { (k : ℕ) → k < strip.stop → IsOn (place_at strip k) (span_of piece.now) →
        IsLast cuts.arc.right cuts.spot.k k × (gap (span_of piece.now) (place_at strip k) ≡ pos 0) }
    ensures on { IsOnStrip (span_of piece.now) strip result }
    ensures count { tally.new.count ≤ tally.old.count + 1 }
{
    let arc = cuts.arc;
    let end = cuts.spot;
    if !arc.touches {
        return OnRow::None;
    }
    if !arc.right {
        return on_column(piece, end, strip, tally);
    }
    if end.k == 0 {
        return OnRow::None;
    }
    let last = beside(piece, end, strip, end.k - 1, reversed(arc.next));
    on_column(piece, last, strip, tally)
}

/// The column of an arc's lower end, or the nearest of the strip's, or the one after its last.
fn first_column(piece: &Piece, strip: Strip) -> u32
    ensures { result ≤ strip.stop }
{
    columns_before(strip, first_from(foot_x(piece)))
}

/// The changes of an arc's areas from column to column.
fn across_of(piece: &Piece, b: Point) -> Weights
    ensures u { result.u ≡ pos 128 *ℤ (b.y -ℤ piece.now.c.y) }
    ensures v { result.v ≡ pos 128 *ℤ (piece.now.c.y -ℤ piece.now.a.y) }
    ensures w { result.w ≡ pos 128 *ℤ (piece.now.a.y -ℤ b.y) }
{
    Weights {
        u: step_of(b, piece.c),
        v: step_of(piece.c, piece.a),
        w: step_of(piece.a, b),
    }
}

/// The changes of an arc's areas from row to row.
fn up_of(piece: &Piece, b: Point) -> Weights
    ensures u { result.u ≡ pos 128 *ℤ (piece.now.c.x -ℤ b.x) }
    ensures v { result.v ≡ pos 128 *ℤ (piece.now.a.x -ℤ piece.now.c.x) }
    ensures w { result.w ≡ pos 128 *ℤ (b.x -ℤ piece.now.a.x) }
{
    Weights {
        u: lift_of(b, piece.c),
        v: lift_of(piece.c, piece.a),
        w: lift_of(piece.a, b),
    }
}

/// An arc at a column, from the areas there.
#[inline(always)]
fn arc_at(piece: &Piece, b: Point, right: bool, strip: Strip, k: u32, areas: Weights) -> ArcCuts
    requires bent { IsBentBy piece.now b }
    requires slanted { piece.now.a.y ≢ piece.now.c.y }
    requires right { IsTurned (span_of piece.now) right }
    requires within { k ≤ strip.stop }
    requires areas { AreAreas (span_of piece.now) (place_at strip k) areas }
    ensures { IsArcAt result piece.now (place_at strip 0) (end_at strip) }
{
    let arc = Arc {
        right,
        touches: may_touch(areas),
        next: turned_areas(piece, across_of(piece, b)),
        up: turned_areas(piece, up_of(piece, b)),
    };
    let spot = Spot {
        k,
        areas: turned_areas(piece, areas),
    };
    ArcCuts { arc, spot }
}

/// The same, or nothing if the arc's points are on one line.
#[inline(always)]
fn arc_of(piece: &Piece, b: Point, strip: Strip, k: u32, areas: Weights) -> Option<ArcCuts>
    requires middle { piece.now.b ≡ Some b }
    requires slanted { piece.now.a.y ≢ piece.now.c.y }
    requires within { k ≤ strip.stop }
    requires areas { AreAreas (span_of piece.now) (place_at strip k) areas }
    ensures { IsArcOrFlat result piece.now (place_at strip 0) (end_at strip) }
{
    let total = total_of(areas);
    if total == 0 {
        return None;
    }
    Some(arc_at(piece, b, is_right(piece, total), strip, k, areas))
}

/// The cuts of a piece in a row between its ends, if it is a bent arc.
#[inline(always)]
pub(crate) fn arc_in(piece: &Piece, strip: Strip, tally: &mut Tally) -> Option<ArcCuts>
    requires slanted { piece.now.a.y ≢ piece.now.c.y }
    ensures arc { IsArcOrFlat result piece.now (place_at strip 0) (end_at strip) }
    ensures count { tally.new.count ≤ tally.old.count + 1 }
{
    match piece.b {
        None => None,
        Some(b) => {
            let k = first_column(piece, strip);
            let areas = areas_at(piece, strip, k, tally);
            arc_of(piece, b, strip, k, areas)
        }
    }
}

impl Cuts for ArcCuts {
    ghost AreAt = { λ cuts b p end. IsArcAt cuts b.piece p end };

    #[inline(always)]
    fn end(&mut self, bounded: &Bounded, strip: Strip) -> u32 {
        self.spot = to_end(&bounded.piece, *self, strip);
        self.spot.k
    }

    #[inline(always)]
    fn cut(&mut self, bounded: &Bounded, strip: Strip, tally: &mut Tally) -> Cut {
        self.spot = to_end(&bounded.piece, *self, strip);
        Cut {
            end: self.spot.k,
            on: on_end(&bounded.piece, *self, strip, tally),
        }
    }

    #[inline(always)]
    fn move_up(&mut self, bounded: &Bounded, strip: Strip) {
        self.spot = above(&bounded.piece, self.spot, strip, self.arc.up);
    }
}

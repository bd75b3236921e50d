//! The halves of arcs, by hand.
ghost use Rattle.std.specs.Prelude.{◌^◌};
ghost use Rattle.fx_fixed.specs.Ranges.{IsWithin};

use crate::curves::{Curve, piece, places};
use fx_symmetry::halves;
use fx_winding::{Tally, on_piece};

/// The places of an arc.
type Arc = [(i32, i32); 3];

/// The places of an arc's halves.
fn halves_at(curve: Curve) -> Option<(Arc, Arc)> {
    let (start, end) = halves(&piece(curve))?;
    Some((places(&start)?, places(&end)?))
}

/// Whether both halves of an arc pass through the point where they meet.
fn both_pass(curve: Curve, x: i32, y: i32) -> bool
    requires near_x { IsWithin (2 ^ 30) x }
    requires near_y { IsWithin (2 ^ 22) y }
{
    let mut tally = Tally::new();
    match halves(&piece(curve)) {
        Some((start, end)) => on_piece(&start, x, y, &mut tally)
            && on_piece(&end, x, y, &mut tally),
        None => false,
    }
}

#[test]
fn places_of_halves(rt: HostRuntime) {
    for (curve, wanted) in &[
        (
            ((0, 0), Some((128, 256)), (256, 0)),
            Some((
                [(0, 0), (64, 128), (128, 128)],
                [(128, 128), (192, 128), (256, 0)],
            )),
        ),
        (
            ((0, 64), Some((384, 64)), (0, 64)),
            Some((
                [(0, 64), (192, 64), (192, 64)],
                [(192, 64), (192, 64), (0, 64)],
            )),
        ),
        (
            ((0, 0), Some((64, 128)), (128, 0)),
            Some(([(0, 0), (32, 64), (64, 64)], [(64, 64), (96, 64), (128, 0)])),
        ),
        (((0, 0), Some((1, 0)), (2, 2)), None),
        (((0, 0), None, (128, 128)), None),
    ] {
        assert!(rt; halves_at(*curve) == *wanted);
    }
    assert!(rt; both_pass(((0, 0), Some((64, 128)), (128, 0)), 64, 64));
}

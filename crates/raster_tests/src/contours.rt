//! Small outlines, with their pieces and frames by hand.
ghost use Rattle.std.specs.Prelude.{◌≤◌, length};
ghost use Rattle.fx_outline.specs.Limits.{max_points};
ghost use Rattle.fx_outline.specs.Ends.{AreEnds};

use crate::curves::places;
use fx_contour::{ContourFault, frame, outline_frame, pieces};
use fx_fixed::F26;
use fx_outline::{Outline, OutlinePoint};
use fx_winding::{Frame, Piece};
use std::alloc::{AllocError, Global};
use std::test::Fail;

/// A point on the curve, in 1/64 pixel.
pub(crate) fn on(x: i32, y: i32) -> OutlinePoint {
    OutlinePoint {
        x: F26(x),
        y: F26(y),
        on_curve: true,
    }
}

/// A point off the curve, in 1/64 pixel.
fn off(x: i32, y: i32) -> OutlinePoint {
    OutlinePoint {
        on_curve: false,
        ..on(x, y)
    }
}

/// The outline of these points, with the number of each contour's last point.
pub(crate) fn outline(
    alloc: Global,
    points: &[OutlinePoint],
    ends: &[u16],
) -> Result<Outline, AllocError>
    requires few { length points.now ≤ max_points }
    requires contours { AreEnds 0 ends.now (length points.now) }
{
    Ok(Outline {
        points: Vec::from_slice(alloc, points)?,
        ends: Vec::from_slice(alloc, ends)?,
    })
}

/// The least column and row of a frame, its width and height.
pub(crate) type Sides = (i32, i32, u32, u32);

/// The sides of a frame.
pub(crate) fn sides(
    frame: Result<Option<Frame>, ContourFault>,
) -> Result<Option<Sides>, ContourFault> {
    let frame = frame?;
    Ok(frame.map(|it| (it.left, it.bottom, it.width, it.height)))
}

/// Whether pieces are these arcs.
fn are_arcs(made: &[Piece], arcs: &[[(i32, i32); 3]]) -> bool {
    if made.len() != arcs.len() {
        return false;
    }
    for k in 0..arcs.len() {
        if places(&made[k]) != Some(arcs[k]) {
            return false;
        }
    }
    true
}

/// Whether the pieces of an outline of four points are these arcs, and both of its frames have these sides.
fn makes(
    alloc: Global,
    points: [OutlinePoint; 4],
    ends: &[u16],
    arcs: &[[(i32, i32); 3]],
    wanted: Sides,
) -> Result<bool, Fail>
    requires { AreEnds 0 ends.now 4 }
{
    let outline = outline(alloc, &points, ends)?;
    let made = pieces(alloc, &outline)?;
    Ok(
        are_arcs(made.as_slice(), arcs)
            && sides(frame(&made)) == Ok(Some(wanted))
            && sides(outline_frame(&outline)) == Ok(Some(wanted)),
    )
}

#[test]
fn all_off_the_curve(rt: HostRuntime) -> Result<(), Fail> {
    let points = [off(0, 0), off(256, 0), off(256, 256), off(0, 256)];
    let arcs = &[
        [(0, 256), (0, 0), (256, 0)],
        [(256, 0), (512, 0), (512, 256)],
        [(512, 256), (512, 512), (256, 512)],
        [(256, 512), (0, 512), (0, 256)],
    ];
    assert!(rt; makes(rt.alloc(), points, &[3], arcs, (0, 0, 4, 4))?);
    Ok(())
}

#[test]
fn on_and_off_in_turn(rt: HostRuntime) -> Result<(), Fail> {
    let points = [on(0, 32), off(64, 160), on(128, 32), off(64, -96)];
    let arcs = &[
        [(0, 64), (128, 320), (256, 64)],
        [(256, 64), (128, -192), (0, 64)],
    ];
    assert!(rt; makes(rt.alloc(), points, &[3], arcs, (0, -2, 2, 5))?);
    Ok(())
}

#[test]
fn two_points_and_lone_points(rt: HostRuntime) -> Result<(), Fail> {
    let points = [on(0, 32), off(192, 32), on(900, 0), off(0, 900)];
    let arcs = &[[(0, 64), (384, 64), (0, 64)]];
    assert!(rt; makes(rt.alloc(), points, &[1, 2, 3], arcs, (0, 0, 3, 1))?);
    Ok(())
}

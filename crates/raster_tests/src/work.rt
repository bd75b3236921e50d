//! The work of drawing small shapes, by hand.
use crate::contours::{on, outline};
use fx_outline::OutlinePoint;
use fx_raster::{Closing, RasterScratch, Rows, Rule, Shape};
use std::alloc::Global;
use std::test::Fail;

/// The work of a contour's shape by a rule, if it is no more than `most`.
fn work_of(
    alloc: Global,
    points: &[OutlinePoint; 4],
    rule: Rule,
    most: usize,
) -> Result<Option<usize>, Fail> {
    let shape = Shape::of(outline(alloc, points, &[3])?, rule)?;
    let mut scratch = RasterScratch::new(alloc);
    Ok(shape.work_within(alloc, &Rows, &mut scratch, most)?)
}

/// Whether a contour's shape has this work by a rule: it is within a limit of so much, and not within one less.
fn takes(alloc: Global, points: &[OutlinePoint; 4], rule: Rule, work: usize) -> Result<bool, Fail> {
    let here = work_of(alloc, points, rule, work)?;
    let less = work_of(alloc, points, rule, work.saturating_sub(1))?;
    Ok(here == Some(work) && less == None)
}

/// A triangle of two pixels each way, its level side in two pieces. Its frame has two rows, which take 1 each. Each piece of the
/// level side takes 1, a row and two columns; the slanted side 1, three rows and three columns; the upright side 1, three rows and
/// a column. There is no gap: the sides pass between centres that the triangle covers.
#[test]
fn triangle(rt: HostRuntime) -> Result<(), Fail> {
    let points = [on(0, 0), on(64, 0), on(128, 0), on(0, 128)];
    assert!(rt; takes(rt.alloc(), &points, Rule::Centres, 14)?);
    assert!(rt; takes(rt.alloc(), &points, Rule::Bridged(Closing::Lower), 22)?);
    assert!(rt; takes(rt.alloc(), &points, Rule::Bridged(Closing::Nearer), 22)?);
    Ok(())
}

/// A stroke of 10/64 pixel between two centres, a pixel high. Each upright side takes 1, two rows and a column, each level one 1, a
/// row and a column. No centre lies in its box, so it has no frame without drop-out control; with it there is one row, which takes
/// 1. The gap in that row takes 1 and the two upright sides: the level ones lie below and above it.
#[test]
fn stroke(rt: HostRuntime) -> Result<(), Fail> {
    let points = [on(70, 0), on(80, 0), on(80, 64), on(70, 64)];
    assert!(rt; takes(rt.alloc(), &points, Rule::Centres, 10)?);
    assert!(rt; takes(rt.alloc(), &points, Rule::Bridged(Closing::Lower), 15)?);
    assert!(rt; takes(rt.alloc(), &points, Rule::Bridged(Closing::Nearer), 18)?);
    Ok(())
}

/// A bar of two rows. Each takes 1 up to 256 columns, and 2 from 257 on. Each level side takes 1 and a row, each upright one 1 and
/// three rows. With drop-out control a level side of 257 columns ends in the 258th, and each upright one takes a column.
#[test]
fn bar(rt: HostRuntime) -> Result<(), Fail> {
    let points = |width| [on(0, 0), on(width, 0), on(width, 128), on(0, 128)];
    assert!(rt; takes(rt.alloc(), &points(256 * 64), Rule::Centres, 14)?);
    assert!(rt; takes(rt.alloc(), &points(257 * 64), Rule::Centres, 16)?);
    assert!(rt;
        takes(
            rt.alloc(),
            &points(257 * 64),
            Rule::Bridged(Closing::Lower),
            534
        )?
    );
    Ok(())
}

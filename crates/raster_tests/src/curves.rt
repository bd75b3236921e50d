//! Outlines of lines and arcs, and frames, by their places.
ghost use Rattle.std.specs.Prelude.{◌≡◌};
ghost use Rattle.fx_winding.specs.Limits.{IsSide};

use fx_winding::{Frame, Piece, Pieces, Point};
use std::alloc::{AllocError, Global};

/// A place in 1/128 pixel.
pub type At = (i16, i16);

/// A line, or an arc with a control point.
pub type Curve = (At, Option<At>, At);

/// The point at a place.
pub fn point(at: At) -> Point {
    Point {
        x: i32::from(at.0),
        y: i32::from(at.1),
    }
}

/// The piece that a curve is.
pub fn piece(curve: Curve) -> Piece {
    let (a, b, c) = curve;
    Piece {
        a: point(a),
        b: b.map(|at| point(at)),
        c: point(c),
    }
}

/// Adds a piece to a list, unless it is full or the piece lies too far out.
pub fn add(pieces: &mut Pieces, piece: Piece) -> Result<(), AllocError> {
    if pieces.len() < 65_536 && piece.is_near() {
        pieces.push(piece)?;
    }
    Ok(())
}

/// The pieces of an outline.
pub fn outline(alloc: Global, curves: &[Curve]) -> Result<Pieces, AllocError> {
    let mut pieces = Pieces::new(alloc);
    for curve in curves {
        add(&mut pieces, piece(*curve))?;
    }
    Ok(pieces)
}

/// The coordinates of a point.
pub fn place(point: Point) -> (i32, i32) {
    (point.x, point.y)
}

/// The coordinates of an arc's start, its control point and its end.
pub fn places(arc: &Piece) -> Option<[(i32, i32); 3]> {
    Some([place(arc.a), place(arc.b?), place(arc.c)])
}

/// The frame of a number of columns from the left one on, and of rows from the bottom one on.
pub fn frame(left: i32, bottom: i32, width: u32, height: u32) -> Frame
    requires columns { IsSide left width }
    requires rows { IsSide bottom height }
    ensures left { result.left ≡ left }
    ensures bottom { result.bottom ≡ bottom }
    ensures width { result.width ≡ width }
    ensures height { result.height ≡ height }
{
    Frame {
        left,
        bottom,
        width,
        height,
    }
}

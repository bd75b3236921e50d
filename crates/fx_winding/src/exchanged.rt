//! Columns seen as rows: points, pieces and frames with their coordinates exchanged.

ghost use Rattle.std.specs.Prelude.{◌≡◌, ◌^◌, option_map, map, IfOk};
ghost use Rattle.fx_fixed.specs.Ranges.{IsWithin};
ghost use Rattle.fx_winding.specs.Near.{IsNearPlace, IsNear};
ghost use Rattle.fx_winding.specs.Outside.{OptionAll};
ghost use Rattle.fx_winding.specs.Turned.{turned_place, turned_span};
ghost use Rattle.fx_winding.specs.Winding.{place_of, maybe_place_of, span_of};

use crate::frame::Frame;
use crate::pieces::Pieces;
use crate::point::{Piece, Point};
use std::alloc::{AllocError, Global};

impl Point {
    /// The point with its coordinates exchanged.
    pub fn turned(self) -> Point
        requires { IsWithin (2 ^ 22) self.x }
        ensures { place_of result ≡ turned_place (place_of self) }
    {
        Point {
            x: self.y,
            y: self.x,
        }
    }
}

/// A control point with its coordinates exchanged, if there is one.
fn turned_control(b: Option<Point>) -> Option<Point>
    requires { OptionAll IsNearPlace (maybe_place_of b) }
    ensures { maybe_place_of result ≡ option_map turned_place (maybe_place_of b) }
{
    match b {
        None => None,
        Some(b) => Some(b.turned()),
    }
}

impl Piece {
    /// The piece with its coordinates exchanged.
    pub fn turned(&self) -> Piece
        requires { IsNear self.now }
        ensures { span_of result ≡ turned_span (span_of self.now) }
    {
        Piece {
            a: self.a.turned(),
            b: turned_control(self.b),
            c: self.c.turned(),
        }
    }
}

impl Pieces {
    /// The pieces with their coordinates exchanged.
    pub fn turned(&self, alloc: Global) -> Result<Pieces, AllocError>
        ensures { IfOk result (λ ps. map span_of ps ≡ map turned_span (map span_of self.now)) }
    {
        let mut turned = Pieces::new(alloc);
        // The list has the pieces before this one.
        'pieces: for piece in self.as_slice() {
            turned.push(piece.turned())?;
        }
        Ok(turned)
    }
}

impl Frame {
    /// The frame with its coordinates exchanged.
    pub fn turned(self) -> Frame
        ensures left { result.left ≡ self.bottom }
        ensures bottom { result.bottom ≡ self.left }
        ensures width { result.width ≡ self.height }
        ensures height { result.height ≡ self.width }
    {
        Frame {
            left: self.bottom,
            bottom: self.left,
            width: self.height,
            height: self.width,
        }
    }
}

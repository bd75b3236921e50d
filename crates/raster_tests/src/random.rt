//! Random outlines, closed, of lines and arcs: many with points on centres of pixels, on one line or at one place, or thin.

ghost use Rattle.std.specs.Prelude.{◌<◌};

use fx_winding::{Frame, Piece, Pieces, Point};
use std::alloc::{AllocError, Global};

/// A place in 1/128 pixel.
type At = (i16, i16);

/// The most pieces that a list holds.
pub(crate) const MOST_PIECES: usize = 65_536;

/// How far apart the two sides of a thin shape are, in 1/128 pixel.
const THIN: [i16; 6] = [0, 0, 1, 3, 8, 20];

/// A generator of numbers that look random: the same seed gives the same numbers.
#[derive(Drop)]
pub struct Random {
    state: u64,
}

impl Random {
    /// The generator of a seed.
    pub fn new(seed: u64) -> Random {
        Random { state: seed }
    }

    /// A number below `end`.
    fn below(&mut self, end: u32) -> u32
        requires { 0 < end }
        ensures { result < end }
    {
        self.state = self
            .state
            .wrapping_mul(6_364_136_223_846_793_005)
            .wrapping_add(1_442_695_040_888_963_407);
        (self.state >> 33) as u32 % end
    }

    /// A number within 16 pixels, often a multiple of 1/64, 1/4, 1/2 or a whole pixel.
    fn coordinate(&mut self) -> i16 {
        let n = self.below(4096);
        let n = match self.below(5) {
            0 => n,
            1 => n - n % 2,
            2 => n - n % 32,
            3 => n - n % 64,
            _ => n - n % 128,
        };
        n as i16 - 2048
    }

    /// A point after two others: at the same height, below or above, at the same place, on their line, or anywhere.
    fn after(&mut self, first: At, last: At) -> At {
        let at = (self.coordinate(), self.coordinate());
        match self.below(8) {
            0 => (last.0, at.1),
            1 => (at.0, last.1),
            2 => last,
            3 => (
                last.0.wrapping_sub(first.0).wrapping_add(last.0),
                last.1.wrapping_sub(first.1).wrapping_add(last.1),
            ),
            _ => at,
        }
    }

    /// Adds a closed contour of one to eight pieces.
    fn contour(&mut self, pieces: &mut Pieces) -> Result<(), AllocError> {
        let start = (self.coordinate(), self.coordinate());
        let count = 1 + self.below(8);
        let mut before = start;
        let mut here = start;
        'pieces: for k in 0..count {
            let control = self.after(before, here);
            let is_arc = self.below(2) == 0;
            let drawn = self.after(if is_arc { control } else { before }, here);
            let end = if k + 1 == count { start } else { drawn };
            let piece = Piece {
                a: point(here),
                b: if is_arc { Some(point(control)) } else { None },
                c: point(end),
            };
            if pieces.len() < MOST_PIECES && piece.is_near() {
                pieces.push(piece)?;
            }
            before = here;
            here = end;
        }
        Ok(())
    }

    /// Adds a closed contour of two pieces, there and back: an arc that bulges past its ends and its chord; a hairline, steep,
    /// level or slanted; or a lens of two arcs.
    fn thin_contour(&mut self, pieces: &mut Pieces) -> Result<(), AllocError> {
        let a = (self.coordinate(), self.coordinate());
        let b = (self.coordinate(), self.coordinate());
        let far = (self.coordinate(), self.coordinate());
        let by = THIN[self.below(6) as usize];
        let (c, there, back) = match self.below(5) {
            0 => ((a.0, a.1.wrapping_add(by)), Some(b), None),
            1 => ((a.0.wrapping_add(by), far.1), None, None),
            2 => ((far.0, a.1.wrapping_add(by)), None, None),
            3 => (far, None, None),
            _ => (far, Some(b), Some((b.0.wrapping_add(by), b.1))),
        };
        'pieces: for (from, over, to) in [(a, there, c), (c, back, a)] {
            let piece = Piece {
                a: point(from),
                b: over.map(point),
                c: point(to),
            };
            if pieces.len() < MOST_PIECES && piece.is_near() {
                pieces.push(piece)?;
            }
        }
        Ok(())
    }

    /// An outline of this many thin contours.
    pub(crate) fn thin_outline(
        &mut self,
        alloc: Global,
        contours: u32,
    ) -> Result<Pieces, AllocError> {
        let mut pieces = Pieces::new(alloc);
        'contours: for _ in 0..contours {
            self.thin_contour(&mut pieces)?;
        }
        Ok(pieces)
    }

    /// An outline of this many closed contours.
    pub(crate) fn outline(&mut self, alloc: Global, contours: u32) -> Result<Pieces, AllocError> {
        let mut pieces = Pieces::new(alloc);
        'contours: for _ in 0..contours {
            self.contour(&mut pieces)?;
        }
        Ok(pieces)
    }

    /// A frame of at most 64 pixels a side, which may cut an outline off.
    pub(crate) fn frame(&mut self) -> Frame {
        let left = self.below(40) as i32 - 24;
        let bottom = self.below(40) as i32 - 24;
        Frame {
            left,
            bottom,
            width: self.below(65),
            height: self.below(65),
        }
    }
}

/// A place as a point.
fn point(at: At) -> Point {
    Point {
        x: i32::from(at.0),
        y: i32::from(at.1),
    }
}

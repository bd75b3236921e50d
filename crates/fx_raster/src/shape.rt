//! An outline within the limits, and the pixels that it sets.
ghost use Rattle.std.specs.Prelude.{◌≡◌, ◌↔◌, IsTrue, ℤ, Ok, IfOk};
ghost use Rattle.fx_winding.specs.Bitmaps.{bit_of};
ghost use Rattle.fx_contour.specs.Contours.{spans_of};
ghost use Rattle.fx_raster.specs.Frames.{HasFrame};
ghost use Rattle.fx_raster.specs.Rules.{IsInRegion, IsPixelSet, shape_of};
ghost use Rattle.fx_raster.specs.Work.{drawing_work, within};

use crate::RasterFault;
use crate::bits::bitmap_of;
use crate::frames::frame_of;
use crate::region::Region;
use crate::rule::Rule;
use crate::scratch::RasterScratch;
use crate::within::lies_in;
use crate::work::work_within;
use fx_contour::pieces_in_reach;
use fx_outline::Outline;
use fx_winding::{Bitmap, Frame, Pieces, Scan};
use std::alloc::{AllocError, Global};
use std::marker::Model;
use std::mem;

/// An outline within the limits, with the rule by which it sets pixels. Contracts see the rule and the pieces of the outline.
#[derive(Drop)]
pub struct Shape {
    outline: Outline,
    rule: Rule,
    /// The frame that holds every pixel that can be set. There is none if no pixel's centre lies in the box of the outline's
    /// points; with drop-out control only if the outline has no piece.
    frame: Option<Frame>,
}

impl Model for Shape {
    ghost use Rattle.fx_contour.specs.Contours.{spans_of};
    ghost use Rattle.fx_raster.specs.Frames.{HasFrame};
    ghost use Rattle.fx_raster.specs.Rules.{ShapeView};

    ghost Value = { ShapeView };

    ghost view = { λ s. record { rule = s.rule; spans = spans_of s.outline.ends.items s.outline.points.items } };

    ghost invariant = { λ s. HasFrame s.rule s.outline.ends.items s.outline.points.items s.frame };
}

impl Shape {
    /// The shape of an outline by a rule. `TooFar` if a point of the outline lies too far out, `TooLarge` if its frame has too many
    /// pixels a side. It takes no memory.
    #[inline(always)]
    pub fn of(outline: Outline, rule: Rule) -> Result<Shape, RasterFault>
        ensures { result ≡ shape_of rule outline.ends.items outline.points.items }
    {
        let frame = frame_of(&outline, rule)?;
        Ok(Shape {
            outline,
            rule,
            frame,
        })
    }

    /// Whether the shape's frame lies in a region; if so, each pixel that is set does. It takes no memory and makes no bits.
    pub fn lies_in(&self, region: Region) -> bool
        ensures { IsTrue result → (col row : ℤ) → IsPixelSet self.now.rule self.now.spans col row → IsInRegion region col row }
    {
        lies_in(self.frame, region)
    }

    /// The bits of all pixels, by a scan of the caller's choice: a bit is set exactly if the rule sets the pixel. The scan can work
    /// in the scratch, which the caller keeps for the next shape.
    pub fn bitmap<S: Scan>(
        &self,
        alloc: Global,
        scan: &S,
        scratch: &mut RasterScratch,
    ) -> Result<Bitmap, AllocError>
        ensures { IfOk result (λ b.
            (col row : ℤ) → IsTrue (bit_of b col row) ↔ IsPixelSet self.now.rule self.now.spans col row) }
    {
        let buffer = mem::replace(&mut scratch.pieces, Pieces::new(alloc));
        let pieces = pieces_in_reach(buffer, &self.outline)?;
        let bitmap = bitmap_of(
            alloc,
            scan,
            &pieces,
            self.rule,
            self.frame,
            &mut scratch.scan,
        )?;
        scratch.pieces = pieces;
        Ok(bitmap)
    }

    /// The work of drawing the shape, in rows of its frame, in pieces, in the rows and columns that they cross, and in pieces asked
    /// for gaps; none if it is more than `most`. The count stops there. Where the nearer pixel closes gaps, a scan finds them,
    /// unless the frame and the pieces alone are too much.
    pub fn work_within<S: Scan>(
        &self,
        alloc: Global,
        scan: &S,
        scratch: &mut RasterScratch,
        most: usize,
    ) -> Result<Option<usize>, AllocError>
        ensures { IfOk result (λ w. w ≡ within most (drawing_work self.now.rule self.now.spans)) }
    {
        let buffer = mem::replace(&mut scratch.pieces, Pieces::new(alloc));
        let pieces = pieces_in_reach(buffer, &self.outline)?;
        let work = work_within(
            alloc,
            scan,
            &pieces,
            self.rule,
            self.frame,
            &mut scratch.scan,
            most,
        )?;
        scratch.pieces = pieces;
        Ok(work)
    }

    /// The outline of a shape, whose buffers can hold another outline.
    pub fn into_outline(self) -> Outline
        ensures { spans_of result.ends.items result.points.items ≡ self.spans }
    {
        self.outline
    }
}

//! What shapes work with.

ghost use Rattle.std.specs.Prelude.{◌≡◌, List, []};
ghost use Rattle.fx_winding.specs.declared.point.Piece.{Piece};

use fx_winding::{Bitmap, Pieces};
use std::alloc::Global;
use std::marker::Model;

/// What the bits of a shape are made with and what the next shape takes over, so that not each shape asks for memory: a buffer of
/// pieces, and the lists of a scan.
#[derive(Drop)]
pub struct RasterScratch {
    pub(crate) pieces: Pieces,
    pub(crate) scan: fx_winding::Scratch,
}

/// A scratch, seen as the pieces in its buffer.
impl Model for RasterScratch {
    ghost Value = { List Piece };

    ghost view = { λ s. s.pieces };
}

impl RasterScratch {
    /// Without a piece. It takes no memory.
    pub fn new(alloc: Global) -> RasterScratch
        ensures { result ≡ [] }
    {
        RasterScratch {
            pieces: Pieces::new(alloc),
            scan: fx_winding::Scratch::new(alloc),
        }
    }

    /// Takes a bitmap that is done with: the next shape's bits can be made in its buffer.
    pub fn give_back(&mut self, bitmap: Bitmap)
        ensures { self.new ≡ self.old }
    {
        self.scan.give_back(bitmap);
    }
}

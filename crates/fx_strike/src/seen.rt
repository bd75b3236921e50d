//! What is seen of the characters so far.

use crate::draw::whole_pixels;
use crate::gathered::Gathered;
use crate::sketch::Sketch;
use fx_bdf::Bounds;
use fx_machine::Usage;

/// The least box that holds the boxes of the glyphs so far, what is gathered of them, how many they are, and what their programs
/// used up.
#[derive(Clone, Copy)]
pub(crate) struct Seen {
    pub bounds: Bounds,
    pub gathered: Gathered,
    pub glyphs: u32,
    pub usage: Usage,
}

impl Seen {
    ghost use Rattle.std.specs.Prelude.{◌<◌};
    ghost use Rattle.fx_request.specs.Limits.{max_characters};
    ghost use Rattle.fx_strike.specs.inner.Surveying.{IsEmpty, IsNarrow, AddsSketch};

    /// No character.
    pub(crate) fn new() -> Seen
        ensures { IsEmpty result }
    {
        Seen {
            bounds: Bounds::NONE,
            gathered: Gathered {
                total: 0,
                first: None,
                is_monospaced: true,
                has_replacement: false,
                has_space: false,
            },
            glyphs: 0,
            usage: Usage::none(),
        }
    }

    /// Adds a character: its sketch, and the box of the glyphs up to it.
    pub(crate) fn add(&mut self, sketch: &Sketch, bounds: Bounds)
        requires few { self.old.glyphs < max_characters }
        requires narrow { IsNarrow self.old }
        ensures { AddsSketch sketch.now bounds self.old self.new }
    {
        let dwidth = whole_pixels(sketch.advance);
        self.bounds = bounds;
        self.gathered = self.gathered.with(sketch.code, dwidth);
        self.glyphs += 1;
        self.usage = self.usage.plus(sketch.usage);
    }
}

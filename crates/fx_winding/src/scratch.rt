//! What a scan works with.

ghost use Rattle.std.specs.Prelude.{◌≡◌, ℕ, ◌*◌, ◌^◌, ◌<◌, ◌≤◌, pos, length, get_or, IfOk};
ghost use Rattle.fx_winding.specs.Bitmaps.{AreWords, rows_of};

use crate::bitmap::Bitmap;
use crate::notes::Notes;
use std::alloc::{AllocError, Global};

/// Numbers that a scan counts with, which are all 0 between scans, and bits, one for each number.
#[derive(Drop)]
pub struct Counters {
    pub numbers: Vec<i32>,
    pub bits: Vec<u32>,
    ghost clear: { (k : ℕ) → get_or numbers.items k (pos 0) ≡ pos 0 },
    ghost pairs: { length numbers.items ≡ 32 * length bits.items },
}

impl Counters {
    /// Without a number. It takes no memory.
    pub fn new(alloc: Global) -> Counters {
        Counters {
            numbers: Vec::new(alloc),
            bits: Vec::new(alloc),
        }
    }

    /// Counters with at least this many words of bits: the same lists if they are long enough, and else new ones.
    pub fn with_words(self, alloc: Global, words: usize) -> Result<Counters, AllocError>
        requires { words < 2 ^ 32 }
        ensures { IfOk result (λ c. words ≤ length c.bits.items) }
    {
        if words <= self.bits.len() {
            return Ok(self);
        }
        drop(self);
        Ok(Counters {
            numbers: vec![in alloc; 0i32; 32 * words]?,
            bits: vec![in alloc; 0u32; words]?,
        })
    }
}

/// Lists that a scan can work in and that the next one takes over, so that not each glyph asks for memory: counters, and three
/// buffers. The words in a buffer mean nothing to the next scan. Each list is as long as the largest glyph so far needed it, or
/// shorter.
#[derive(Drop)]
pub struct Scratch {
    pub counters: Counters,
    /// The buffer of a bitmap's words.
    pub words: Vec<u32>,
    /// The buffer of notes across rows.
    pub across: Vec<u32>,
    /// The buffer of notes up columns.
    pub up: Vec<u32>,
}

impl Scratch {
    /// Without a number or a buffer. It takes no memory.
    pub fn new(alloc: Global) -> Scratch {
        Scratch {
            counters: Counters::new(alloc),
            words: Vec::new(alloc),
            across: Vec::new(alloc),
            up: Vec::new(alloc),
        }
    }

    /// Takes a bitmap that is done with: the next scan can make its words in the same buffer.
    pub fn give_back(&mut self, bitmap: Bitmap)
        ensures words { AreWords bitmap.frame.height bitmap.frame.width self.new.words.items }
        ensures value { bitmap ≡
            record { frame = bitmap.frame; rows = rows_of bitmap.frame.height bitmap.frame.width self.new.words.items } }
        ensures others { self.new ≡ record self.old { words = self.new.words } }
    {
        self.words = bitmap.into_words();
    }

    /// Takes notes that are done with: the next scan can make its own in the same buffers.
    pub fn give_back_notes(&mut self, notes: Notes)
        ensures { self.new ≡ record self.old { across = notes.across; up = notes.up } }
    {
        self.across = notes.across;
        self.up = notes.up;
    }
}

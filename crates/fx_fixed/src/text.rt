//! Texts on their way to a sink.

ghost use Rattle.std.specs.Prelude.{◌≡◌, ◌+◌, ◌++◌, ◌<◌, ◌≤◌, ◌^◌, ℕ, List, [], take, length, OnOk};
ghost use Rattle.std.specs.List.{flat_map};
ghost use Rattle.fx_fixed.specs.declared.text.TheConstants.{CAPACITY};
ghost use Rattle.fx_fixed.specs.Texts.{Adds, Fails, begun, with_more};

use crate::sink::{Sink, WriteFailed, put_all};
use crate::slices::put_over;
use std::marker::Model;

/// How many bytes wait at most. The buffer is filled with zeros once a text: below 2,048 bytes that takes a C library some dozens
/// of instructions, from there on many count one a byte.
pub const CAPACITY: usize = 1984;

/// A text on its way to a sink: the sink took its first bytes, and those that follow wait in a buffer, so that many short pieces
/// cost few calls. `add` and `end` write all of what they are given, or exactly its first bytes and stop with one fault more.
#[derive(Drop)]
pub struct TextWriter<'w, W: Sink> {
    sink: &'w mut W,
    buffer: [u8; CAPACITY],
    used: usize,
    taken: u64,
}

impl<'w, W: Sink> Model for TextWriter<'w, W> {
    ghost use Rattle.std.specs.Prelude.{◌≤◌, take};
    ghost use Rattle.fx_fixed.specs.Texts.{TextView};
    ghost use Rattle.fx_fixed.specs.declared.text.TheConstants.{CAPACITY};

    ghost Value = { TextView };

    ghost view = { λ t. record {
      sink = t.sink.ghost_name;
      held = W.held t.sink.now;
      faults = W.fault_count t.sink.now;
      taken = t.taken;
      waiting = take t.used t.buffer;
    } };

    ghost invariant = { λ t. t.used ≤ CAPACITY };
}

/// Fills the room of a text that is left.
pub trait Fill {
    // What it adds, by the filler before and after.
    ghost added: { Self → Self → List ℕ };

    // What is known of the filler then.
    ghost Fills: { Self → Self → Type 0 };

    /// Writes over the bytes from `start` on, and returns where it stopped.
    fn fill(&mut self, bytes: &mut [u8], start: usize) -> usize
        requires { start ≤ length bytes.old }
        ensures long { length bytes.new ≡ length bytes.old }
        ensures within { result ≤ length bytes.new }
        ensures text { take result bytes.new ≡ take start bytes.old ++ added self.old self.new }
        ensures filled { Fills self.old self.new };
}

impl<'w, W: Sink> TextWriter<'w, W> {
    /// An empty text.
    pub fn new(sink: &'w mut W) -> TextWriter<'w, W>
        ensures { result ≡ begun sink.entry.ghost_name (W.held sink.old) (W.fault_count sink.old) }
    {
        TextWriter {
            sink,
            buffer: [0; CAPACITY],
            used: 0,
            taken: 0,
        }
    }

    /// Adds pieces in turn.
    pub fn add(&mut self, pieces: &[&[u8]]) -> Result<(), WriteFailed>
        requires { self.old.faults < 2 ^ 63 }
        ensures { Adds Fails self.old self.new (flat_map (λ p. p.now) pieces.now) result }
    {
        // The pieces so far were added.
        'pieces: for piece in pieces {
            self.add_piece(piece)?;
        }
        Ok(())
    }

    /// Adds a piece.
    #[inline]
    fn add_piece(&mut self, piece: &[u8]) -> Result<(), WriteFailed>
        requires { self.old.faults < 2 ^ 63 }
        ensures { Adds Fails self.old self.new piece.now result }
    {
        if piece.len() > CAPACITY - self.used {
            return self.add_after_end(piece);
        }
        self.push(piece);
        Ok(())
    }

    /// Puts the bytes that wait, and adds a piece then. One that is longer than the buffer does not wait.
    #[inline(never)]
    fn add_after_end(&mut self, piece: &[u8]) -> Result<(), WriteFailed>
        requires { self.old.faults < 2 ^ 63 }
        ensures { Adds Fails self.old self.new piece.now result }
    {
        self.end()?;
        if piece.len() > CAPACITY {
            return self.put(piece);
        }
        self.push(piece);
        Ok(())
    }

    /// Makes sure that `count` bytes more can wait: if they can't, it puts those that wait.
    pub fn make_room(&mut self, count: usize) -> Result<(), WriteFailed>
        requires count { count ≤ CAPACITY }
        requires faults { self.old.faults < 2 ^ 63 }
        ensures adds { Adds Fails self.old self.new [] result }
        ensures room { OnOk result (length self.new.waiting + count ≤ CAPACITY) }
        ensures kept { length self.old.waiting + count ≤ CAPACITY → self.new ≡ self.old }
    {
        if count > CAPACITY - self.used {
            self.end()?;
        }
        Ok(())
    }

    /// Adds a piece that there is room for.
    pub fn push(&mut self, piece: &[u8])
        requires { length self.old.waiting + length piece.now ≤ CAPACITY }
        ensures { self.new ≡ with_more self.old piece.now }
    {
        put_over(&mut self.buffer, self.used, piece);
        self.used += piece.len();
    }

    /// Adds the first `count` bytes of a piece, all of which there is room for.
    pub fn push_first(&mut self, piece: &[u8], count: usize)
        requires room { length self.old.waiting + length piece.now ≤ CAPACITY }
        requires count { count ≤ length piece.now }
        ensures { self.new ≡ with_more self.old (take count piece.now) }
    {
        put_over(&mut self.buffer, self.used, piece);
        self.used += count;
    }

    /// Puts a piece while nothing waits.
    fn put(&mut self, piece: &[u8]) -> Result<(), WriteFailed>
        requires none { self.old.waiting ≡ [] }
        requires faults { self.old.faults < 2 ^ 63 }
        ensures { Adds Fails self.old self.new piece.now result }
    {
        match put_all(&mut *self.sink, piece) {
            Ok(()) => {
                self.taken = self.taken.saturating_add(piece.len() as u64);
                Ok(())
            }
            Err(WriteFailed(n)) => Err(WriteFailed(self.taken.saturating_add(n))),
        }
    }

    /// Puts the bytes that wait. A text ends so.
    pub fn end(&mut self) -> Result<(), WriteFailed>
        requires { self.old.faults < 2 ^ 63 }
        ensures adds { Adds Fails self.old self.new [] result }
        ensures empty { OnOk result (self.new.waiting ≡ []) }
    {
        match put_all(&mut *self.sink, &self.buffer[..self.used]) {
            Ok(()) => {
                self.taken = self.taken.saturating_add(self.used as u64);
                self.used = 0;
                Ok(())
            }
            Err(WriteFailed(n)) => Err(WriteFailed(self.taken.saturating_add(n))),
        }
    }

    /// Lets a filler write as much as it does into the room that is left.
    pub fn fill<F: Fill>(&mut self, filler: &mut F)
        ensures text { self.new ≡ with_more self.old (F.added filler.old filler.new) }
        ensures filled { F.Fills filler.old filler.new }
    {
        self.used = filler.fill(&mut self.buffer, self.used);
    }

    /// How many bytes of the text the sink took.
    pub fn taken(&self) -> u64
        ensures { result ≡ self.now.taken }
    {
        self.taken
    }

    /// The sink. Bytes that wait are lost.
    pub fn close(self) -> &'w mut W
        ensures name { result.ghost_name ≡ self.entry.sink }
        ensures held { W.held result.now ≡ self.entry.held }
        ensures faults { W.fault_count result.now ≡ self.entry.faults }
    {
        self.sink
    }
}

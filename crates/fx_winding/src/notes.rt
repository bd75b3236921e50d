//! Segments between neighbouring centres, noted as bits.

ghost use Rattle.std.specs.Prelude.{◌≡◌, ◌↔◌, ℕ, ◌+◌, ◌*◌, ◌^◌, ◌/◌, ◌%◌, ◌<◌, ◌≤◌, length, map, IfOk, IsTrue};
ghost use Rattle.fx_winding.specs.Bitmaps.{words_for as words_for_of, word_bit};
ghost use Rattle.fx_winding.specs.Frames.{HasMargin};
ghost use Rattle.fx_winding.specs.Notes.{AreExact, IsMetOf};
ghost use Rattle.fx_winding.specs.Winding.{span_of};

use crate::cover::centre_of;
use crate::frame::Frame;
use crate::pieces::Pieces;
use crate::scratch::Scratch;
use crate::segment::any_meets;
use crate::tally::Tally;
use crate::words::{put_bit, refilled, words_for};
use std::alloc::{AllocError, Global};
use std::mem;

/// A bit for each segment between neighbouring centres of a frame's rows and columns, those that lead out of the frame too. They
/// are numbered like the frame's pixels, each by its right or its upper end.
#[derive(Drop)]
pub struct Notes {
    pub frame: Frame,
    /// The segments of rows, from left neighbours, one more than pixels.
    pub across: Vec<u32>,
    /// The segments of columns, from lower neighbours. They take a row more than the pixels.
    pub up: Vec<u32>,
    ghost across_room: { length across.items ≡ frame.height * words_for_of frame.width },
    ghost up_room: { length up.items ≡ (frame.height + 1) * words_for_of frame.width },
}

/// Whether a segment is one of a frame's that some piece meets: that of the row `up` above the lowest, to the pixel `across` right
/// of the left one.
fn is_noted(pieces: &Pieces, frame: Frame, up: usize, across: usize, tally: &mut Tally) -> bool
    requires { HasMargin frame }
    ensures { IsTrue result ↔ IsMetOf frame (map span_of pieces.now) up across }
{
    if up >= frame.height as usize {
        return false;
    }
    if across > frame.width as usize {
        return false;
    }
    let row = frame.bottom + up as i32;
    let col = frame.left + across as i32;
    any_meets(
        pieces.as_slice(),
        centre_of(col - 1, row),
        centre_of(col, row),
        tally,
    )
}

/// Sets the bits of the segments across rows that some piece meets. Each row has `size` bits.
fn note_rows(pieces: &Pieces, frame: Frame, size: usize, bits: &mut [u32], tally: &mut Tally)
    requires margin { HasMargin frame }
    requires some { 0 < size }
    requires few { length bits.old ≤ 2 ^ 32 }
    requires clear { (n : ℕ) → word_bit bits.old n ≡ 0 }
    ensures { (n : ℕ) → n < 32 * length bits.old →
        (word_bit bits.new n ≡ 1) ↔ IsMetOf frame (map span_of pieces.now) (n / size) (n % size) }
{
    // The bits before n are right.
    'segments: for n in 0..32 * bits.len() {
        let met = is_noted(pieces, frame, n / size, n % size, tally);
        put_bit(bits, n, met);
    }
}

/// Sets the bits of the segments up columns that some piece meets. They are segments across rows of the pieces and the frame with
/// their coordinates exchanged, which these are.
fn note_columns(pieces: &Pieces, frame: Frame, size: usize, bits: &mut [u32], tally: &mut Tally)
    requires margin { HasMargin frame }
    requires some { 0 < size }
    requires few { length bits.old ≤ 2 ^ 32 }
    requires clear { (n : ℕ) → word_bit bits.old n ≡ 0 }
    ensures { (n : ℕ) → n < 32 * length bits.old →
        (word_bit bits.new n ≡ 1) ↔ IsMetOf frame (map span_of pieces.now) (n % size) (n / size) }
{
    // The bits before n are right.
    'segments: for n in 0..32 * bits.len() {
        let met = is_noted(pieces, frame, n % size, n / size, tally);
        put_bit(bits, n, met);
    }
}

impl Notes {
    /// The notes of a frame in which no segment is noted, in the buffers of a scratch.
    pub fn none(alloc: Global, frame: Frame, scratch: &mut Scratch) -> Result<Notes, AllocError>
        ensures frame { IfOk result (λ n. n.frame ≡ frame) }
        ensures across { (i : ℕ) → IfOk result (λ n. word_bit n.across.items i ≡ 0) }
        ensures up { (i : ℕ) → IfOk result (λ n. word_bit n.up.items i ≡ 0) }
    {
        let words = words_for(frame.width);
        let rows = frame.height as usize;
        let across = mem::replace(&mut scratch.across, Vec::new(alloc));
        let up = mem::replace(&mut scratch.up, Vec::new(alloc));
        Ok(Notes {
            frame,
            across: refilled(across, rows * words, 0)?,
            up: refilled(up, (rows + 1) * words, 0)?,
        })
    }

    /// The notes of a frame, made by a test of each segment.
    pub fn of(
        alloc: Global,
        pieces: &Pieces,
        frame: Frame,
        scratch: &mut Scratch,
        tally: &mut Tally,
    ) -> Result<Notes, AllocError>
        requires { HasMargin frame }
        ensures frame { IfOk result (λ n. n.frame ≡ frame) }
        ensures exact { IfOk result (λ n. AreExact frame n.across.items n.up.items (map span_of pieces.now)) }
    {
        let exchanged = pieces.turned(alloc)?;
        let columns = frame.turned();
        let mut notes = Notes::none(alloc, frame, scratch)?;
        let size = 32 * words_for(frame.width);
        note_rows(pieces, frame, size, &mut notes.across, tally);
        note_columns(&exchanged, columns, size, &mut notes.up, tally);
        Ok(notes)
    }
}

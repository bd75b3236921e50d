//! The lines of the first characters, which the first pass keeps for the second.

ghost use Rattle.std.specs.Prelude.{◌≡◌, ◌<◌, ◌≤◌, ◌^◌, [], length, nat_lt, OnOk};
ghost use Rattle.fx_fixed.specs.Texts.{Adds, Fails};
ghost use Rattle.fx_bdf.specs.Text.{glyph_text, longest_glyph};
ghost use Rattle.fx_request.specs.Limits.{max_characters, max_code};
ghost use Rattle.fx_strike.specs.inner.Keeping.{Counts, IsOfNone, Keeps};

use fx_bdf::{BitGlyph, write_glyph};
use fx_fixed::{Sink, TextWriter, WriteFailed};
use std::alloc::Global;

/// The most bytes that are kept: 8 MiB, less what allocators add to a power of two.
const MOST_BYTES: usize = 8_384_512;

/// How many bytes the buffer has room for at first. It grows in five steps, to four times as much and at last to twice.
const FIRST_BYTES: usize = MOST_BYTES / 512;

/// A sink that keeps at most `MOST_BYTES`. It is at fault once more comes, or memory is refused, and keeps nothing from then on.
#[derive(Drop)]
pub(crate) struct KeptBytes {
    pub bytes: Vec<u8>,
    faults: u64,
}

impl KeptBytes {
    /// Whether nothing more is kept.
    pub(crate) fn is_full(&self) -> bool
        ensures { result ≡ nat_lt 0 self.now.faults }
    {
        self.faults > 0
    }

    /// Makes room for this many bytes more; whether there is room.
    fn make_room(&mut self, count: usize) -> bool
        ensures bytes { self.new.bytes.items ≡ self.old.bytes.items }
        ensures faults { self.new.faults ≡ self.old.faults }
    {
        let used = self.bytes.len();
        let room = self.bytes.capacity();
        if count <= room - used {
            return true;
        }
        if used > MOST_BYTES || count > MOST_BYTES - used {
            return false;
        }
        let wanted = room.saturating_mul(4).clamp(FIRST_BYTES, MOST_BYTES);
        self.bytes
            .reserve_exact(wanted.max(used + count) - used)
            .is_ok()
    }

    /// Keeps the lines of a glyph after the others; if they find no room, none of them.
    pub(crate) fn keep(&mut self, drawn: &BitGlyph)
        requires { drawn.now.code ≤ max_code }
        ensures { Keeps (glyph_text drawn.now) self.old self.new }
    {
        if self.is_full() {
            return;
        }
        let before = self.bytes.len();
        let mut text = TextWriter::new(self);
        let is_kept = write_whole(drawn, &mut text).is_ok();
        text.close();
        if !is_kept {
            self.bytes.truncate(before);
        }
    }
}

/// Writes the lines of a glyph, and ends the text.
fn write_whole<W: Sink>(drawn: &BitGlyph, text: &mut TextWriter<'_, W>) -> Result<(), WriteFailed>
    requires faults { text.old.faults < 2 ^ 63 }
    requires code { drawn.now.code ≤ max_code }
    ensures lines { Adds Fails text.old text.new (glyph_text drawn.now) result }
    ensures ended { OnOk result (text.new.waiting ≡ []) }
    ensures short { OnOk result (length (glyph_text drawn.now) ≤ longest_glyph) }
{
    write_glyph(drawn, text)?;
    text.end()
}

impl Sink for KeptBytes {
    ghost use Rattle.std.specs.Prelude.{Some};

    ghost held = { λ s. Some s.bytes.items };

    ghost fault_count = { λ s. s.faults };

    fn put(&mut self, piece: &[u8]) -> Option<usize> {
        if self.make_room(piece.len()) && self.bytes.extend_from_slice(piece).is_ok() {
            return Some(piece.len());
        }
        self.faults += 1;
        None
    }

    fn faults(&self) -> u64 {
        self.faults
    }
}

/// The lines of the first `count` characters of a strike.
#[derive(Drop)]
pub(crate) struct KeptText {
    pub bytes: KeptBytes,
    pub count: usize,
}

impl KeptText {
    /// No lines yet. Nothing is ever kept if there is to be no room. No memory is taken.
    pub(crate) fn new(alloc: Global, has_room: bool) -> KeptText
        ensures { IsOfNone result }
    {
        let bytes = KeptBytes {
            bytes: Vec::new(alloc),
            faults: u64::from(!has_room),
        };
        KeptText { bytes, count: 0 }
    }

    /// Counts one character more, if its lines were kept.
    pub(crate) fn count_one(&mut self)
        requires { self.old.count < max_characters }
        ensures { Counts self.old self.new }
    {
        if !self.bytes.is_full() {
            self.count += 1;
        }
    }
}

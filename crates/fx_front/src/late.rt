//! A sink whose file is made when the first byte comes.

use crate::destination::Destination;
use fx_fixed::Sink;
use std::io::Write;

/// How many of the first bytes are kept: enough for four lines of a strike, whose name has at most 255 bytes.
const ROOM: usize = 512;

/// A sink whose file is made at a place when the first byte comes. It keeps the first bytes.
#[derive(Drop)]
pub struct Late<'p, P: Destination> {
    place: &'p P,
    new: Option<P::New>,
    faults: u64,
    start: [u8; ROOM],
    filled: usize,
}

impl<'p, P: Destination> Late<'p, P> {
    ghost use Rattle.std.specs.Prelude.{◌≡◌};
    ghost use Rattle.fx_front.specs.Places.{held_by};

    /// A sink to which nothing came yet.
    pub fn new(place: &'p P) -> Late<'p, P>
        ensures held { ⟦<Late<'p, P> as Sink>⟧.held result ≡ P.fresh }
        ensures faults { ⟦<Late<'p, P> as Sink>⟧.fault_count result ≡ 0 }
    {
        Late {
            place,
            new: None,
            faults: 0,
            start: [0; ROOM],
            filled: 0,
        }
    }

    /// Whether a strike was written that has no pixel: then its box is empty.
    pub(crate) fn is_blank(&self) -> bool {
        match str::from_utf8(self.start.get(..self.filled).unwrap_or(&[])) {
            Ok(text) => {
                text.starts_with("STARTFONT") && text.contains("\nFONTBOUNDINGBOX 0 0 0 0\n")
            }
            Err(_) => false,
        }
    }

    /// The file, if it was made.
    pub fn close(self) -> Option<P::New>
        ensures { held_by P.New.contents P.fresh result ≡ ⟦<Late<'p, P> as Sink>⟧.held self.entry }
    {
        self.new
    }
}

impl<'p, P: Destination> Sink for Late<'p, P> {
    ghost use Rattle.fx_front.specs.Places.{held_by};

    ghost held = { λ s. held_by P.New.contents P.fresh s.new };

    ghost fault_count = { λ s. s.faults };

    fn put(&mut self, piece: &[u8]) -> Option<usize> {
        if self.new.is_none() {
            self.new = self.place.make();
        }
        if let Some(file) = &mut self.new
            && let Ok(n) = file.write(piece)
            && (n > 0 || piece.is_empty())
        {
            self.filled = kept(&mut self.start, self.filled, &piece[..n]);
            return Some(n);
        }
        self.faults += 1;
        None
    }

    fn faults(&self) -> u64 {
        self.faults
    }
}

/// Keeps bytes after the first `filled`, as far as there is room. Returns how many are kept.
fn kept(start: &mut [u8; ROOM], filled: usize, bytes: &[u8]) -> usize {
    let mut filled = filled;
    // The bytes so far are kept.
    'bytes: for byte in bytes {
        let Some(place) = start.get_mut(filled) else {
            return filled;
        };
        *place = *byte;
        filled += 1;
    }
    filled
}

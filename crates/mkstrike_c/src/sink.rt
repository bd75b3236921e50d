//! The text of a strike in memory.
ghost use Rattle.std.specs.Prelude.{◌≡◌, [], Some};

use fx_fixed::Sink;
use std::alloc::Global;

/// A sink that holds all that it took. It is at fault exactly when memory is refused.
#[derive(Drop)]
pub struct TextSink {
    text: Vec<u8>,
    faults: u64,
}

impl TextSink {
    /// An empty sink. No memory is taken.
    pub fn new(alloc: Global) -> TextSink
        ensures held { ⟦<TextSink as Sink>⟧.held result ≡ Some [] }
        ensures faults { ⟦<TextSink as Sink>⟧.fault_count result ≡ 0 }
    {
        TextSink {
            text: Vec::new(alloc),
            faults: 0,
        }
    }

    /// What it holds.
    pub fn text(&self) -> &[u8]
        ensures { ⟦<TextSink as Sink>⟧.held self.now ≡ Some result.now }
    {
        self.text.as_slice()
    }
}

impl Sink for TextSink {
    ghost held = { λ s. Some s.text.items };

    ghost fault_count = { λ s. s.faults };

    fn put(&mut self, piece: &[u8]) -> Option<usize> {
        if self.text.extend_from_slice(piece).is_ok() {
            return Some(piece.len());
        }
        self.faults += 1;
        None
    }

    fn faults(&self) -> u64 {
        self.faults
    }
}

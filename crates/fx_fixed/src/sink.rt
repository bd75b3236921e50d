//! Sinks of bytes.

ghost use Rattle.std.specs.Prelude.{◌≡◌, ℕ, ◌+◌, ◌^◌, ◌<◌, ◌≤◌, List, Option, take, length, IfSome, OnSome, IfNone};
ghost use Rattle.std.specs.Io.KnownBytes.{Appends, Keeps};
ghost use Rattle.fx_fixed.specs.Changes.{change_of};
ghost use Rattle.fx_fixed.specs.Wrote.{Wrote};

use std::io::Write;
use thiserror::Error;

/// A sink was at fault after it had taken this number of bytes of what one call gave it.
#[derive(Clone, Copy, Debug, PartialEq, Eq, Error)]
#[error("the writer failed after {0} bytes")]
pub struct WriteFailed(pub u64);

/// Takes bytes, and counts the calls that took none for a fault.
pub trait Sink {
    // The bytes that it holds, if they are known.
    ghost held: { Self → Option (List ℕ) };

    // The faults so far.
    ghost fault_count: { Self → ℕ };

    /// Appends the first n bytes of a piece, at least one of a piece that is not empty, or appends nothing and adds one fault.
    fn put(&mut self, piece: &[u8]) -> Option<usize>
        requires { fault_count self.old < 2 ^ 63 }
        ensures count { IfSome result (λ n. n ≤ length piece.now) }
        ensures progress { IfSome result (λ n. 0 < length piece.now → 0 < n) }
        ensures bytes { IfSome result (λ n. Appends (held self.old) (held self.new) (take n piece.now)) }
        ensures quiet { OnSome result (fault_count self.new ≡ fault_count self.old) }
        ensures kept { IfNone result (Keeps (held self.old) (held self.new)) }
        ensures fault { IfNone result (fault_count self.new ≡ fault_count self.old + 1) };

    /// The faults so far.
    fn faults(&self) -> u64
        ensures { result ≡ fault_count self.now };
}

/// A sink over a writer. An error, or no byte taken of a piece that is not empty, is a fault.
#[derive(Drop)]
pub struct ToSink<W> {
    writer: W,
    faults: u64,
}

impl<W: Write> ToSink<W> {
    /// A sink without a fault so far.
    pub fn new(writer: W) -> ToSink<W>
        ensures held { ⟦<ToSink<W> as Sink>⟧.held result ≡ W.contents writer }
        ensures faults { ⟦<ToSink<W> as Sink>⟧.fault_count result ≡ 0 }
    {
        ToSink { writer, faults: 0 }
    }
}

impl<W: Write> Sink for ToSink<W> {
    ghost held = { λ s. W.contents s.writer };

    ghost fault_count = { λ s. s.faults };

    fn put(&mut self, piece: &[u8]) -> Option<usize> {
        match self.writer.write(piece) {
            Ok(n) if n > 0 || piece.is_empty() => Some(n),
            _ => {
                self.faults += 1;
                None
            }
        }
    }

    fn faults(&self) -> u64 {
        self.faults
    }
}

/// Appends a piece: all of it; or exactly its first n bytes, and one fault more.
pub fn put_all<W: Sink>(out: &mut W, piece: &[u8]) -> Result<(), WriteFailed>
    requires { W.fault_count out.old < 2 ^ 63 }
    ensures { Wrote (change_of W.held W.fault_count out.old out.new) piece.now result }
{
    let mut at = 0;
    // The bytes before `at` were appended.
    'piece: while at < piece.len() {
        match out.put(&piece[at..]) {
            Some(taken) => at += taken,
            None => return Err(WriteFailed(at as u64)),
        }
    }
    Ok(())
}

//! Sources of bytes.

ghost use Rattle.std.specs.Prelude.{◌≡◌, ℕ, ◌+◌, ◌^◌, ◌<◌, ◌≤◌, List, Option, take, length, IfSome, OnSome, IfNone};
ghost use Rattle.std.specs.Io.KnownBytes.{Consumes, Keeps, IsAtEnd};

use std::io::Read;

/// Gives bytes, and counts the calls that gave none for a fault.
pub trait Source {
    // The bytes that it has left, if they are known.
    ghost left: { Self → Option (List ℕ) };

    // The faults so far.
    ghost fault_count: { Self → ℕ };

    /// Moves the next n bytes to the front of the buffer, or is at fault and moves nothing. It moves none into a buffer that is
    /// not empty only at the end.
    fn take(&mut self, buffer: &mut [u8]) -> Option<usize>
        requires { fault_count self.old < 2 ^ 63 }
        ensures count { IfSome result (λ n. n ≤ length buffer.new) }
        ensures bytes { IfSome result (λ n. Consumes (left self.old) (left self.new) (take n buffer.new)) }
        ensures end { IfSome result (λ n. n ≡ 0 → 0 < length buffer.new → IsAtEnd (left self.new)) }
        ensures quiet { OnSome result (fault_count self.new ≡ fault_count self.old) }
        ensures kept { IfNone result (Keeps (left self.old) (left self.new)) }
        ensures fault { IfNone result (fault_count self.new ≡ fault_count self.old + 1) };

    /// The faults so far.
    fn faults(&self) -> u64
        ensures { result ≡ fault_count self.now };
}

/// A source over a reader. An error is a fault.
#[derive(Drop)]
pub struct FromReader<R> {
    reader: R,
    faults: u64,
}

impl<R: Read> FromReader<R> {
    /// A source without a fault so far.
    pub fn new(reader: R) -> FromReader<R>
        ensures left { ⟦<FromReader<R> as Source>⟧.left result ≡ R.remaining reader }
        ensures faults { ⟦<FromReader<R> as Source>⟧.fault_count result ≡ 0 }
    {
        FromReader { reader, faults: 0 }
    }
}

impl<R: Read> Source for FromReader<R> {
    ghost left = { λ s. R.remaining s.reader };

    ghost fault_count = { λ s. s.faults };

    fn take(&mut self, buffer: &mut [u8]) -> Option<usize> {
        match self.reader.read(buffer) {
            Ok(n) => Some(n),
            Err(_) => {
                self.faults += 1;
                None
            }
        }
    }

    fn faults(&self) -> u64 {
        self.faults
    }
}

//! A sink and a source in memory, for tests of what is written and read.

ghost use Rattle.std.specs.Prelude.{◌≡◌, ◌+◌, ◌<◌, ◌≤◌, ◌^◌, [], length, drop, IfOk, IfSome, Some};
ghost use Rattle.fx_fixed.specs.Memory.{capacity_of};

use super::sink::Sink;
use super::source::Source;
use std::alloc::{AllocError, Global};

/// The limits of a sink or a source in memory.
#[derive(Clone, Copy, Debug, PartialEq, Eq)]
pub struct Limits {
    /// Each call is at fault once this number of bytes was moved.
    pub bytes: usize,

    /// The most bytes that one call moves; at 0 each call is at fault.
    pub step: usize,

    /// One call is at fault, the first after this number of bytes was moved.
    pub hiccup: Option<usize>,
}

impl Limits {
    /// Each call moves all that it can.
    pub const NONE: Limits = Limits {
        bytes: usize::MAX,
        step: usize::MAX,
        hiccup: None,
    };

    /// The number of bytes that the next call may move, of those asked for, after `done` bytes; none at a fault.
    fn moved(&mut self, done: usize, asked: usize) -> Option<usize>
        ensures most { IfSome result (λ n. n ≤ asked) }
        ensures some { IfSome result (λ n. 0 < asked → 0 < n) }
    {
        if self.hiccup == Some(done) {
            self.hiccup = None;
            return None;
        }
        let most = self.bytes.saturating_sub(done).min(self.step).min(asked);
        if most == 0 && asked > 0 {
            None
        } else {
            Some(most)
        }
    }
}

/// A sink that holds what it took. To be out of memory is a fault too.
#[derive(Drop)]
pub struct MemorySink {
    bytes: Vec<u8>,
    faults: u64,

    /// Its limits.
    pub limits: Limits,
}

impl MemorySink {
    /// An empty sink that holds `capacity` bytes before it has to grow.
    pub fn new(alloc: Global, capacity: usize, limits: Limits) -> Result<MemorySink, AllocError>
        ensures held { IfOk result (λ s. ⟦<MemorySink as Sink>⟧.held s ≡ Some []) }
        ensures faults { IfOk result (λ s. ⟦<MemorySink as Sink>⟧.fault_count s ≡ 0) }
        ensures limits { IfOk result (λ s. s.limits ≡ limits) }
        ensures capacity { IfOk result (λ s. capacity_of s ≡ capacity) }
    {
        Ok(MemorySink {
            bytes: Vec::with_capacity(alloc, capacity)?,
            faults: 0,
            limits,
        })
    }

    /// The number of bytes that it holds before it has to grow.
    pub fn capacity(&self) -> usize
        ensures { result ≡ capacity_of self.now }
    {
        self.bytes.capacity()
    }

    /// What it holds.
    pub fn bytes(&self) -> &[u8]
        ensures { ⟦<MemorySink as Sink>⟧.held self.now ≡ Some result.now }
    {
        self.bytes.as_slice()
    }
}

impl Sink for MemorySink {
    ghost held = { λ s. Some s.bytes.items };

    ghost fault_count = { λ s. s.faults };

    fn put(&mut self, piece: &[u8]) -> Option<usize> {
        if let Some(n) = self.limits.moved(self.bytes.len(), piece.len())
            && self.bytes.extend_from_slice(&piece[..n]).is_ok()
        {
            return Some(n);
        }
        self.faults += 1;
        None
    }

    fn faults(&self) -> u64 {
        self.faults
    }
}

/// A source over bytes in memory.
#[derive(Drop)]
pub struct MemorySource<'a> {
    left: &'a [u8],
    done: usize,
    faults: u64,

    /// Its limits.
    pub limits: Limits,
}

impl<'a> MemorySource<'a> {
    /// A source of all these bytes.
    pub fn new(bytes: &'a [u8], limits: Limits) -> MemorySource<'a>
        ensures left { ⟦<MemorySource<'a> as Source>⟧.left result ≡ Some bytes.now }
        ensures faults { ⟦<MemorySource<'a> as Source>⟧.fault_count result ≡ 0 }
        ensures limits { result.limits ≡ limits }
    {
        MemorySource {
            left: bytes,
            done: 0,
            faults: 0,
            limits,
        }
    }
}

impl<'a> Source for MemorySource<'a> {
    ghost left = { λ s. Some s.left.now };

    ghost fault_count = { λ s. s.faults };

    fn take(&mut self, buffer: &mut [u8]) -> Option<usize> {
        let Some(most) = self.limits.moved(self.done, buffer.len()) else {
            self.faults += 1;
            return None;
        };
        let n = most.min(self.left.len());
        let (front, rest) = self.left.split_at(n);
        buffer[..n].copy_from_slice(front);
        self.left = rest;
        self.done = self.done.saturating_add(n);
        Some(n)
    }

    fn faults(&self) -> u64 {
        self.faults
    }
}

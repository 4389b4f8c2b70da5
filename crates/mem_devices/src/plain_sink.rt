// A sink in memory that fails only where it is full.
ghost use Rattle.std.specs.Prelude.{◌≡◌, ◌-◌, ◌≤◌, ◌<◌, ℕ, [], Some, length, take, vec_capacity, IfOk};
ghost use Rattle.mem_devices.specs.Sinks.{misses_at};

use outside::{Failed, Sink};
use std::alloc::{AllocError, Global};

/// Takes `N` bytes. Only a piece behind them is a fault.
///
/// Keeps the trait `Sink`, and takes as many bytes as its type names: its count is 0 while it has room, and a piece past its end is a fault.
#[derive(Drop)]
pub struct PlainSink<const N: usize> {
    bytes: Vec<u8>,
    misses: u64,
    ghost within: { length bytes.items ≤ N },
    ghost reserved: { N ≤ vec_capacity bytes },
}

impl<const N: usize> PlainSink<N> {
    /// An empty sink, with the memory for all that it may take.
    pub fn new(alloc: Global) -> Result<PlainSink<N>, AllocError>
        ensures { IfOk result (λ s. s.bytes.items ≡ []) }
    {
        Ok(PlainSink {
            bytes: Vec::with_capacity(alloc, N)?,
            misses: 0,
        })
    }

    /// The bytes that were taken.
    pub fn taken(&self) -> &[u8]
        ensures { result.now ≡ self.now.bytes.items }
    {
        &self.bytes
    }
}

impl<const N: usize> Sink for PlainSink<N> {
    ghost taken = { λ s. Some s.bytes.items };

    ghost count = { λ s. misses_at N (length s.bytes.items) s.misses };

    fn write(&mut self, bytes: &[u8]) -> Result<usize, Failed> {
        let free = N - self.bytes.len();
        if free == 0 && !bytes.is_empty() {
            self.misses = self.misses.saturating_add(1);
            return Err(Failed);
        }
        let n = free.min(bytes.len());
        self.bytes.extend_from_slice(&bytes[..n]).unwrap();
        Ok(n)
    }
}

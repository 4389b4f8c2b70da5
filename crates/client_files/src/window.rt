// What was read of a file and not used.
ghost use Rattle.std.specs.Prelude.{◌≡◌, ◌+◌, ◌≤◌, [], ◌++◌, length, drop, OnOk};

use std::alloc::{AllocError, Global};
use std::marker::Model;

/// The last bytes that came, where those that were not used begin among them, and how many bytes came in all.
#[derive(Drop)]
pub(crate) struct Window {
    bytes: Vec<u8>,
    from: usize,
    had: usize,
}

impl Model for Window {
    ghost use Rattle.std.specs.Prelude.{◌+◌, ◌≤◌, length, drop};
    ghost use Rattle.client_files.specs.Streams.{WindowOf};

    ghost Value = { WindowOf };

    ghost view = { λ w. record { unread = drop w.from w.bytes.items; had = w.had } };

    ghost invariant = { λ w. (w.from ≤ length w.bytes.items) × (length w.bytes.items ≤ w.from + w.had) × (w.had ≤ 1073741824) };
}

impl Window {
    /// No byte came.
    pub(crate) fn new(alloc: Global) -> Window
        ensures { result ≡ record { unread = []; had = 0 } }
    {
        Window {
            bytes: Vec::new(alloc),
            from: 0,
            had: 0,
        }
    }

    /// How many bytes came.
    pub(crate) fn had(&self) -> usize
        ensures value { result ≡ self.now.had }
        ensures bound { result ≤ 1073741824 }
    {
        self.had
    }

    /// The bytes that were not used.
    pub(crate) fn unread(&self) -> &[u8]
        ensures value { result.now ≡ self.now.unread }
    {
        &self.bytes[self.from..]
    }

    /// The place of the first byte that was not used.
    pub(crate) fn place(&self) -> usize
        ensures value { result + length self.now.unread ≡ self.now.had }
    {
        self.had - (self.bytes.len() - self.from)
    }

    /// Uses so many bytes.
    pub(crate) fn take(&mut self, n: usize)
        requires { n ≤ length self.old.unread }
        ensures { self.new ≡ record { unread = drop n self.old.unread; had = self.old.had } }
    {
        self.from += n;
    }

    /// Uses all of them.
    pub(crate) fn take_all(&mut self)
        ensures { self.new ≡ record { unread = []; had = self.old.had } }
    {
        self.from = self.bytes.len();
    }

    /// Puts the next bytes behind them.
    pub(crate) fn put(&mut self, piece: &[u8]) -> Result<(), AllocError>
        requires { self.old.had + length piece.now ≤ 1073741824 }
        ensures { OnOk result (self.new
            ≡ record { unread = self.old.unread ++ piece.now; had = self.old.had + length piece.now }) }
    {
        if self.from == self.bytes.len() {
            self.bytes.clear();
            self.from = 0;
        }
        self.bytes.extend_from_slice(piece)?;
        self.had += piece.len();
        Ok(())
    }
}

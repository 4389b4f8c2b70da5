//! Gathers transactions into batches.
//!
//! - Tested in `piece_rows` (`batches.rows`). The program itself gathers no transactions: it cuts what a file sends a lane into pieces.
#![tactic(auto)]

ghost use Rattle.std.specs.Prelude.{◌≡◌, ◌↔◌, ◌<◌, ◌≤◌, ◌++◌, ◌∷◌, [], ℕ, length, IsTrue, OnOk, OnErr, IfErr, MatchOption};

use cbdc_types::{Batch, CompactTx, List};
use std::alloc::{AllocFailed, Global};
use std::marker::Model;
use std::mem;

/// Transactions that wait for their batch, up to a limit. Contracts see the limit and the transactions in order.
#[derive(Drop)]
pub struct Batcher {
    alloc: Global,
    limit: usize,
    waiting: List<CompactTx>,
}

impl Model for Batcher {
    ghost use Rattle.batcher.specs.Waiting.{WaitingOf};

    ghost Value = { WaitingOf };

    ghost view = { λ b. record { limit = b.limit; waiting = b.waiting } };
}

impl Batcher {
    /// An empty one for batches of at most so many transactions. Takes no memory.
    pub fn new(alloc: Global, limit: usize) -> Batcher
        ensures { result ≡ record { limit = limit; waiting = [] } }
    {
        Batcher {
            alloc,
            limit,
            waiting: List::new(alloc),
        }
    }

    /// Whether a batch is full. Takes no memory.
    pub fn is_full(&self) -> bool
        ensures { IsTrue result ↔ (self.now.limit ≤ length self.now.waiting) }
    {
        self.limit <= self.waiting.len()
    }

    /// Adds a transaction. Where memory runs out it comes back.
    pub fn push(&mut self, tx: CompactTx) -> Result<(), AllocFailed<CompactTx>>
        requires { length self.old.waiting < self.old.limit }
        ensures pushed { OnOk result (self.new ≡ record self.old { waiting = self.old.waiting ++ tx ∷ [] }) }
        ensures as_before { OnErr result (self.new ≡ self.old) }
        ensures handed_back { IfErr result (λ e. e.value ≡ tx) }
    {
        self.waiting.push(tx)
    }

    /// All that was added since the last batch, in order. None where nothing was. Takes no memory.
    pub fn take(&mut self) -> Option<Batch>
        ensures taken { MatchOption result (self.old.waiting ≡ []) (λ b. (b ≡ self.old.waiting)
            × (0 < length b)) }
        ensures emptied { self.new ≡ record self.old { waiting = [] } }
    {
        if self.waiting.is_empty() {
            return None;
        }
        Some(mem::replace(&mut self.waiting, List::new(self.alloc)))
    }
}

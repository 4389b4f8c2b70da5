// Where a lane takes its transactions from.
ghost use Rattle.std.specs.Prelude.{◌≡◌, ◌<◌, ◌≤◌, List, length, take, drop, OnOk, IfErr};
ghost use Rattle.cbdc_model.specs.Records.{Compact};

use cbdc_types::CompactTx;
use std::alloc::{AllocError, Global};

/// What gives a lane its transactions, piece by piece, so that it need not have them all before it begins.
pub trait Source {
    /// All that it gives, in order: the same whatever is asked of it.
    ghost all: { Self → List Compact };

    /// What it gives next, and after that.
    ghost rest: { Self → List Compact };

    /// The piece that it gave last.
    ghost given: { Self → List Compact };

    /// How many transactions it gives at most.
    fn most(&self) -> usize
        ensures { length (all self.now) ≤ result };

    /// Gives from its beginning on. The answer is how many that is at most.
    fn begin(&mut self) -> usize
        ensures same { all self.new ≡ all self.old }
        ensures rest { rest self.new ≡ all self.new }
        ensures most { length (all self.new) ≤ result };

    /// Goes to the next piece of so many, fewer at the end alone. Memory runs out only where something is left to give.
    fn advance(&mut self, alloc: Global, size: usize) -> Result<(), AllocError>
        requires { 0 < size }
        ensures same { all self.new ≡ all self.old }
        ensures given { OnOk result (given self.new ≡ take size (rest self.old)) }
        ensures rest { OnOk result (rest self.new ≡ drop size (rest self.old)) }
        ensures left { IfErr result (λ _. 0 < length (rest self.old)) };

    /// The piece that it gave last.
    fn piece(&self) -> &[CompactTx]
        ensures { result.now ≡ given self.now };

    /// Lets go of whoever makes pieces ready ahead of the lane, which needs none any more. All that it gives is the same.
    fn end_ahead(&mut self)
        ensures { all self.new ≡ all self.old };
}

/// Transactions that are there already.
#[derive(Drop)]
pub struct SliceSource<'a> {
    pub txs: &'a [CompactTx],
    pub given: &'a [CompactTx],
    pub rest: &'a [CompactTx],
}

impl<'a> SliceSource<'a> {
    /// A source of these transactions.
    pub fn new(txs: &'a [CompactTx]) -> SliceSource<'a>
        ensures { result.txs.now ≡ txs.now }
    {
        SliceSource {
            txs,
            given: &txs[..0],
            rest: txs,
        }
    }
}

impl<'a> Source for SliceSource<'a> {
    ghost all = { λ s. s.txs.now };

    ghost rest = { λ s. s.rest.now };

    ghost given = { λ s. s.given.now };

    fn most(&self) -> usize {
        self.txs.len()
    }

    fn begin(&mut self) -> usize {
        self.rest = self.txs;
        self.txs.len()
    }

    fn advance(&mut self, _alloc: Global, size: usize) -> Result<(), AllocError> {
        let (given, rest) = self.rest.split_at(size.min(self.rest.len()));
        self.given = given;
        self.rest = rest;
        Ok(())
    }

    fn piece(&self) -> &[CompactTx] {
        self.given
    }

    fn end_ahead(&mut self) {}
}

// The lanes of a wave.
ghost use Rattle.std.specs.Prelude.{◌≡◌, [], None};
ghost use Rattle.ledger_runs.specs.Waving.{FirstFaultIs};

use cbdc_types::{BatchId, Outcome};
use lane_driver::{LaneFault, Source};
use std::alloc::Global;
use std::marker::Model;

/// What was decided of a transaction, and in which batch.
#[derive(Clone, Copy, Debug)]
pub struct Decided {
    pub batch: BatchId,
    pub outcome: Outcome,
}

/// The result of a lane of a wave: what was decided of the transactions that it ran, how many batches that took, and why it stopped, if
/// it did.
#[derive(Drop)]
pub struct Lane {
    pub decided: Vec<Decided>,
    pub batches: u64,
    pub fault: Option<LaneFault>,
}

/// A lane of a wave: where its transactions come from, how many times more each of their shard calls is made, and its result.
/// Contracts see all that the source gives.
#[derive(Drop)]
pub struct Work<X: Source> {
    pub source: X,
    pub repeats: u32,
    pub lane: Lane,
}

impl<X: Source> Model for Work<X> {
    ghost use Rattle.ledger_runs.specs.Lanes.{LaneOf};

    ghost Value = { LaneOf };

    ghost view = { λ w. record { txs = X.all w.source; repeats = w.repeats; decided = w.lane.decided; batches = w.lane.batches; fault = w.lane.fault } };
}

impl<X: Source> Work<X> {
    /// A lane that has run none of its transactions.
    pub fn new(alloc: Global, source: X, repeats: u32) -> Work<X>
        ensures txs { (result.txs ≡ X.all source) × (result.repeats ≡ repeats) }
        ensures fault { result.fault ≡ None }
        ensures fresh { (result.decided.items ≡ []) × (result.batches ≡ 0) }
    {
        Work {
            source,
            repeats,
            lane: Lane {
                decided: Vec::new(alloc),
                batches: 0,
                fault: None,
            },
        }
    }
}

/// The fault of the least lane that has one.
pub fn first_fault<X: Source>(lanes: &[Work<X>]) -> Option<LaneFault>
    ensures { FirstFaultIs lanes.now result }
{
    'lanes: for work in lanes {
        if let Some(fault) = work.lane.fault {
            return Some(fault);
        }
    }
    None
}

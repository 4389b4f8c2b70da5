// One lane of a coordinator.
ghost use Rattle.std.specs.Prelude.{◌≡◌, ◌↔◌, IsTrue, ◌≤◌, ◌<◌, ◌+◌, length, OnOk, OnErr, [], All};
ghost use Rattle.cbdc_model.specs.Records.{Shape};
ghost use Rattle.cbdc_model.specs.Grammar.{IsOutcome};
ghost use Rattle.cbdc_model.specs.Slots.{InPrepare};
ghost use Rattle.coord_core.specs.Phases.{slot_of};
ghost use Rattle.coord_core.specs.Hashes.{AllNameBatches};
ghost use Rattle.coord_core.specs.Masks.{masks_of};
ghost use Rattle.coord_core.specs.Decided.{combined_outcomes, ShardsRise};
ghost use Rattle.coord_core.specs.Lanes.{lane_kept, ahead_in};

use crate::combine::combine;
use crate::mask::mask;
use crate::phase::LanePhase;
use cbdc_types::{CompactTx, Outcome, Shape, ShardReplies};
use std::alloc::{AllocError, Global};
use std::marker::Model;
use std::mem;

/// A lane: its phase, the masks of the transactions of its last batch, and the vector for the outcomes of the next Commit.
#[derive(Drop)]
pub(crate) struct Lane {
    alloc: Global,
    phase: LanePhase,
    masks: Vec<u64>,
    outcomes: Vec<Outcome>,
}

impl Model for Lane {
    ghost use Rattle.std.specs.Prelude.{◌≡◌, min, vec_capacity, []};
    ghost use Rattle.coord_core.specs.Lanes.{CoordLaneOf};
    ghost use Rattle.coord_core.specs.Phases.{slot_of};

    ghost Value = { CoordLaneOf };

    ghost view = { λ l. record { slot = slot_of l.phase; masks = l.masks.items; room = min (vec_capacity l.masks) (vec_capacity l.outcomes) } };

    ghost invariant = { λ l. l.outcomes.items ≡ [] };
}

impl Lane {
    /// A lane without a batch, which takes no memory.
    pub(crate) fn new(alloc: Global) -> Lane
        ensures slot { result.slot ≡ slot_of (LanePhase.Idle 0) }
        ensures masks { result.masks ≡ [] }
    {
        Lane {
            alloc,
            phase: LanePhase::Idle(0),
            masks: Vec::new(alloc),
            outcomes: Vec::new(alloc),
        }
    }

    pub(crate) fn phase(&self) -> LanePhase
        ensures { slot_of result ≡ self.now.slot }
    {
        self.phase
    }

    /// How many transactions the last batch has.
    pub(crate) fn count(&self) -> usize
        ensures { result ≡ length self.now.masks }
    {
        self.masks.len()
    }

    /// Sets the phase.
    pub(crate) fn turn(&mut self, phase: LanePhase)
        ensures { self.new ≡ record self.old { slot = slot_of phase } }
    {
        self.phase = phase;
    }

    /// Takes the memory of a batch of n transactions.
    pub(crate) fn reserve(&mut self, n: usize) -> Result<(), AllocError>
        ensures slot { self.new.slot ≡ self.old.slot }
        ensures masks { self.new.masks ≡ self.old.masks }
        ensures room { OnOk result (n ≤ self.new.room) }
        ensures grown { self.old.room ≤ self.new.room }
    {
        let masks = self.masks.len();
        if masks < n {
            self.masks.reserve(n - masks)?;
        }
        self.outcomes.reserve(n)?;
        Ok(())
    }

    /// Begins a batch: its masks, and Prepared with its number.
    pub(crate) fn begin(&mut self, number: u64, shape: &Shape, txs: &[CompactTx])
        requires room { length txs.now ≤ self.old.room }
        ensures slot { self.new.slot ≡ slot_of (LanePhase.Prepared number) }
        ensures masks { self.new.masks ≡ masks_of shape.now txs.now }
        ensures room { self.new.room ≡ self.old.room }
    {
        self.masks.clear();
        for tx in txs {
            self.masks.push_reserved(mask(shape, tx));
        }
        self.phase = LanePhase::Prepared(number);
    }

    /// The outcomes of the last batch, in the memory that was taken for them.
    pub(crate) fn decide(&mut self, replies: &[ShardReplies]) -> Vec<Outcome>
        requires room { length self.old.masks ≤ self.old.room }
        requires rising { ShardsRise 0 64 replies.now }
        ensures outcomes { result.items ≡ combined_outcomes self.old.masks replies.now }
        ensures grammar { (K : Shape) → ShardsRise 0 K.shards replies.now → AllNameBatches K replies.now
            → All (IsOutcome K) result.items }
        ensures slot { self.new.slot ≡ self.old.slot }
        ensures masks { self.new.masks ≡ self.old.masks }
    {
        let mut outcomes = mem::replace(&mut self.outcomes, Vec::new(self.alloc));
        combine(self.masks.as_slice(), replies, &mut outcomes);
        outcomes
    }

    /// Whether the outcomes of the last batch have room.
    pub(crate) fn has_room(&self) -> bool
        ensures { IsTrue result ↔ (length self.now.masks ≤ self.now.room) }
    {
        let count = self.masks.len();
        count <= self.masks.capacity() && count <= self.outcomes.capacity()
    }

    /// How many bytes are kept free for the later records of the lane's batch.
    pub(crate) fn kept_room(&self) -> u64
        requires { length self.now.masks ≤ 1024 }
        ensures value { result ≡ lane_kept self.now }
        ensures bound { result ≤ 58478 }
    {
        match self.phase {
            LanePhase::Idle(_) => 0,
            LanePhase::Prepared(_) => 110 + 57 * self.masks.len() as u64,
            LanePhase::Committed(_) => 68,
            LanePhase::Discarded(_) => 34,
        }
    }

    /// How many records the lane's batch still has to come.
    pub(crate) fn records_ahead(&self) -> usize
        ensures value { result ≡ ahead_in self.now.slot.phase }
        ensures bound { result ≤ 3 }
    {
        match self.phase {
            LanePhase::Idle(_) => 0,
            LanePhase::Prepared(_) => 3,
            LanePhase::Committed(_) => 2,
            LanePhase::Discarded(_) => 1,
        }
    }
}

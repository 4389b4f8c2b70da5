// The slots: one for each lane.
ghost use Rattle.std.specs.Prelude.{◌≡◌, ◌↔◌, [], IsTrue, ◌+◌, ◌≤◌, ◌<◌, length, IfOk, OnOk, slice_index_or, slice_get, slice_set, replicate, Some};
ghost use Rattle.shard_core.specs.declared.slots.LaneSlot.TheVariants.{Idle};

use cbdc_types::{Decisions, LaneId, List, Part, Reply, Stamp};
use std::alloc::{AllocError, Global};
use std::marker::Model;
use std::mem;

/// What a shard remembers of a lane. The number is that of its last batch, 0 before the first.
#[derive(Debug, PartialEq, Eq, Drop)]
pub enum LaneSlot {
    /// No batch is remembered. The stamp is that of the lane's last record here.
    Idle {
        number: u64,
        stamp: Stamp,
    },
    /// The part was locked with these replies, under this stamp.
    Locked {
        number: u64,
        part: Part,
        replies: List<Reply>,
        locked_at: Stamp,
    },
    /// The part was locked with these replies and finished with these decisions, under these two stamps.
    Finished {
        number: u64,
        part: Part,
        replies: List<Reply>,
        decisions: Decisions,
        locked_at: Stamp,
        finished_at: Stamp,
    },
}

/// A slot for each lane.
#[derive(Drop)]
pub struct Slots {
    slots: Vec<LaneSlot>,
}

impl Model for Slots {
    ghost use Rattle.std.specs.Prelude.{List};
    ghost use Rattle.shard_core.specs.declared.slots.LaneSlot.{LaneSlot};

    ghost Value = { List LaneSlot };

    ghost view = { λ s. s.slots.items };
}

impl Slots {
    /// So many lanes with no batch yet.
    pub fn new(alloc: Global, lanes: u32) -> Result<Slots, AllocError>
        ensures { IfOk result (λ s. s ≡ replicate lanes (Idle 0 0)) }
    {
        let mut slots = Vec::with_capacity(alloc, lanes as usize)?;
        for _ in 0..lanes {
            slots.push(LaneSlot::Idle {
                number: 0,
                stamp: Stamp(0),
            })?;
        }
        Ok(Slots { slots })
    }

    /// How many lanes there are. Takes no memory.
    pub fn len(&self) -> usize
        ensures { result ≡ length self.now }
    {
        self.slots.len()
    }

    /// Whether there is no lane. Takes no memory.
    pub fn is_empty(&self) -> bool
        ensures { IsTrue result ↔ (self.now ≡ []) }
    {
        self.slots.is_empty()
    }

    /// The slot of a lane. Takes no memory.
    pub fn slot(&self, lane: LaneId) -> &LaneSlot
        requires { lane < length self.now }
        ensures { slice_get self.now lane ≡ Some result.now }
    {
        &self.slots[lane.0 as usize]
    }

    /// Puts a slot in the place of a lane's. Takes no memory.
    pub fn put(&mut self, lane: LaneId, slot: LaneSlot)
        requires { lane < length self.old }
        ensures { self.new ≡ slice_set self.old lane slot }
    {
        self.slots[lane.0 as usize] = slot;
    }

    /// Takes out the slot of a lane, and leaves it Idle with the number 0. Takes no memory.
    pub fn take(&mut self, lane: LaneId) -> LaneSlot
        requires { lane < length self.old }
        ensures value { slice_get self.old lane ≡ Some result }
        ensures after { self.new ≡ slice_set self.old lane (Idle 0 0) }
    {
        mem::replace(
            &mut self.slots[lane.0 as usize],
            LaneSlot::Idle {
                number: 0,
                stamp: Stamp(0),
            },
        )
    }
}

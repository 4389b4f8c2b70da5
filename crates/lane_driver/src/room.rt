// The memory of a batch.
ghost use Rattle.std.specs.Prelude.{◌≡◌, ◌≤◌, ◌<◌, ◌^◌, [], length, IfOk, All};
ghost use Rattle.std.specs.Vec.{vec_capacity, vec_len};
ghost use Rattle.lane_driver.specs.Calls.{AreParts};
ghost use Rattle.lane_driver.specs.Rooms.{IsBatchRoom, IsLaterRoom};

use cbdc_types::{
    CompactTx, FinishCall, ForgetCall, List, LockCall, NodeFault, Outcome, Part, Replied, Shape,
    ShardReplies, Stamp,
};
use shard_ranges::split;
use std::alloc::{AllocError, Global};

/// The memory of a batch behind its Commit.
#[derive(Drop)]
pub struct LaterRoom {
    pub finishes: Vec<(u32, FinishCall)>,
    pub forgets: Vec<(u32, ForgetCall)>,
    pub stamped: Vec<Result<Stamp, NodeFault>>,
    pub decisions: Vec<Vec<bool>>,
}

/// The parts of a batch, and all memory that it needs.
#[derive(Drop)]
pub struct BatchRoom {
    pub parts: List<(u32, Part)>,
    pub locks: Vec<(u32, LockCall)>,
    pub replied: Vec<Result<Replied, NodeFault>>,
    pub again: Vec<Result<Replied, NodeFault>>,
    pub replies: Vec<ShardReplies>,
    pub outcomes: Vec<Outcome>,
    pub later: LaterRoom,
}

// So many lists with room for so many decisions.
fn decision_rooms(alloc: Global, count: usize, size: usize) -> Result<Vec<Vec<bool>>, AllocError>
    ensures rooms { IfOk result (λ v. All (λ w. (w.items ≡ []) × (size ≤ vec_capacity w)) v.items) }
    ensures as_many { IfOk result (λ v. vec_len v ≡ count) }
{
    let mut rooms = Vec::with_capacity(alloc, count)?;
    for _place in 0..count {
        let room = Vec::with_capacity(alloc, size)?;
        rooms.push_reserved(room);
    }
    Ok(rooms)
}

impl LaterRoom {
    /// Room for the calls at so many shards, and for so many decisions at each, or memory ran out.
    pub fn take(alloc: Global, count: usize, size: usize) -> Result<LaterRoom, AllocError>
        ensures { IfOk result (IsLaterRoom count size) }
    {
        Ok(LaterRoom {
            finishes: Vec::with_capacity(alloc, count)?,
            forgets: Vec::with_capacity(alloc, count)?,
            stamped: Vec::with_capacity(alloc, count)?,
            decisions: decision_rooms(alloc, count, size)?,
        })
    }
}

impl BatchRoom {
    /// The parts of these transactions, and the memory of their batch, or memory ran out.
    pub fn take(alloc: Global, shape: &Shape, txs: &[CompactTx]) -> Result<BatchRoom, AllocError>
        requires { length txs.now < 2 ^ 32 }
        ensures room { IfOk result (IsBatchRoom shape.now.shards (length txs.now)) }
        ensures parts { IfOk result (λ r. AreParts shape.now txs.now r.parts) }
    {
        let parts = split(alloc, txs, shape)?;
        let count = parts.len();
        Ok(BatchRoom {
            parts,
            locks: Vec::with_capacity(alloc, count)?,
            replied: Vec::with_capacity(alloc, count)?,
            again: Vec::with_capacity(alloc, count)?,
            replies: Vec::with_capacity(alloc, count)?,
            outcomes: Vec::with_capacity(alloc, txs.len())?,
            later: LaterRoom::take(alloc, count, txs.len())?,
        })
    }
}

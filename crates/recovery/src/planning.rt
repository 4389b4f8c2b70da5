// The memory of open batches is taken.
ghost use Rattle.std.specs.Prelude.{◌≡◌, ◌<◌, ◌^◌, length, IfOk, All};
ghost use Rattle.cbdc_model.specs.Grammar.{HasSize};
ghost use Rattle.recovery.specs.Planned.{IsRoomToResume};

use crate::plans::Plan;
use cbdc_types::{List, OpenLane, Outcome, Outcomes, Shape};
use lane_driver::BatchRoom;
use std::alloc::{AllocError, Global};

/// The memory that takes an open batch to its end, and its outcomes once more.
#[derive(Drop)]
pub(crate) struct LaneRoom {
    pub(crate) room: BatchRoom,
    pub(crate) outcomes: Outcomes,
}

// The outcomes once more.
fn copied(alloc: Global, outcomes: &[Outcome]) -> Result<Outcomes, AllocError>
    ensures { IfOk result (λ os. os ≡ outcomes.now) }
{
    Ok(List::from_vec(Vec::from_slice(alloc, outcomes)?))
}

// The memory of one batch, or memory ran out.
fn lane_room(alloc: Global, shape: &Shape, unfinished: &OpenLane) -> Result<LaneRoom, AllocError>
    requires { length unfinished.now.txs < 2 ^ 32 }
    ensures { IfOk result (IsRoomToResume shape.now unfinished.now) }
{
    Ok(LaneRoom {
        room: BatchRoom::take(alloc, shape, unfinished.txs.as_slice())?,
        outcomes: copied(alloc, unfinished.outcomes.as_slice())?,
    })
}

/// Takes all memory that takes these open batches to their end, and room for what they tell, or memory ran out. No node is
/// asked.
///
/// Out of memory: where the driver's own memory runs out; no node was asked.
pub fn plan<'a>(alloc: Global, shape: &Shape, lanes: &'a [OpenLane]) -> Result<Plan<'a>, AllocError>
    requires { All (λ o. HasSize shape.now o.txs) lanes.now }
    ensures { IfOk result (λ p. p ≡ record { shape = shape.now; lanes = lanes.now }) }
{
    let _limit = shape.batch();
    let batches = Vec::with_capacity(alloc, lanes.len())?;
    let mut rooms = Vec::with_capacity(alloc, lanes.len())?;
    for unfinished in lanes {
        rooms.push_reserved(lane_room(alloc, shape, unfinished)?);
    }
    rooms.reverse();
    Ok(Plan {
        shape: *shape,
        lanes,
        rooms,
        batches,
    })
}

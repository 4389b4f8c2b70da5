// The memory of a batch is taken.
ghost use Rattle.std.specs.Prelude.{◌≡◌, ◌<◌, ◌^◌, length, IfOk};

use crate::made_ready::Ready;
use crate::room::BatchRoom;
use cbdc_types::{CompactTx, LaneId, Shape};
use std::alloc::{AllocError, Global};

/// Takes all memory that the driver of a lane's batch needs, or memory ran out. No node is asked.
///
/// Out of memory: where the driver's own memory runs out; no node was asked.
pub fn ready<'a>(
    alloc: Global,
    shape: &Shape,
    lane: LaneId,
    txs: &'a [CompactTx],
) -> Result<Ready<'a>, AllocError>
    requires { length txs.now < 2 ^ 32 }
    ensures { IfOk result (λ r. r ≡ record { shape = shape.now; lane = lane; txs = txs.now }) }
{
    Ok(Ready {
        shape: *shape,
        lane,
        txs,
        room: BatchRoom::take(alloc, shape, txs)?,
    })
}

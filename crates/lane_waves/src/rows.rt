// For which lanes the nodes of a ledger are locked.
ghost use Rattle.std.specs.Prelude.{◌≡◌, ◌<◌, ◌+◌, ◌*◌, ◌^◌, length, IfOk};
ghost use Rattle.lane_waves.specs.Places.{AllFrom};
ghost use Rattle.lane_waves.specs.Rows.{lanes_from, IsHomeRow, IsShardRow};

use cbdc_types::{LaneId, Shape};
use std::alloc::{AllocError, Global};

// So many lanes from one on, in order.
fn row(alloc: Global, first: u32, count: u32) -> Result<Vec<LaneId>, AllocError>
    requires fit { first + count < 2 ^ 32 }
    ensures { IfOk result (λ r. r.items ≡ lanes_from first count) }
{
    let mut lanes = Vec::with_capacity(alloc, count as usize)?;
    for place in 0..count {
        lanes.push_reserved(LaneId(first + place));
    }
    Ok(lanes)
}

/// A coordinator is locked for its own lanes.
pub(crate) fn home_rows(alloc: Global, shape: &Shape) -> Result<Vec<Vec<LaneId>>, AllocError>
    ensures count { IfOk result (λ rows. length rows.items ≡ shape.now.coordinators) }
    ensures rows { IfOk result (λ rows. AllFrom (IsHomeRow shape.now) 0 rows.items) }
{
    let lanes = shape.lanes();
    let count = shape.coordinators();
    let mut rows = Vec::with_capacity(alloc, count as usize)?;
    for home in 0..count {
        rows.push_reserved(row(alloc, home * lanes, lanes)?);
    }
    Ok(rows)
}

/// A shard is locked for all lanes.
pub(crate) fn shard_rows(alloc: Global, shape: &Shape) -> Result<Vec<Vec<LaneId>>, AllocError>
    ensures count { IfOk result (λ rows. length rows.items ≡ shape.now.shards) }
    ensures rows { IfOk result (λ rows. AllFrom (IsShardRow shape.now) 0 rows.items) }
{
    let lanes = shape.lane_count();
    let count = shape.shards();
    let mut rows = Vec::with_capacity(alloc, count as usize)?;
    for _shard in 0..count {
        rows.push_reserved(row(alloc, 0, lanes)?);
    }
    Ok(rows)
}

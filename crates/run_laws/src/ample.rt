// When a ledger has room and stamps for all that is still to come, and that none is wanting then. There is no code here that runs.
ghost use Rattle.run_laws.specs.Enough.{IdleRoomLaw, KeptRoomLaw, LockRoomLaw, PrepareRoomLaw};
ghost use Rattle.run_laws.specs.Row.{RowLaw};

/// What one transaction needs on a new ledger of one shard and one coordinator.
///
/// One transaction of one input and one output on a new ledger of one shard and one coordinator needs 420 bytes at the coordinator and 427 at the
/// shard.
pub fn row_law()
    ensures { RowLaw }
{}

/// Where there is room for all that is still to come, each node has room for what is kept for its open batches.
pub fn kept_room_law()
    ensures { KeptRoomLaw }
{}

/// However far the lanes have come with the files, there is room and an early stamp for the next Prepare of each.
pub fn prepare_room_law()
    ensures { PrepareRoomLaw }
{}

/// So there is for each Lock that a prepared batch lacks.
pub fn lock_room_law()
    ensures { LockRoomLaw }
{}

/// Where every lane is idle, no room is kept.
pub fn idle_room_law()
    ensures { IdleRoomLaw }
{}

// A batch of a lane, phase by phase.
ghost use Rattle.std.specs.Prelude.{◌≡◌, ◌≤◌, ◌<◌, [], ◌∷◌, length, map, IfOk, OnOk, All};
ghost use Rattle.std.specs.Vec.{vec_capacity};
ghost use Rattle.cbdc_model.specs.Slots.{Idle, InPrepare, InCommit, InDiscard};
ghost use Rattle.cbdc_model.specs.Ranges.{home_of};
ghost use Rattle.cbdc_model.specs.Grammar.{HasSize, IsBatchOf, IsCompact};
ghost use Rattle.lane_driver.specs.Calls.{shard, forget_call_of};
ghost use Rattle.lane_driver.specs.Told.{IsLane, AreShardsOf, AreLockCalls, AreFitParts, IsStamp, AreShards};
ghost use Rattle.lane_driver.specs.Rooms.{IsBatchRoom, IsLaterRoom};
ghost use Rattle.lane_driver.specs.Reports.{AreBatchReports};
ghost use Rattle.lane_driver.specs.Stops.{IsLaneSettled};
ghost use Rattle.lane_driver.specs.Readied.{IsReadied};
ghost use Rattle.lane_driver.specs.Showing.{PortsShow, PortsTell, KeepsLanePorts};
ghost use Rattle.lane_driver.specs.Outcomes.{DiscardedResult, CommittedResult, PreparedResult, DriveResult, OneBatchResult};

use crate::fault::{BatchReport, LaneFault, LaneReport, Stop, no_memory};
use crate::making::ready;
use crate::order::{finish_calls, forget_calls, lock_calls};
use crate::phase::{
    finish_again, finish_phase, forget_again, forget_phase, lock_again, lock_phase,
};
use crate::port::{LogPort, PortSet, Ports};
use crate::room::{BatchRoom, LaterRoom};
use cbdc_types::{
    BatchId, CompactTx, ForgetCall, LaneId, List, LockCall, NodeFault, NodeId, Outcome, Outcomes,
    Replied, Shape, Stamp,
};
use outside::Gate;
use std::alloc::Global;

// The node of a lane's coordinator.
fn home(shape: &Shape, lane: LaneId) -> NodeId
    ensures { result ≡ home_of shape.now lane }
{
    NodeId(lane.0 / shape.lanes())
}

/// Takes a discarded batch to its end: the shards forget it, and it is done. Its forget calls are made so many times
/// more after their phase. There is room for the calls, and it takes no memory.
pub fn from_discarded<S: PortSet<G>, L: LogPort, G: Gate>(
    shape: &Shape,
    batch: &BatchId,
    cause: Stamp,
    locks: &[(u32, LockCall)],
    forgets: &mut Vec<(u32, ForgetCall)>,
    stamped: &mut Vec<Result<Stamp, NodeFault>>,
    ports: &mut Ports<S, L>,
    repeats: u32,
    gate: &G,
) -> Result<(), Stop>
    requires same { S.alone ≡ L.alone }
    requires at { L.at ports.old.log ≡ home_of shape.now batch.now.lane }
    requires home { IsLane (L.header ports.old.log) batch.now.lane }
    requires phase { L.phase ports.old.log batch.now.lane ≡ InDiscard }
    requires count { S.count ports.old.shards ≡ shape.now.shards }
    requires ledger { AreShardsOf shape.now (S.sights ports.old.shards) }
    requires mine { S.serves ports.old.shards batch.now.lane }
    requires shards { AreShards shard shape.now.shards locks.now }
    requires batch { IsBatchOf shape.now batch.now }
    requires cause { IsStamp cause }
    requires empty { forgets.old.items ≡ [] }
    requires room { length locks.now ≤ vec_capacity forgets.old }
    requires answers { length locks.now ≤ vec_capacity stamped.old }
    ensures outcome { PortsTell L.LogPort S.PortSet ports.old ports.new
        (DiscardedResult shape.now L.alone batch.now cause repeats locks.now result) }
    ensures phase { OnOk result (L.phase ports.new.log batch.now.lane ≡ Idle) }
    ensures keeps { KeepsLanePorts L.LogPort S.PortSet batch.now.lane ports.old ports.new }
    ensures calls { forgets.new.items ≡ map (forget_call_of batch.now cause) locks.now }
    ensures capacity { vec_capacity stamped.new ≡ vec_capacity stamped.old }
{
    forget_calls(locks, batch, cause, forgets);
    let forgotten = match forget_phase(shape, &mut ports.shards, forgets, stamped, gate) {
        Ok(stamp) => stamp,
        Err(fault) => return Err(fault),
    };
    forget_again(&mut ports.shards, forgets, stamped, repeats, gate);
    match ports.log.done(batch.lane, forgotten, gate) {
        Ok(_) => Ok(()),
        Err(fault) => Err(Stop {
            node: home(shape, batch.lane),
            fault,
        }),
    }
}

/// Takes a committed batch to its end: the shards apply it, it is discarded, and the shards forget it. Its finish and
/// forget calls are made so many times more after their phase, and all its calls after it is done. It takes no memory.
pub fn from_committed<S: PortSet<G>, L: LogPort, G: Gate>(
    shape: &Shape,
    batch: &BatchId,
    cause: Stamp,
    locks: &[(u32, LockCall)],
    outcomes: &[Outcome],
    again: &mut Vec<Result<Replied, NodeFault>>,
    room: LaterRoom,
    ports: &mut Ports<S, L>,
    repeats: u32,
    gate: &G,
) -> Result<(), Stop>
    requires same { S.alone ≡ L.alone }
    requires at { L.at ports.old.log ≡ home_of shape.now batch.now.lane }
    requires home { IsLane (L.header ports.old.log) batch.now.lane }
    requires phase { L.phase ports.old.log batch.now.lane ≡ InCommit }
    requires count { S.count ports.old.shards ≡ shape.now.shards }
    requires ledger { AreShardsOf shape.now (S.sights ports.old.shards) }
    requires mine { S.serves ports.old.shards batch.now.lane }
    requires shards { AreShards shard shape.now.shards locks.now }
    requires locks { AreLockCalls (S.sights ports.old.shards) locks.now }
    requires own { All (λ c. c.1.batch ≡ batch.now) locks.now }
    requires parts { All (λ c. length c.1.part ≤ length outcomes.now) locks.now }
    requires batch { IsBatchOf shape.now batch.now }
    requires cause { IsStamp cause }
    requires again { length locks.now ≤ vec_capacity again.old }
    requires room { IsLaterRoom (length locks.now) (length outcomes.now) room }
    ensures outcome { PortsTell L.LogPort S.PortSet ports.old ports.new
        (CommittedResult shape.now L.alone batch.now cause outcomes.now repeats locks.now result) }
    ensures phase { OnOk result (L.phase ports.new.log batch.now.lane ≡ Idle) }
    ensures keeps { KeepsLanePorts L.LogPort S.PortSet batch.now.lane ports.old ports.new }
{
    let LaterRoom {
        mut finishes,
        mut forgets,
        mut stamped,
        mut decisions,
    } = room;
    finish_calls(locks, outcomes, batch, cause, &mut decisions, &mut finishes);
    let finished = match finish_phase(shape, &mut ports.shards, &finishes, &mut stamped, gate) {
        Ok(stamp) => stamp,
        Err(fault) => return Err(fault),
    };
    finish_again(&mut ports.shards, &finishes, &mut stamped, repeats, gate);
    let discarded = match ports.log.discard(batch.lane, finished, gate) {
        Ok(stamp) => stamp,
        Err(fault) => {
            return Err(Stop {
                node: home(shape, batch.lane),
                fault,
            });
        }
    };
    match from_discarded(
        shape,
        batch,
        discarded,
        locks,
        &mut forgets,
        &mut stamped,
        ports,
        repeats,
        gate,
    ) {
        Ok(()) => {}
        Err(fault) => return Err(fault),
    }
    lock_again(&mut ports.shards, locks, again, repeats, gate);
    finish_again(&mut ports.shards, &finishes, &mut stamped, repeats, gate);
    forget_again(&mut ports.shards, &forgets, &mut stamped, repeats, gate);
    Ok(())
}

/// Takes a prepared batch to its end: its shards lock their parts, it is decided by their replies, and what follows
/// a Commit. Each shard call is made so many times more after its phase, and all its calls after it is done. Memory runs
/// out only at a Lock.
pub fn from_prepared<S: PortSet<G>, L: LogPort, G: Gate>(
    shape: &Shape,
    batch: &BatchId,
    cause: Stamp,
    room: BatchRoom,
    ports: &mut Ports<S, L>,
    repeats: u32,
    gate: &G,
) -> Result<Outcomes, Stop>
    requires same { S.alone ≡ L.alone }
    requires at { L.at ports.old.log ≡ home_of shape.now batch.now.lane }
    requires home { IsLane (L.header ports.old.log) batch.now.lane }
    requires shape { (L.header ports.old.log).shape ≡ shape.now }
    requires phase { L.phase ports.old.log batch.now.lane ≡ InPrepare }
    requires count { S.count ports.old.shards ≡ shape.now.shards }
    requires ledger { AreShardsOf shape.now (S.sights ports.old.shards) }
    requires mine { S.serves ports.old.shards batch.now.lane }
    requires batch { IsBatchOf shape.now batch.now }
    requires cause { IsStamp cause }
    requires parts { AreFitParts (S.sights ports.old.shards) room.parts }
    requires room { IsBatchRoom shape.now.shards (length (L.open_txs ports.old.log batch.now.lane)) room }
    ensures outcome { PortsTell L.LogPort S.PortSet ports.old ports.new
        (PreparedResult shape.now L.alone batch.now cause repeats room.parts result) }
    ensures phase { OnOk result (L.phase ports.new.log batch.now.lane ≡ Idle) }
    ensures keeps { KeepsLanePorts L.LogPort S.PortSet batch.now.lane ports.old ports.new }
    ensures outcomes { IfOk result (λ os. length os ≡ length (L.open_txs ports.old.log batch.now.lane)) }
{
    let BatchRoom {
        parts,
        mut locks,
        replied,
        mut again,
        replies,
        mut outcomes,
        later,
    } = room;
    lock_calls(parts, batch, cause, &mut locks);
    let replies = match lock_phase(shape, &mut ports.shards, &locks, replied, replies, gate) {
        Ok(replies) => replies,
        Err(fault) => return Err(fault),
    };
    lock_again(&mut ports.shards, &locks, &mut again, repeats, gate);
    let decided = match ports.log.decide(batch.lane, &replies, &mut outcomes, gate) {
        Ok(stamp) => stamp,
        Err(fault) => {
            return Err(Stop {
                node: home(shape, batch.lane),
                fault,
            });
        }
    };
    match from_committed(
        shape, batch, decided, &locks, &outcomes, &mut again, later, ports, repeats, gate,
    ) {
        Ok(()) => Ok(List::from_vec(outcomes)),
        Err(fault) => Err(fault),
    }
}

// One batch of an idle lane, from its Prepare to its end. Its memory is there, cut into its parts.
pub(crate) fn drive_batch<S: PortSet<G>, L: LogPort, G: Gate>(
    shape: &Shape,
    lane: LaneId,
    txs: &[CompactTx],
    room: BatchRoom,
    ports: &mut Ports<S, L>,
    repeats: u32,
    gate: &G,
) -> Result<BatchReport, Stop>
    requires same { S.alone ≡ L.alone }
    requires at { L.at ports.old.log ≡ home_of shape.now lane }
    requires home { IsLane (L.header ports.old.log) lane }
    requires shape { (L.header ports.old.log).shape ≡ shape.now }
    requires idle { L.phase ports.old.log lane ≡ Idle }
    requires count { S.count ports.old.shards ≡ shape.now.shards }
    requires ledger { AreShardsOf shape.now (S.sights ports.old.shards) }
    requires mine { S.serves ports.old.shards lane }
    requires size { HasSize shape.now txs.now }
    requires limits { All IsCompact txs.now }
    requires readied { IsReadied shape.now txs.now room }
    ensures outcome { PortsTell L.LogPort S.PortSet ports.old ports.new
        (DriveResult shape.now L.alone lane txs.now repeats result) }
    ensures idle { OnOk result (L.phase ports.new.log lane ≡ Idle) }
    ensures keeps { KeepsLanePorts L.LogPort S.PortSet lane ports.old ports.new }
    ensures report { IfOk result (λ r. (r.batch.lane ≡ lane) × (length r.outcomes ≡ length txs.now)) }
{
    let _limit = shape.batch();
    let (batch, prepared) = match ports.log.prepare(lane, txs, gate) {
        Ok(prepared) => prepared,
        Err(fault) => {
            return Err(Stop {
                node: home(shape, lane),
                fault,
            });
        }
    };
    match from_prepared(shape, &batch, prepared, room, ports, repeats, gate) {
        Ok(outcomes) => Ok(BatchReport { batch, outcomes }),
        Err(fault) => Err(fault),
    }
}

/// Runs one batch of an idle lane: 1 to `batch` transactions. With repeats, each shard call is made so many times
/// more after its phase, and all its shard calls after it is done. Where no other lane's records come meanwhile, the other
/// lanes are as before. All the driver's memory is taken before the first call.
///
/// Out of memory: as `ready` and `Ready::go`.
pub fn run_batch<S: PortSet<G>, L: LogPort, G: Gate>(
    alloc: Global,
    shape: &Shape,
    lane: LaneId,
    txs: &[CompactTx],
    ports: &mut Ports<S, L>,
    repeats: u32,
    gate: &G,
) -> Result<LaneReport, LaneFault>
    requires same { S.alone ≡ L.alone }
    requires at { L.at ports.old.log ≡ home_of shape.now lane }
    requires home { IsLane (L.header ports.old.log) lane }
    requires shape { (L.header ports.old.log).shape ≡ shape.now }
    requires idle { L.phase ports.old.log lane ≡ Idle }
    requires count { S.count ports.old.shards ≡ shape.now.shards }
    requires ledger { AreShardsOf shape.now (S.sights ports.old.shards) }
    requires mine { S.serves ports.old.shards lane }
    requires settled { PortsShow L.LogPort S.PortSet ports.old (IsLaneSettled shape.now lane) }
    requires size { HasSize shape.now txs.now }
    requires limits { All IsCompact txs.now }
    ensures outcome { PortsTell L.LogPort S.PortSet ports.old ports.new
        (OneBatchResult shape.now L.alone lane txs.now repeats result) }
    ensures idle { OnOk result (L.phase ports.new.log lane ≡ Idle) }
    ensures keeps { KeepsLanePorts L.LogPort S.PortSet lane ports.old ports.new }
    ensures report { IfOk result (λ r. AreBatchReports lane r.batches (txs.now ∷ [])) }
{
    let mut batches = match Vec::with_capacity(alloc, 1) {
        Ok(batches) => batches,
        Err(_) => return Err(no_memory()),
    };
    let _limit = shape.batch();
    let ready = match ready(alloc, shape, lane, txs) {
        Ok(ready) => ready,
        Err(_) => return Err(no_memory()),
    };
    match ready.go(ports, repeats, gate) {
        Ok(report) => {
            batches.push_reserved(report);
            Ok(LaneReport {
                batches: List::from_vec(batches),
            })
        }
        Err(fault) => Err(fault),
    }
}

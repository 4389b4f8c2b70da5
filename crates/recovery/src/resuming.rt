// An open batch is taken to its end.
ghost use Rattle.std.specs.Prelude.{◌≡◌, OnOk};
ghost use Rattle.cbdc_model.specs.Slots.{Idle};
ghost use Rattle.cbdc_types.specs.declared.batch.Phase.TheVariants.{Prepared, Committed, Discarded};
ghost use Rattle.lane_driver.specs.Showing.{PortsShow, PortsTell, KeepsLanePorts};
ghost use Rattle.lane_driver.specs.Told.{AreShardsOf};
ghost use Rattle.lane_driver.specs.Readied.{IsReadied};
ghost use Rattle.recovery.specs.Open.{IsOpenThrough, IsUnfinished, ResumeResult};
ghost use Rattle.recovery.specs.Planned.{IsRoomToResume};

use crate::planning::LaneRoom;
use crate::resumed::ResumedBatch;
use cbdc_types::{OpenLane, Outcomes, Phase, Shape};
use lane_driver::{
    BatchRoom, LaneFault, LaterRoom, LogPort, PortSet, Ports, from_committed, from_discarded,
    from_prepared, lane_fault, lock_calls,
};
use outside::Gate;

// Batches that an earlier run left open are not repeated.
const REPEATS: u32 = 0;

// A prepared batch asks Lock again and goes on.
fn resume_prepared<S: PortSet<G>, L: LogPort, G: Gate>(
    shape: &Shape,
    unfinished: &OpenLane,
    room: BatchRoom,
    ports: &mut Ports<S, L>,
    gate: &G,
) -> Result<ResumedBatch, LaneFault>
    requires phase { unfinished.now.phase ≡ Prepared }
    requires same { S.alone ≡ L.alone }
    requires at { L.at ports.old.log ≡ (L.header ports.old.log).node }
    requires is_open { IsOpenThrough L.LogPort ports.old.log unfinished.now }
    requires stands { PortsShow L.LogPort S.PortSet ports.old (IsUnfinished shape.now unfinished.now) }
    requires shape { (L.header ports.old.log).shape ≡ shape.now }
    requires count { S.count ports.old.shards ≡ shape.now.shards }
    requires ledger { AreShardsOf shape.now (S.sights ports.old.shards) }
    requires mine { S.serves ports.old.shards unfinished.now.batch.lane }
    requires readied { IsReadied shape.now unfinished.now.txs room }
    ensures outcome { PortsTell L.LogPort S.PortSet ports.old ports.new
        (ResumeResult shape.now L.alone unfinished.now result) }
    ensures idle { OnOk result (L.phase ports.new.log unfinished.now.batch.lane ≡ Idle) }
    ensures keeps { KeepsLanePorts L.LogPort S.PortSet unfinished.now.batch.lane ports.old ports.new }
{
    match from_prepared(
        shape,
        &unfinished.batch,
        unfinished.stamp,
        room,
        ports,
        REPEATS,
        gate,
    ) {
        Ok(outcomes) => Ok(ResumedBatch {
            batch: unfinished.batch,
            phase: Phase::Prepared,
            outcomes,
        }),
        Err(stop) => Err(lane_fault(stop)),
    }
}

// A committed batch asks Finish and goes on.
fn resume_committed<S: PortSet<G>, L: LogPort, G: Gate>(
    shape: &Shape,
    unfinished: &OpenLane,
    room: BatchRoom,
    outcomes: Outcomes,
    ports: &mut Ports<S, L>,
    gate: &G,
) -> Result<ResumedBatch, LaneFault>
    requires phase { unfinished.now.phase ≡ Committed }
    requires same { S.alone ≡ L.alone }
    requires at { L.at ports.old.log ≡ (L.header ports.old.log).node }
    requires is_open { IsOpenThrough L.LogPort ports.old.log unfinished.now }
    requires stands { PortsShow L.LogPort S.PortSet ports.old (IsUnfinished shape.now unfinished.now) }
    requires shape { (L.header ports.old.log).shape ≡ shape.now }
    requires count { S.count ports.old.shards ≡ shape.now.shards }
    requires ledger { AreShardsOf shape.now (S.sights ports.old.shards) }
    requires mine { S.serves ports.old.shards unfinished.now.batch.lane }
    requires readied { IsReadied shape.now unfinished.now.txs room }
    requires outcomes { outcomes ≡ unfinished.now.outcomes }
    ensures outcome { PortsTell L.LogPort S.PortSet ports.old ports.new
        (ResumeResult shape.now L.alone unfinished.now result) }
    ensures idle { OnOk result (L.phase ports.new.log unfinished.now.batch.lane ≡ Idle) }
    ensures keeps { KeepsLanePorts L.LogPort S.PortSet unfinished.now.batch.lane ports.old ports.new }
{
    let BatchRoom {
        parts,
        mut locks,
        replied: _,
        mut again,
        replies: _,
        outcomes: _,
        later,
    } = room;
    lock_calls(parts, &unfinished.batch, unfinished.stamp, &mut locks);
    match from_committed(
        shape,
        &unfinished.batch,
        unfinished.stamp,
        &locks,
        unfinished.outcomes.as_slice(),
        &mut again,
        later,
        ports,
        REPEATS,
        gate,
    ) {
        Ok(()) => Ok(ResumedBatch {
            batch: unfinished.batch,
            phase: Phase::Committed,
            outcomes,
        }),
        Err(stop) => Err(lane_fault(stop)),
    }
}

// A discarded batch asks Forget and goes on.
fn resume_discarded<S: PortSet<G>, L: LogPort, G: Gate>(
    shape: &Shape,
    unfinished: &OpenLane,
    room: BatchRoom,
    outcomes: Outcomes,
    ports: &mut Ports<S, L>,
    gate: &G,
) -> Result<ResumedBatch, LaneFault>
    requires phase { unfinished.now.phase ≡ Discarded }
    requires same { S.alone ≡ L.alone }
    requires at { L.at ports.old.log ≡ (L.header ports.old.log).node }
    requires is_open { IsOpenThrough L.LogPort ports.old.log unfinished.now }
    requires stands { PortsShow L.LogPort S.PortSet ports.old (IsUnfinished shape.now unfinished.now) }
    requires shape { (L.header ports.old.log).shape ≡ shape.now }
    requires count { S.count ports.old.shards ≡ shape.now.shards }
    requires ledger { AreShardsOf shape.now (S.sights ports.old.shards) }
    requires mine { S.serves ports.old.shards unfinished.now.batch.lane }
    requires readied { IsReadied shape.now unfinished.now.txs room }
    requires outcomes { outcomes ≡ unfinished.now.outcomes }
    ensures outcome { PortsTell L.LogPort S.PortSet ports.old ports.new
        (ResumeResult shape.now L.alone unfinished.now result) }
    ensures idle { OnOk result (L.phase ports.new.log unfinished.now.batch.lane ≡ Idle) }
    ensures keeps { KeepsLanePorts L.LogPort S.PortSet unfinished.now.batch.lane ports.old ports.new }
{
    let BatchRoom {
        parts,
        mut locks,
        replied: _,
        again: _,
        replies: _,
        outcomes: _,
        later,
    } = room;
    let LaterRoom {
        finishes: _,
        mut forgets,
        mut stamped,
        decisions: _,
    } = later;
    lock_calls(parts, &unfinished.batch, unfinished.stamp, &mut locks);
    match from_discarded(
        shape,
        &unfinished.batch,
        unfinished.stamp,
        &locks,
        &mut forgets,
        &mut stamped,
        ports,
        REPEATS,
        gate,
    ) {
        Ok(()) => Ok(ResumedBatch {
            batch: unfinished.batch,
            phase: Phase::Discarded,
            outcomes,
        }),
        Err(stop) => Err(lane_fault(stop)),
    }
}

// Takes one open batch to its end, from the phase in which it stands.
pub(crate) fn resume_lane<S: PortSet<G>, L: LogPort, G: Gate>(
    shape: &Shape,
    unfinished: &OpenLane,
    room: LaneRoom,
    ports: &mut Ports<S, L>,
    gate: &G,
) -> Result<ResumedBatch, LaneFault>
    requires same { S.alone ≡ L.alone }
    requires at { L.at ports.old.log ≡ (L.header ports.old.log).node }
    requires is_open { IsOpenThrough L.LogPort ports.old.log unfinished.now }
    requires stands { PortsShow L.LogPort S.PortSet ports.old (IsUnfinished shape.now unfinished.now) }
    requires shape { (L.header ports.old.log).shape ≡ shape.now }
    requires count { S.count ports.old.shards ≡ shape.now.shards }
    requires ledger { AreShardsOf shape.now (S.sights ports.old.shards) }
    requires mine { S.serves ports.old.shards unfinished.now.batch.lane }
    requires room { IsRoomToResume shape.now unfinished.now room }
    ensures outcome { PortsTell L.LogPort S.PortSet ports.old ports.new
        (ResumeResult shape.now L.alone unfinished.now result) }
    ensures idle { OnOk result (L.phase ports.new.log unfinished.now.batch.lane ≡ Idle) }
    ensures keeps { KeepsLanePorts L.LogPort S.PortSet unfinished.now.batch.lane ports.old ports.new }
{
    let LaneRoom { room, outcomes } = room;
    match unfinished.phase {
        Phase::Prepared => resume_prepared(shape, unfinished, room, ports, gate),
        Phase::Committed => resume_committed(shape, unfinished, room, outcomes, ports, gate),
        Phase::Discarded => resume_discarded(shape, unfinished, room, outcomes, ports, gate),
    }
}

// Open batches are taken to their end, one after another.
ghost use Rattle.std.specs.Prelude.{◌≡◌, ◌≤◌, ◌<◌, ◌+◌, true, length, OnOk, All};
ghost use Rattle.std.specs.Vec.{vec_capacity, vec_len};
ghost use Rattle.cbdc_model.specs.Slots.{Idle};
ghost use Rattle.lane_driver.specs.Showing.{PortsShow, PortsTell};
ghost use Rattle.lane_driver.specs.Told.{AreShardsOf};
ghost use Rattle.recovery.specs.Open.{IsOpenThrough, LanesRise, AreUnfinished, OpenLanesResult, KeepsListedPorts, KeepsResumed};
ghost use Rattle.recovery.specs.Planned.{IsPlan};

use crate::planning::LaneRoom;
use crate::resumed::{Resumed, ResumedBatch};
use crate::resuming::resume_lane;
use cbdc_types::{List, OpenLane, Shape};
use lane_driver::{LaneFault, LogPort, PortSet, Ports};
use outside::Gate;

// Keeps the result of a lane: its batch, or its fault, where none came before.
fn keep(
    batches: &mut Vec<ResumedBatch>,
    first: Option<LaneFault>,
    came: Result<ResumedBatch, LaneFault>,
) -> Option<LaneFault>
    requires room { vec_len batches.old < vec_capacity batches.old }
    ensures kept { KeepsResumed batches.old.items first came batches.new.items result }
    ensures len { vec_len batches.new ≤ vec_len batches.old + 1 }
    ensures capacity { vec_capacity batches.new ≡ vec_capacity batches.old }
{
    match came {
        Ok(batch) => {
            batches.push_reserved(batch);
            first
        }
        Err(fault) => first.or(Some(fault)),
    }
}

// Takes each of these batches to its end, with its memory; there is room for what they tell.
pub(crate) fn drive_lanes<S: PortSet<G>, L: LogPort, G: Gate>(
    shape: &Shape,
    lanes: &[OpenLane],
    mut rooms: Vec<LaneRoom>,
    mut batches: Vec<ResumedBatch>,
    ports: &mut Ports<S, L>,
    gate: &G,
) -> Result<Resumed, LaneFault>
    requires same { S.alone ≡ L.alone }
    requires at { L.at ports.old.log ≡ (L.header ports.old.log).node }
    requires alone { 1 < length lanes.now → S.alone ≡ true }
    requires is_open { All (IsOpenThrough L.LogPort ports.old.log) lanes.now }
    requires stand { PortsShow L.LogPort S.PortSet ports.old (AreUnfinished shape.now lanes.now) }
    requires rise { LanesRise lanes.now }
    requires shape { (L.header ports.old.log).shape ≡ shape.now }
    requires count { S.count ports.old.shards ≡ shape.now.shards }
    requires ledger { AreShardsOf shape.now (S.sights ports.old.shards) }
    requires mine { All (λ o. S.serves ports.old.shards o.batch.lane) lanes.now }
    requires plan { IsPlan shape.now lanes.now rooms.items batches.items }
    requires told { length lanes.now ≤ vec_capacity batches }

    // Each batch is at its end, and is told with the phase in which it stood and the outcomes of its Commit. Or one stopped, at the least shard's
    // fault of a phase all of whose calls were made, or at its coordinator's: those before it are at their end, and each of those behind it was
    // taken up still, to its end or until it stopped too.
    ensures outcome { PortsTell L.LogPort S.PortSet ports.old ports.new
        (OpenLanesResult shape.now L.alone lanes.now result) }
    ensures idle { OnOk result (All (λ o. L.phase ports.new.log o.batch.lane ≡ Idle) lanes.now) }
    ensures keeps { KeepsListedPorts L.LogPort S.PortSet lanes.now ports.old ports.new }
{
    let mut first = None;
    for unfinished in lanes {
        match rooms.pop() {
            Some(room) => {
                let came = resume_lane(shape, unfinished, room, ports, gate);
                first = keep(&mut batches, first, came);
            }
            None => unreachable!(),
        }
    }
    match first {
        Some(fault) => Err(fault),
        None => Ok(Resumed {
            batches: List::from_vec(batches),
        }),
    }
}

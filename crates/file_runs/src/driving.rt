// A lane's driver at the nodes of a ledger.
ghost use Rattle.std.specs.Prelude.{◌≡◌, ◌<◌, ◌/◌, [], ◌∷◌, All, Some, IfOk, OnOk};
ghost use Rattle.cbdc_model.specs.After.{IsJournal};
ghost use Rattle.cbdc_model.specs.Ranges.{home_of};
ghost use Rattle.cbdc_model.specs.Slots.{Idle};
ghost use Rattle.node_journal.specs.Nodes.{sight};
ghost use Rattle.coord_log.specs.OpenLanes.{open_lane};
ghost use Rattle.node_ports.specs.Nodes.{sight_at};
ghost use Rattle.ledger_runs.specs.Turning.{lane_phase, IsLaneOf};
ghost use Rattle.file_runs.specs.Ledgers.{IsLedger, FliesNext, node_journals, HaveCheckedJournals};
ghost use Rattle.file_runs.specs.Steps.{IsStep};
ghost use Rattle.file_runs.specs.Ones.{IsOneOf, LaneResumes};
ghost use Rattle.recovery.specs.declared.resumed.ResumedBatch.{ResumedBatch as BatchOf};

use cbdc_types::{Header, LaneId, OpenLane, Shape};
use coord_log::CoordLog;
use lane_driver::{LaneFault, Ports};
use node_ports::{NodeLogs, NodeShards};
use outside::{Disk, Gate};
use recovery::{Plan, Resumed, ResumedBatch};
use shard_node::ShardNode;
use std::sync::Wait;

/// The place of a lane's coordinator.
pub(crate) fn home(shape: &Shape, lane: LaneId) -> u32
    requires { IsLaneOf shape.now lane }
    ensures place { result ≡ home_of shape.now lane }
    ensures inside { result < shape.now.coordinators }
{
    let _count = shape.coordinators();
    lane.0 / shape.lanes()
}

/// Each coordinator's journal is one of its header, and a record in flight may come next there.
pub(crate) fn see_logs<D: Disk>(logs: &[CoordLog<D>])
    ensures journals { All (λ l. IsJournal l.header l.journal) logs.now }
    ensures next { All FliesNext logs.now }
{
    'logs: for log in logs {
        let _records = log.records();
    }
}

/// Each shard's journal is one of its header, and a record in flight may come next there.
pub(crate) fn see_shards<D: Disk>(shards: &[ShardNode<D>])
    ensures journals { All (λ s. IsJournal s.header s.journal) shards.now }
    ensures next { All FliesNext shards.now }
{
    'shards: for shard in shards {
        let _records = shard.records();
    }
}

// The result of a list of one lane.
fn one_of(came: Result<Resumed, LaneFault>) -> Result<ResumedBatch, LaneFault>
    requires { IfOk came (λ r. (b : BatchOf) × (r.batches ≡ b ∷ [])) }
    ensures { IsOneOf came result }
{
    match came {
        Ok(Resumed { batches }) => match batches.into_vec().pop() {
            Some(batch) => Ok(batch),
            None => unreachable!(),
        },
        Err(fault) => Err(fault),
    }
}

/// Takes a lane's open batch to its end, with the memory that was taken for it.
pub(crate) fn drive_resume<W: Wait, D: Disk, G: Gate>(
    header: &Header,
    lane: LaneId,
    unfinished: &OpenLane,
    plan: Plan,
    ports: &mut Ports<NodeShards<W, D>, NodeLogs<W, D>>,
    gate: &G,
) -> Result<ResumedBatch, LaneFault>
    requires ledger { IsLedger header.now ports.old.log.logs.items ports.old.shards.nodes.items }
    requires lane { IsLaneOf header.now.shape lane }
    requires told { open_lane (sight_at sight ports.old.log.logs.items
        (home_of header.now.shape lane)).seen lane ≡ Some unfinished.now }
    requires plan { plan ≡ record { shape = header.now.shape; lanes = unfinished.now ∷ [] } }
    requires checked { HaveCheckedJournals
        header.now.shape ports.old.log.logs.items ports.old.shards.nodes.items }
    ensures step { IsStep D.Disk header.now lane ports.old.log.logs.items
        ports.old.shards.nodes.items ports.new.log.logs.items ports.new.shards.nodes.items }
    ensures outcome { LaneResumes header.now.shape lane unfinished.now result ports.old.log.logs.items
        ports.old.shards.nodes.items ports.new.log.logs.items ports.new.shards.nodes.items }
    ensures idle { OnOk result (lane_phase header.now.shape
        (node_journals header.now.shape ports.new.log.logs.items ports.new.shards.nodes.items) lane ≡ Idle) }
{
    ports.log.at = home(&header.shape, lane);
    ports.shards.lane = lane;
    let came = plan.go(ports, gate);
    see_logs(ports.log.logs.as_slice());
    see_shards(ports.shards.nodes.as_slice());
    one_of(came)
}

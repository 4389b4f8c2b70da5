// Open batches for which all memory is taken.
ghost use Rattle.std.specs.Prelude.{◌≡◌, ◌<◌, true, length, OnOk, All};
ghost use Rattle.cbdc_model.specs.Slots.{Idle};
ghost use Rattle.lane_driver.specs.Showing.{PortsShow, PortsTell};
ghost use Rattle.lane_driver.specs.Told.{AreShardsOf};
ghost use Rattle.recovery.specs.Open.{IsOpenThrough, LanesRise, AreUnfinished, OpenLanesResult, KeepsListedPorts};

use crate::driving::drive_lanes;
use crate::planning::LaneRoom;
use crate::resumed::{Resumed, ResumedBatch};
use cbdc_types::{OpenLane, Shape};
use lane_driver::{LaneFault, LogPort, PortSet, Ports};
use outside::Gate;
use std::marker::Model;

/// Open batches of a coordinator's lanes, with all memory that takes them to their end. Contracts see the shape of their
/// ledger, and the batches.
#[derive(Drop)]
pub struct Plan<'a> {
    pub(crate) shape: Shape,
    pub(crate) lanes: &'a [OpenLane],
    pub(crate) rooms: Vec<LaneRoom>,
    pub(crate) batches: Vec<ResumedBatch>,
}

impl<'a> Model for Plan<'a> {
    ghost use Rattle.std.specs.Prelude.{◌≤◌, length};
    ghost use Rattle.std.specs.Vec.{vec_capacity};
    ghost use Rattle.recovery.specs.Planned.{PlanOf, IsPlan};

    ghost Value = { PlanOf };

    ghost view = { λ p. record { shape = p.shape; lanes = p.lanes.now } };

    ghost invariant = { λ p. IsPlan p.shape p.lanes.now p.rooms.items p.batches.items × (length p.lanes.now ≤ vec_capacity p.batches) };
}

impl<'a> Plan<'a> {
    /// Takes each batch to its end, in the list's order: a prepared batch asks Lock again at each concerned shard and goes on, a
    /// committed one asks Finish, a discarded one Forget. The list has lanes that are not idle, each once, in rising order. Where it
    /// has more than one, no other lane writes meanwhile: a port tells of the lane that it is called for and lets records of all
    /// others come, those of the list's later lanes too. Where none write, the lanes that are not listed are as before. A lane that
    /// meets a fault ends; the others go on. The answer is then the least lane's fault. It takes no memory of its own.
    ///
    /// Out of memory: where a shard ran out of it at a Lock of a batch that was prepared (`outcome`); with none prepared never. That batch is prepared
    /// still; those before it are at their end, and those behind it were taken up.
    pub fn go<S: PortSet<G>, L: LogPort, G: Gate>(
        self,
        ports: &mut Ports<S, L>,
        gate: &G,
    ) -> Result<Resumed, LaneFault>
        requires same { S.alone ≡ L.alone }
        requires at { L.at ports.old.log ≡ (L.header ports.old.log).node }
        requires alone { 1 < length self.lanes → S.alone ≡ true }
        requires is_open { All (IsOpenThrough L.LogPort ports.old.log) self.lanes }
        requires stand { PortsShow L.LogPort S.PortSet ports.old (AreUnfinished self.shape self.lanes) }
        requires rise { LanesRise self.lanes }
        requires shape { (L.header ports.old.log).shape ≡ self.shape }
        requires count { S.count ports.old.shards ≡ self.shape.shards }
        requires ledger { AreShardsOf self.shape (S.sights ports.old.shards) }
        requires mine { All (λ o. S.serves ports.old.shards o.batch.lane) self.lanes }

        // Each batch is at its end, and is told with the phase in which it stood and the outcomes of its Commit. Or one stopped, at the least
        // shard's fault of a phase all of whose calls were made, or at its coordinator's: those before it are at their end, and each of those
        // behind it was taken up still, to its end or until it stopped too.
        ensures outcome { PortsTell L.LogPort S.PortSet ports.old ports.new
            (OpenLanesResult self.entry.shape L.alone self.entry.lanes result) }
        ensures idle { OnOk result (All (λ o. L.phase ports.new.log o.batch.lane ≡ Idle) self.entry.lanes) }
        ensures keeps { KeepsListedPorts L.LogPort S.PortSet self.entry.lanes ports.old ports.new }
    {
        let Plan {
            shape,
            lanes,
            rooms,
            batches,
        } = self;
        drive_lanes(&shape, lanes, rooms, batches, ports, gate)
    }
}

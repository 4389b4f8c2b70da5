// Open batches are taken to their end: their memory first.
ghost use Rattle.std.specs.Prelude.{◌≡◌, ◌<◌, true, length, OnOk, All};
ghost use Rattle.cbdc_model.specs.Slots.{Idle};
ghost use Rattle.lane_driver.specs.Showing.{PortsShow, PortsTell};
ghost use Rattle.lane_driver.specs.Told.{AreShardsOf};
ghost use Rattle.recovery.specs.Open.{IsOpenThrough, LanesRise, AreUnfinished, ResumingResult, KeepsListedPorts};

use crate::planning::plan;
use crate::resumed::Resumed;
use cbdc_types::{OpenLane, Shape};
use lane_driver::{LaneFault, LogPort, PortSet, Ports, no_memory};
use outside::Gate;
use std::alloc::Global;

/// Takes each open batch of a coordinator's lanes to its end, as `Plan::go` does, and takes all memory for that before the first
/// call: where it runs out of it, no node was asked.
///
/// A batch stopped behind each of its records goes on from its phase and leaves the bytes of a run that was not stopped. Tested in `ledger_rows`
/// (`stop.rows`).
///
/// Out of memory: as `plan` and `Plan::go`.
pub fn resume<S: PortSet<G>, L: LogPort, G: Gate>(
    alloc: Global,
    shape: &Shape,
    lanes: &[OpenLane],
    ports: &mut Ports<S, L>,
    gate: &G,
) -> Result<Resumed, LaneFault>
    requires same { S.alone ≡ L.alone }
    requires at { L.at ports.old.log ≡ (L.header ports.old.log).node }
    requires alone { 1 < length lanes.now → S.alone ≡ true }
    requires is_open { All (IsOpenThrough L.LogPort ports.old.log) lanes.now }
    requires stand { PortsShow L.LogPort S.PortSet ports.old (AreUnfinished shape.now lanes.now) }
    requires rise { LanesRise lanes.now }
    requires shape { (L.header ports.old.log).shape ≡ shape.now }
    requires count { S.count ports.old.shards ≡ shape.now.shards }
    requires ledger { AreShardsOf shape.now (S.sights ports.old.shards) }
    requires mine { All (λ o. S.serves ports.old.shards o.batch.lane) lanes.now }

    // Each batch is at its end, and is told with the phase in which it stood and the outcomes of its Commit. Or one stopped, at the least shard's
    // fault of a phase all of whose calls were made, or at its coordinator's: those before it are at their end, and each of those behind it was
    // taken up still, to its end or until it stopped too.
    ensures outcome { PortsTell L.LogPort S.PortSet ports.old ports.new
        (ResumingResult shape.now L.alone lanes.now result) }
    ensures idle { OnOk result (All (λ o. L.phase ports.new.log o.batch.lane ≡ Idle) lanes.now) }
    ensures keeps { KeepsListedPorts L.LogPort S.PortSet lanes.now ports.old ports.new }
{
    match plan(alloc, shape, lanes) {
        Ok(plan) => plan.go(ports, gate),
        Err(_) => Err(no_memory()),
    }
}

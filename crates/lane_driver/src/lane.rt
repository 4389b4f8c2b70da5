// A lane's transactions, batch by batch.
ghost use Rattle.std.specs.Prelude.{◌≡◌, [], IfOk, OnOk, All};
ghost use Rattle.cbdc_model.specs.Slots.{Idle};
ghost use Rattle.cbdc_model.specs.Grammar.{IsCompact};
ghost use Rattle.cbdc_model.specs.Ranges.{home_of};
ghost use Rattle.lane_driver.specs.Stops.{IsLaneSettled};
ghost use Rattle.lane_driver.specs.Told.{IsLane, AreShardsOf};
ghost use Rattle.lane_driver.specs.Reports.{IsReported};
ghost use Rattle.lane_driver.specs.Showing.{PortsShow, PortsTell, KeepsLanePorts};
ghost use Rattle.lane_driver.specs.Outcomes.{LaneResult};

use crate::fault::{LaneFault, LaneReport, no_memory};
use crate::making::ready;
use crate::port::{LogPort, PortSet, Ports};
use crate::source::Source;
use cbdc_types::{LaneId, List, Shape};
use outside::Gate;
use std::alloc::Global;

/// Runs all that a source gives to an idle lane in order, in batches of `batch`, the last maybe shorter; with nothing it
/// makes no call. Each batch is taken from the source when those before it are done; where memory runs out there, the lane
/// ends. With repeats, each shard call of a batch is made so many times more after its phase, and all its shard calls after
/// it is done. The first batch that meets a fault ends it, and that fault is the answer. Where no other lane's records come
/// meanwhile, the other lanes are as before.
///
/// With three repeats a shard is asked seven times for each batch to lock, to finish and to forget, and nothing more is written; an output is
/// missing in its own batch and there in the next; a lane ends with the clock, and where its coordinator is full, with the numbers. Tested in
/// `node_rows` (`repeats.rows`, `lanes.rows`).
///
/// Out of memory: before its first call, between batches, or at a batch as `run_batch`; the batches before it are done.
pub fn run_lane<S: PortSet<G>, L: LogPort, X: Source, G: Gate>(
    alloc: Global,
    shape: &Shape,
    lane: LaneId,
    source: &mut X,
    ports: &mut Ports<S, L>,
    repeats: u32,
    gate: &G,
) -> Result<LaneReport, LaneFault>
    requires same { S.alone ≡ L.alone }
    requires at { L.at ports.old.log ≡ home_of shape.now lane }
    requires home { IsLane (L.header ports.old.log) lane }
    requires shape { (L.header ports.old.log).shape ≡ shape.now }
    requires idle { L.phase ports.old.log lane ≡ Idle }
    requires count { S.count ports.old.shards ≡ shape.now.shards }
    requires ledger { AreShardsOf shape.now (S.sights ports.old.shards) }
    requires mine { S.serves ports.old.shards lane }
    requires settled { PortsShow L.LogPort S.PortSet ports.old (IsLaneSettled shape.now lane) }
    requires limits { All IsCompact (X.all source.old) }
    ensures same { X.all source.new ≡ X.all source.old }

    // All its batches are done, one behind the other, each with the outcomes of its Commit; or it stopped, with those before it done.
    ensures outcome { PortsTell L.LogPort S.PortSet ports.old ports.new
        (LaneResult shape.now L.alone lane (X.all source.old) repeats result) }
    ensures idle { OnOk result (L.phase ports.new.log lane ≡ Idle) }
    ensures keeps { KeepsLanePorts L.LogPort S.PortSet lane ports.old ports.new }
    ensures report { IfOk result (λ r. IsReported lane shape.now.batch (X.all source.old) [] r.batches) }
{
    let size = shape.batch() as usize;
    let mut batches = match Vec::with_capacity(alloc, source.begin().div_ceil(size)) {
        Ok(batches) => batches,
        Err(_) => return Err(no_memory()),
    };
    'pieces: loop {
        match source.advance(alloc, size) {
            Ok(()) => {}
            Err(_) => return Err(no_memory()),
        }
        let piece = source.piece();
        if piece.is_empty() {
            break;
        }
        let ready = match ready(alloc, shape, lane, piece) {
            Ok(ready) => ready,
            Err(_) => return Err(no_memory()),
        };
        match ready.go(ports, repeats, gate) {
            Ok(report) => batches.push_reserved(report),
            Err(fault) => return Err(fault),
        }
    }
    Ok(LaneReport {
        batches: List::from_vec(batches),
    })
}

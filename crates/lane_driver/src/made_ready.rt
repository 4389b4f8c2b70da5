// A batch for which all memory is taken.
ghost use Rattle.std.specs.Prelude.{◌≡◌, length, IfOk, OnOk, All};
ghost use Rattle.cbdc_model.specs.Slots.{Idle};
ghost use Rattle.cbdc_model.specs.Ranges.{home_of};
ghost use Rattle.cbdc_model.specs.Grammar.{HasSize, IsCompact};
ghost use Rattle.lane_driver.specs.Told.{IsLane, AreShardsOf};
ghost use Rattle.lane_driver.specs.Stops.{IsLaneSettled};
ghost use Rattle.lane_driver.specs.Showing.{PortsShow, PortsTell, KeepsLanePorts};
ghost use Rattle.lane_driver.specs.Outcomes.{BatchResult};

use crate::batch::drive_batch;
use crate::fault::{BatchReport, LaneFault, lane_fault};
use crate::port::{LogPort, PortSet, Ports};
use crate::room::BatchRoom;
use cbdc_types::{CompactTx, LaneId, Shape};
use outside::Gate;
use std::marker::Model;

/// A batch of a lane, with all memory that its driver needs. Contracts see the shape of its ledger, its lane and its
/// transactions.
#[derive(Drop)]
pub struct Ready<'a> {
    pub(crate) shape: Shape,
    pub(crate) lane: LaneId,
    pub(crate) txs: &'a [CompactTx],
    pub(crate) room: BatchRoom,
}

impl<'a> Model for Ready<'a> {
    ghost use Rattle.lane_driver.specs.Readied.{ReadyOf, IsReadied};

    ghost Value = { ReadyOf };

    ghost view = { λ r. record { shape = r.shape; lane = r.lane; txs = r.txs.now } };

    ghost invariant = { λ r. IsReadied r.shape r.txs.now r.room };
}

impl<'a> Ready<'a> {
    /// Runs the batch at its lane, which is idle: 1 to `batch` transactions. With repeats, each shard call is made so many
    /// times more after its phase, and all its shard calls after it is done. It takes no memory of its own: it answers out of
    /// memory only where a node did, at the Prepare or at a Lock.
    ///
    /// Out of memory: where a node ran out of it, its coordinator at the Prepare or a shard at a Lock (`outcome`). Nothing of the batch stands at its
    /// coordinator and the shards then; or its Prepare does, and what the other shards answered to their Locks, and behind the Locks nothing was
    /// asked.
    pub fn go<S: PortSet<G>, L: LogPort, G: Gate>(
        self,
        ports: &mut Ports<S, L>,
        repeats: u32,
        gate: &G,
    ) -> Result<BatchReport, LaneFault>
        requires same { S.alone ≡ L.alone }
        requires at { L.at ports.old.log ≡ home_of self.shape self.lane }
        requires home { IsLane (L.header ports.old.log) self.lane }
        requires shape { (L.header ports.old.log).shape ≡ self.shape }
        requires idle { L.phase ports.old.log self.lane ≡ Idle }
        requires count { S.count ports.old.shards ≡ self.shape.shards }
        requires ledger { AreShardsOf self.shape (S.sights ports.old.shards) }
        requires mine { S.serves ports.old.shards self.lane }
        requires settled { PortsShow L.LogPort S.PortSet ports.old (IsLaneSettled self.shape self.lane) }
        requires size { HasSize self.shape self.txs }
        requires limits { All IsCompact self.txs }

        // It is done, or it stopped at a call, with that node's answer: out of memory only where the node was its coordinator at the Prepare, or a
        // shard at a Lock.
        ensures outcome { PortsTell L.LogPort S.PortSet ports.old ports.new
            (BatchResult self.entry.shape L.alone self.entry.lane self.entry.txs repeats result) }
        ensures idle { OnOk result (L.phase ports.new.log self.entry.lane ≡ Idle) }
        ensures keeps { KeepsLanePorts L.LogPort S.PortSet self.entry.lane ports.old ports.new }
        ensures report { IfOk result (λ r. (r.batch.lane ≡ self.entry.lane)
            × (length r.outcomes ≡ length self.entry.txs)) }
    {
        let Ready {
            shape,
            lane,
            txs,
            room,
        } = self;
        match drive_batch(&shape, lane, txs, room, ports, repeats, gate) {
            Ok(report) => Ok(report),
            Err(stop) => Err(lane_fault(stop)),
        }
    }
}

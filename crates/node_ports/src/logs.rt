// The coordinators of a ledger.
ghost use Rattle.std.specs.Prelude.{◌≡◌, ◌≢◌, ◌≤◌, ℕ, true, false, [], length, vec_capacity, All, IfOk, IfErr, OnOk};
ghost use Rattle.cbdc_model.specs.Grammar.{HasSize, IsCompact};
ghost use Rattle.cbdc_model.specs.Records.{txs_of, outcomes_of};
ghost use Rattle.cbdc_model.specs.Due.{open_batch, prepare_due, discard_due, done_due};
ghost use Rattle.cbdc_model.specs.Slots.{slot, Idle, InPrepare, InCommit, InDiscard};
ghost use Rattle.cbdc_model.specs.Sights.{Told};
ghost use Rattle.lane_laws.specs.Answers.{DecideAnswer};
ghost use Rattle.lane_driver.specs.Told.{IsLane, IsPreparedBatch, IsStamp, AreReplies, IsStillNode};
ghost use Rattle.lane_driver.specs.Causes.{IsDecideCause};
ghost use Rattle.node_journal.specs.Nodes.{sight};
ghost use Rattle.node_ports.specs.Nodes.{sight_at, KeepsRest, IsNodeHeld, AreNodesHeld};
ghost use Rattle.node_ports.specs.Moving.{DecidedMoves};

use cbdc_types::{
    BatchId, CompactTx, LaneId, NodeFault, NodeId, Outcome, RecordKind, Replies, Stamp,
};
use coord_log::CoordLog;
use lane_driver::LogPort;
use outside::{Disk, Gate, Point, When};
use std::sync::Wait;

/// The coordinators of a ledger for the lanes of one: the one at this place.
#[derive(Drop)]
pub struct NodeLogs<'r, W: Wait, D: Disk> {
    pub rt: &'r W,
    pub logs: Vec<CoordLog<D>>,
    pub at: u32,
}

impl<'r, W: Wait, D: Disk> NodeLogs<'r, W, D> {
    // Passes the gate at a call of a kind.
    fn pass<G: Gate>(&self, gate: &G, lane: LaneId, kind: RecordKind, when: When) {
        let node = NodeId(self.at);
        gate.pass(
            self.rt,
            &Point {
                lane,
                node,
                kind: kind as u8,
                when,
            },
        );
    }
}

/// Begins a batch of a coordinator's idle lane.
pub fn prepare_at<D: Disk>(
    log: &mut CoordLog<D>,
    lane: LaneId,
    txs: &[CompactTx],
) -> Result<(BatchId, Stamp), NodeFault>
    requires home { IsLane log.old.header lane }
    requires idle { (slot log.old.journal lane).phase ≡ Idle }
    requires size { HasSize log.old.header.shape txs.now }
    requires limits { All IsCompact txs.now }
    ensures told { Told true lane true (prepare_due log.old.header.shape log.old.capacity lane txs.now)
        (sight log.old) (sight log.new) result }
    ensures prepared { IfOk result (IsPreparedBatch log.old.header.shape lane) }
    ensures phase { OnOk result ((slot log.new.journal lane).phase ≡ InPrepare) }
    ensures txs { OnOk result (txs_of log.new.journal (open_batch log.new.journal lane) ≡ txs.now) }
    ensures others { KeepsRest (sight log.old) (sight log.new) lane }
    ensures node { IsStillNode (sight log.old) (sight log.new) }
    ensures later { log.old.faults ≤ log.new.faults }
    ensures holds { IsNodeHeld D.Disk log.old → IsNodeHeld D.Disk log.new }
{
    let _header = log.header();
    log.prepare(lane, txs)
}

/// Decides a coordinator's prepared batch.
pub fn decide_at<D: Disk>(
    log: &mut CoordLog<D>,
    lane: LaneId,
    replies: &Replies,
    out: &mut Vec<Outcome>,
) -> Result<Stamp, NodeFault>
    requires home { IsLane log.old.header lane }
    requires phase { (slot log.old.journal lane).phase ≡ InPrepare }
    requires replies { AreReplies log.old.header.shape replies.now }
    requires room { length (txs_of log.old.journal (open_batch log.old.journal lane)) ≤ vec_capacity out.old }
    ensures told { DecideAnswer true lane replies.now (sight log.old) (sight log.new) result }
    ensures fault { IfErr result (λ f. IsDecideCause f (sight log.new)) }
    ensures moves { DecidedMoves lane (sight log.old) (sight log.new) }
    ensures stamp { IfOk result IsStamp }
    ensures phase { OnOk result ((slot log.new.journal lane).phase ≡ InCommit) }
    ensures outcomes { OnOk result (length out.new.items
        ≡ length (txs_of log.old.journal (open_batch log.old.journal lane))) }
    ensures written { OnOk result (out.new.items
        ≡ outcomes_of log.new.journal (open_batch log.new.journal lane)) }
    ensures others { KeepsRest (sight log.old) (sight log.new) lane }
    ensures node { IsStillNode (sight log.old) (sight log.new) }
    ensures later { log.old.faults ≤ log.new.faults }
    ensures holds { IsNodeHeld D.Disk log.old → IsNodeHeld D.Disk log.new }
{
    let _header = log.header();
    let answer = log.decide(lane, replies, out);
    let _after = log.header();
    answer
}

/// Writes down that a coordinator's decided batch is applied.
pub fn discard_at<D: Disk>(
    log: &mut CoordLog<D>,
    lane: LaneId,
    cause: Stamp,
) -> Result<Stamp, NodeFault>
    requires home { IsLane log.old.header lane }
    requires phase { (slot log.old.journal lane).phase ≡ InCommit }
    requires cause { IsStamp cause }
    ensures told { Told true lane false (discard_due lane cause) (sight log.old) (sight log.new) result }
    ensures stamp { IfOk result IsStamp }
    ensures phase { OnOk result ((slot log.new.journal lane).phase ≡ InDiscard) }
    ensures others { KeepsRest (sight log.old) (sight log.new) lane }
    ensures node { IsStillNode (sight log.old) (sight log.new) }
    ensures later { log.old.faults ≤ log.new.faults }
    ensures holds { IsNodeHeld D.Disk log.old → IsNodeHeld D.Disk log.new }
{
    let _header = log.header();
    log.discard(lane, cause)
}

/// Writes down that a coordinator's batch is forgotten.
pub fn done_at<D: Disk>(
    log: &mut CoordLog<D>,
    lane: LaneId,
    cause: Stamp,
) -> Result<Stamp, NodeFault>
    requires home { IsLane log.old.header lane }
    requires phase { (slot log.old.journal lane).phase ≡ InDiscard }
    requires cause { IsStamp cause }
    ensures told { Told true lane false (done_due lane cause) (sight log.old) (sight log.new) result }
    ensures stamp { IfOk result IsStamp }
    ensures phase { OnOk result ((slot log.new.journal lane).phase ≡ Idle) }
    ensures others { KeepsRest (sight log.old) (sight log.new) lane }
    ensures node { IsStillNode (sight log.old) (sight log.new) }
    ensures later { log.old.faults ≤ log.new.faults }
    ensures holds { IsNodeHeld D.Disk log.old → IsNodeHeld D.Disk log.new }
{
    let _header = log.header();
    log.done(lane, cause)
}

impl<'r, W: Wait, D: Disk> LogPort for NodeLogs<'r, W, D> {
    ghost sights = { λ p n. sight_at sight p.logs.items n };

    ghost at = { λ p. p.at };

    ghost alone = { true };

    ghost header = { λ p. (sight_at sight p.logs.items p.at).header };

    ghost phase = { λ p lane. (slot (sight_at sight p.logs.items p.at).seen lane).phase };

    ghost open_txs = { λ p lane. txs_of (sight_at sight p.logs.items p.at).seen (open_batch (sight_at sight p.logs.items p.at).seen lane) };

    ghost count = { λ p. length p.logs.items };

    ghost faults = { λ p n. (sight_at sight p.logs.items n).faults };

    ghost holds = { λ p. AreNodesHeld D.Disk p.logs.items };

    fn prepare<G: Gate>(
        &mut self,
        lane: LaneId,
        txs: &[CompactTx],
        gate: &G,
    ) -> Result<(BatchId, Stamp), NodeFault> {
        self.pass(gate, lane, RecordKind::Prepare, When::Before);
        self.pass(gate, lane, RecordKind::Prepare, When::Inside);
        let answer = prepare_at(&mut self.logs[self.at as usize], lane, txs);
        self.pass(gate, lane, RecordKind::Prepare, When::After);
        answer
    }

    fn decide<G: Gate>(
        &mut self,
        lane: LaneId,
        replies: &Replies,
        out: &mut Vec<Outcome>,
        gate: &G,
    ) -> Result<Stamp, NodeFault> {
        self.pass(gate, lane, RecordKind::Commit, When::Before);
        self.pass(gate, lane, RecordKind::Commit, When::Inside);
        let answer = decide_at(&mut self.logs[self.at as usize], lane, replies, out);
        self.pass(gate, lane, RecordKind::Commit, When::After);
        answer
    }

    fn discard<G: Gate>(
        &mut self,
        lane: LaneId,
        cause: Stamp,
        gate: &G,
    ) -> Result<Stamp, NodeFault> {
        self.pass(gate, lane, RecordKind::Discard, When::Before);
        self.pass(gate, lane, RecordKind::Discard, When::Inside);
        let answer = discard_at(&mut self.logs[self.at as usize], lane, cause);
        self.pass(gate, lane, RecordKind::Discard, When::After);
        answer
    }

    fn done<G: Gate>(&mut self, lane: LaneId, cause: Stamp, gate: &G) -> Result<Stamp, NodeFault> {
        self.pass(gate, lane, RecordKind::Done, When::Before);
        self.pass(gate, lane, RecordKind::Done, When::Inside);
        let answer = done_at(&mut self.logs[self.at as usize], lane, cause);
        self.pass(gate, lane, RecordKind::Done, When::After);
        answer
    }
}

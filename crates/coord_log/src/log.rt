// The calls at a coordinator.
ghost use Rattle.std.specs.Prelude.{◌≡◌, ◌⊎◌, ◌↔◌, IsTrue, IsSome, ◌+◌, ◌≤◌, ◌<◌, ◌^◌, ◌∷◌, None, Some, true, false, length, reverse, vec_capacity, All, OnOk, OnErr, IfOk, IfErr, IfSome};
ghost use Rattle.cbdc_model.specs.Records.{Record, Prepare, Commit, Discard, Done, is_in_lane, txs_of};
ghost use Rattle.cbdc_model.specs.After.{After, IsJournal};
ghost use Rattle.cbdc_model.specs.Slots.{slot, Idle, InPrepare, InCommit, InDiscard};
ghost use Rattle.cbdc_model.specs.Due.{open_batch, prepare_due, decide_due, discard_due, done_due};
ghost use Rattle.cbdc_model.specs.Sights.{Meets, MeetsFault};
ghost use Rattle.coord_core.specs.Phases.{slot_of};
ghost use Rattle.coord_core.specs.Hashes.{AllNameBatches};
ghost use Rattle.coord_core.specs.Decided.{ShardsRise, StampsBelow, AreRepliesTo};
ghost use Rattle.coord_core.specs.Lanes.{IsOwnLane};
ghost use Rattle.coord_log.specs.Logs.{HasShortLists, commit_due};
ghost use Rattle.node_journal.specs.Nodes.{sight};
ghost use Rattle.node_journal.specs.Answered.{KeepsNode, HasAnswered};
ghost use Rattle.node_journal.specs.Sound.{IsSoundNode};
ghost use Rattle.coord_log.specs.OpenLanes.{open_lane};

use crate::copying::{outcomes_of, stamp_of, tell, txs_of};
use crate::writing::{make_room, write_due};
use cbdc_types::{
    BatchId, CompactTx, Header, LaneId, NodeFault, OpenLane, Outcome, Phase, Record, Replies, Stamp,
};
use coord_core::{CoordCore, LanePhase};
use node_journal::Node;
use outside::Disk;
use record_log::size_of_record;
use std::alloc::{AllocError, Global};
use std::marker::Model;

/// The last stamp of a Prepare.
const LAST_PREPARE: u64 = 1 << 62;

/// The last stamp of a Commit, a Discard or a Done.
const LAST_STAMP: u64 = (1 << 62) + (1 << 20);

/// A coordinator on its disk. Contracts see of it what they see of any node (`NodeOf`).
#[derive(Drop)]
pub struct CoordLog<D: Disk> {
    alloc: Global,
    node: Node<CoordCore, D>,
}

impl<D: Disk> Model for CoordLog<D> {
    ghost use Rattle.node_journal.specs.Nodes.{NodeOf};
    ghost use Rattle.node_journal.specs.Sound.{view_of};
    ghost use Rattle.coord_log.specs.Inside.{IsCoordSound};

    ghost Value = { NodeOf D };

    ghost view = { λ l. view_of l.node };

    ghost invariant = { λ l. IsCoordSound l.node };
}

impl<D: Disk> CoordLog<D> {
    ghost use Rattle.node_journal.specs.Sound.{view_of};
    ghost use Rattle.coord_log.specs.Inside.{IsCoordSound};

    /// The header of its journal. Takes no memory.
    pub fn header(&self) -> &Header
        ensures header { result.now ≡ self.now.header }

        // Its count of faults, what is in flight and the room of its journal are sound.
        ensures sound { IsSoundNode D.Disk self.now }
    {
        let _core = self.node.core.header();
        &self.node.log.header
    }

    /// Whether an append has failed since it was opened: its record is in flight. Takes no memory.
    pub fn is_broken(&self) -> bool
        ensures { IsTrue result ↔ IsSome self.now.flight }
    {
        self.node.flight.is_some()
    }

    /// Its records, the newest last. Takes no memory.
    pub fn records(&self) -> &[Record]
        ensures records { reverse result.now ≡ self.now.journal }
        ensures journal { IsJournal self.now.header self.now.journal }

        // A record in flight may come next.
        ensures flying { IfSome self.now.flight (After self.now.header self.now.journal) }
    {
        self.node.log.records.as_slice()
    }

    /// Gives the disk back. Takes no memory.
    pub fn into_disk(self) -> D
        ensures { result ≡ self.disk }
    {
        let CoordLog { alloc: _, node } = self;
        let Node {
            log,
            core: _,
            opened: _,
            flight: _,
        } = node;
        log.into_disk()
    }

    /// Where a lane stands. One of another coordinator has no batch here. Takes no memory.
    pub fn phase(&self, lane: LaneId) -> LanePhase
        ensures { slot_of result ≡ slot self.now.journal lane }
    {
        self.node.core.phase(lane)
    }

    /// Begins a batch of 1 to `batch` transactions on an idle lane of this coordinator. The room and the memory for
    /// its later records are taken here.
    ///
    /// Out of memory: before its first write; the coordinator's journal is as before.
    pub fn prepare(
        &mut self,
        lane: LaneId,
        txs: &[CompactTx],
    ) -> Result<(BatchId, Stamp), NodeFault>
        requires own { IsOwnLane self.old.header lane }
        requires idle { (slot self.old.journal lane).phase ≡ Idle }
        requires some { 1 ≤ length txs.now }
        requires limit { length txs.now ≤ self.old.header.shape.batch }
        requires short { All HasShortLists txs.now }

        // It does what the journal says, or wants memory.
        ensures { HasAnswered D.Disk true
            (prepare_due self.old.header.shape self.old.capacity lane txs.now
            self.old.broken self.old.journal) self.old self.new result }
    {
        match self.node.log.is_broken() {
            Some(since) => return Err(NodeFault::Broken { since }),
            None => {}
        }
        let Ok(next) = self.node.core.prepare(lane, txs) else {
            return Err(NodeFault::Memory);
        };
        let Record::Prepare { stamp, batch, .. } = &next else {
            unreachable!()
        };
        let stamp = *stamp;
        let batch = *batch;
        if stamp.0 > LAST_PREPARE {
            return Err(NodeFault::ClockEnd { stamp });
        }
        match make_room(
            &mut self.node.log,
            &self.node.core,
            size_of_record(&next),
            txs.len(),
        ) {
            Ok(()) => {}
            Err(fault) => return Err(fault),
        }
        match write_due(&mut self.node, next) {
            Ok(()) => {}
            Err(fault) => return Err(fault),
        }
        Ok((batch, stamp))
    }

    /// Decides a lane's prepared batch by the replies of each shard that it concerns, as many as its part has
    /// entries, and puts the outcomes in place of what a vector holds that has room for them. Takes no memory.
    ///
    /// Out of memory: never.
    pub fn decide(
        &mut self,
        lane: LaneId,
        replies: &Replies,
        out: &mut Vec<Outcome>,
    ) -> Result<Stamp, NodeFault>
        requires own { IsOwnLane self.old.header lane }
        requires prepared { (slot self.old.journal lane).phase ≡ InPrepare }
        requires rising { ShardsRise 0 self.old.header.shape.shards replies.now }
        requires earlier { StampsBelow (2 ^ 63) replies.now }
        requires named { AllNameBatches self.old.header.shape replies.now }
        requires room { length (txs_of self.old.journal (open_batch self.old.journal lane))
            ≤ vec_capacity out.old }

        // It does what the journal and the replies say, if each shard replied to its part.
        ensures meets { AreRepliesTo self.old.header.shape
            (txs_of self.old.journal (open_batch self.old.journal lane)) replies.now
            → Meets false (decide_due self.old.header.shape lane replies.now self.old.broken self.old.journal)
            (sight self.old) (sight self.new) self.old.journal result }
        // Whatever they replied, a fault is its disk's, or has its cause in the stamp that follows theirs.
        ensures fault { IfErr result (λ f. (r : Record) × MeetsFault false
            (commit_due self.old.header.shape replies.now r self.old.broken self.old.journal)
            (sight self.old) (sight self.new) self.old.journal f) }
        ensures as_before { OnErr result (self.new.journal ≡ self.old.journal) }
        // A record that it leaves in flight is of the lane.
        ensures own { IfSome self.new.flight (λ r. (self.old.flight ≡ Some r) ⊎ (is_in_lane lane r ≡ true)) }
        ensures whole { OnOk result (self.old.broken ≡ None) }
        ensures appended { IfOk result (λ t.
            self.new.journal ≡ Commit t (open_batch self.old.journal lane) out.new.items ∷ self.old.journal) }
        ensures bound { IfOk result (λ t. t ≤ 2 ^ 62 + 2 ^ 20) }
        ensures count { OnOk result (length out.new.items
            ≡ length (txs_of self.old.journal (open_batch self.old.journal lane))) }
        ensures keeps { KeepsNode D.Disk self.old self.new result }
    {
        match self.node.log.is_broken() {
            Some(since) => return Err(NodeFault::Broken { since }),
            None => {}
        }
        let stamp = self.node.core.commit_stamp(replies);
        if stamp.0 > LAST_STAMP {
            return Err(NodeFault::ClockEnd { stamp });
        }
        let next = self.node.core.decide(lane, replies);
        tell(&next, out);
        match write_due(&mut self.node, next) {
            Ok(()) => {}
            Err(fault) => return Err(fault),
        }
        Ok(stamp)
    }

    /// Discards a lane's committed batch, once it is applied at each shard. The cause is the greatest stamp of its
    /// Finishes. Takes no memory.
    ///
    /// Out of memory: never.
    pub fn discard(&mut self, lane: LaneId, cause: Stamp) -> Result<Stamp, NodeFault>
        requires own { IsOwnLane self.old.header lane }
        requires committed { (slot self.old.journal lane).phase ≡ InCommit }
        requires cause { cause < 2 ^ 63 }
        ensures { HasAnswered D.Disk false
            (discard_due lane cause self.old.broken self.old.journal)
            self.old self.new result }
    {
        match self.node.log.is_broken() {
            Some(since) => return Err(NodeFault::Broken { since }),
            None => {}
        }
        let stamp = self.node.core.after(cause);
        if stamp.0 > LAST_STAMP {
            return Err(NodeFault::ClockEnd { stamp });
        }
        let next = self.node.core.discard(lane, cause);
        match write_due(&mut self.node, next) {
            Ok(()) => {}
            Err(fault) => return Err(fault),
        }
        Ok(stamp)
    }

    /// Ends a lane's discarded batch, once each shard has forgotten it. The cause is the greatest stamp of its
    /// Forgets. Takes no memory.
    ///
    /// Out of memory: never.
    pub fn done(&mut self, lane: LaneId, cause: Stamp) -> Result<Stamp, NodeFault>
        requires own { IsOwnLane self.old.header lane }
        requires discarded { (slot self.old.journal lane).phase ≡ InDiscard }
        requires cause { cause < 2 ^ 63 }
        ensures { HasAnswered D.Disk false
            (done_due lane cause self.old.broken self.old.journal)
            self.old self.new result }
    {
        match self.node.log.is_broken() {
            Some(since) => return Err(NodeFault::Broken { since }),
            None => {}
        }
        let stamp = self.node.core.after(cause);
        if stamp.0 > LAST_STAMP {
            return Err(NodeFault::ClockEnd { stamp });
        }
        let next = self.node.core.done(lane, cause);
        match write_due(&mut self.node, next) {
            Ok(()) => {}
            Err(fault) => return Err(fault),
        }
        Ok(stamp)
    }

    /// A copy of a lane's open batch, as its records hold it. None where the lane is idle, or another coordinator's.
    pub fn open_lane(&self, lane: LaneId) -> Result<Option<OpenLane>, AllocError>
        ensures { IfOk result (λ o. o ≡ open_lane self.now.journal lane) }
    {
        let (number, phase) = match self.phase(lane) {
            LanePhase::Idle(_) => return Ok(None),
            LanePhase::Prepared(n) => (n, Phase::Prepared),
            LanePhase::Committed(n) => (n, Phase::Committed),
            LanePhase::Discarded(n) => (n, Phase::Discarded),
        };
        let batch = BatchId { lane, number };
        let records = self.node.log.records.as_slice();
        let txs = txs_of(self.alloc, records, &batch)?;
        let outcomes = outcomes_of(self.alloc, records, &batch)?;
        Ok(Some(OpenLane {
            batch,
            phase,
            stamp: stamp_of(records, lane),
            txs,
            outcomes,
        }))
    }

    pub(crate) fn of_parts(alloc: Global, node: Node<CoordCore, D>) -> CoordLog<D>
        requires { IsCoordSound node }
        ensures { result ≡ view_of node }
    {
        CoordLog { alloc, node }
    }
}

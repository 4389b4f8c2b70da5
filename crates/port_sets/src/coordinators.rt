// A coordinator that lanes share.
ghost use Rattle.std.specs.Prelude.{◌≡◌, ◌↔◌, ◌≤◌, ℕ, true, false, List, length, reverse, vec_capacity, IsTrue, IsSome, All};
ghost use Rattle.cbdc_model.specs.Grammar.{HasSize, IsCompact};
ghost use Rattle.cbdc_model.specs.Slots.{slot, Idle, InPrepare, InCommit, InDiscard};
ghost use Rattle.lane_driver.specs.Told.{IsLane, IsStamp, AreReplies};
ghost use Rattle.node_journal.specs.Nodes.{sight as log_sight};
ghost use Rattle.node_ports.specs.Nodes.{IsNodeHeld};
ghost use Rattle.node_lock.specs.Moving.{Moves};
ghost use Rattle.port_sets.specs.Giving.{NodeGives};
ghost use Rattle.port_sets.specs.Logs.{log_call_lane, txs_at, log_may_be_asked, log_gives, Decides, prepare_owed, discard_owed, done_owed, good_prepare, good_discard, good_done};
ghost use Rattle.port_sets.specs.Asking.{still_asked};

use cbdc_types::{BatchId, CompactTx, LaneId, NodeFault, Outcome, Replies, Stamp};
use coord_log::CoordLog;
use node_lock::{Node, Sighted};
use node_ports::{decide_at, discard_at, done_at, prepare_at};
use outside::Disk;
use std::mem;

/// A coordinator under a lock.
#[derive(Drop)]
pub struct SharedLog<D: Disk> {
    pub node: CoordLog<D>,
}

/// A call at a coordinator. A decision fills in its outcomes.
#[derive(Drop)]
pub enum LogCall<'c> {
    Prepare(LaneId, &'c [CompactTx]),
    Decide(LaneId, &'c Replies, &'c mut Vec<Outcome>),
    Discard(LaneId, Stamp),
    Done(LaneId, Stamp),
}

/// The answer to it.
#[derive(Drop)]
pub enum LogReply {
    Prepared(Result<(BatchId, Stamp), NodeFault>),
    Stamped(Result<Stamp, NodeFault>),
}

// The four calls, as a lock asks of them.
fn prepare<D: Disk>(
    log: &mut CoordLog<D>,
    lane: LaneId,
    txs: &[CompactTx],
) -> Result<(BatchId, Stamp), NodeFault>
    requires home { IsLane log.old.header lane }
    requires idle { (slot log.old.journal lane).phase ≡ Idle }
    requires size { HasSize log.old.header.shape txs.now }
    requires limits { All IsCompact txs.now }
    ensures gives { NodeGives lane true (prepare_owed lane txs.now)
        (good_prepare lane txs.now) (log_sight log.old) (log_sight log.new) result }
    ensures moves { Moves lane (log_sight log.old) (log_sight log.new) }
    ensures goes { IsNodeHeld D.Disk log.old → IsNodeHeld D.Disk log.new }
{
    let _records = log.records();
    prepare_at(log, lane, txs)
}

fn decide<D: Disk>(
    log: &mut CoordLog<D>,
    lane: LaneId,
    replies: &Replies,
    out: &mut Vec<Outcome>,
) -> Result<Stamp, NodeFault>
    requires home { IsLane log.old.header lane }
    requires phase { (slot log.old.journal lane).phase ≡ InPrepare }
    requires replies { AreReplies log.old.header.shape replies.now }
    requires room { length (txs_at log.old.journal lane) ≤ vec_capacity out.old }
    ensures gives { Decides lane replies.now (log_sight log.old) (log_sight log.new) out.new.items result }
    ensures moves { Moves lane (log_sight log.old) (log_sight log.new) }
    ensures goes { IsNodeHeld D.Disk log.old → IsNodeHeld D.Disk log.new }
{
    let _records = log.records();
    decide_at(log, lane, replies, out)
}

fn discard<D: Disk>(log: &mut CoordLog<D>, lane: LaneId, cause: Stamp) -> Result<Stamp, NodeFault>
    requires home { IsLane log.old.header lane }
    requires phase { (slot log.old.journal lane).phase ≡ InCommit }
    requires cause { IsStamp cause }
    ensures gives { NodeGives lane false
        (discard_owed lane cause) (good_discard lane) (log_sight log.old) (log_sight log.new) result }
    ensures moves { Moves lane (log_sight log.old) (log_sight log.new) }
    ensures goes { IsNodeHeld D.Disk log.old → IsNodeHeld D.Disk log.new }
{
    let _records = log.records();
    discard_at(log, lane, cause)
}

fn done<D: Disk>(log: &mut CoordLog<D>, lane: LaneId, cause: Stamp) -> Result<Stamp, NodeFault>
    requires home { IsLane log.old.header lane }
    requires phase { (slot log.old.journal lane).phase ≡ InDiscard }
    requires cause { IsStamp cause }
    ensures gives { NodeGives lane false
        (done_owed lane cause) (good_done lane) (log_sight log.old) (log_sight log.new) result }
    ensures moves { Moves lane (log_sight log.old) (log_sight log.new) }
    ensures goes { IsNodeHeld D.Disk log.old → IsNodeHeld D.Disk log.new }
{
    let _records = log.records();
    done_at(log, lane, cause)
}

impl<D: Disk> Sighted for SharedLog<D> {
    ghost sight = { λ n. log_sight n.node };

    ghost goes = { λ a b. IsNodeHeld D.Disk a.node → IsNodeHeld D.Disk b.node };

    fn count(&self) -> usize {
        self.node.records().len()
    }

    fn is_stuck(&self) -> bool {
        self.node.is_broken()
    }

    ghost same = { λ n h. h };

    ghost behind = { λ a b c f g h. g (f h) };
}

impl<'c, D: Disk> Node<'c> for SharedLog<D> {
    type Call = LogCall<'c>;

    type Reply = LogReply;

    ghost lane = { log_call_lane };

    ghost allowed = { log_may_be_asked };

    ghost gives = { log_gives };

    fn step(&mut self, call: &mut LogCall<'c>) -> LogReply {
        match call {
            LogCall::Prepare(lane, txs) => LogReply::Prepared(prepare(&mut self.node, *lane, *txs)),
            LogCall::Decide(lane, replies, out) => {
                let empty = Vec::new(*out.allocator());
                let mut held = mem::replace(*out, empty);
                let answer = decide(&mut self.node, *lane, *replies, &mut held);
                **out = held;
                LogReply::Stamped(answer)
            }
            LogCall::Discard(lane, cause) => LogReply::Stamped(discard(
                &mut self.node,
                *lane,
                *cause,
            )),
            LogCall::Done(lane, cause) => LogReply::Stamped(done(&mut self.node, *lane, *cause)),
        }
    }

    ghost others = { still_asked };
}

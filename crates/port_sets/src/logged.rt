// A coordinator through a seat.
ghost use Rattle.std.specs.Prelude.{◌≡◌, ◌≤◌, ◌==◌, ℕ, Bool, true, false, if◌then◌else◌, IfOk, All};
ghost use Rattle.cbdc_model.specs.Records.{txs_of};
ghost use Rattle.cbdc_model.specs.Slots.{Phase, slot, InLock};
ghost use Rattle.cbdc_model.specs.Due.{open_batch};
ghost use Rattle.node_lock.specs.Seats.{knows, first_of, opening_of, table_of, IsSeatOf};
ghost use Rattle.port_sets.specs.Nodes.{log_sight};
ghost use Rattle.port_sets.specs.Seated.{seat_sight, seen_at, seat_phase};

use crate::coordinators::{LogCall, LogReply, SharedLog};
use crate::tables::Locks;
use cbdc_types::{
    BatchId, CompactTx, LaneId, NodeFault, NodeId, Outcome, RecordKind, Replies, Stamp,
};
use lane_driver::LogPort;
use node_lock::{Guarded, Seat};
use outside::{Disk, Gate, Point, When};
use std::marker::PhantomData;
use std::sync::Wait;

/// A lane's coordinator, that its other lanes ask too.
pub struct LogSeat<'a, W: Wait, D: Disk, B: Locks> {
    pub rt: &'a W,
    pub node: NodeId,
    pub guarded: &'a Guarded<SharedLog<D>>,
    pub seat: Seat<SharedLog<D>>,
    pub of: PhantomData<B>,
    pub ghost own: { IsSeatOf guarded.now seat },
    pub ghost since: { (log_sight (opening_of guarded.now)).opened ≤ (knows seat).faults },
}

impl<'a, W: Wait, D: Disk, B: Locks> LogSeat<'a, W, D, B> {
    fn at(&self, kind: RecordKind) -> Point {
        Point {
            lane: self.seat.lane(),
            node: self.node,
            kind: kind as u8,
            when: When::Before,
        }
    }
}

impl<'a, W: Wait, D: Disk, B: Locks> LogPort for LogSeat<'a, W, D, B> {
    ghost sights = { λ p n. seen_at p.node (seat_sight log_sight p.seat) n };

    ghost at = { λ p. p.node };

    ghost alone = { false };

    ghost header = { λ p. (seat_sight log_sight p.seat).header };

    ghost phase = { λ p lane. seat_phase (knows p.seat).lane (seat_sight log_sight p.seat) lane };

    ghost open_txs = { λ p lane. txs_of (knows p.seat).seen (open_batch (knows p.seat).seen lane) };

    ghost count = { λ p. (knows p.seat).lane };

    ghost faults = { λ p n. (knows p.seat).faults };

    ghost holds = { λ p. table_of p.guarded.now ≡ B.tables p.node };

    fn prepare<G: Gate>(
        &mut self,
        lane: LaneId,
        txs: &[CompactTx],
        gate: &G,
    ) -> Result<(BatchId, Stamp), NodeFault> {
        let at = self.at(RecordKind::Prepare);
        let mut made = LogCall::Prepare(lane, txs);
        match self
            .guarded
            .call(self.rt, &mut self.seat, &mut made, gate, &at)
        {
            LogReply::Prepared(answer) => answer,
            LogReply::Stamped(_) => unreachable!(),
        }
    }

    fn decide<G: Gate>(
        &mut self,
        lane: LaneId,
        replies: &Replies,
        out: &mut Vec<Outcome>,
        gate: &G,
    ) -> Result<Stamp, NodeFault> {
        let at = self.at(RecordKind::Commit);
        let mut made = LogCall::Decide(lane, replies, out);
        let answer = match self
            .guarded
            .call(self.rt, &mut self.seat, &mut made, gate, &at)
        {
            LogReply::Stamped(answer) => answer,
            LogReply::Prepared(_) => unreachable!(),
        };
        match made {
            LogCall::Decide(_, _, _out) => {}
            _ => unreachable!(),
        }
        answer
    }

    fn discard<G: Gate>(
        &mut self,
        lane: LaneId,
        cause: Stamp,
        gate: &G,
    ) -> Result<Stamp, NodeFault> {
        let at = self.at(RecordKind::Discard);
        let mut made = LogCall::Discard(lane, cause);
        match self
            .guarded
            .call(self.rt, &mut self.seat, &mut made, gate, &at)
        {
            LogReply::Stamped(answer) => answer,
            LogReply::Prepared(_) => unreachable!(),
        }
    }

    fn done<G: Gate>(&mut self, lane: LaneId, cause: Stamp, gate: &G) -> Result<Stamp, NodeFault> {
        let at = self.at(RecordKind::Done);
        let mut made = LogCall::Done(lane, cause);
        match self
            .guarded
            .call(self.rt, &mut self.seat, &mut made, gate, &at)
        {
            LogReply::Stamped(answer) => answer,
            LogReply::Prepared(_) => unreachable!(),
        }
    }
}

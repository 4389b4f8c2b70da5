// A shard through a seat.
ghost use Rattle.std.specs.Prelude.{◌≡◌, false};
ghost use Rattle.node_lock.specs.Seats.{knows, table_of, IsSeatOf};
ghost use Rattle.port_sets.specs.Nodes.{shard_sight};
ghost use Rattle.port_sets.specs.Seated.{seat_sight, Serves};

use crate::locking::{ShardCall, ShardReply, SharedShard};
use crate::nodes::Shard;
use crate::tables::Locks;
use cbdc_types::{FinishCall, ForgetCall, LockCall, NodeFault, NodeId, RecordKind, Replied, Stamp};
use lane_driver::ShardPort;
use node_lock::{Guarded, Seat};
use outside::{Gate, Point, When};
use std::marker::PhantomData;
use std::sync::Wait;

/// A shard that other lanes ask too, for the lane of a seat.
#[derive(Drop)]
pub struct ShardSeat<'a, W: Wait, S: Shard, B: Locks> {
    pub rt: &'a W,
    pub node: NodeId,
    pub guarded: &'a Guarded<SharedShard<S>>,
    pub seat: Seat<SharedShard<S>>,
    pub of: PhantomData<B>,
    pub ghost own: { IsSeatOf guarded.now seat },
}

impl<'a, W: Wait, S: Shard, B: Locks> ShardSeat<'a, W, S, B> {
    fn at(&self, kind: RecordKind) -> Point {
        Point {
            lane: self.seat.lane(),
            node: self.node,
            kind: kind as u8,
            when: When::Before,
        }
    }
}

impl<'a, W: Wait, S: Shard, B: Locks> ShardPort for ShardSeat<'a, W, S, B> {
    ghost sight = { λ p. seat_sight (shard_sight S.sight) p.seat };

    ghost at = { λ p. p.guarded.now.table.shared.table_id.words };

    ghost alone = { false };

    ghost faults = { λ p. (knows p.seat).faults };

    ghost holds = { λ p. table_of p.guarded.now ≡ B.tables (seat_sight (shard_sight S.sight) p.seat).header.node };

    ghost serves = { λ p lane. Serves (shard_sight S.sight) p.guarded.now p.seat lane };

    fn lock<G: Gate>(&mut self, call: &LockCall, gate: &G) -> Result<Replied, NodeFault> {
        let at = self.at(RecordKind::Lock);
        let mut made = ShardCall::Lock(call);
        match self
            .guarded
            .call(self.rt, &mut self.seat, &mut made, gate, &at)
        {
            ShardReply::Locked(answer) => answer,
            ShardReply::Stamped(_) => unreachable!(),
        }
    }

    fn finish<G: Gate>(&mut self, call: &FinishCall, gate: &G) -> Result<Stamp, NodeFault> {
        let at = self.at(RecordKind::Finish);
        let mut made = ShardCall::Finish(call);
        match self
            .guarded
            .call(self.rt, &mut self.seat, &mut made, gate, &at)
        {
            ShardReply::Stamped(answer) => answer,
            ShardReply::Locked(_) => unreachable!(),
        }
    }

    fn forget<G: Gate>(&mut self, call: &ForgetCall, gate: &G) -> Result<Stamp, NodeFault> {
        let at = self.at(RecordKind::Forget);
        let mut made = ShardCall::Forget(call);
        match self
            .guarded
            .call(self.rt, &mut self.seat, &mut made, gate, &at)
        {
            ShardReply::Stamped(answer) => answer,
            ShardReply::Locked(_) => unreachable!(),
        }
    }
}

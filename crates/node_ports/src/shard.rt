// One shard of a ledger.
ghost use Rattle.std.specs.Prelude.{◌≤◌, true, false, IfOk, All};
ghost use Rattle.cbdc_model.specs.Calls.{IsLockCall, IsFinishCall, IsForgetCall};
ghost use Rattle.cbdc_model.specs.Grammar.{IsReply};
ghost use Rattle.cbdc_model.specs.Due.{lock_due, finish_due, forget_due};
ghost use Rattle.cbdc_model.specs.Sights.{Told};
ghost use Rattle.lane_driver.specs.Told.{IsStamp, IsStillNode};
ghost use Rattle.node_journal.specs.Nodes.{sight};
ghost use Rattle.node_ports.specs.Nodes.{IsNodeHeld};

use cbdc_types::{
    FinishCall, ForgetCall, LaneId, LockCall, NodeFault, NodeId, RecordKind, Replied, Stamp,
};
use lane_driver::ShardPort;
use outside::{Disk, Gate, Point, When};
use shard_node::ShardNode;
use std::sync::Wait;

/// One shard of a ledger for one lane, over its node, which it is lent.
#[derive(Drop)]
pub struct NodeShard<'r, 'n, W: Wait, D: Disk> {
    pub rt: &'r W,
    pub lane: LaneId,
    pub node: NodeId,
    pub shard: &'n mut ShardNode<D>,
}

/// Locks a part for a batch at a shard, by what is seen of it.
pub fn lock_at<D: Disk>(node: &mut ShardNode<D>, call: &LockCall) -> Result<Replied, NodeFault>
    requires { IsLockCall node.old.header call.now }
    ensures answer { Told true call.now.batch.lane true
        (lock_due node.old.header.shape node.old.capacity call.now) (sight node.old) (sight node.new) result }
    ensures told { IfOk result (λ a. IsStamp a.stamp × All (IsReply node.old.header.shape) a.replies) }
    ensures node { IsStillNode (sight node.old) (sight node.new) }
    ensures later { node.old.faults ≤ node.new.faults }
    ensures holds { IsNodeHeld D.Disk node.old → IsNodeHeld D.Disk node.new }
{
    let _header = node.header();
    node.lock(call)
}

/// Applies a locked batch at a shard, by what is seen of it.
pub fn finish_at<D: Disk>(node: &mut ShardNode<D>, call: &FinishCall) -> Result<Stamp, NodeFault>
    requires { IsFinishCall node.old.header call.now }
    ensures answer { Told true call.now.batch.lane false
        (finish_due call.now) (sight node.old) (sight node.new) result }
    ensures told { IfOk result IsStamp }
    ensures node { IsStillNode (sight node.old) (sight node.new) }
    ensures later { node.old.faults ≤ node.new.faults }
    ensures holds { IsNodeHeld D.Disk node.old → IsNodeHeld D.Disk node.new }
{
    let _header = node.header();
    node.finish(call)
}

/// Forgets an applied batch at a shard, by what is seen of it.
pub fn forget_at<D: Disk>(node: &mut ShardNode<D>, call: &ForgetCall) -> Result<Stamp, NodeFault>
    requires { IsForgetCall node.old.header call.now }
    ensures answer { Told true call.now.batch.lane false
        (forget_due call.now) (sight node.old) (sight node.new) result }
    ensures told { IfOk result IsStamp }
    ensures node { IsStillNode (sight node.old) (sight node.new) }
    ensures later { node.old.faults ≤ node.new.faults }
    ensures holds { IsNodeHeld D.Disk node.old → IsNodeHeld D.Disk node.new }
{
    let _header = node.header();
    node.forget(call)
}

impl<'r, 'n, W: Wait, D: Disk> NodeShard<'r, 'n, W, D> {
    // Passes the gate at a call of a kind.
    fn pass<G: Gate>(&self, gate: &G, kind: RecordKind, when: When) {
        gate.pass(
            self.rt,
            &Point {
                lane: self.lane,
                node: self.node,
                kind: kind as u8,
                when,
            },
        );
    }
}

impl<'r, 'n, W: Wait, D: Disk> ShardPort for NodeShard<'r, 'n, W, D> {
    ghost sight = { λ p. sight p.shard.now };

    ghost at = { λ p. p.shard.ghost_name };

    ghost alone = { true };

    ghost faults = { λ p. p.shard.now.faults };

    ghost holds = { λ p. IsNodeHeld D.Disk p.shard.now };

    ghost serves = { λ p l. Unit {0} };

    fn lock<G: Gate>(&mut self, call: &LockCall, gate: &G) -> Result<Replied, NodeFault> {
        self.pass(gate, RecordKind::Lock, When::Before);
        self.pass(gate, RecordKind::Lock, When::Inside);
        let answer = lock_at(self.shard, call);
        self.pass(gate, RecordKind::Lock, When::After);
        answer
    }

    fn finish<G: Gate>(&mut self, call: &FinishCall, gate: &G) -> Result<Stamp, NodeFault> {
        self.pass(gate, RecordKind::Finish, When::Before);
        self.pass(gate, RecordKind::Finish, When::Inside);
        let answer = finish_at(self.shard, call);
        self.pass(gate, RecordKind::Finish, When::After);
        answer
    }

    fn forget<G: Gate>(&mut self, call: &ForgetCall, gate: &G) -> Result<Stamp, NodeFault> {
        self.pass(gate, RecordKind::Forget, When::Before);
        self.pass(gate, RecordKind::Forget, When::Inside);
        let answer = forget_at(self.shard, call);
        self.pass(gate, RecordKind::Forget, When::After);
        answer
    }
}

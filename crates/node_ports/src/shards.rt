// The shards of a ledger.
ghost use Rattle.std.specs.Prelude.{◌≡◌, ◌≢◌, ◌≤◌, ◌<◌, ℕ, true, false, length, IfOk, All};
ghost use Rattle.cbdc_model.specs.Calls.{IsLockCall, IsFinishCall, IsForgetCall};
ghost use Rattle.cbdc_model.specs.Grammar.{IsReply};
ghost use Rattle.cbdc_model.specs.Due.{lock_due, finish_due, forget_due};
ghost use Rattle.cbdc_model.specs.Sights.{Told};
ghost use Rattle.lane_driver.specs.Told.{IsStamp, KeepNodes};
ghost use Rattle.node_journal.specs.Nodes.{sight};
ghost use Rattle.node_ports.specs.Nodes.{sight_at, AreNodesHeld};

use crate::shard::NodeShard;
use cbdc_types::{FinishCall, ForgetCall, LaneId, LockCall, NodeFault, NodeId, Replied, Stamp};
use lane_driver::{PortSet, ShardPort};
use outside::{Disk, Gate};
use shard_node::ShardNode;
use std::sync::Wait;

/// The shards of a ledger for one lane; `first` is the number of shard 0's node.
#[derive(Drop)]
pub struct NodeShards<'r, W: Wait, D: Disk> {
    pub rt: &'r W,
    pub lane: LaneId,
    pub first: u32,
    pub nodes: Vec<ShardNode<D>>,
}

impl<'r, W: Wait, D: Disk> NodeShards<'r, W, D> {
    fn lock_one<G: Gate>(
        &mut self,
        shard: u32,
        call: &LockCall,
        gate: &G,
    ) -> Result<Replied, NodeFault>
        requires place { shard < length self.old.nodes.items }
        requires call { IsLockCall (sight_at sight self.old.nodes.items shard).header call.now }
        ensures answer { Told true call.now.batch.lane true (lock_due (sight_at sight self.old.nodes.items
            shard).header.shape (sight_at sight self.old.nodes.items shard).capacity call.now)
            (sight_at sight self.old.nodes.items shard) (sight_at sight self.new.nodes.items shard) result }
        ensures told { IfOk result (λ a. IsStamp a.stamp
            × All (IsReply (sight_at sight self.old.nodes.items shard).header.shape) a.replies) }
        ensures elsewhere { (n : ℕ) → n ≢ shard
            → sight_at sight self.new.nodes.items n ≡ sight_at sight self.old.nodes.items n }
        ensures nodes { KeepNodes
            (sight_at sight self.old.nodes.items) (sight_at sight self.new.nodes.items) }
        ensures count { length self.new.nodes.items ≡ length self.old.nodes.items }
        ensures later { (n : ℕ) → (sight_at sight self.old.nodes.items n).faults
            ≤ (sight_at sight self.new.nodes.items n).faults }
        ensures holds { AreNodesHeld D.Disk self.old.nodes.items → AreNodesHeld D.Disk self.new.nodes.items }
    {
        let mut port = NodeShard {
            rt: self.rt,
            lane: self.lane,
            node: NodeId(self.first.saturating_add(shard)),
            shard: &mut self.nodes[shard as usize],
        };
        port.lock(call, gate)
    }

    fn finish_one<G: Gate>(
        &mut self,
        shard: u32,
        call: &FinishCall,
        gate: &G,
    ) -> Result<Stamp, NodeFault>
        requires place { shard < length self.old.nodes.items }
        requires call { IsFinishCall (sight_at sight self.old.nodes.items shard).header call.now }
        ensures answer { Told true call.now.batch.lane false (finish_due call.now)
            (sight_at sight self.old.nodes.items shard) (sight_at sight self.new.nodes.items shard) result }
        ensures told { IfOk result IsStamp }
        ensures elsewhere { (n : ℕ) → n ≢ shard
            → sight_at sight self.new.nodes.items n ≡ sight_at sight self.old.nodes.items n }
        ensures nodes { KeepNodes
            (sight_at sight self.old.nodes.items) (sight_at sight self.new.nodes.items) }
        ensures count { length self.new.nodes.items ≡ length self.old.nodes.items }
        ensures later { (n : ℕ) → (sight_at sight self.old.nodes.items n).faults
            ≤ (sight_at sight self.new.nodes.items n).faults }
        ensures holds { AreNodesHeld D.Disk self.old.nodes.items → AreNodesHeld D.Disk self.new.nodes.items }
    {
        let mut port = NodeShard {
            rt: self.rt,
            lane: self.lane,
            node: NodeId(self.first.saturating_add(shard)),
            shard: &mut self.nodes[shard as usize],
        };
        port.finish(call, gate)
    }

    fn forget_one<G: Gate>(
        &mut self,
        shard: u32,
        call: &ForgetCall,
        gate: &G,
    ) -> Result<Stamp, NodeFault>
        requires place { shard < length self.old.nodes.items }
        requires call { IsForgetCall (sight_at sight self.old.nodes.items shard).header call.now }
        ensures answer { Told true call.now.batch.lane false (forget_due call.now)
            (sight_at sight self.old.nodes.items shard) (sight_at sight self.new.nodes.items shard) result }
        ensures told { IfOk result IsStamp }
        ensures elsewhere { (n : ℕ) → n ≢ shard
            → sight_at sight self.new.nodes.items n ≡ sight_at sight self.old.nodes.items n }
        ensures nodes { KeepNodes
            (sight_at sight self.old.nodes.items) (sight_at sight self.new.nodes.items) }
        ensures count { length self.new.nodes.items ≡ length self.old.nodes.items }
        ensures later { (n : ℕ) → (sight_at sight self.old.nodes.items n).faults
            ≤ (sight_at sight self.new.nodes.items n).faults }
        ensures holds { AreNodesHeld D.Disk self.old.nodes.items → AreNodesHeld D.Disk self.new.nodes.items }
    {
        let mut port = NodeShard {
            rt: self.rt,
            lane: self.lane,
            node: NodeId(self.first.saturating_add(shard)),
            shard: &mut self.nodes[shard as usize],
        };
        port.forget(call, gate)
    }
}

impl<'r, W: Wait, D: Disk, G: Gate> PortSet<G> for NodeShards<'r, W, D> {
    ghost sights = { λ p n. sight_at sight p.nodes.items n };

    ghost alone = { true };

    ghost count = { λ p. length p.nodes.items };

    ghost faults = { λ p n. (sight_at sight p.nodes.items n).faults };

    ghost holds = { λ p. AreNodesHeld D.Disk p.nodes.items };

    ghost serves = { λ p l. Unit {0} };

    fn lock(
        &mut self,
        calls: &[(u32, LockCall)],
        out: &mut Vec<Result<Replied, NodeFault>>,
        gate: &G,
    ) {
        'calls: for (shard, call) in calls {
            let answer = self.lock_one(*shard, call, gate);
            out.push_reserved(answer);
        }
    }

    fn finish(
        &mut self,
        calls: &[(u32, FinishCall)],
        out: &mut Vec<Result<Stamp, NodeFault>>,
        gate: &G,
    ) {
        'calls: for (shard, call) in calls {
            let answer = self.finish_one(*shard, call, gate);
            out.push_reserved(answer);
        }
    }

    fn forget(
        &mut self,
        calls: &[(u32, ForgetCall)],
        out: &mut Vec<Result<Stamp, NodeFault>>,
        gate: &G,
    ) {
        'calls: for (shard, call) in calls {
            let answer = self.forget_one(*shard, call, gate);
            out.push_reserved(answer);
        }
    }
}

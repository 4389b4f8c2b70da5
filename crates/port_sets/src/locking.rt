// A shard that lanes share.
ghost use Rattle.std.specs.Prelude.{true, false};
ghost use Rattle.cbdc_model.specs.Calls.{IsLockCall, IsFinishCall, IsForgetCall};
ghost use Rattle.std.proofs.Common.{sym, subst};
ghost use Rattle.node_lock.specs.Moving.{Moves};
ghost use Rattle.port_sets.specs.Giving.{NodeGives};
ghost use Rattle.port_sets.specs.Shards.{shard_call_lane, shard_may_be_asked, shard_gives, lock_owed, finish_owed, forget_owed, good_reply, good_stamp};

use crate::nodes::Shard;
use cbdc_types::{FinishCall, ForgetCall, LockCall, NodeFault, Replied, Stamp};
use node_lock::{Node, Sighted};

/// A shard under a lock.
#[derive(Drop)]
pub struct SharedShard<S: Shard> {
    pub node: S,
}

/// A call at a shard.
#[derive(Drop)]
pub enum ShardCall<'c> {
    Lock(&'c LockCall),
    Finish(&'c FinishCall),
    Forget(&'c ForgetCall),
}

/// The answer to it.
#[derive(Drop)]
pub enum ShardReply {
    Locked(Result<Replied, NodeFault>),
    Stamped(Result<Stamp, NodeFault>),
}

// The three calls, as a lock asks of them.
fn lock<S: Shard>(node: &mut S, call: &LockCall) -> Result<Replied, NodeFault>
    requires { IsLockCall (S.sight node.old).header call.now }
    ensures gives { NodeGives call.now.batch.lane true
        (lock_owed call.now) good_reply (S.sight node.old) (S.sight node.new) result }
    ensures moves { Moves call.now.batch.lane (S.sight node.old) (S.sight node.new) }
    ensures goes { S.goes node.old node.new }
{
    node.lock(call)
}

fn finish<S: Shard>(node: &mut S, call: &FinishCall) -> Result<Stamp, NodeFault>
    requires { IsFinishCall (S.sight node.old).header call.now }
    ensures gives { NodeGives call.now.batch.lane false
        (finish_owed call.now) good_stamp (S.sight node.old) (S.sight node.new) result }
    ensures moves { Moves call.now.batch.lane (S.sight node.old) (S.sight node.new) }
    ensures goes { S.goes node.old node.new }
{
    node.finish(call)
}

fn forget<S: Shard>(node: &mut S, call: &ForgetCall) -> Result<Stamp, NodeFault>
    requires { IsForgetCall (S.sight node.old).header call.now }
    ensures gives { NodeGives call.now.batch.lane false
        (forget_owed call.now) good_stamp (S.sight node.old) (S.sight node.new) result }
    ensures moves { Moves call.now.batch.lane (S.sight node.old) (S.sight node.new) }
    ensures goes { S.goes node.old node.new }
{
    node.forget(call)
}

impl<S: Shard> Sighted for SharedShard<S> {
    ghost sight = { λ n. S.sight n.node };

    ghost goes = { λ a b. S.goes a.node b.node };

    fn count(&self) -> usize {
        self.node.records().len()
    }

    fn is_stuck(&self) -> bool {
        self.node.is_broken()
    }

    ghost same = { λ n. S.same n.node };

    ghost behind = { λ a b c. S.behind a.node b.node c.node };
}

impl<'c, S: Shard> Node<'c> for SharedShard<S> {
    type Call = ShardCall<'c>;

    type Reply = ShardReply;

    ghost lane = { shard_call_lane };

    ghost allowed = { λ c s. shard_may_be_asked s.header c };

    ghost gives = { λ s c t d r. shard_gives s c t r };

    fn step(&mut self, call: &mut ShardCall<'c>) -> ShardReply {
        match call {
            ShardCall::Lock(made) => ShardReply::Locked(lock(&mut self.node, *made)),
            ShardCall::Finish(made) => ShardReply::Stamped(finish(&mut self.node, *made)),
            ShardCall::Forget(made) => ShardReply::Stamped(forget(&mut self.node, *made)),
        }
    }

    ghost others = { λ c s t more header seen other may. subst (λ h. shard_may_be_asked h c) (sym header) may };
}

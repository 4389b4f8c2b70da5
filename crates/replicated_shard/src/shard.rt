// The calls at a shard that is a group.
ghost use Rattle.std.specs.Prelude.{true, false};
ghost use Rattle.cbdc_model.specs.Calls.{IsLockCall, IsFinishCall, IsForgetCall};
ghost use Rattle.cbdc_model.specs.Due.{lock_due, finish_due, forget_due};
ghost use Rattle.replicated_shard.specs.Groups.{AnswersAsGroup};

use cbdc_types::{FinishCall, ForgetCall, LockCall, NodeFault, Replied, Stamp};
use mirror_devices::Mirror;
use outside::Disk;
use shard_node::ShardNode;

/// A shard that writes each record to all of its disks before it answers: the first is the primary's, the others are the backups'.
pub type ReplicatedShard<D> = ShardNode<Mirror<D>>;

/// Locks a part for a batch, as a list of the group's steps.
pub fn lock<D: Disk>(shard: &mut ReplicatedShard<D>, call: &LockCall) -> Result<Replied, NodeFault>
    requires { IsLockCall shard.old.header call.now }
    ensures { AnswersAsGroup D.Disk true (lock_due shard.old.header.shape shard.old.capacity call.now
        shard.old.broken shard.old.journal) shard.old shard.new result }
{
    let _seen = shard.header();
    let _before = shard.records();
    let answer = shard.lock(call);
    let _after = shard.header();
    let _behind = shard.records();
    answer
}

/// Applies a locked batch, as a list of the group's steps.
pub fn finish<D: Disk>(
    shard: &mut ReplicatedShard<D>,
    call: &FinishCall,
) -> Result<Stamp, NodeFault>
    requires { IsFinishCall shard.old.header call.now }
    ensures { AnswersAsGroup D.Disk false (finish_due call.now shard.old.broken shard.old.journal) shard.old shard.new result }
{
    let _seen = shard.header();
    let _before = shard.records();
    let answer = shard.finish(call);
    let _after = shard.header();
    let _behind = shard.records();
    answer
}

/// Forgets an applied batch, as a list of the group's steps.
pub fn forget<D: Disk>(
    shard: &mut ReplicatedShard<D>,
    call: &ForgetCall,
) -> Result<Stamp, NodeFault>
    requires { IsForgetCall shard.old.header call.now }
    ensures { AnswersAsGroup D.Disk false (forget_due call.now shard.old.broken shard.old.journal) shard.old shard.new result }
{
    let _seen = shard.header();
    let _before = shard.records();
    let answer = shard.forget(call);
    let _after = shard.header();
    let _behind = shard.records();
    answer
}

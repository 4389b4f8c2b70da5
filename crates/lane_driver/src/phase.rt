// The phases of a batch at its shards, and its calls again.
ghost use Rattle.std.specs.Prelude.{◌≡◌, ◌≢◌, ◌<◌, ◌≤◌, [], length, IfOk, IfErr, MatchResult, All};
ghost use Rattle.std.specs.Vec.{vec_capacity};
ghost use Rattle.lane_driver.specs.Calls.{shard};
ghost use Rattle.cbdc_types.specs.declared.calls.NodeFault.TheVariants.{Memory};
ghost use Rattle.cbdc_model.specs.Ranges.{shard_node};
ghost use Rattle.lane_laws.specs.Answers.{LockAnswer, FinishAnswer, ForgetAnswer, AskedTimes, Locked, Stamped};
ghost use Rattle.lane_driver.specs.Causes.{IsShardCause};
ghost use Rattle.lane_driver.specs.Stops.{IsStopOf, IsStoppedAt};
ghost use Rattle.lane_driver.specs.Keeping.{KeepsShards};
ghost use Rattle.lane_driver.specs.Told.{AreShardsOf, AreLockCalls, AreFinishCalls, AreForgetCalls, AreShards, AreReplies, IsStamp};

use crate::answer::{ShardFault, gather, latest};
use crate::fault::Stop;
use crate::port::PortSet;
use cbdc_types::{
    FinishCall, ForgetCall, LockCall, NodeFault, NodeId, Replied, Replies, Shape, ShardReplies,
    Stamp,
};
use outside::Gate;

// Where the batch stopped, if this shard's fault was the first.
fn of_shard(shape: &Shape, fault: ShardFault) -> Stop
    requires { fault.shard < shape.now.shards }
    ensures { IsStopOf result (shard_node shape.now fault.shard) fault.fault }
{
    Stop {
        node: NodeId(shape.coordinators() + fault.shard),
        fault: fault.fault,
    }
}

/// Makes the lock calls again, so many times, and drops the answers.
pub fn lock_again<S: PortSet<G>, G: Gate>(
    shards: &mut S,
    calls: &[(u32, LockCall)],
    answers: &mut Vec<Result<Replied, NodeFault>>,
    repeats: u32,
    gate: &G,
)
    requires shards { AreShards shard (S.count shards.old) calls.now }
    requires calls { AreLockCalls (S.sights shards.old) calls.now }
    requires mine { All (λ c. S.serves shards.old c.1.batch.lane) calls.now }
    requires room { length calls.now ≤ vec_capacity answers.old }
    ensures capacity { vec_capacity answers.new ≡ vec_capacity answers.old }
    ensures keeps { KeepsShards S.count S.sights S.faults S.holds S.serves shards.old shards.new }
    ensures told { AskedTimes
        (LockAnswer S.alone) calls.now repeats (S.sights shards.old) (S.sights shards.new) }
{
    for _time in 0..repeats {
        answers.clear();
        shards.lock(calls, answers, gate);
    }
}

/// Makes the finish calls again, so many times, and drops the answers.
pub fn finish_again<S: PortSet<G>, G: Gate>(
    shards: &mut S,
    calls: &[(u32, FinishCall)],
    answers: &mut Vec<Result<Stamp, NodeFault>>,
    repeats: u32,
    gate: &G,
)
    requires shards { AreShards shard (S.count shards.old) calls.now }
    requires calls { AreFinishCalls (S.sights shards.old) calls.now }
    requires mine { All (λ c. S.serves shards.old c.1.batch.lane) calls.now }
    requires room { length calls.now ≤ vec_capacity answers.old }
    ensures capacity { vec_capacity answers.new ≡ vec_capacity answers.old }
    ensures keeps { KeepsShards S.count S.sights S.faults S.holds S.serves shards.old shards.new }
    ensures told { AskedTimes
        (FinishAnswer S.alone) calls.now repeats (S.sights shards.old) (S.sights shards.new) }
{
    for _time in 0..repeats {
        answers.clear();
        shards.finish(calls, answers, gate);
    }
}

/// Makes the forget calls again, so many times, and drops the answers.
pub fn forget_again<S: PortSet<G>, G: Gate>(
    shards: &mut S,
    calls: &[(u32, ForgetCall)],
    answers: &mut Vec<Result<Stamp, NodeFault>>,
    repeats: u32,
    gate: &G,
)
    requires shards { AreShards shard (S.count shards.old) calls.now }
    requires calls { AreForgetCalls (S.sights shards.old) calls.now }
    requires mine { All (λ c. S.serves shards.old c.1.batch.lane) calls.now }
    requires room { length calls.now ≤ vec_capacity answers.old }
    ensures capacity { vec_capacity answers.new ≡ vec_capacity answers.old }
    ensures keeps { KeepsShards S.count S.sights S.faults S.holds S.serves shards.old shards.new }
    ensures told { AskedTimes
        (ForgetAnswer S.alone) calls.now repeats (S.sights shards.old) (S.sights shards.new) }
{
    for _time in 0..repeats {
        answers.clear();
        shards.forget(calls, answers, gate);
    }
}

/// Locks the parts at their shards, and gathers the replies, or tells the fault of the least shard that had one.
pub fn lock_phase<S: PortSet<G>, G: Gate>(
    shape: &Shape,
    shards: &mut S,
    calls: &[(u32, LockCall)],
    mut answers: Vec<Result<Replied, NodeFault>>,
    replies: Vec<ShardReplies>,
    gate: &G,
) -> Result<Replies, Stop>
    requires count { S.count shards.old ≡ shape.now.shards }
    requires ledger { AreShardsOf shape.now (S.sights shards.old) }
    requires shards { AreShards shard shape.now.shards calls.now }
    requires calls { AreLockCalls (S.sights shards.old) calls.now }
    requires mine { All (λ c. S.serves shards.old c.1.batch.lane) calls.now }
    requires empty { answers.items ≡ [] }
    requires room { length calls.now ≤ vec_capacity answers }
    requires no_replies { replies.items ≡ [] }
    requires replies_room { length calls.now ≤ vec_capacity replies }
    ensures keeps { KeepsShards S.count S.sights S.faults S.holds S.serves shards.old shards.new }
    ensures told { IfOk result (Locked S.alone calls.now (S.sights shards.old) (S.sights shards.new)) }
    ensures stopped { IfErr result
        (IsStoppedAt shape.now (LockAnswer S.alone) calls.now (S.sights shards.old) (S.sights shards.new)) }
    ensures fault { IfErr result (λ e. IsShardCause shape.now (S.sights shards.new) e.node e.fault) }
    ensures replies { IfOk result (AreReplies shape.now) }
{
    shards.lock(calls, &mut answers, gate);
    match gather(calls, answers, replies) {
        Ok(replies) => Ok(replies),
        Err(fault) => Err(of_shard(shape, fault)),
    }
}

/// Applies the batch at its shards: the greatest stamp of its Finishes, or the fault of the least shard that had one, which is
/// never that memory ran out.
pub fn finish_phase<S: PortSet<G>, G: Gate>(
    shape: &Shape,
    shards: &mut S,
    calls: &[(u32, FinishCall)],
    answers: &mut Vec<Result<Stamp, NodeFault>>,
    gate: &G,
) -> Result<Stamp, Stop>
    requires count { S.count shards.old ≡ shape.now.shards }
    requires shards { AreShards shard shape.now.shards calls.now }
    requires calls { AreFinishCalls (S.sights shards.old) calls.now }
    requires mine { All (λ c. S.serves shards.old c.1.batch.lane) calls.now }
    requires room { length calls.now ≤ vec_capacity answers.old }
    ensures capacity { vec_capacity answers.new ≡ vec_capacity answers.old }
    ensures keeps { KeepsShards S.count S.sights S.faults S.holds S.serves shards.old shards.new }
    ensures told { IfOk result
        (Stamped (FinishAnswer S.alone) calls.now (S.sights shards.old) (S.sights shards.new)) }
    ensures stopped { IfErr result
        (IsStoppedAt shape.now (FinishAnswer S.alone) calls.now (S.sights shards.old) (S.sights shards.new)) }
    ensures fault { IfErr result (λ e. IsShardCause shape.now (S.sights shards.new) e.node e.fault) }
    ensures no_want { IfErr result (λ e. e.fault ≢ Memory) }
    ensures stamp { IfOk result IsStamp }
{
    answers.clear();
    shards.finish(calls, answers, gate);
    match latest(calls, answers.as_slice()) {
        Ok(stamp) => Ok(stamp),
        Err(fault) => Err(of_shard(shape, fault)),
    }
}

/// Lets the shards forget the batch: the greatest stamp of its Forgets, or the fault of the least shard that had one, which is
/// never that memory ran out.
pub fn forget_phase<S: PortSet<G>, G: Gate>(
    shape: &Shape,
    shards: &mut S,
    calls: &[(u32, ForgetCall)],
    answers: &mut Vec<Result<Stamp, NodeFault>>,
    gate: &G,
) -> Result<Stamp, Stop>
    requires count { S.count shards.old ≡ shape.now.shards }
    requires shards { AreShards shard shape.now.shards calls.now }
    requires calls { AreForgetCalls (S.sights shards.old) calls.now }
    requires mine { All (λ c. S.serves shards.old c.1.batch.lane) calls.now }
    requires room { length calls.now ≤ vec_capacity answers.old }
    ensures capacity { vec_capacity answers.new ≡ vec_capacity answers.old }
    ensures keeps { KeepsShards S.count S.sights S.faults S.holds S.serves shards.old shards.new }
    ensures told { IfOk result
        (Stamped (ForgetAnswer S.alone) calls.now (S.sights shards.old) (S.sights shards.new)) }
    ensures stopped { IfErr result
        (IsStoppedAt shape.now (ForgetAnswer S.alone) calls.now (S.sights shards.old) (S.sights shards.new)) }
    ensures fault { IfErr result (λ e. IsShardCause shape.now (S.sights shards.new) e.node e.fault) }
    ensures no_want { IfErr result (λ e. e.fault ≢ Memory) }
    ensures stamp { IfOk result IsStamp }
{
    answers.clear();
    shards.forget(calls, answers, gate);
    match latest(calls, answers.as_slice()) {
        Ok(stamp) => Ok(stamp),
        Err(fault) => Err(of_shard(shape, fault)),
    }
}

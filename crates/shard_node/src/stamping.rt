// Finish and Forget: their room and memory were taken by the Lock.
ghost use Rattle.std.specs.Prelude.{◌≡◌, ◌≢◌, ◌≤◌, ◌<◌, ℕ, Bool, false, None, Some, length, vec_capacity, slice_get};
ghost use Rattle.std.specs.Global.{Vec as GhostVec};
ghost use Rattle.gate_journal.specs.Shown.{broken_of};
ghost use Rattle.cbdc_model.specs.Due.{finish_due, forget_due};
ghost use Rattle.cbdc_model.specs.Next.{next_finish, next_forget, Append};
ghost use Rattle.shard_core.specs.Admitted.{IsFinishable};
ghost use Rattle.shard_core.specs.Stands.{IsLanePast};
ghost use Rattle.cbdc_model.specs.Calls.{IsFinishCall, IsForgetCall};
ghost use Rattle.node_journal.specs.Answered.{HasAnswered};
ghost use Rattle.node_journal.specs.Sound.{journal_of, view_of};
ghost use Rattle.shard_node.specs.Parts.{IsShardOf};

use crate::parts::Parts;
use cbdc_types::{Decisions, FinishCall, ForgetCall, LaneId, List, NodeFault, Record, Stamp};
use node_journal::write;
use outside::Disk;
use shard_core::StampPlan;
use std::alloc::Global;
use std::mem;

/// The last stamp of a Finish or a Forget.
const LAST_STAMP: u64 = 4611686018428436480;

// The decisions in memory that was taken for the lane.
fn take_decisions(
    alloc: Global,
    memory: &mut Vec<Vec<bool>>,
    lane: LaneId,
    decisions: &[bool],
) -> Decisions
    requires lane { lane < length memory.old.items }
    requires room { (m : GhostVec Bool) → slice_get memory.old.items lane ≡ Some m
        → length decisions.now ≤ vec_capacity m }
    ensures value { result ≡ decisions.now }
    ensures lanes { length memory.new.items ≡ length memory.old.items }
    ensures others { (l : ℕ) (m : GhostVec Bool) → l ≢ lane → slice_get memory.new.items l ≡ Some m
        → slice_get memory.old.items l ≡ Some m }
{
    let mut kept = mem::replace(&mut memory[lane.0 as usize], Vec::new(alloc));
    kept.clear();
    kept.extend_from_slice(decisions).unwrap();
    List::from_vec(kept)
}

// Finishes a batch that may be finished.
fn append_finish<D: Disk>(
    alloc: Global,
    parts: &mut Parts<D>,
    call: &FinishCall,
    stamp: Stamp,
) -> Result<Stamp, NodeFault>
    requires shard { IsShardOf parts.old }
    requires call { IsFinishCall parts.old.node.log.header call.now }
    requires whole { broken_of parts.old.node.log.journal ≡ None }
    requires next { next_finish (journal_of parts.old.node) call.now.batch call.now.decisions call.now.cause
        ≡ Append stamp }
    requires locked { IsFinishable parts.old.node.core call.now.batch call.now.decisions }
    ensures shard { IsShardOf parts.new }
    ensures answered { HasAnswered D.Disk false (finish_due call.now None (journal_of parts.old.node))
        (view_of parts.old.node) (view_of parts.new.node) result }
{
    if stamp.0 > LAST_STAMP {
        return Err(NodeFault::ClockEnd { stamp });
    }
    let decisions = take_decisions(
        alloc,
        &mut parts.decisions,
        call.batch.lane,
        call.decisions.as_slice(),
    );
    let next = Record::Finish {
        stamp,
        batch: call.batch,
        decisions,
    };
    match write(&mut parts.node, next) {
        Ok(()) => Ok(stamp),
        Err(fault) => Err(fault),
    }
}

// Forgets a batch that may be forgotten.
fn append_forget<D: Disk>(
    parts: &mut Parts<D>,
    call: &ForgetCall,
    stamp: Stamp,
) -> Result<Stamp, NodeFault>
    requires shard { IsShardOf parts.old }
    requires call { IsForgetCall parts.old.node.log.header call.now }
    requires whole { broken_of parts.old.node.log.journal ≡ None }
    requires next { next_forget (journal_of parts.old.node) call.now.batch call.now.cause ≡ Append stamp }
    requires done { IsLanePast parts.old.node.core call.now.batch.lane }
    ensures shard { IsShardOf parts.new }
    ensures answered { HasAnswered D.Disk false (forget_due call.now None (journal_of parts.old.node))
        (view_of parts.old.node) (view_of parts.new.node) result }
{
    if stamp.0 > LAST_STAMP {
        return Err(NodeFault::ClockEnd { stamp });
    }
    let next = Record::Forget {
        stamp,
        batch: call.batch,
    };
    match write(&mut parts.node, next) {
        Ok(()) => Ok(stamp),
        Err(fault) => Err(fault),
    }
}

/// Applies a locked batch, or answers as before.
pub(crate) fn finish_parts<D: Disk>(
    alloc: Global,
    parts: &mut Parts<D>,
    call: &FinishCall,
) -> Result<Stamp, NodeFault>
    requires shard { IsShardOf parts.old }
    requires call { IsFinishCall parts.old.node.log.header call.now }
    ensures shard { IsShardOf parts.new }
    ensures answered { HasAnswered D.Disk false
        (finish_due call.now (broken_of parts.old.node.log.journal) (journal_of parts.old.node))
        (view_of parts.old.node) (view_of parts.new.node) result }
{
    if let Some(since) = parts.node.log.is_broken() {
        return Err(NodeFault::Broken { since });
    }
    match parts.node.core.plan_finish(call) {
        StampPlan::Kept(stamp) => Ok(stamp),
        StampPlan::Refused(why) => Err(NodeFault::Refused(why)),
        StampPlan::Append(stamp) => append_finish(alloc, parts, call, stamp),
    }
}

/// Forgets a finished batch, or answers as before.
pub(crate) fn forget_parts<D: Disk>(
    parts: &mut Parts<D>,
    call: &ForgetCall,
) -> Result<Stamp, NodeFault>
    requires shard { IsShardOf parts.old }
    requires call { IsForgetCall parts.old.node.log.header call.now }
    ensures shard { IsShardOf parts.new }
    ensures answered { HasAnswered D.Disk false
        (forget_due call.now (broken_of parts.old.node.log.journal) (journal_of parts.old.node))
        (view_of parts.old.node) (view_of parts.new.node) result }
{
    if let Some(since) = parts.node.log.is_broken() {
        return Err(NodeFault::Broken { since });
    }
    match parts.node.core.plan_forget(call) {
        StampPlan::Kept(stamp) => Ok(stamp),
        StampPlan::Refused(why) => Err(NodeFault::Refused(why)),
        StampPlan::Append(stamp) => append_forget(parts, call, stamp),
    }
}

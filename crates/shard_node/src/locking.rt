// Lock: it takes the room and the memory that its batch needs to the end.
ghost use Rattle.std.specs.Prelude.{◌≡◌, ◌≢◌, ◌+◌, ◌≤◌, ◌<◌, ◌^◌, ℕ, Bool, true, None, Some, length, vec_capacity, slice_get, IfOk, OnOk};
ghost use Rattle.std.specs.Global.{Vec as GhostVec};
ghost use Rattle.gate_journal.specs.Shown.{disk_of, broken_of};
ghost use Rattle.cbdc_model.specs.Due.{lock_due};
ghost use Rattle.cbdc_model.specs.Next.{next_lock, Append};
ghost use Rattle.record_log.specs.Logs.{HasLogRoom, KeepsRoom, IsUntouched};
ghost use Rattle.shard_core.specs.Plans.{core_replies};
ghost use Rattle.shard_core.specs.Stands.{IsLockReady, IsLaneFree};
ghost use Rattle.cbdc_model.specs.Calls.{IsLockCall};
ghost use Rattle.node_journal.specs.Answered.{HasAnswered};
ghost use Rattle.node_journal.specs.Sound.{journal_of, view_of};
ghost use Rattle.shard_node.specs.Parts.{IsShardOf, IsLockOf};

use crate::parts::Parts;
use cbdc_types::{LaneId, List, LockCall, NodeFault, Record, Replied};
use node_journal::write;
use outside::Disk;
use record_log::{RecordLog, size_of_record};
use shard_core::{LockPlan, answered};
use std::alloc::{AllocError, Global};

/// The last stamp of a Lock.
const LAST_LOCK: u64 = 4611686018427387904;

/// Bytes kept behind a Lock of no entries, for its Finish and its Forget. Each entry adds one.
const BEHIND_LOCK: u64 = 76;

/// The fewest bytes of a record that is still to come.
pub(crate) const LEAST: u64 = 34;

/// The most bytes of a Finish's body.
pub(crate) const LARGEST_FINISH: u64 = 1057;

// The Lock of a part with these replies.
fn lock_record(alloc: Global, call: &LockCall, replied: &Replied) -> Result<Record, AllocError>
    requires { length replied.now.replies ≡ length call.now.part }
    ensures { IfOk result (λ r. IsLockOf r call.now replied.now) }
{
    let entries = answered(alloc, call.part.as_slice(), replied.replies.as_slice())?;
    Ok(Record::Lock {
        stamp: replied.stamp,
        batch: call.batch,
        entries: List::from_vec(entries),
    })
}

// Takes the memory for so many records with bodies of so many bytes, and for the decisions of a lane's batch.
fn take_memory<D: Disk>(
    log: &mut RecordLog<D>,
    memory: &mut Vec<Vec<bool>>,
    lane: LaneId,
    entries: usize,
    count: usize,
    bytes: u64,
) -> Result<(), AllocError>
    requires lane { lane < length memory.old.items }
    requires bytes { bytes < 2 ^ 62 }
    ensures decisions { OnOk result ((m : GhostVec Bool) → slice_get memory.new.items lane ≡ Some m
        → entries ≤ vec_capacity m) }
    ensures room { OnOk result (HasLogRoom log.new count bytes) }
    ensures lanes { length memory.new.items ≡ length memory.old.items }
    ensures others { (l : ℕ) (m : GhostVec Bool) → l ≢ lane → slice_get memory.new.items l ≡ Some m
        → slice_get memory.old.items l ≡ Some m }
    ensures keeps { KeepsRoom log.old log.new }
    ensures untouched { IsUntouched log.old log.new }
    ensures records { log.new.records.items ≡ log.old.records.items }
    ensures header { log.new.header ≡ log.old.header }
{
    let own = &mut memory[lane.0 as usize];
    own.clear();
    own.reserve(entries)?;
    log.reserve(count, bytes)
}

// Locks a part that may be locked.
fn append_lock<D: Disk>(
    alloc: Global,
    parts: &mut Parts<D>,
    call: &LockCall,
    replied: Replied,
) -> Result<Replied, NodeFault>
    requires shard { IsShardOf parts.old }
    requires call { IsLockCall parts.old.node.log.header call.now }
    requires whole { broken_of parts.old.node.log.journal ≡ None }
    requires next { next_lock (journal_of parts.old.node) call.now.batch call.now.part call.now.cause
        ≡ Append (core_replies replied) }
    requires ready { IsLockReady parts.old.node.core call.now.part replied.replies }
    requires free { IsLaneFree parts.old.node.core call.now.batch.lane }
    ensures shard { IsShardOf parts.new }
    ensures answered { HasAnswered D.Disk true (lock_due parts.old.node.log.header.shape
        (D.limit (disk_of parts.old.node.log.journal)) call.now None (journal_of parts.old.node))
        (view_of parts.old.node) (view_of parts.new.node) result }
{
    let stamp = replied.stamp;
    if stamp.0 > LAST_LOCK {
        return Err(NodeFault::ClockEnd { stamp });
    }
    let Ok(next) = lock_record(alloc, call, &replied) else {
        return Err(NodeFault::Memory);
    };
    let size = size_of_record(&next);
    let later = BEHIND_LOCK + call.part.len() as u64 + parts.node.core.kept_room();
    let used = parts.node.log.used();
    let need = size + later;
    let capacity = parts.node.log.capacity();
    if need > capacity - used {
        return Err(NodeFault::Full {
            used,
            need,
            capacity,
        });
    }
    let count = (later / LEAST + 2) as usize;
    match take_memory(
        &mut parts.node.log,
        &mut parts.decisions,
        call.batch.lane,
        call.part.len(),
        count,
        size.max(LARGEST_FINISH),
    ) {
        Ok(()) => {}
        Err(_) => return Err(NodeFault::Memory),
    }
    match write(&mut parts.node, next) {
        Ok(()) => Ok(replied),
        Err(fault) => Err(fault),
    }
}

/// Locks a part for a batch, or answers as before.
pub(crate) fn lock_parts<D: Disk>(
    alloc: Global,
    parts: &mut Parts<D>,
    call: &LockCall,
) -> Result<Replied, NodeFault>
    requires shard { IsShardOf parts.old }
    requires call { IsLockCall parts.old.node.log.header call.now }
    ensures shard { IsShardOf parts.new }
    ensures answered { HasAnswered D.Disk true (lock_due parts.old.node.log.header.shape
        (D.limit (disk_of parts.old.node.log.journal)) call.now
        (broken_of parts.old.node.log.journal) (journal_of parts.old.node))
        (view_of parts.old.node) (view_of parts.new.node) result }
{
    if let Some(since) = parts.node.log.is_broken() {
        return Err(NodeFault::Broken { since });
    }
    match parts.node.core.plan_lock(call) {
        Ok(LockPlan::Kept(replied)) => Ok(replied),
        Ok(LockPlan::Refused(why)) => Err(NodeFault::Refused(why)),
        Ok(LockPlan::Append(replied)) => append_lock(alloc, parts, call, replied),
        Err(_) => Err(NodeFault::Memory),
    }
}

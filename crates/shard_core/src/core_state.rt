// The shard: its unspent hashes, its locks and its lanes' slots.
ghost use Rattle.std.specs.Prelude.{◌≡◌, ◌+◌, ◌-◌, ◌*◌, min, List as Items, ◌≤◌, ◌<◌, ◌^◌, ◌↔◌, ℕ, length, vec_capacity, Some, slice_get, slice_set, IsTrue, IfOk, OnOk};
ghost use Rattle.cbdc_model.specs.Records.{Digest, Record};
ghost use Rattle.cbdc_model.specs.Room.{lane_room};
ghost use Rattle.cbdc_model.specs.Fates.{lane_fate};
ghost use Rattle.shard_core.specs.Slots.{SlotStands};
ghost use Rattle.shard_core.specs.Remembers.{told_fate, has_id, fate_of};
ghost use Rattle.cbdc_model.specs.Status.{has};
ghost use Rattle.shard_core.specs.Moves.{owed_in};
ghost use Rattle.shard_core.specs.Memory.{HaveDecisionMemory, ArePaired};
ghost use Rattle.cbdc_types.specs.declared.record.Header.{Header};

use crate::applying::{hash_count, lock_held, make_committed, return_others, take_committed};
use crate::comparing::{is_same_hash, misfit};
use crate::copying::{copy_of, entries_of, same_replies};
use crate::judging::{LockAnswer, judge_finish, judge_forget, judge_lock, kept_replies};
use crate::plans::{LockPlan, Remembered, StampPlan};
use crate::replying::{replies_to, status_of};
use crate::{LaneSlot, Slots};
use cbdc_types::{
    Answered, BatchId, Decisions, Entry, FinishCall, ForgetCall, Hash, Header, LaneId, List,
    LockCall, Part, Record, Refused, Replied, Reply, Stamp, Status,
};
use record_grammar::is_in_grammar;
use shard_table::{Locks, Table};
use std::alloc::{AllocError, Global};
use std::mem;

// A part and its replies, copied ahead for the slot that they are to fill.
#[derive(Drop)]
struct Ready {
    part: Part,
    replies: List<Reply>,
    // For the decisions of its Finish.
    decisions: Vec<bool>,
    // How many hashes the part has.
    count: u64,
}

/// The state of a shard behind its journal, in memory.
#[derive(Drop)]
pub struct ShardCore {
    alloc: Global,
    header: Header,
    unspent: Table,
    locks: Locks,
    slots: Slots,
    last: Stamp,
    // For the next Lock.
    ready: Option<Ready>,
    // For each lane, memory for the decisions of its next Finish.
    decisions: Vec<Vec<bool>>,
    // How many hashes the locked batches may still bring to the table.
    owed: u64,
    // For each lane, the part that was forgotten last, whose memory is that of the next one.
    spare: Vec<Vec<Entry>>,
    ghost lanes: { length slots ≡ header.shape.coordinators * header.shape.lanes },
    ghost memories: { length decisions.items ≡ header.shape.coordinators * header.shape.lanes },
    ghost clock: { last < 2 ^ 63 },
    ghost memory: { HaveDecisionMemory slots decisions.items },
    ghost paired: { ArePaired slots },
    ghost owes: { owed ≡ owed_in slots },
    ghost room: { owed ≤ unspent.spare },
}

// The bytes that are kept free for the later records of a slot's batch.
fn room_of(slot: &LaneSlot) -> u64
    ensures { (J : Items Record) (lane : ℕ) → SlotStands slot.now J lane
        → result ≡ min (lane_room J lane) (2 ^ 64 - 1) }
{
    match slot {
        LaneSlot::Idle { .. } => 0,
        LaneSlot::Locked { part, .. } => (part.len() as u64).saturating_add(76),
        LaneSlot::Finished { .. } => 34,
    }
}

// The decisions in memory that was taken ahead.
fn decided(memory: Vec<bool>, decisions: &[bool]) -> Decisions
    requires { length decisions.now ≤ vec_capacity memory }
    ensures { result ≡ decisions.now }
{
    let mut kept = memory;
    kept.clear();
    kept.extend_from_slice(decisions).unwrap();
    List::from_vec(kept)
}

// A vector for the decisions of each lane, with no memory yet.
fn empty_decisions(alloc: Global, lanes: u32) -> Result<Vec<Vec<bool>>, AllocError>
    ensures { IfOk result (λ v. length v.items ≡ lanes) }
{
    let mut decisions = Vec::with_capacity(alloc, lanes as usize)?;
    for _lane in 0..lanes {
        decisions.push(Vec::new(alloc))?;
    }
    Ok(decisions)
}

// A part of no entries for each lane.
fn no_parts(alloc: Global, lanes: u32) -> Result<Vec<Vec<Entry>>, AllocError> {
    let mut parts = Vec::with_capacity(alloc, lanes as usize)?;
    for _lane in 0..lanes {
        parts.push(Vec::new(alloc))?;
    }
    Ok(parts)
}

// Takes a lane's part out.
fn taken(alloc: Global, parts: &mut Vec<Vec<Entry>>, lane: LaneId) -> Vec<Entry> {
    match parts.get_mut(lane.0 as usize) {
        Some(part) => mem::replace(part, Vec::new(alloc)),
        None => Vec::new(alloc),
    }
}

// Keeps a part as the lane's.
fn keep(parts: &mut Vec<Vec<Entry>>, lane: LaneId, part: Vec<Entry>) {
    if let Some(place) = parts.get_mut(lane.0 as usize) {
        *place = part;
    }
}

// The part of a finished batch, none of another one.
fn finished_part(alloc: Global, slot: LaneSlot) -> Vec<Entry> {
    match slot {
        LaneSlot::Finished { part, .. } => part.into_vec(),
        LaneSlot::Idle { .. } => Vec::new(alloc),
        LaneSlot::Locked { .. } => Vec::new(alloc),
    }
}

// Puts other memory in the place of a lane's.
fn swap_memory(memories: &mut Vec<Vec<bool>>, lane: LaneId, memory: Vec<bool>) -> Vec<bool>
    requires { lane < length memories.old.items }
    ensures value { slice_get memories.old.items lane ≡ Some result }
    ensures after { memories.new.items ≡ slice_set memories.old.items lane memory }
{
    mem::replace(&mut memories[lane.0 as usize], memory)
}

// The set of these hashes.
fn table_of(alloc: Global, hashes: &[Hash]) -> Result<Table, AllocError>
    ensures { IfOk result (λ t. (y : Digest) → has t.hashes y ≡ has hashes.now y) }
{
    let mut table = Table::new(alloc);
    table.reserve(hashes.len() as u64)?;
    for x in hashes {
        table.insert(*x);
    }
    Ok(table)
}

// What a slot remembers of a transaction.
fn remembered_in(slot: &LaneSlot, id: &Hash) -> Option<Remembered>
    ensures { (J : Items Record) (lane : ℕ) → SlotStands slot.now J lane
        → told_fate result ≡ lane_fate J id.now lane }
{
    match slot {
        LaneSlot::Idle { .. } => None,
        LaneSlot::Locked { part, .. } => {
            if has_entry(part.as_slice(), id) {
                Some(Remembered::Waiting)
            } else {
                None
            }
        }
        LaneSlot::Finished {
            part,
            decisions,
            ..
        } => decided_in(part.as_slice(), decisions.as_slice(), id),
    }
}

// Whether an entry has this id.
fn has_entry(entries: &[Entry], id: &Hash) -> bool
    ensures { result ≡ has_id entries.now id.now }
{
    for entry in entries {
        if is_same_hash(&entry.id, id) {
            return true;
        }
    }
    false
}

// What the decision of the first entry with this id says.
fn decided_in(entries: &[Entry], decisions: &[bool], id: &Hash) -> Option<Remembered>
    ensures { told_fate result ≡ fate_of entries.now decisions.now id.now }
{
    for at in 0..entries.len().min(decisions.len()) {
        if is_same_hash(&entries[at].id, id) {
            return Some(if decisions[at] {
                Remembered::Committed
            } else {
                Remembered::Rejected
            });
        }
    }
    None
}

impl ShardCore {
    ghost use Rattle.std.specs.Bool.{OnTrue};
    ghost use Rattle.std.specs.Prelude.{[], ◌∷◌};
    ghost use Rattle.cbdc_model.specs.Records.{Batch, Answered, last_stamp};
    ghost use Rattle.cbdc_model.specs.Next.{next_lock, next_finish, next_forget, next_stamp};
    ghost use Rattle.cbdc_model.specs.Status.{status};
    ghost use Rattle.shard_core.specs.Stands.{ShardStands, IsSameState, IsLockReady, IsPlanReady, IsLaneFree, IsLanePast};
    ghost use Rattle.shard_core.specs.Plans.{core_plan, core_lock_plan, IsFinishPlan, IsForgetPlan};
    ghost use Rattle.shard_core.specs.Admitted.{ShardAdmits, IsLockAdmitted, IsFinishAdmitted, IsForgetAdmitted, IsOfShardLane, IsFinishable};
    ghost use Rattle.shard_core.specs.Next.{IsShardCoreOf, IsOpenTo};
    ghost use Rattle.cbdc_model.specs.After.{After, Follows};
    ghost use Rattle.cbdc_model.specs.Grammar.{IsInGrammar};
    ghost use Rattle.cbdc_model.specs.Room.{kept_room as room_kept};
    ghost use Rattle.cbdc_model.specs.Fates.{fate};
    ghost use Rattle.shard_core.specs.Counts.{CountsUnspent};

    /// The shard with this header whose journal holds the Genesis of these hashes alone.
    pub fn new(alloc: Global, header: &Header, hashes: &[Hash]) -> Result<ShardCore, AllocError>
        ensures header { IfOk result (λ core. core.header ≡ header.now) }
        ensures stands { IfOk result (λ core. ShardStands core (Record.Genesis header.now hashes.now ∷ [])) }
    {
        let lanes = header.shape.lane_count();
        let slots = Slots::new(alloc, lanes)?;
        let decisions = empty_decisions(alloc, lanes)?;
        let spare = no_parts(alloc, lanes)?;
        let unspent = table_of(alloc, hashes)?;
        Ok(ShardCore {
            alloc,
            header: *header,
            unspent,
            locks: Locks::new(alloc),
            slots,
            last: Stamp(0),
            ready: None,
            decisions,
            owed: 0,
            spare,
        })
    }

    /// The header. Takes no memory.
    pub fn header(&self) -> &Header
        ensures { result.now ≡ self.now.header }
    {
        &self.header
    }

    /// The stamp of the last record, 0 behind the Genesis alone. Takes no memory.
    pub fn last_stamp(&self) -> Stamp
        ensures { result ≡ self.now.last }
    {
        self.last
    }

    // One more than the greatest of the last stamp and the cause's.
    fn next_stamp(&self, cause: Stamp) -> Stamp
        requires { cause < 2 ^ 63 }
        ensures { (J : Items Record) → self.now.last ≡ last_stamp J → result ≡ next_stamp J cause }
    {
        Stamp(self.last.0.max(cause.0) + 1)
    }

    /// What a Lock is answered. Where it is to be appended, the memory of its apply is there. Where memory runs out
    /// the shard is as before.
    pub fn plan_lock(&mut self, call: &LockCall) -> Result<LockPlan, AllocError>
        requires lane { call.now.batch.lane
            < self.old.header.shape.coordinators * self.old.header.shape.lanes }
        requires cause { call.now.cause < 2 ^ 63 }
        ensures same { IsSameState self.old self.new }
        ensures ready { IfOk result (IsPlanReady self.new call.now.batch call.now.part) }
        ensures plan { IfOk result (λ p. (J : Items Record) → ShardStands self.old J
            → core_lock_plan p ≡ next_lock J call.now.batch call.now.part call.now.cause) }
    {
        let slot = self.slots.slot(call.batch.lane);
        match judge_lock(slot, call) {
            LockAnswer::Refused(why) => Ok(LockPlan::Refused(why)),
            LockAnswer::Again => Ok(LockPlan::Kept(kept_replies(self.alloc, slot)?)),
            LockAnswer::Next => {
                let stamp = self.next_stamp(call.cause);
                let entries = call.part.as_slice();
                let replies = replies_to(
                    self.alloc,
                    &self.unspent,
                    &self.locks,
                    entries,
                    &call.batch,
                )?;
                let mut spare = taken(self.alloc, &mut self.spare, call.batch.lane);
                let part = copy_of(self.alloc, &mut spare, entries)?;
                let kept = Vec::from_slice(self.alloc, replies.as_slice())?;
                self.make_room(List::from_vec(part), List::from_vec(kept))?;
                Ok(LockPlan::Append(Replied {
                    replies: List::from_vec(replies),
                    stamp,
                }))
            }
        }
    }

    // Takes the memory for a Lock of this part with these replies, and for its Finish.
    fn make_room(&mut self, part: Part, replies: List<Reply>) -> Result<(), AllocError>
        requires { length replies ≡ length part }
        ensures same { IsSameState self.old self.new }
        ensures ready { OnOk result (IsLockReady self.new part replies) }
    {
        let count = hash_count(part.as_slice());
        let decisions = Vec::with_capacity(self.alloc, part.len())?;
        self.locks.reserve(count)?;
        self.unspent.reserve(self.owed.saturating_add(count))?;
        self.ready = Some(Ready {
            part,
            replies,
            decisions,
            count,
        });
        Ok(())
    }

    /// What a Finish is answered. Takes no memory.
    pub fn plan_finish(&self, call: &FinishCall) -> StampPlan
        requires lane { call.now.batch.lane
            < self.now.header.shape.coordinators * self.now.header.shape.lanes }
        requires cause { call.now.cause < 2 ^ 63 }
        ensures plan { (J : Items Record) → ShardStands self.now J
            → core_plan result ≡ next_finish J call.now.batch call.now.decisions call.now.cause }
        ensures ready { IsFinishPlan result self.now call.now.batch call.now.decisions }
    {
        let next = self.next_stamp(call.cause);
        judge_finish(self.slots.slot(call.batch.lane), call, next)
    }

    /// What a Forget is answered. Takes no memory.
    pub fn plan_forget(&self, call: &ForgetCall) -> StampPlan
        requires lane { call.now.batch.lane
            < self.now.header.shape.coordinators * self.now.header.shape.lanes }
        requires cause { call.now.cause < 2 ^ 63 }
        ensures plan { (J : Items Record) → ShardStands self.now J
            → core_plan result ≡ next_forget J call.now.batch call.now.cause }
        ensures ready { IsForgetPlan result self.now call.now.batch }
    {
        let next = self.next_stamp(call.cause);
        judge_forget(self.slots.slot(call.batch.lane), call, next)
    }

    /// Whether a record is the next one. Where it is, the memory of its apply is there. Where memory runs out the
    /// shard is as before.
    ///
    /// State as before; yes only where the record may be taken in; for a core that stands for a shard's journal with its first record, yes exactly
    /// where the record is in the grammar and follows the journal, a Lock with the replies that the shard gives.
    pub fn admit(&mut self, r: &Record) -> Result<bool, AllocError>
        ensures same { IsSameState self.old self.new }
        ensures admitted { IfOk result (λ yes. OnTrue yes (ShardAdmits self.new r.now)) }
        ensures next { IfOk result (λ yes. (J : Items Record) → IsShardCoreOf self.old J
            → (IsTrue yes ↔ After self.old.header J r.now)) }
    {
        if !is_in_grammar(&self.header, r) {
            return Ok(false);
        }
        self.admit_known(r)
    }

    /// The same of a record that is known to be in the grammar of the shard's journals.
    pub(crate) fn admit_known(&mut self, r: &Record) -> Result<bool, AllocError>
        requires { IsInGrammar self.old.header r.now }
        ensures same { IsSameState self.old self.new }
        ensures admitted { IfOk result (λ yes. OnTrue yes (ShardAdmits self.new r.now)) }
        ensures next { IfOk result (λ yes. (J : Items Record) → IsShardCoreOf self.old J
            → (IsTrue yes ↔ After self.old.header J r.now)) }
    {
        match r {
            Record::Lock {
                stamp,
                batch,
                entries,
            } => self.admit_lock(*stamp, batch, entries.as_slice()),
            Record::Finish {
                stamp,
                batch,
                decisions,
            } => Ok(self.is_next_finish(*stamp, batch, decisions.as_slice())),
            Record::Forget { stamp, batch } => Ok(self.is_next_forget(*stamp, batch)),
            _ => Ok(false),
        }
    }

    fn admit_lock(
        &mut self,
        stamp: Stamp,
        batch: &BatchId,
        answered: &[Answered],
    ) -> Result<bool, AllocError>
        requires { IsOfShardLane self.old batch.now stamp }
        ensures same { IsSameState self.old self.new }
        ensures admitted { IfOk result
            (λ yes. OnTrue yes (IsLockAdmitted self.new (Record.Lock stamp batch.now answered.now))) }
        ensures next { IfOk result (λ yes. (J : Items Record) → ShardStands self.old J
            → (IsTrue yes ↔ Follows self.old.header J (Record.Lock stamp batch.now answered.now))) }
    {
        if !self.is_open_to(stamp, batch) {
            return Ok(false);
        }
        let mut spare = taken(self.alloc, &mut self.spare, batch.lane);
        let entries = entries_of(self.alloc, &mut spare, answered)?;
        let replies = replies_to(
            self.alloc,
            &self.unspent,
            &self.locks,
            entries.as_slice(),
            batch,
        )?;
        if !same_replies(answered, replies.as_slice()) {
            return Ok(false);
        }
        self.make_room(List::from_vec(entries), List::from_vec(replies))?;
        Ok(true)
    }

    // Whether the lane is free for a Lock of the batch with this stamp.
    fn is_open_to(&self, stamp: Stamp, batch: &BatchId) -> bool
        requires { IsOfShardLane self.now batch.now stamp }
        ensures free { OnTrue result (IsLaneFree self.now batch.now.lane) }
        ensures lane { (J : Items Record) → ShardStands self.now J
            → (IsTrue result ↔ IsOpenTo J batch.now stamp) }
    {
        if stamp.0 <= self.last_stamp().0 {
            return false;
        }
        match self.slots.slot(batch.lane) {
            LaneSlot::Idle { number, .. } => *number < batch.number,
            LaneSlot::Locked { .. } => false,
            LaneSlot::Finished { .. } => false,
        }
    }

    fn is_next_finish(&self, stamp: Stamp, batch: &BatchId, decisions: &[bool]) -> bool
        requires { IsOfShardLane self.now batch.now stamp }
        ensures locked { OnTrue result (IsFinishable self.now batch.now decisions.now) }
        ensures next { (J : Items Record) → ShardStands self.now J
            → (IsTrue result ↔ Follows self.now.header J (Record.Finish stamp batch.now decisions.now)) }
    {
        if stamp.0 <= self.last_stamp().0 {
            return false;
        }
        match self.slots.slot(batch.lane) {
            LaneSlot::Idle { .. } => false,
            LaneSlot::Locked {
                number,
                replies,
                ..
            } => *number == batch.number && misfit(replies.as_slice(), decisions).is_none(),
            LaneSlot::Finished { .. } => false,
        }
    }

    fn is_next_forget(&self, stamp: Stamp, batch: &BatchId) -> bool
        requires { IsOfShardLane self.now batch.now stamp }
        ensures done { OnTrue result (IsLanePast self.now batch.now.lane) }
        ensures next { (J : Items Record) → ShardStands self.now J
            → (IsTrue result ↔ Follows self.now.header J (Record.Forget stamp batch.now)) }
    {
        if stamp.0 <= self.last_stamp().0 {
            return false;
        }
        match self.slots.slot(batch.lane) {
            LaneSlot::Idle { .. } => false,
            LaneSlot::Locked { .. } => false,
            LaneSlot::Finished { number, .. } => *number == batch.number,
        }
    }

    /// Takes in a Lock that was appended. Takes no memory.
    pub fn apply_lock(&mut self, r: &Record)
        requires { IsLockAdmitted self.old r.now }
        ensures stands { (J : Items Record) → ShardStands self.old J → ShardStands self.new (r.now ∷ J) }
        ensures header { self.new.header ≡ self.old.header }
    {
        let Record::Lock {
            stamp,
            batch,
            entries,
        } = r
        else {
            unreachable!();
        };
        let ready = self.ready.take().unwrap();
        let Ready {
            part,
            replies,
            decisions,
            count,
        } = ready;
        lock_held(
            &mut self.unspent,
            &mut self.locks,
            entries.as_slice(),
            batch,
        );
        let slot = LaneSlot::Locked {
            number: batch.number,
            part,
            replies,
            locked_at: *stamp,
        };
        self.slots.put(batch.lane, slot);
        swap_memory(&mut self.decisions, batch.lane, decisions);
        self.owed += count;
        self.last = *stamp;
    }

    /// Takes in a Finish that was appended. Takes no memory.
    pub fn apply_finish(&mut self, r: &Record)
        requires { IsFinishAdmitted self.old r.now }
        ensures stands { (J : Items Record) → ShardStands self.old J → ShardStands self.new (r.now ∷ J) }
        ensures header { self.new.header ≡ self.old.header }
    {
        let Record::Finish {
            stamp,
            batch,
            decisions,
        } = r
        else {
            unreachable!();
        };
        let LaneSlot::Locked {
            number,
            part,
            replies,
            locked_at,
        } = self.slots.take(batch.lane)
        else {
            unreachable!();
        };
        let ds = decisions.as_slice();
        let unspent = &mut self.unspent;
        let locks = &mut self.locks;
        take_committed(unspent, locks, part.as_slice(), ds);
        return_others(unspent, locks, part.as_slice(), replies.as_slice(), ds);
        make_committed(unspent, locks, part.as_slice(), ds);
        self.owed -= hash_count(part.as_slice());
        let memory = swap_memory(&mut self.decisions, batch.lane, Vec::new(self.alloc));
        let kept = decided(memory, ds);
        let slot = LaneSlot::Finished {
            number,
            part,
            replies,
            decisions: kept,
            locked_at,
            finished_at: *stamp,
        };
        self.slots.put(batch.lane, slot);
        self.last = *stamp;
    }

    /// Takes in a Forget that was appended. Takes no memory.
    pub fn apply_forget(&mut self, r: &Record)
        requires { IsForgetAdmitted self.old r.now }
        ensures stands { (J : Items Record) → ShardStands self.old J → ShardStands self.new (r.now ∷ J) }
        ensures header { self.new.header ≡ self.old.header }
    {
        let Record::Forget { stamp, batch } = r else {
            unreachable!();
        };
        let forgotten = self.slots.take(batch.lane);
        let slot = LaneSlot::Idle {
            number: batch.number,
            stamp: *stamp,
        };
        self.slots.put(batch.lane, slot);
        self.last = *stamp;
        keep(
            &mut self.spare,
            batch.lane,
            finished_part(self.alloc, forgotten),
        );
    }

    /// What the shard knows of a hash. Takes no memory.
    pub fn check_unspent(&self, x: &Hash) -> Status
        ensures { (J : Items Record) → ShardStands self.now J → result ≡ status J x.now }
    {
        status_of(&self.unspent, &self.locks, x)
    }

    /// How many hashes are unspent. Takes no memory.
    pub fn unspent_len(&self) -> u64
        ensures { (J : Items Record) → ShardStands self.now J → CountsUnspent J result }
    {
        self.unspent.len()
    }

    /// What is remembered of a transaction: of the batches that are locked or finished here and have this id, that of
    /// the least lane decides. Takes no memory.
    pub fn check_tx(&self, id: &Hash) -> Option<Remembered>
        ensures { (J : Items Record) → ShardStands self.now J
            → told_fate result ≡ fate self.now.header.shape J id.now }
    {
        for lane in 0..self.header.shape.lane_count() {
            let found = remembered_in(self.slots.slot(LaneId(lane)), id);
            if found.is_some() {
                return found;
            }
        }
        None
    }

    /// The bytes that are kept free in the journal for the later records of unfinished batches, or the greatest number
    /// where they are more. Takes no memory.
    pub fn kept_room(&self) -> u64
        ensures { (J : Items Record) → ShardStands self.now J
            → result ≡ min (room_kept self.now.header.shape J) (2 ^ 64 - 1) }
    {
        let mut room = 0u64;
        for lane in 0..self.header.shape.lane_count() {
            room = room.saturating_add(room_of(self.slots.slot(LaneId(lane))));
        }
        room
    }
}

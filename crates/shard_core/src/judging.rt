// What a call is answered, by the slot of its lane.
ghost use Rattle.std.specs.Prelude.{◌≡◌, ◌≢◌, false, ◌≤◌, ◌<◌, MatchBool, IfOk, ℕ, List as Items};
ghost use Rattle.cbdc_model.specs.Records.{Record, Entry, Reply, Batch};
ghost use Rattle.cbdc_model.specs.Next.{next_forget, next_finish, next_stamp};
ghost use Rattle.cbdc_model.specs.Records.{lock_of};
ghost use Rattle.cbdc_model.specs.Next.{is_idle};
ghost use Rattle.cbdc_model.specs.Slots.{Phase, slot as slot_of};
ghost use Rattle.cbdc_model.specs.Replies.{entries};
ghost use Rattle.shard_core.specs.Slots.{SlotStands, slot_number, batch_numbered};
ghost use Rattle.shard_core.specs.Judged.{IsLockJudged, FitsLock, FitsFinish, FitsForget, SlotRemembers, RemembersAgain, kept_at};
ghost use Rattle.shard_core.specs.Plans.{core_plan, core_replies};

use crate::LaneSlot;
use crate::comparing::{misfit, other_decisions, other_part};
use crate::plans::StampPlan;
use cbdc_types::{
    Entry, FinishCall, ForgetCall, List, LockCall, Part, Refused, Replied, Reply, Stamp,
};
use std::alloc::{AllocError, Global};

// What a Lock is answered, before any memory is taken.
pub enum LockAnswer {
    Refused(Refused),
    Again,
    Next,
}

// A slot's number.
fn number_of(slot: &LaneSlot) -> u64
    ensures { result ≡ slot_number slot.now }
{
    match slot {
        LaneSlot::Idle { number, .. } => *number,
        LaneSlot::Locked { number, .. } => *number,
        LaneSlot::Finished { number, .. } => *number,
    }
}

// What a Lock is answered where no batch of the lane is remembered.
fn lock_idle(number: u64, stamp: Stamp, call: &LockCall) -> LockAnswer
    ensures again { RemembersAgain result (LaneSlot.Idle number stamp) call.now.batch.number }
    ensures judged { (J : Items Record) → SlotStands (LaneSlot.Idle number stamp) J call.now.batch.lane
        → IsLockJudged result J call.now.batch call.now.part call.now.cause }
{
    let given = call.batch.number;
    if given <= number {
        return LockAnswer::Refused(Refused::Stale { kept: number });
    }
    if is_early(call.cause, stamp) {
        return LockAnswer::Refused(Refused::EarlyStamp { kept: stamp });
    }
    LockAnswer::Next
}

// What a Lock is answered where the lane's last batch is remembered with this part.
fn lock_open(number: u64, part: &[Entry], call: &LockCall) -> LockAnswer
    ensures not_next { result ≢ LockAnswer.Next }
    ensures judged { (J : Items Record) (p : Phase)
        → slot_of J call.now.batch.lane ≡ record { number = number; phase = p }
        → is_idle p ≡ false → entries (lock_of J (batch_numbered call.now.batch.lane number)) ≡ part.now
        → IsLockJudged result J call.now.batch call.now.part call.now.cause }
    ensures again { result ≡ LockAnswer.Again → call.now.batch.number ≡ number }
{
    let given = call.batch.number;
    if given < number {
        return LockAnswer::Refused(Refused::Stale { kept: number });
    }
    if number < given {
        return LockAnswer::Refused(Refused::LaneOpen { kept: number });
    }
    match other_part(part, call.part.as_slice()) {
        Some(at) => LockAnswer::Refused(Refused::OtherPart { at }),
        None => LockAnswer::Again,
    }
}

// What a Lock of the lane of this slot is answered.
pub fn judge_lock(slot: &LaneSlot, call: &LockCall) -> LockAnswer
    ensures next { FitsLock result slot.now }
    ensures again { RemembersAgain result slot.now call.now.batch.number }
    ensures judged { (J : Items Record) → SlotStands slot.now J call.now.batch.lane
        → IsLockJudged result J call.now.batch call.now.part call.now.cause }
{
    match slot {
        LaneSlot::Idle { number, stamp } => lock_idle(*number, *stamp, call),
        LaneSlot::Locked { number, part, .. } => lock_open(*number, part.as_slice(), call),
        LaneSlot::Finished { number, part, .. } => lock_open(*number, part.as_slice(), call),
    }
}

// The replies that a slot keeps, and the stamp of its Lock.
pub fn kept_replies(alloc: Global, slot: &LaneSlot) -> Result<Replied, AllocError>
    ensures { IfOk result (λ r. (J : Items Record) (b : Batch)
        → SlotStands slot.now J b.lane → SlotRemembers slot.now b.number → core_replies r ≡ kept_at J b) }
{
    match slot {
        LaneSlot::Idle { stamp, .. } => Ok(Replied {
            replies: List::new(alloc),
            stamp: *stamp,
        }),
        LaneSlot::Locked {
            replies,
            locked_at,
            ..
        } => replied(alloc, replies, *locked_at),
        LaneSlot::Finished {
            replies,
            locked_at,
            ..
        } => replied(alloc, replies, *locked_at),
    }
}

fn replied(alloc: Global, replies: &List<Reply>, stamp: Stamp) -> Result<Replied, AllocError>
    ensures { IfOk result (λ r. core_replies r ≡ record { given = replies.now; at = stamp }) }
{
    Ok(Replied {
        replies: List::from_vec(Vec::from_slice(alloc, replies.as_slice())?),
        stamp,
    })
}

// Why a Finish or a Forget is refused whose number is not that of the lane's last batch.
fn other_number(number: u64, given: u64) -> Refused
    ensures stale { given < number → result ≡ Refused.Stale number }
    ensures ahead { number < given → result ≡ Refused.NotLocked number }
{
    if given < number {
        Refused::Stale { kept: number }
    } else {
        Refused::NotLocked { kept: number }
    }
}

// Whether the cause is no later than the stamp.
fn is_early(cause: Stamp, stamp: Stamp) -> bool
    ensures { MatchBool result (cause ≤ stamp) (stamp < cause) }
{
    cause.0 <= stamp.0
}

// What a Finish is answered where its batch is locked with these replies, under this stamp.
fn finish_locked(replies: &[Reply], stamp: Stamp, call: &FinishCall, next: Stamp) -> StampPlan
    ensures next { (part : Items Entry) → FitsFinish result
        (LaneSlot.Locked call.now.batch.number part replies.now stamp) call.now.batch.number call.now.decisions }
    ensures plan { (J : Items Record) (part : Items Entry)
        → SlotStands (LaneSlot.Locked call.now.batch.number part replies.now stamp) J call.now.batch.lane
        → next ≡ next_stamp J call.now.cause
        → core_plan result ≡ next_finish J call.now.batch call.now.decisions call.now.cause }
{
    match misfit(replies, call.decisions.as_slice()) {
        Some(at) => StampPlan::Refused(Refused::OtherOutcome { at }),
        None if is_early(call.cause, stamp) => {
            StampPlan::Refused(Refused::EarlyStamp { kept: stamp })
        }
        None => StampPlan::Append(next),
    }
}

// What a Finish is answered where its batch is finished with these decisions, under this stamp.
fn finish_again(decisions: &[bool], stamp: Stamp, call: &FinishCall) -> StampPlan
    ensures next { (part : Items Entry) (rs : Items Reply) (t : ℕ) → FitsFinish result
        (LaneSlot.Finished call.now.batch.number part rs decisions.now t stamp) call.now.batch.number call.now.decisions }
    ensures plan { (J : Items Record) (part : Items Entry) (rs : Items Reply) (t : ℕ)
        → SlotStands (LaneSlot.Finished call.now.batch.number part rs decisions.now t stamp) J call.now.batch.lane
        → core_plan result ≡ next_finish J call.now.batch call.now.decisions call.now.cause }
{
    match other_decisions(decisions, call.decisions.as_slice()) {
        Some(at) => StampPlan::Refused(Refused::OtherOutcome { at }),
        None => StampPlan::Kept(stamp),
    }
}

// What a Finish of the lane of this slot is answered, where `next` is the stamp of a new record.
pub fn judge_finish(slot: &LaneSlot, call: &FinishCall, next: Stamp) -> StampPlan
    ensures next { FitsFinish result slot.now call.now.batch.number call.now.decisions }
    ensures plan { (J : Items Record)
        → SlotStands slot.now J call.now.batch.lane → next ≡ next_stamp J call.now.cause
        → core_plan result ≡ next_finish J call.now.batch call.now.decisions call.now.cause }
{
    let given = call.batch.number;
    let number = number_of(slot);
    if given != number {
        return StampPlan::Refused(other_number(number, given));
    }
    match slot {
        LaneSlot::Idle { .. } => StampPlan::Refused(Refused::Stale { kept: number }),
        LaneSlot::Locked {
            replies,
            locked_at,
            ..
        } => finish_locked(replies.as_slice(), *locked_at, call, next),
        LaneSlot::Finished {
            decisions,
            finished_at,
            ..
        } => finish_again(decisions.as_slice(), *finished_at, call),
    }
}

// What a Forget of the lane of this slot is answered.
#[tactic(auto, using(crate::proofs::Forgets::forgets))]
pub fn judge_forget(slot: &LaneSlot, call: &ForgetCall, next: Stamp) -> StampPlan
    ensures next { FitsForget result slot.now }
    ensures plan { (J : Items Record) → SlotStands slot.now J call.now.batch.lane → next
        ≡ next_stamp J call.now.cause → core_plan result ≡ next_forget J call.now.batch call.now.cause }
{
    let given = call.batch.number;
    let number = number_of(slot);
    if given != number {
        return StampPlan::Refused(other_number(number, given));
    }
    match slot {
        LaneSlot::Idle { stamp, .. } => StampPlan::Kept(*stamp),
        LaneSlot::Locked { .. } => StampPlan::Refused(Refused::NotFinished { kept: number }),
        LaneSlot::Finished { finished_at, .. } => {
            if is_early(call.cause, *finished_at) {
                StampPlan::Refused(Refused::EarlyStamp { kept: *finished_at })
            } else {
                StampPlan::Append(next)
            }
        }
    }
}

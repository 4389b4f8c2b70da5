// What a shard with a journal answers to a call.
ghost use Rattle.std.specs.Prelude.{◌≡◌, ◌<◌, ◌^◌, IfOk};
ghost use Rattle.cbdc_model.specs.Records.{last_stamp, record_of, decisions_in, stamp_in, finish_kind};
ghost use Rattle.cbdc_model.specs.Next.{next_stamp, next_lock, next_finish, next_forget, lock_again, finish_again, finish_now, finish_in, forget_in, is_idle};
ghost use Rattle.same_records.specs.Slots.{phase_in};
ghost use Rattle.plain_check.specs.Plans.{locking_plan, plain_plan};

use crate::comparing::{misfit, other_decisions, other_part};
use crate::copying::replies_in;
use crate::plans::{LockPlan, StampPlan};
use crate::replying::replies_of;
use cbdc_types::{
    BatchId, FinishCall, ForgetCall, LockCall, Record, RecordKind, Refused, Replied, Stamp,
};
use same_records::{Phase, last_stamp, lock_of, record_of, slot_of, slot_stamp, stamp_of};
use std::alloc::{AllocError, Global};

/// Whether a phase is Idle.
pub fn is_idle(phase: Phase) -> bool
    ensures { result ≡ is_idle (phase_in phase) }
{
    match phase {
        Phase::Idle => true,
        Phase::InLock => false,
        Phase::InFinish => false,
        Phase::InPrepare => false,
        Phase::InCommit => false,
        Phase::InDiscard => false,
    }
}

/// One more than the greatest of the journal's last stamp and the cause's.
pub fn next_stamp(past: &[Record], cause: Stamp) -> Stamp
    requires last { last_stamp past.now < 2 ^ 63 }
    requires cause { cause < 2 ^ 63 }
    ensures { result ≡ next_stamp past.now cause }
{
    Stamp(last_stamp(past).0.max(cause.0) + 1)
}

/// The stamp of the newest record of a kind of a batch, 0 where there is none.
pub fn stamp_of_kind(kind: u64, past: &[Record], batch: &BatchId) -> Stamp
    ensures { result ≡ stamp_in (record_of kind past.now batch.now) }
{
    match record_of(kind, past, batch) {
        Some(r) => stamp_of(r),
        None => Stamp(0),
    }
}

/// The decisions of a batch's Finish, none where there is no Finish.
pub fn finished_decisions<'a>(past: &'a [Record], batch: &BatchId) -> &'a [bool]
    ensures { result.now ≡ decisions_in (record_of finish_kind past.now batch.now) }
{
    match record_of(RecordKind::Finish as u64, past, batch) {
        Some(Record::Finish { decisions, .. }) => decisions.as_slice(),
        _ => &[],
    }
}

// What a Lock is answered where the lane's last batch is this one.
fn lock_again(
    alloc: Global,
    other: Option<u64>,
    past: &[Record],
    batch: &BatchId,
) -> Result<LockPlan, AllocError>
    ensures { IfOk result (λ p. locking_plan p ≡ lock_again other past.now batch.now) }
{
    if let Some(at) = other {
        return Ok(LockPlan::Refuse(Refused::OtherPart { at }));
    }
    Ok(LockPlan::Kept(Replied {
        replies: replies_in(alloc, lock_of(past, batch))?,
        stamp: stamp_of_kind(RecordKind::Lock as u64, past, batch),
    }))
}

/// What a shard with this journal answers to a Lock: a batch behind the lane's number is stale, the same number is
/// answered as before, an open lane and a cause that isn't later than the lane's last record refuse.
pub fn next_lock(alloc: Global, past: &[Record], call: &LockCall) -> Result<LockPlan, AllocError>
    requires last { last_stamp past.now < 2 ^ 63 }
    requires cause { call.now.cause < 2 ^ 63 }
    ensures { IfOk result
        (λ p. locking_plan p ≡ next_lock past.now call.now.batch call.now.part call.now.cause) }
{
    let slot = slot_of(past, call.batch.lane);
    let number = call.batch.number;
    let idle = is_idle(slot.phase);
    if number < slot.number || (number == slot.number && idle) {
        return Ok(LockPlan::Refuse(Refused::Stale { kept: slot.number }));
    }
    if number == slot.number {
        let other = other_part(lock_of(past, &call.batch), call.part.as_slice());
        return lock_again(alloc, other, past, &call.batch);
    }
    if !idle {
        return Ok(LockPlan::Refuse(Refused::LaneOpen { kept: slot.number }));
    }
    let kept = slot_stamp(past, call.batch.lane);
    if call.cause.0 <= kept.0 {
        return Ok(LockPlan::Refuse(Refused::EarlyStamp { kept }));
    }
    let answered = replies_of(alloc, past, &call.batch, call.part.as_slice())?;
    Ok(LockPlan::Append(Replied {
        replies: replies_in(alloc, answered.as_slice())?,
        stamp: next_stamp(past, call.cause),
    }))
}

// What a Finish is answered where the batch is finished here.
fn finish_again(other: Option<u64>, past: &[Record], batch: &BatchId) -> StampPlan
    ensures { plain_plan result ≡ finish_again other past.now batch.now }
{
    match other {
        Some(at) => StampPlan::Refuse(Refused::OtherOutcome { at }),
        None => StampPlan::Kept(stamp_of_kind(RecordKind::Finish as u64, past, batch)),
    }
}

// What a Finish is answered where the batch is locked here.
fn finish_now(other: Option<u64>, past: &[Record], call: &FinishCall) -> StampPlan
    requires last { last_stamp past.now < 2 ^ 63 }
    requires cause { call.now.cause < 2 ^ 63 }
    ensures { plain_plan result ≡ finish_now other past.now call.now.batch.lane call.now.cause }
{
    if let Some(at) = other {
        return StampPlan::Refuse(Refused::OtherOutcome { at });
    }
    let kept = slot_stamp(past, call.batch.lane);
    if call.cause.0 <= kept.0 {
        return StampPlan::Refuse(Refused::EarlyStamp { kept });
    }
    StampPlan::Append(next_stamp(past, call.cause))
}

// What a Finish is answered in a phase of its batch.
fn finish_in(phase: Phase, past: &[Record], call: &FinishCall) -> StampPlan
    requires last { last_stamp past.now < 2 ^ 63 }
    requires cause { call.now.cause < 2 ^ 63 }
    ensures { plain_plan result
        ≡ finish_in (phase_in phase) past.now call.now.batch call.now.decisions call.now.cause }
{
    match phase {
        Phase::InFinish => {
            let kept = finished_decisions(past, &call.batch);
            finish_again(
                other_decisions(kept, call.decisions.as_slice()),
                past,
                &call.batch,
            )
        }
        Phase::InLock => {
            let locked = lock_of(past, &call.batch);
            finish_now(misfit(locked, call.decisions.as_slice()), past, call)
        }
        Phase::Idle | Phase::InPrepare | Phase::InCommit | Phase::InDiscard => {
            StampPlan::Refuse(Refused::NotLocked {
                kept: slot_of(past, call.batch.lane).number,
            })
        }
    }
}

/// What a shard with this journal answers to a Finish: it is for a locked batch, with as many decisions as entries and
/// commits only for Held.
pub fn next_finish(past: &[Record], call: &FinishCall) -> StampPlan
    requires last { last_stamp past.now < 2 ^ 63 }
    requires cause { call.now.cause < 2 ^ 63 }
    ensures { plain_plan result ≡ next_finish past.now call.now.batch call.now.decisions call.now.cause }
{
    let slot = slot_of(past, call.batch.lane);
    let number = call.batch.number;
    if number < slot.number || (number == slot.number && is_idle(slot.phase)) {
        return StampPlan::Refuse(Refused::Stale { kept: slot.number });
    }
    if slot.number < number {
        return StampPlan::Refuse(Refused::NotLocked { kept: slot.number });
    }
    finish_in(slot.phase, past, call)
}

// What a Forget is answered in a phase of its batch.
fn forget_in(phase: Phase, past: &[Record], call: &ForgetCall) -> StampPlan
    requires last { last_stamp past.now < 2 ^ 63 }
    requires cause { call.now.cause < 2 ^ 63 }
    ensures { plain_plan result ≡ forget_in (phase_in phase) past.now call.now.batch call.now.cause }
{
    let kept = slot_stamp(past, call.batch.lane);
    match phase {
        Phase::Idle => StampPlan::Kept(kept),
        Phase::InFinish => {
            if call.cause.0 <= kept.0 {
                StampPlan::Refuse(Refused::EarlyStamp { kept })
            } else {
                StampPlan::Append(next_stamp(past, call.cause))
            }
        }
        Phase::InLock | Phase::InPrepare | Phase::InCommit | Phase::InDiscard => {
            StampPlan::Refuse(Refused::NotFinished {
                kept: call.batch.number,
            })
        }
    }
}

/// What a shard with this journal answers to a Forget: it is for a finished batch.
pub fn next_forget(past: &[Record], call: &ForgetCall) -> StampPlan
    requires last { last_stamp past.now < 2 ^ 63 }
    requires cause { call.now.cause < 2 ^ 63 }
    ensures { plain_plan result ≡ next_forget past.now call.now.batch call.now.cause }
{
    let slot = slot_of(past, call.batch.lane);
    let number = call.batch.number;
    if number < slot.number {
        return StampPlan::Refuse(Refused::Stale { kept: slot.number });
    }
    if slot.number < number {
        return StampPlan::Refuse(Refused::NotLocked { kept: slot.number });
    }
    forget_in(slot.phase, past, call)
}

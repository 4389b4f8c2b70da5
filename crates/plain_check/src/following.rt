// Which record may come next at a node, by its journal alone.
ghost use Rattle.std.specs.Prelude.{◌≡◌, ◌<◌, ◌↔◌, ℕ, List as Items, [], IsTrue, IfOk};
ghost use Rattle.cbdc_model.specs.Records.{Compact, Prepare, last_stamp, lock_of};
ghost use Rattle.cbdc_model.specs.Ranges.{home_of};
ghost use Rattle.cbdc_model.specs.Replies.{answered, entries};
ghost use Rattle.cbdc_model.specs.Slots.{slot, Idle, InLock};
ghost use Rattle.cbdc_model.specs.After.{IsAtRest, IsUnsealed, FitsReplies, Follows, After};
ghost use Rattle.same_records.specs.Slots.{phase_in};

use crate::copying::entries_in;
use crate::nexts::is_idle;
use crate::replying::replies_of;
use cbdc_types::{Answered, BatchId, Header, LaneId, Record, RecordKind, Stamp};
use record_grammar::is_in_grammar;
use same_records::{
    Phase, are_answered, home_of, is_held, kind_of, last_stamp, lock_of, slot_of, txs_of,
};
use std::alloc::{AllocError, Global};

/// Whether there are as many decisions as entries, and commits only for Held.
pub fn fits_replies(es: &[Answered], decisions: &[bool]) -> bool
    ensures { IsTrue result ↔ FitsReplies es.now decisions.now }
{
    match (es.split_first(), decisions.split_first()) {
        (None, None) => true,
        (Some((a, others)), Some((d, rest))) => {
            (!*d || is_held(&a.reply)) && fits_replies(others, rest)
        }
        _ => false,
    }
}

// Whether the stamp is later than the journal's last one.
fn is_newer(past: &[Record], stamp: Stamp) -> bool
    ensures { IsTrue result ↔ (last_stamp past.now < stamp) }
{
    last_stamp(past).0 < stamp.0
}

// Whether the lane's last record is of this batch, in this phase.
fn is_in(past: &[Record], batch: &BatchId, phase: Phase) -> bool
    ensures { IsTrue result ↔ (((slot past.now batch.now.lane).phase ≡ phase_in phase)
        × ((slot past.now batch.now.lane).number ≡ batch.now.number)) }
{
    let own = slot_of(past, batch.lane);
    own.phase == phase && own.number == batch.number
}

// Whether the answered entries are what a shard with this journal replies to them.
fn are_replies(
    alloc: Global,
    past: &[Record],
    batch: &BatchId,
    es: &[Answered],
) -> Result<bool, AllocError>
    ensures { IfOk result (λ yes. IsTrue yes ↔ (es.now ≡ answered past.now batch.now [] (entries es.now))) }
{
    let part = entries_in(alloc, es)?;
    let own = replies_of(alloc, past, batch, part.as_slice())?;
    Ok(are_answered(es, own.as_slice()))
}

// Whether a Lock of this batch may come next, but for its replies.
fn is_next_lock(past: &[Record], stamp: Stamp, batch: &BatchId) -> bool
    ensures { IsTrue result ↔ ((last_stamp past.now < stamp) × ((slot past.now batch.now.lane).phase ≡ Idle)
        × ((slot past.now batch.now.lane).number < batch.now.number)) }
{
    let own = slot_of(past, batch.lane);
    is_newer(past, stamp) && own.phase == Phase::Idle && own.number < batch.number
}

// Whether no Seal stands in the journal.
#[tactic(auto, using(crate::proofs::Sealing::unsealed_none, crate::proofs::Sealing::unsealed_more))]
fn is_unsealed(past: &[Record]) -> bool
    ensures { IsTrue result ↔ IsUnsealed past.now }
{
    match past.split_first() {
        None => true,
        Some((r, rest)) => kind_of(r) != RecordKind::Seal as u64 && is_unsealed(rest),
    }
}

// Whether a Prepare of this batch may come next.
fn is_next_prepare(h: &Header, past: &[Record], stamp: Stamp, batch: &BatchId) -> bool
    ensures { (txs : Items Compact) → IsTrue result ↔ Follows h.now past.now (Prepare stamp batch.now txs) }
{
    let own = slot_of(past, batch.lane);
    is_newer(past, stamp)
        && h.node.0 == home_of(&h.shape, batch.lane).0
        && own.phase == Phase::Idle
        && 0 < batch.number
        && own.number == batch.number - 1
        && is_unsealed(past)
}

// Whether none of the lanes below n has an unfinished batch in the journal.
fn rests_below(past: &[Record], n: u32) -> bool
    ensures { IsTrue result ↔ ((lane : ℕ) → lane < n → (slot past.now lane).phase ≡ Idle) }
{
    if n == 0 {
        return true;
    }
    is_idle(slot_of(past, LaneId(n - 1)).phase) && rests_below(past, n - 1)
}

// Whether an Upgrade or a Seal may come next.
fn is_next_at_rest(h: &Header, past: &[Record], stamp: Stamp) -> bool
    ensures { IsTrue result
        ↔ ((last_stamp past.now < stamp) × IsAtRest h.now.shape past.now × IsUnsealed past.now) }
{
    is_newer(past, stamp) && rests_below(past, h.shape.lane_count()) && is_unsealed(past)
}

// Whether a record behind this batch's Prepare may come next, where the lane's last record is in this phase.
fn is_next_own(h: &Header, past: &[Record], stamp: Stamp, batch: &BatchId, phase: Phase) -> bool
    ensures { IsTrue result ↔ ((last_stamp past.now < stamp)
        × (h.now.node ≡ home_of h.now.shape batch.now.lane)
        × ((slot past.now batch.now.lane).phase ≡ phase_in phase)
        × ((slot past.now batch.now.lane).number ≡ batch.now.number)) }
{
    is_newer(past, stamp)
        && h.node.0 == home_of(&h.shape, batch.lane).0
        && is_in(past, batch, phase)
}

// Whether a Finish of this batch may come next.
fn is_next_finish(past: &[Record], stamp: Stamp, batch: &BatchId, decisions: &[bool]) -> bool
    ensures { IsTrue result ↔ ((last_stamp past.now < stamp) × ((slot past.now batch.now.lane).phase ≡ InLock)
        × ((slot past.now batch.now.lane).number ≡ batch.now.number)
        × FitsReplies (lock_of past.now batch.now) decisions.now) }
{
    is_newer(past, stamp)
        && is_in(past, batch, Phase::InLock)
        && fits_replies(lock_of(past, batch), decisions)
}

/// Whether a record follows the journal of the node with this header, by the phases of its lane.
pub fn follows(alloc: Global, h: &Header, past: &[Record], r: &Record) -> Result<bool, AllocError>
    ensures { IfOk result (λ yes. IsTrue yes ↔ Follows h.now past.now r.now) }
{
    match r {
        Record::Genesis { .. } => Ok(past.is_empty()),
        Record::Start { .. } => Ok(past.is_empty()),
        Record::Lock {
            stamp,
            batch,
            entries,
        } => {
            if !is_next_lock(past, *stamp, batch) {
                return Ok(false);
            }
            are_replies(alloc, past, batch, entries.as_slice())
        }
        Record::Finish {
            stamp,
            batch,
            decisions,
        } => Ok(is_next_finish(past, *stamp, batch, decisions.as_slice())),
        Record::Forget { stamp, batch } => {
            Ok(is_newer(past, *stamp) && is_in(past, batch, Phase::InFinish))
        }
        Record::Prepare { stamp, batch, .. } => Ok(is_next_prepare(h, past, *stamp, batch)),
        Record::Commit {
            stamp,
            batch,
            outcomes,
        } => Ok(
            is_next_own(h, past, *stamp, batch, Phase::InPrepare)
                && outcomes.len() == txs_of(past, batch).len(),
        ),
        Record::Discard { stamp, batch } => {
            Ok(is_next_own(h, past, *stamp, batch, Phase::InCommit))
        }
        Record::Done { stamp, batch } => {
            Ok(is_next_own(h, past, *stamp, batch, Phase::InDiscard))
        }
        Record::Upgrade { stamp, .. } => Ok(is_next_at_rest(h, past, *stamp)),
        Record::Carry { .. } => Ok(past.is_empty()),
        Record::CarryStart { .. } => Ok(past.is_empty()),
        Record::Seal { stamp, .. } => Ok(is_next_at_rest(h, past, *stamp)),
    }
}

/// Whether a record is in the grammar and follows the journal of the node with this header.
pub fn is_after(alloc: Global, h: &Header, past: &[Record], r: &Record) -> Result<bool, AllocError>
    ensures { IfOk result (λ yes. IsTrue yes ↔ After h.now past.now r.now) }
{
    if !is_in_grammar(h, r) {
        return Ok(false);
    }
    follows(alloc, h, past, r)
}

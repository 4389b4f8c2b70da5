// The outcomes of a batch, by the Locks of its shards.
ghost use Rattle.std.specs.Prelude.{◌≡◌, ◌<◌, ◌≤◌, ◌+◌, ◌-◌, ◌^◌, ◌↔◌, ℕ, IsTrue, IfOk, IfSome, None, List as Items, length, slice_index_or};
ghost use Rattle.cbdc_model.specs.Records.{Record as ModelRecord, entries_in, Won, lock_kind};
ghost use Rattle.cbdc_model.specs.Replies.{entries};
ghost use Rattle.cbdc_model.specs.Outcomes.{reply_at, outcome_by, outcome, outcomes, won_at, decisions};
ghost use Rattle.cbdc_model.specs.Causes.{at_shards};
ghost use Rattle.audit.specs.Rows.{read};
ghost use Rattle.audit.specs.Knowing.{Knows, reply_with};

use crate::known::Known;
use cbdc_types::{Answered, BatchId, CompactTx, Outcome, Record, RecordKind, Reply, Shape};
use same_records::is_won;
use std::alloc::{AllocError, Global};

// Keeps an entry's reply at its place, unless an earlier entry's is there.
fn keep_reply(replies: &mut [Option<Reply>], answered: &Answered)
    ensures len { length replies.new ≡ length replies.old }
    ensures replies { (k : ℕ) → k < length replies.old
        → slice_index_or replies.new k None ≡ reply_with (slice_index_or replies.old k None) answered.now k }
{
    let place = answered.entry.place as usize;
    if place < replies.len() && replies[place].is_none() {
        replies[place] = Some(answered.reply);
    }
}

// The reply to each place below n, if there is one.
fn replies_by_place(
    alloc: Global,
    es: &[Answered],
    n: usize,
) -> Result<Vec<Option<Reply>>, AllocError>
    ensures len { IfOk result (λ v. length v.items ≡ n) }
    ensures replies { IfOk result (λ v. (k : ℕ) → k < n → slice_index_or v.items k None ≡ reply_at es.now k) }
{
    let mut replies: Vec<Option<Reply>> = vec![in alloc; None; n]?;
    for answered in es {
        keep_reply(&mut replies, answered);
    }
    Ok(replies)
}

// What a shard makes of the outcome of the greater shards.
fn outcome_by(reply: Option<Reply>, shard: u32, rest: Outcome) -> Outcome
    ensures { result ≡ outcome_by reply shard rest }
{
    let Some(reply) = reply else {
        return rest;
    };
    match reply {
        Reply::Held => rest,
        Reply::Missing(x) => Outcome::Missing(shard, x),
        Reply::Locked(x, by) => Outcome::Locked(shard, x, by),
    }
}

// What a shard makes of the outcomes of the greater shards.
fn decide_by(shard: u32, replies: &[Option<Reply>], outcomes: &mut [Outcome])
    requires { length outcomes.old ≡ length replies.now }
    ensures len { length outcomes.new ≡ length outcomes.old }
    ensures outcomes { (k : ℕ) → k < length outcomes.old → slice_index_or outcomes.new k Won
        ≡ outcome_by (slice_index_or replies.now k None) shard (slice_index_or outcomes.old k Won) }
{
    for k in 0..outcomes.len() {
        outcomes[k] = outcome_by(replies[k], shard, outcomes[k]);
    }
}

// The answered entries of the batch's Lock at a shard, none where it has no Lock.
fn entries_at<'a>(
    known: &Known,
    journals: &[&'a [Record]],
    shape: &Shape,
    batch: &BatchId,
    shard: u32,
) -> &'a [Answered]
    requires { shard < shape.now.shards }
    ensures { (J : ℕ → Items ModelRecord) → Knows (read journals.now) known.now J
        → result.now ≡ entries_in (at_shards shape.now J lock_kind batch.now shard) }
{
    match known.found(
        journals,
        shape.coordinators() + shard,
        RecordKind::Lock as u64,
        batch,
    ) {
        Some(Record::Lock { entries, .. }) => entries.as_slice(),
        _ => &[],
    }
}

// The outcomes of the first n places over so many shards from this one on.
fn outcomes_from(
    alloc: Global,
    known: &Known,
    journals: &[&[Record]],
    shape: &Shape,
    batch: &BatchId,
    n: usize,
    shard: u32,
) -> Result<Vec<Outcome>, AllocError>
    requires { shard ≤ shape.now.shards }
    ensures len { IfOk result (λ v. length v.items ≡ n) }
    ensures outcomes { (J : ℕ → Items ModelRecord) → Knows (read journals.now) known.now J
        → IfOk result (λ v. (k : ℕ) → k < n → slice_index_or v.items k Won ≡ outcome
        (λ s. entries_in (at_shards shape.now J lock_kind batch.now s)) k shard (shape.now.shards - shard)) }
{
    if shard >= shape.shards() {
        return vec![in alloc; Outcome::Held; n];
    }
    let mut outcomes = outcomes_from(alloc, known, journals, shape, batch, n, shard + 1)?;
    let entries = entries_at(known, journals, shape, batch, shard);
    if entries.is_empty() {
        return Ok(outcomes);
    }
    let replies = replies_by_place(alloc, entries, n)?;
    decide_by(shard, &replies, &mut outcomes);
    Ok(outcomes)
}

/// The outcomes of a batch's transactions, by the Locks of its shards.
pub(crate) fn outcomes_by_locks(
    alloc: Global,
    known: &Known,
    journals: &[&[Record]],
    shape: &Shape,
    batch: &BatchId,
    txs: &[CompactTx],
) -> Result<Vec<Outcome>, AllocError>
    ensures { (J : ℕ → Items ModelRecord) → Knows (read journals.now) known.now J
        → IfOk result (λ v. v.items ≡ outcomes
        (λ s. entries_in (at_shards shape.now J lock_kind batch.now s)) shape.now.shards 0 txs.now) }
{
    outcomes_from(alloc, known, journals, shape, batch, txs.len(), 0)
}

/// Whether the outcome at this place is Held.
pub(crate) fn won_at(outcomes: &[Outcome], place: u32) -> bool
    ensures { result ≡ won_at outcomes.now place }
{
    match outcomes.get(place as usize) {
        Some(outcome) => is_won(outcome),
        None => false,
    }
}

/// Whether decisions are those of the outcomes, entry by entry.
pub(crate) fn are_decided(given: &[bool], won: &[Outcome], es: &[Answered]) -> bool
    ensures { IsTrue result ↔ (given.now ≡ decisions won.now (entries es.now)) }
{
    match (given.split_first(), es.split_first()) {
        (None, None) => true,
        (Some((decision, others)), Some((answered, rest))) => {
            *decision == won_at(won, answered.entry.place) && are_decided(others, won, rest)
        }
        _ => false,
    }
}

// The outcome of a transaction over its shards.
ghost use Rattle.std.specs.Prelude.{◌≡◌, ◌↔◌, ◌+◌, ◌<◌, ◌≤◌, ◌^◌, ◌++◌, IsTrue, IfOk, OnOk, length};
ghost use Rattle.cbdc_model.specs.Records.{entries_in, lock_kind};
ghost use Rattle.cbdc_model.specs.Outcomes.{reply_at, outcome_by, outcome, outcomes, won_at, decisions};
ghost use Rattle.cbdc_model.specs.Causes.{at_shards};
ghost use Rattle.cbdc_model.specs.Replies.{entries};
ghost use Rattle.plain_check.specs.Journals.{journals_in};

use crate::copying::put;
use cbdc_types::{Answered, BatchId, CompactTx, List, Outcome, Outcomes, Record, Reply, Shape};
use same_records::{is_won, lock_of};
use std::alloc::{AllocError, Global};

/// A node's journal, nothing past the last node.
pub fn journal_at<'a>(journals: &'a [List<Record>], node: u32) -> &'a [Record]
    ensures { result.now ≡ journals_in journals.now node }
{
    match journals.get(node as usize) {
        Some(journal) => journal.as_slice(),
        None => &[],
    }
}

/// The reply to the entry with this place, if there is one.
pub fn reply_at(es: &[Answered], place: u64) -> Option<Reply>
    ensures { result ≡ reply_at es.now place }
{
    match es.split_first() {
        None => None,
        Some((a, rest)) => {
            if u64::from(a.entry.place) == place {
                Some(a.reply)
            } else {
                reply_at(rest, place)
            }
        }
    }
}

// What a shard makes of the outcome of the greater shards.
fn outcome_by(reply: Option<Reply>, shard: u32, rest: Outcome) -> Outcome
    ensures { result ≡ outcome_by reply shard rest }
{
    let Some(reply) = reply else {
        return rest;
    };
    match reply {
        Reply::Held => rest,
        Reply::Missing(x) => Outcome::Missing(shard, x),
        Reply::Locked(x, by) => Outcome::Locked(shard, x, by),
    }
}

// The outcome over n shards from this one on.
fn outcome_from(
    journals: &[List<Record>],
    shape: &Shape,
    batch: &BatchId,
    place: u64,
    shard: u32,
    n: u32,
) -> Outcome
    requires { shard + n ≤ 64 }
    ensures { result ≡ outcome (λ s.
        entries_in (at_shards shape.now (journals_in journals.now) lock_kind batch.now s)) place shard n }
{
    if n == 0 {
        return Outcome::Held;
    }
    let rest = outcome_from(journals, shape, batch, place, shard + 1, n - 1);
    let journal = journal_at(journals, shape.coordinators() + shard);
    outcome_by(reply_at(lock_of(journal, batch), place), shard, rest)
}

/// The outcome of a batch's transaction by the Locks in these journals of all nodes: Held where each shard with
/// its place replies Held, else the least shard whose reply is another, with it.
pub fn outcome_of(journals: &[List<Record>], shape: &Shape, batch: &BatchId, place: u64) -> Outcome
    ensures { result ≡ outcome (λ s. entries_in
        (at_shards shape.now (journals_in journals.now) lock_kind batch.now s)) place 0 shape.now.shards }
{
    outcome_from(journals, shape, batch, place, 0, shape.shards())
}

/// Whether the outcome at this place is Held.
pub fn won_at(outcomes: &[Outcome], place: u32) -> bool
    ensures { result ≡ won_at outcomes.now place }
{
    match outcomes.split_first() {
        None => false,
        Some((o, rest)) => {
            if place == 0 {
                is_won(o)
            } else {
                won_at(rest, place - 1)
            }
        }
    }
}

// Puts the outcomes of the transactions from this place on behind those so far.
fn add_outcomes(
    journals: &[List<Record>],
    shape: &Shape,
    batch: &BatchId,
    place: u64,
    txs: &[CompactTx],
    out: &mut Vec<Outcome>,
) -> Result<(), AllocError>
    requires { place + length txs.now < 2 ^ 64 }
    ensures { OnOk result (out.new.items ≡ out.old.items ++ outcomes (λ s. entries_in (at_shards shape.now
        (journals_in journals.now) lock_kind batch.now s)) shape.now.shards place txs.now) }
{
    match txs.split_first() {
        None => Ok(()),
        Some((_, rest)) => {
            put(out, outcome_of(journals, shape, batch, place))?;
            add_outcomes(journals, shape, batch, place + 1, rest, out)
        }
    }
}

/// The outcomes of a batch's transactions by the Locks in these journals of all nodes.
pub fn outcomes_by_locks(
    alloc: Global,
    journals: &[List<Record>],
    shape: &Shape,
    batch: &BatchId,
    txs: &[CompactTx],
) -> Result<Outcomes, AllocError>
    ensures { IfOk result (λ l. l ≡ outcomes (λ s. entries_in
        (at_shards shape.now (journals_in journals.now) lock_kind batch.now s)) shape.now.shards 0 txs.now) }
{
    let mut out = Vec::new(alloc);
    add_outcomes(journals, shape, batch, 0, txs, &mut out)?;
    Ok(List::from_vec(out))
}

/// Whether decisions are, for each entry of a Lock, whether its transaction is committed by these outcomes.
pub fn are_decided_by(outcomes: &[Outcome], locked: &[Answered], given: &[bool]) -> bool
    ensures { IsTrue result ↔ (given.now ≡ decisions outcomes.now (entries locked.now)) }
{
    match (locked.split_first(), given.split_first()) {
        (None, None) => true,
        (Some((a, others)), Some((d, rest))) => {
            *d == won_at(outcomes, a.entry.place) && are_decided_by(outcomes, others, rest)
        }
        _ => false,
    }
}

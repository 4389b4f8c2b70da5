// Whether batches are finished alike on all their shards.
ghost use Rattle.std.specs.Prelude.{◌≡◌, ◌↔◌, ◌∷◌, ◌<◌, ◌≤◌, ◌^◌, ℕ, List as Items, [], length, drop, IsTrue};
ghost use Rattle.cbdc_model.specs.Records.{Outcome as ModelOutcome, lock_kind, finish_kind};
ghost use Rattle.cbdc_model.specs.Ranges.{part};
ghost use Rattle.cbdc_model.specs.Outcomes.{decisions};
ghost use Rattle.cbdc_model.specs.World.{count_of, IsAlike, Alike};
ghost use Rattle.plain_check.specs.Journals.{journals_in};
ghost use Rattle.plain_check.specs.Alikes.{IsFinishedAt, HasNone, IsAlikeAt, PreparedAlike};

use crate::{
    finished_decisions, home_journal, is_of, journal_at, kind_of, outcomes_of, txs_of, won_at,
};
use cbdc_types::{BatchId, CompactTx, List, Outcome, Record, RecordKind, Shape};
use same_records::{are_elsewhere, home_of, is_concerned};

/// How many records of a kind of a batch a journal has.
pub fn count_of(kind: u64, past: &[Record], batch: &BatchId) -> usize
    ensures count { result ≡ count_of kind past.now batch.now }
    ensures bound { result ≤ length past.now }
{
    let Some((r, rest)) = past.split_first() else {
        return 0;
    };
    let below = count_of(kind, rest, batch);
    if kind_of(r) == kind && is_of(batch, r) {
        below + 1
    } else {
        below
    }
}

// The outcomes behind the first.
fn behind(outcomes: &[Outcome]) -> &[Outcome]
    ensures { result.now ≡ drop 1 outcomes.now }
{
    match outcomes.split_first() {
        Some((_, rest)) => rest,
        None => outcomes,
    }
}

// Whether decisions are those of a shard's part of transactions by these outcomes, the first of which is the first
// transaction's.
#[tactic(auto, using(crate::proofs::Finished::decides_none))]
fn are_decided(
    shape: &Shape,
    shard: u32,
    txs: &[CompactTx],
    outcomes: &[Outcome],
    ds: &[bool],
) -> bool
    ensures { (all : Items ModelOutcome) (place : ℕ) → outcomes.now ≡ drop place all
        → IsTrue result ↔ (ds.now ≡ decisions all (part shape.now shard place txs.now)) }
{
    let Some((t, others)) = txs.split_first() else {
        return ds.is_empty();
    };
    if are_elsewhere(shape, shard, t.inputs.as_slice())
        && are_elsewhere(shape, shard, t.outputs.as_slice())
    {
        return are_decided(shape, shard, others, behind(outcomes), ds);
    }
    match ds.split_first() {
        None => false,
        Some((d, rest)) => {
            *d == won_at(outcomes, 0) && are_decided(shape, shard, others, behind(outcomes), rest)
        }
    }
}

// Whether a journal has one Lock and one Finish of a batch.
fn has_one_each(past: &[Record], batch: &BatchId) -> bool
    ensures { IsTrue result
        ↔ ((count_of lock_kind past.now batch.now ≡ 1) × (count_of finish_kind past.now batch.now ≡ 1)) }
{
    count_of(RecordKind::Lock as u64, past, batch) == 1
        && count_of(RecordKind::Finish as u64, past, batch) == 1
}

// Whether a shard has one Lock and one Finish of a batch, with the Commit's decisions.
fn is_finished(journals: &[List<Record>], shape: &Shape, batch: &BatchId, shard: u32) -> bool
    requires { shard < shape.now.shards }
    ensures { IsTrue result ↔ IsFinishedAt shape.now (journals_in journals.now) batch.now shard }
{
    let home = home_journal(journals, shape, batch);
    let own = journal_at(journals, shape.coordinators() + shard);
    has_one_each(own, batch)
        && are_decided(
            shape,
            shard,
            txs_of(home, batch),
            outcomes_of(home, batch),
            finished_decisions(own, batch),
        )
}

// Whether a journal has no Lock, Finish and Forget of a batch.
fn has_none(past: &[Record], batch: &BatchId) -> bool
    ensures { IsTrue result ↔ HasNone past.now batch.now }
{
    count_of(RecordKind::Lock as u64, past, batch) == 0
        && count_of(RecordKind::Finish as u64, past, batch) == 0
        && count_of(RecordKind::Forget as u64, past, batch) == 0
}

// Whether a shard is finished where the batch concerns it, and has no record of it elsewhere.
fn is_alike_at(journals: &[List<Record>], shape: &Shape, batch: &BatchId, shard: u32) -> bool
    requires { shard < shape.now.shards }
    ensures { IsTrue result ↔ IsAlikeAt shape.now (journals_in journals.now) batch.now shard }
{
    let txs = txs_of(home_journal(journals, shape, batch), batch);
    if is_concerned(shape, txs, shard) {
        is_finished(journals, shape, batch, shard)
    } else {
        has_none(journal_at(journals, shape.coordinators() + shard), batch)
    }
}

// The same of the shards below n.
fn are_alike_below(journals: &[List<Record>], shape: &Shape, batch: &BatchId, n: u32) -> bool
    requires { n ≤ shape.now.shards }
    ensures { IsTrue result ↔ ((s : ℕ) → s < n → IsAlikeAt shape.now (journals_in journals.now) batch.now s) }
{
    if n == 0 {
        return true;
    }
    is_alike_at(journals, shape, batch, n - 1) && are_alike_below(journals, shape, batch, n - 1)
}

/// Whether a batch has one Commit, each concerned shard one Lock and one Finish of it, with the Commit's decisions, and no
/// other shard any record of it.
#[tactic(auto, using(crate::proofs::Finished::not_alike))]
pub fn is_alike(journals: &[List<Record>], shape: &Shape, batch: &BatchId) -> bool
    ensures { IsTrue result ↔ IsAlike shape.now (journals_in journals.now) batch.now }
{
    count_of(
        RecordKind::Commit as u64,
        home_journal(journals, shape, batch),
        batch,
    ) == 1
        && are_alike_below(journals, shape, batch, shape.shards())
}

// Whether the batch that a record prepares at its own coordinator is finished alike.
#[tactic(auto, using(crate::proofs::Finished::prepares_none, crate::proofs::Finished::prepares_one))]
fn is_prepared_alike(journals: &[List<Record>], shape: &Shape, node: usize, r: &Record) -> bool
    ensures { IsTrue result ↔ PreparedAlike shape.now (journals_in journals.now) node (r.now ∷ []) }
{
    match r {
        Record::Prepare { batch, .. } => {
            home_of(shape, batch.lane).0 as usize != node || is_alike(journals, shape, batch)
        }
        _ => true,
    }
}

// The same of records.
#[tactic(auto, using(crate::proofs::Finished::not_prepared))]
fn are_prepared_alike(
    journals: &[List<Record>],
    shape: &Shape,
    node: usize,
    past: &[Record],
) -> bool
    ensures { IsTrue result ↔ PreparedAlike shape.now (journals_in journals.now) node past.now }
{
    let Some((r, rest)) = past.split_first() else {
        return true;
    };
    is_prepared_alike(journals, shape, node, r) && are_prepared_alike(journals, shape, node, rest)
}

// The same of the nodes below n.
fn are_all_alike_below(journals: &[List<Record>], shape: &Shape, n: usize) -> bool
    requires { n ≤ length journals.now }
    ensures { IsTrue result ↔ ((k : ℕ) → k < n
        → PreparedAlike shape.now (journals_in journals.now) k (journals_in journals.now k)) }
{
    if n == 0 {
        return true;
    }
    let own = journals[n - 1].as_slice();
    are_prepared_alike(journals, shape, n - 1, own) && are_all_alike_below(journals, shape, n - 1)
}

/// Whether every batch with a Prepare is finished alike on all its shards.
#[tactic(auto, using(crate::proofs::Finished::all_alike))]
pub fn are_alike(journals: &[List<Record>], shape: &Shape) -> bool
    ensures { IsTrue result ↔ Alike shape.now (journals_in journals.now) }
{
    are_all_alike_below(journals, shape, journals.len())
}

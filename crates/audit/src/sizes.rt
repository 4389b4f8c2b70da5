// How many hashes are unspent, held and owed behind a history.
ghost use Rattle.std.specs.Prelude.{◌≡◌, ◌&&◌, ◌||◌, ℕ, All, List as Items, IfOk, OnOk};
ghost use Rattle.cbdc_model.specs.Records.{Digest, Record as ModelRecord, journal, lock_of, outcomes_of, same_digest, txs_of};
ghost use Rattle.cbdc_model.specs.Ranges.{home_of};
ghost use Rattle.cbdc_model.specs.Outcomes.{won_txs};
ghost use Rattle.cbdc_model.specs.History.{all_outputs};
ghost use Rattle.cbdc_model.specs.Status.{has, status};
ghost use Rattle.cbdc_model.specs.World.{IsUnspent};
ghost use Rattle.ledger_laws.specs.Sets.{IsWaiting, IsComing};
ghost use Rattle.audit.specs.Rows.{read, newest_first, IsRecordPlace};
ghost use Rattle.audit.specs.Knowing.{Knows};
ghost use Rattle.audit.specs.Standing.{says, is_here, is_locked_by, HasStatuses};
ghost use Rattle.audit.specs.Waiting.{waiting_inputs, shard_journal, holds_back, is_due, owes};
ghost use Rattle.audit.specs.Parts.{HasSizes, IsCount};

use crate::caused::{home_of, lock_of, outcomes_of, txs_of};
use crate::known::Known;
use crate::outcomes::won_at;
use crate::statuses::{Statuses, is_here};
use crate::{Place, record_at};
use cbdc_types::{BatchId, Hash, Record, RecordKind, Shape};
use same_records::{is_held, is_won};
use shard_ranges::shard_of;
use shard_table::Table;
use std::alloc::{AllocError, Global};

/// How many hashes are unspent, held and owed.
#[derive(Drop)]
pub(crate) struct Sizes {
    pub(crate) unspent: u64,
    pub(crate) held: u64,
    pub(crate) owed: u64,
}

// What is known behind all records of a history.
#[derive(Drop)]
struct Standing {
    known: Known,
    statuses: Statuses,
}

// Walks over a history, and keeps what the shards say of hashes.
fn standing_of(
    alloc: Global,
    shape: &Shape,
    journals: &[&[Record]],
    history: &[Place],
) -> Result<Standing, AllocError>
    requires { All (IsRecordPlace (read journals.now)) history.now }
    ensures known { IfOk result (λ s. Knows (read journals.now) s.known
        (λ n. journal n (newest_first (read journals.now) history.now))) }
    ensures statuses { IfOk result (λ s. HasStatuses shape.now s.statuses
        (newest_first (read journals.now) history.now)) }
{
    let mut known = Known::new(alloc);
    let mut statuses = Statuses::new(alloc);
    'places: for at in 0..history.len() {
        let place = history[at];
        let r = record_at(journals, place);
        statuses.note(&known, journals, shape, place.node, r)?;
        known.note(place.node, place.index, r)?;
    }
    Ok(Standing { known, statuses })
}

// Puts a hash into a set.
fn add(set: &mut Table, x: &Hash) -> Result<(), AllocError>
    ensures { OnOk result ((y : Digest) → has set.new.hashes y ≡ (same_digest x.now y || has set.old.hashes y)) }
{
    set.reserve(1)?;
    set.insert(*x);
    Ok(())
}

// Puts those of some hashes into a set that a batch holds at a node's shard.
fn add_locked(
    held: &mut Table,
    statuses: &Statuses,
    shape: &Shape,
    node: u32,
    batch: &BatchId,
    xs: &[Hash],
) -> Result<(), AllocError>
    ensures { OnOk result ((y : Digest) → has held.new.hashes y ≡ (has held.old.hashes y || (has xs.now y
        && (is_here shape.now node y && is_locked_by batch.now (says statuses.now y))))) }
{
    'hashes: for at in 0..xs.len() {
        let x = &xs[at];
        if is_here(shape, node, x) && statuses.is_locked_by(x, batch) {
            add(held, x)?;
        }
    }
    Ok(())
}

// Puts into a set what a batch holds at a node's shard for transactions that are not committed.
fn add_waiting(
    held: &mut Table,
    standing: &Standing,
    journals: &[&[Record]],
    shape: &Shape,
    node: u32,
    batch: &BatchId,
) -> Result<(), AllocError>
    ensures { OnOk result ((J : ℕ → Items ModelRecord) → Knows (read journals.now) standing.now.known J
        → (y : Digest) → has held.new.hashes y ≡ (has held.old.hashes y || (has (waiting_inputs
        (outcomes_of (J (home_of shape.now batch.now.lane)) batch.now) (lock_of (J node) batch.now)) y
        && (is_here shape.now node y && is_locked_by batch.now (says standing.now.statuses y))))) }
{
    let es = lock_of(&standing.known, journals, node, batch);
    let home = home_of(shape, batch);
    let outcomes = outcomes_of(&standing.known, journals, home, batch);
    'entries: for at in 0..es.len() {
        let answered = &es[at];
        if is_held(&answered.reply) && !won_at(outcomes, answered.entry.place) {
            let inputs = answered.entry.inputs.as_slice();
            add_locked(held, &standing.statuses, shape, node, batch, inputs)?;
        }
    }
    Ok(())
}

// Puts those of some hashes into a set at whose shards a batch has no Finish.
fn add_due(
    owed: &mut Table,
    known: &Known,
    journals: &[&[Record]],
    shape: &Shape,
    batch: &BatchId,
    xs: &[Hash],
) -> Result<(), AllocError>
    ensures { OnOk result ((J : ℕ → Items ModelRecord) → Knows (read journals.now) known.now J → (y : Digest)
        → has owed.new.hashes y ≡ (has owed.old.hashes y || (has xs.now y && is_due shape.now J batch.now y))) }
{
    'hashes: for at in 0..xs.len() {
        let x = &xs[at];
        let node = shape.coordinators() + shard_of(x, shape);
        if known
            .found(journals, node, RecordKind::Finish as u64, batch)
            .is_none()
        {
            add(owed, x)?;
        }
    }
    Ok(())
}

// Puts into a set what is still to come of a batch's committed transactions.
fn add_coming(
    owed: &mut Table,
    known: &Known,
    journals: &[&[Record]],
    shape: &Shape,
    batch: &BatchId,
) -> Result<(), AllocError>
    ensures { OnOk result ((J : ℕ → Items ModelRecord) → Knows (read journals.now) known.now J → (y : Digest)
        → has owed.new.hashes y ≡ (has owed.old.hashes y || (has (all_outputs (won_txs
        (txs_of (J (home_of shape.now batch.now.lane)) batch.now)
        (outcomes_of (J (home_of shape.now batch.now.lane)) batch.now))) y && is_due shape.now J batch.now y))) }
{
    let home = home_of(shape, batch);
    let txs = txs_of(known, journals, home, batch);
    let outcomes = outcomes_of(known, journals, home, batch);
    'txs: for at in 0..txs.len().min(outcomes.len()) {
        if is_won(&outcomes[at]) {
            let outputs = txs[at].outputs.as_slice();
            add_due(owed, known, journals, shape, batch, outputs)?;
        }
    }
    Ok(())
}

// Puts into a set what a record of a node holds for transactions that are not committed.
fn add_held_by(
    held: &mut Table,
    standing: &Standing,
    journals: &[&[Record]],
    shape: &Shape,
    node: u32,
    r: &Record,
) -> Result<(), AllocError>
    ensures { OnOk result ((J : ℕ → Items ModelRecord) → Knows (read journals.now) standing.now.known J
        → ((x : Digest) → says standing.now.statuses x ≡ status (shard_journal shape.now J x) x) → (y : Digest)
        → has held.new.hashes y ≡ (has held.old.hashes y || holds_back shape.now J node r.now y)) }
{
    match r {
        Record::Lock { batch, .. } => add_waiting(held, standing, journals, shape, node, batch),
        _ => Ok(()),
    }
}

// Puts into a set what is still to come of the transactions that a record commits.
fn add_owed_by(
    owed: &mut Table,
    known: &Known,
    journals: &[&[Record]],
    shape: &Shape,
    r: &Record,
) -> Result<(), AllocError>
    ensures { OnOk result ((J : ℕ → Items ModelRecord) → Knows (read journals.now) known.now J → (y : Digest)
        → has owed.new.hashes y ≡ (has owed.old.hashes y || owes shape.now J r.now y)) }
{
    match r {
        Record::Commit { batch, .. } => add_coming(owed, known, journals, shape, batch),
        _ => Ok(()),
    }
}

// How many hashes are held for transactions that are not committed.
fn held_of(
    alloc: Global,
    standing: &Standing,
    journals: &[&[Record]],
    shape: &Shape,
    history: &[Place],
) -> Result<u64, AllocError>
    requires places { All (IsRecordPlace (read journals.now)) history.now }
    requires known { Knows (read journals.now) standing.now.known
        (λ n. journal n (newest_first (read journals.now) history.now)) }
    requires statuses { HasStatuses shape.now standing.now.statuses
        (newest_first (read journals.now) history.now) }
    ensures { IfOk result (IsCount (IsWaiting shape.now (newest_first (read journals.now) history.now))) }
{
    let mut held = Table::new(alloc);
    'places: for at in 0..history.len() {
        let place = history[at];
        let r = record_at(journals, place);
        add_held_by(&mut held, standing, journals, shape, place.node, r)?;
    }
    Ok(held.len())
}

// How many hashes are still to come of committed transactions.
fn owed_of(
    alloc: Global,
    known: &Known,
    journals: &[&[Record]],
    shape: &Shape,
    history: &[Place],
) -> Result<u64, AllocError>
    requires places { All (IsRecordPlace (read journals.now)) history.now }
    requires known { Knows (read journals.now) known.now
        (λ n. journal n (newest_first (read journals.now) history.now)) }
    ensures { IfOk result (IsCount (IsComing shape.now (newest_first (read journals.now) history.now))) }
{
    let mut owed = Table::new(alloc);
    'places: for at in 0..history.len() {
        let place = history[at];
        let r = record_at(journals, place);
        add_owed_by(&mut owed, known, journals, shape, r)?;
    }
    Ok(owed.len())
}

/// How many hashes each of the three sets has behind a history.
pub(crate) fn sizes_of(
    alloc: Global,
    shape: &Shape,
    journals: &[&[Record]],
    history: &[Place],
) -> Result<Sizes, AllocError>
    requires { All (IsRecordPlace (read journals.now)) history.now }
    ensures { IfOk result (λ s. HasSizes shape.now
        (newest_first (read journals.now) history.now) s.unspent s.held s.owed) }
{
    let standing = standing_of(alloc, shape, journals, history)?;
    Ok(Sizes {
        unspent: standing.statuses.unspent.len(),
        held: held_of(alloc, &standing, journals, shape, history)?,
        owed: owed_of(alloc, &standing.known, journals, shape, history)?,
    })
}

// The records.
ghost use Rattle.std.specs.Prelude.{◌≡◌, ◌↔◌, ◌<◌, All, IsTrue};
ghost use Rattle.cbdc_model.specs.Records.{Genesis, Lock, Prepare, Commit};
ghost use Rattle.cbdc_model.specs.Grammar.{IsInGrammar};

use crate::entries::{are_compact, are_entries_of, are_outcomes_of, places_rise};
use crate::hashes::{are_here, are_whole, is_whole};
use crate::limits::{has_size, is_batch_of, is_coordinator, is_early, is_later, is_shard};
use cbdc_types::{Answered, BatchId, CompactTx, Hash, Header, Outcome, Record, Stamp};

fn is_genesis(h: &Header, header: &Header, hashes: &[Hash]) -> bool
    ensures { IsTrue result ↔ IsInGrammar h.now (Genesis header.now hashes.now) }
{
    *header == *h
        && is_whole(&h.genesis)
        && is_shard(h)
        && hashes.len() <= 1_000_000
        && are_whole(hashes)
        && are_here(h, hashes)
}

fn is_lock(h: &Header, stamp: Stamp, batch: &BatchId, entries: &[Answered]) -> bool
    ensures { IsTrue result ↔ IsInGrammar h.now (Lock stamp batch.now entries.now) }
{
    is_early(stamp)
        && is_batch_of(&h.shape, batch)
        && is_shard(h)
        && has_size(&h.shape, entries.len())
        && places_rise(h.shape.batch(), entries)
        && are_entries_of(h, entries)
}

fn is_prepare(h: &Header, stamp: Stamp, batch: &BatchId, txs: &[CompactTx]) -> bool
    ensures { IsTrue result ↔ IsInGrammar h.now (Prepare stamp batch.now txs.now) }
{
    is_early(stamp)
        && is_batch_of(&h.shape, batch)
        && is_coordinator(h)
        && has_size(&h.shape, txs.len())
        && are_compact(txs)
}

fn is_commit(h: &Header, stamp: Stamp, batch: &BatchId, outcomes: &[Outcome]) -> bool
    ensures { IsTrue result ↔ IsInGrammar h.now (Commit stamp batch.now outcomes.now) }
{
    is_later(stamp)
        && is_batch_of(&h.shape, batch)
        && is_coordinator(h)
        && has_size(&h.shape, outcomes.len())
        && are_outcomes_of(&h.shape, outcomes)
}

/// Whether a record may stand in a journal with this header, whatever stands before it. Takes no memory.
pub fn is_in_grammar(h: &Header, r: &Record) -> bool
    ensures { IsTrue result ↔ IsInGrammar h.now r.now }
{
    match r {
        Record::Genesis { header, hashes } => is_genesis(h, header, hashes.as_slice()),
        Record::Lock {
            stamp,
            batch,
            entries,
        } => is_lock(h, *stamp, batch, entries.as_slice()),
        Record::Finish {
            stamp,
            batch,
            decisions,
        } => {
            is_later(*stamp)
                && is_batch_of(&h.shape, batch)
                && is_shard(h)
                && has_size(&h.shape, decisions.len())
        }
        Record::Forget { stamp, batch } => {
            is_later(*stamp) && is_batch_of(&h.shape, batch) && is_shard(h)
        }
        Record::Start { header } => *header == *h && is_whole(&h.genesis) && is_coordinator(h),
        Record::Prepare { stamp, batch, txs } => is_prepare(h, *stamp, batch, txs.as_slice()),
        Record::Commit {
            stamp,
            batch,
            outcomes,
        } => is_commit(h, *stamp, batch, outcomes.as_slice()),
        Record::Discard { stamp, batch } => {
            is_later(*stamp) && is_batch_of(&h.shape, batch) && is_coordinator(h)
        }
        Record::Done { stamp, batch } => {
            is_later(*stamp) && is_batch_of(&h.shape, batch) && is_coordinator(h)
        }
        Record::Upgrade { .. } => false,
        Record::Carry { .. } => false,
        Record::CarryStart { .. } => false,
        Record::Seal { .. } => false,
    }
}

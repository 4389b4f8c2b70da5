// The items that a record may have.
ghost use Rattle.std.specs.Prelude.{◌≡◌, ◌↔◌, ◌<◌, All, IsTrue};
ghost use Rattle.cbdc_model.specs.Grammar.{IsCompact, IsEntry, IsOutcome, IsReply, RisesFrom};

use crate::hashes::{are_here, is_hash_list, is_whole};
use crate::limits::is_batch_of;
use cbdc_types::{Answered, CompactTx, Header, Outcome, Reply, Shape};

fn is_reply_of(shape: &Shape, reply: &Reply) -> bool
    ensures { IsTrue result ↔ IsReply shape.now reply.now }
{
    match reply {
        Reply::Held => true,
        Reply::Missing(x) => is_whole(x),
        Reply::Locked(x, by) => is_whole(x) && is_batch_of(shape, by),
    }
}

fn is_outcome_of(shape: &Shape, outcome: &Outcome) -> bool
    ensures { IsTrue result ↔ IsOutcome shape.now outcome.now }
{
    match outcome {
        Outcome::Held => true,
        Outcome::Missing(shard, x) => *shard < shape.shards() && is_whole(x),
        Outcome::Locked(shard, x, by) => {
            *shard < shape.shards() && is_whole(x) && is_batch_of(shape, by)
        }
    }
}

pub(crate) fn are_outcomes_of(shape: &Shape, outcomes: &[Outcome]) -> bool
    ensures { IsTrue result ↔ All (IsOutcome shape.now) outcomes.now }
{
    outcomes.iter().all(|o| is_outcome_of(shape, o))
}

// Whether a Lock under this header may have this answered entry.
fn is_entry_of(h: &Header, a: &Answered) -> bool
    ensures { IsTrue result ↔ IsEntry h.now.shape h.now.node a.now }
{
    let inputs = a.entry.inputs.as_slice();
    let outputs = a.entry.outputs.as_slice();
    is_whole(&a.entry.id)
        && is_hash_list(inputs)
        && is_hash_list(outputs)
        && !(inputs.is_empty() && outputs.is_empty())
        && are_here(h, inputs)
        && are_here(h, outputs)
        && is_reply_of(&h.shape, &a.reply)
}

pub(crate) fn are_entries_of(h: &Header, entries: &[Answered]) -> bool
    ensures { IsTrue result ↔ All (IsEntry h.now.shape h.now.node) entries.now }
{
    entries.iter().all(|a| is_entry_of(h, a))
}

// Whether the places rise and are below the limit.
pub(crate) fn places_rise(limit: u32, entries: &[Answered]) -> bool
    ensures { IsTrue result ↔ RisesFrom 0 limit entries.now }
{
    let mut low = 0u64;
    'entries: for a in entries {
        let place = a.entry.place;
        if (place as u64) < low || place >= limit {
            return false;
        }
        low = place as u64 + 1;
    }
    true
}

/// Whether a Prepare may have this transaction.
pub fn is_compact(t: &CompactTx) -> bool
    ensures { IsTrue result ↔ IsCompact t.now }
{
    is_whole(&t.id) && is_hash_list(t.inputs.as_slice()) && is_hash_list(t.outputs.as_slice())
}

pub(crate) fn are_compact(txs: &[CompactTx]) -> bool
    ensures { IsTrue result ↔ All IsCompact txs.now }
{
    txs.iter().all(|t| is_compact(t))
}

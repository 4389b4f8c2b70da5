// What a record rests on.
ghost use Rattle.std.specs.Prelude.{◌≡◌, ◌+◌, ◌<◌, ◌≤◌, ◌↔◌, ℕ, true, is_some, IsTrue};
ghost use Rattle.cbdc_model.specs.Records.{record_of, stamp_in, txs_of};
ghost use Rattle.cbdc_model.specs.Ranges.{home_of, Concerned};
ghost use Rattle.cbdc_model.specs.Causes.{greatest, at_shards, AllHave, IsStamped, last_of};
ghost use Rattle.plain_check.specs.Journals.{journals_in};

use crate::nexts::stamp_of_kind;
use crate::outcomes::journal_at;
use cbdc_types::{BatchId, List, Record, Shape, Stamp};
use same_records::{home_of, is_concerned, last_stamp, record_of, txs_of};

/// The journal of a batch's coordinator.
pub fn home_journal<'a>(
    journals: &'a [List<Record>],
    shape: &Shape,
    batch: &BatchId,
) -> &'a [Record]
    ensures { result.now ≡ journals_in journals.now (home_of shape.now batch.now.lane) }
{
    journal_at(journals, home_of(shape, batch.lane).0)
}

/// Whether a stamp is one more than the greatest of the journal's last stamp and the cause's.
pub fn is_stamped(stamp: Stamp, own: &[Record], cause: Stamp) -> bool
    ensures { IsTrue result ↔ IsStamped stamp own.now cause }
{
    0 < stamp.0 && stamp.0 - 1 == last_stamp(own).0.max(cause.0)
}

// Whether each shard below n that the batch concerns has its record of the kind.
fn have_below(journals: &[List<Record>], shape: &Shape, kind: u64, batch: &BatchId, n: u32) -> bool
    requires { n ≤ shape.now.shards }
    ensures { IsTrue result ↔ ((s : ℕ) → s < n → Concerned shape.now
        (txs_of (journals_in journals.now (home_of shape.now batch.now.lane)) batch.now) s
        → is_some (at_shards shape.now (journals_in journals.now) kind batch.now s) ≡ true) }
{
    if n == 0 {
        return true;
    }
    let shard = n - 1;
    let txs = txs_of(home_journal(journals, shape, batch), batch);
    let own = journal_at(journals, shape.coordinators() + shard);
    (!is_concerned(shape, txs, shard) || record_of(kind, own, batch).is_some())
        && have_below(journals, shape, kind, batch, shard)
}

/// Whether each shard that the batch concerns, by its Prepare, has its record of the kind.
pub fn all_have(journals: &[List<Record>], shape: &Shape, kind: u64, batch: &BatchId) -> bool
    ensures { IsTrue result ↔ AllHave shape.now (journals_in journals.now) kind batch.now }
{
    have_below(journals, shape, kind, batch, shape.shards())
}

// The greatest stamp that the shards below n have of a kind of a batch.
fn greatest_below(
    journals: &[List<Record>],
    shape: &Shape,
    kind: u64,
    batch: &BatchId,
    n: u32,
) -> Stamp
    requires { n ≤ shape.now.shards }
    ensures { result
        ≡ greatest (λ s. stamp_in (at_shards shape.now (journals_in journals.now) kind batch.now s)) n }
{
    if n == 0 {
        return Stamp(0);
    }
    let shard = n - 1;
    let rest = greatest_below(journals, shape, kind, batch, shard);
    let own = stamp_of_kind(
        kind,
        journal_at(journals, shape.coordinators() + shard),
        batch,
    );
    Stamp(rest.0.max(own.0))
}

/// The greatest stamp that the shards have of a kind of a batch.
pub fn last_of(journals: &[List<Record>], shape: &Shape, kind: u64, batch: &BatchId) -> Stamp
    ensures { result ≡ last_of shape.now (journals_in journals.now) kind batch.now }
{
    greatest_below(journals, shape, kind, batch, shape.shards())
}

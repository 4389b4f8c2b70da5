// The cut of lists of records.
ghost use Rattle.std.specs.Prelude.{◌≡◌, ◌<◌, ◌≤◌, ◌^◌, ℕ, All, IfOk, length, reverse};
ghost use Rattle.cbdc_model.specs.Records.{journal, last_stamp};
ghost use Rattle.cbdc_model.specs.History.{IsOrdered};
ghost use Rattle.audit.specs.Rows.{read, rows_at, newest_first, journal_in, IsRecordPlace, Rises};
ghost use Rattle.cut_audit.specs.Cuts.{up_to, rows_up_to, last_in, IsLeastLast};
ghost use Rattle.cut_audit.specs.Laws.{IsMoment};

use crate::cuts::Cut;
use audit::{Place, merge, record_at};
use cbdc_types::{List, Record, Stamp};
use same_records::stamp_of;
use std::alloc::{AllocError, Global};

// The stamp of the last record of a list.
fn last_of(list: &[Record]) -> u64
    requires { 0 < length list.now }
    ensures { result ≡ last_stamp (reverse list.now) }
{
    match list.last() {
        Some(r) => stamp_of(r).0,
        None => 0,
    }
}

// The least of the stamps of the last records.
fn least_last(lists: &[&[Record]]) -> u64
    requires some { 0 < length lists.now }
    requires full { (n : ℕ) → n < length lists.now → 0 < length (journal_in (read lists.now) n) }
    ensures { IsLeastLast (read lists.now) result }
{
    let mut least = last_of(lists[0]);
    'lists: for n in 1..lists.len() {
        least = least.min(last_of(lists[n]));
    }
    least
}

// Those of some places whose records have stamps up to one.
fn places_up_to(
    alloc: Global,
    lists: &[&[Record]],
    history: &[Place],
    stamp: u64,
) -> Result<Vec<Place>, AllocError>
    requires { All (IsRecordPlace (read lists.now)) history.now }
    ensures rows { IfOk result
        (λ v. rows_at (read lists.now) v.items ≡ rows_up_to stamp (rows_at (read lists.now) history.now)) }
    ensures places { IfOk result (λ v. All (IsRecordPlace (read lists.now)) v.items) }
{
    let mut places = Vec::with_capacity(alloc, history.len())?;
    'places: for at in 0..history.len() {
        let place = history[at];
        if stamp_of(record_at(lists, place)).0 <= stamp {
            places.push(place)?;
        }
    }
    Ok(places)
}

/// The cut of lists of records, one for each node, the oldest record of each first: the least of the stamps of their last records, and the places of
/// all records up to it, by stamp and then by node. Of each list the records up to that stamp stand among them as they are; where the stamps of each
/// list rise, all are in order. Where each list is a beginning of its node's journal in a kept ledger, whatever moments they were taken at, the cut is
/// a kept history of that ledger; where no hashes clash either, an audit of it finds nothing wrong, and its value is what was minted.
///
/// Tested in `cut_rows` (`cuts.rows`, `shards.rows`).
pub fn cut(alloc: Global, lists: &[&[Record]]) -> Result<Cut, AllocError>
    requires some { 0 < length lists.now }
    requires few { length lists.now < 2 ^ 32 }
    requires full { (n : ℕ) → n < length lists.now → 0 < length (journal_in (read lists.now) n) }
    ensures stamp { IfOk result (λ c. IsLeastLast (read lists.now) c.stamp) }
    ensures lists { IfOk result (λ c. (n : ℕ) → journal n (newest_first (read lists.now) c.history)
        ≡ up_to c.stamp (reverse (journal_in (read lists.now) n))) }
    ensures ordered { ((n : ℕ) → Rises (journal_in (read lists.now) n))
        → IfOk result (λ c. IsOrdered (newest_first (read lists.now) c.history)) }
    ensures moment { IfOk result (λ c. IsMoment (read lists.now) (newest_first (read lists.now) c.history)) }
    ensures places { IfOk result (λ c. All (IsRecordPlace (read lists.now)) c.history) }
{
    let stamp = least_last(lists);
    let history = merge(alloc, lists)?;
    let places = places_up_to(alloc, lists, history.as_slice(), stamp)?;
    Ok(Cut {
        stamp: Stamp(stamp),
        history: List::from_vec(places),
    })
}

// The merge of journals.
ghost use Rattle.std.specs.Prelude.{◌≡◌, ◌⊎◌, ◌+◌, ◌-◌, ◌<◌, ◌≤◌, ◌^◌, ◌++◌, ℕ, [], ◌∷◌, List as Items, All, length, map, reverse, IfOk};
ghost use Rattle.cbdc_model.specs.Records.{journal, stamp_of};
ghost use Rattle.cbdc_model.specs.History.{goes_above, IsOrdered};
ghost use Rattle.audit.specs.Rows.{read, row_at, rows_at, record_at, newest_first, Rises, journal_in, IsRecordPlace};
ghost use Rattle.audit.specs.Merges.{RiseAll, journals_below, AreApart};

use crate::place::{History, Place};
use cbdc_types::{List, Record};
use std::alloc::{AllocError, Global};

// A record's stamp, as a number: 0 for a first record.
pub(crate) fn stamp_of(r: &Record) -> u64
    ensures { result ≡ stamp_of r.now }
{
    same_records::stamp_of(r).0
}

/// The record at a place.
pub fn record_at<'a>(journals: &[&'a [Record]], place: Place) -> &'a Record
    requires { IsRecordPlace (read journals.now) place }
    ensures { result.now ≡ record_at (read journals.now) place }
{
    let journal = journals[place.node as usize];
    match journal.get(place.index as usize) {
        Some(found) => found,
        None => unreachable!(),
    }
}

// Whether the record at a place goes above that at another: by stamp, then by node.
fn goes_above(journals: &[&[Record]], place: Place, other: Place) -> bool
    requires place { IsRecordPlace (read journals.now) place }
    requires other { IsRecordPlace (read journals.now) other }
    ensures { result ≡ goes_above (row_at (read journals.now) place) (row_at (read journals.now) other) }
{
    let own = stamp_of(record_at(journals, place));
    let next = stamp_of(record_at(journals, other));
    next < own || (own == next && other.node < place.node)
}

// The places of one journal.
fn places_at(alloc: Global, journals: &[&[Record]], node: u32) -> Result<Vec<Place>, AllocError>
    requires { node < length journals.now }
    ensures journals { IfOk result (λ v. (n : ℕ) → journal n (rows_at (read journals.now) v.items)
        ≡ journals_below (read journals.now) node (node + 1) n) }
    ensures rises { Rises (journal_in (read journals.now) node)
        → IfOk result (λ v. RiseAll (rows_at (read journals.now) v.items)) }
    ensures places { IfOk result (λ v. All (IsRecordPlace (read journals.now)) v.items) }
{
    let journal = journals[node as usize];
    let mut places = Vec::with_capacity(alloc, journal.len())?;
    'records: for index in 0..journal.len() {
        places.push(Place {
            node,
            index: index as u64,
        })?;
    }
    Ok(places)
}

// The places of two lists in which no node stands in both.
fn merge_two(
    alloc: Global,
    journals: &[&[Record]],
    a: &[Place],
    b: &[Place],
) -> Result<Vec<Place>, AllocError>
    requires left { All (IsRecordPlace (read journals.now)) a.now }
    requires right { All (IsRecordPlace (read journals.now)) b.now }
    ensures journals { AreApart (rows_at (read journals.now) a.now) (rows_at (read journals.now) b.now)
        → IfOk result (λ v. (n : ℕ) → journal n (rows_at (read journals.now) v.items)
        ≡ journal n (rows_at (read journals.now) a.now) ++ journal n (rows_at (read journals.now) b.now)) }
    ensures rises { AreApart (rows_at (read journals.now) a.now) (rows_at (read journals.now) b.now)
        → RiseAll (rows_at (read journals.now) a.now) → RiseAll (rows_at (read journals.now) b.now)
        → IfOk result (λ v. RiseAll (rows_at (read journals.now) v.items)) }
    ensures places { IfOk result (λ v. All (IsRecordPlace (read journals.now)) v.items) }
{
    let mut places = Vec::with_capacity(alloc, a.len().saturating_add(b.len()))?;
    let mut i = 0;
    let mut j = 0;
    'places: while i < a.len() && j < b.len() {
        let left = a[i];
        let right = b[j];
        if goes_above(journals, right, left) {
            places.push(left)?;
            i += 1;
        } else {
            places.push(right)?;
            j += 1;
        }
    }
    places.extend_from_slice(&a[i..])?;
    places.extend_from_slice(&b[j..])?;
    Ok(places)
}

// The places of the journals of nodes from one below another.
fn merge_between(
    alloc: Global,
    journals: &[&[Record]],
    low: u32,
    high: u32,
) -> Result<Vec<Place>, AllocError>
    requires { high ≤ length journals.now }
    ensures journals { IfOk result (λ v. (n : ℕ)
        → journal n (rows_at (read journals.now) v.items) ≡ journals_below (read journals.now) low high n) }
    ensures rises { ((n : ℕ) → Rises (journal_in (read journals.now) n))
        → IfOk result (λ v. RiseAll (rows_at (read journals.now) v.items)) }
    ensures places { IfOk result (λ v. All (IsRecordPlace (read journals.now)) v.items) }
{
    if high <= low {
        return Ok(Vec::new(alloc));
    }
    if high == low + 1 {
        return places_at(alloc, journals, low);
    }
    let middle = low + (high - low) / 2;
    let a = merge_between(alloc, journals, low, middle)?;
    let b = merge_between(alloc, journals, middle, high)?;
    merge_two(alloc, journals, &a, &b)
}

/// The places of all records of some journals in one order, by stamp and then by node, the oldest first. Each journal, in which the
/// oldest record is the first, stands among them as it is, also read with the newest first; where the stamps of each journal rise, all are
/// in order.
pub fn merge(alloc: Global, journals: &[&[Record]]) -> Result<History, AllocError>
    requires { length journals.now < 2 ^ 32 }
    ensures journals { IfOk result (λ h. (n : ℕ)
        → journal n (rows_at (read journals.now) h) ≡ journal_in (read journals.now) n) }
    ensures newest_first { IfOk result (λ h. (n : ℕ)
        → journal n (newest_first (read journals.now) h) ≡ reverse (journal_in (read journals.now) n)) }
    ensures ordered { ((n : ℕ) → Rises (journal_in (read journals.now) n))
        → IfOk result (λ h. IsOrdered (newest_first (read journals.now) h)) }
    ensures places { IfOk result (λ h. All (IsRecordPlace (read journals.now)) h) }
{
    let places = merge_between(alloc, journals, 0, journals.len() as u32)?;
    Ok(List::from_vec(places))
}

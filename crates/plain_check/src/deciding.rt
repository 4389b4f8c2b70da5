// What was decided of the transactions of a lane's new Prepares.
ghost use Rattle.std.specs.Prelude.{◌≡◌, ◌*◌, ◌≤◌, List as Items, length, IfSome};
ghost use Rattle.cbdc_model.specs.Places.{Sized, sized_before, sized_onto, place_of, outcome_at};
ghost use Rattle.cbdc_model.specs.Waves.{prepared};
ghost use Rattle.plain_check.specs.Journals.{journals_in};
ghost use Rattle.printed_lines.specs.Decided.{added, decided_at, batches_below, new_batches};
ghost use Rattle.plain_check.specs.Searches.{place_by};

use crate::{journal_at, outcomes_of};
use cbdc_types::{BatchId, LaneId, List, Outcome, Record, Shape};
use same_records::home_of;

/// Those records of a journal that came since it was an older one.
pub fn added<'a>(old: &[Record], now: &'a [Record]) -> &'a [Record]
    ensures { result.now ≡ added old.now now.now }
{
    let count = now.len().saturating_sub(old.len());
    let (newer, _) = now.split_at(count);
    newer
}

/// Where a search among batches came to: the place, or how many more of the batches behind are to be passed.
#[derive(Clone, Copy)]
pub enum Search {
    Found(BatchId, usize),
    Past(usize),
}

// Where the q-th transaction of the lane's Prepares among the records lies, the newest of which stands first.
fn find_in(lane: LaneId, records: &[Record], q: usize) -> Search
    ensures { (others : Items Sized)
        → place_of (sized_onto lane records.now others) q ≡ place_by result others }
{
    let Some((r, older)) = records.split_first() else {
        return Search::Past(q);
    };
    match find_in(lane, older, q) {
        Search::Found(batch, at) => Search::Found(batch, at),
        Search::Past(rest) => find_by(lane, r, rest),
    }
}

// The same in one record.
fn find_by(lane: LaneId, r: &Record, q: usize) -> Search
    ensures { (others : Items Sized) → place_of (sized_before lane r.now others) q ≡ place_by result others }
{
    match r {
        Record::Prepare { batch, txs, .. } => {
            if batch.lane.0 != lane.0 {
                Search::Past(q)
            } else if q < txs.len() {
                Search::Found(*batch, q)
            } else {
                Search::Past(q - txs.len())
            }
        }
        _ => Search::Past(q),
    }
}

// The outcome at a place.
fn outcome_at(outcomes: &[Outcome], k: usize) -> Option<Outcome>
    ensures { result ≡ outcome_at outcomes.now k }
{
    let (outcome, rest) = outcomes.split_first()?;
    if k == 0 {
        Some(*outcome)
    } else {
        outcome_at(rest, k - 1)
    }
}

/// The batch and the outcome of the q-th transaction of a lane's new Prepares joined, by the journals at entry and at
/// exit.
pub fn decided_at(
    shape: &Shape,
    entry: &[List<Record>],
    exit: &[List<Record>],
    lane: LaneId,
    q: usize,
) -> Option<(BatchId, Outcome)>
    ensures { result ≡ decided_at shape.now (journals_in entry.now) (journals_in exit.now) lane q }
{
    let home = home_of(shape, lane);
    let journal = journal_at(exit, home.0);
    match find_in(lane, added(journal_at(entry, home.0), journal), q) {
        Search::Found(batch, at) => {
            let outcome = outcome_at(outcomes_of(journal, &batch), at)?;
            Some((batch, outcome))
        }
        Search::Past(_) => None,
    }
}

// How many of the records are Prepares of the lane.
fn prepares_in(lane: LaneId, records: &[Record]) -> usize
    ensures count { result ≡ length (prepared lane records.now) }
    ensures bound { result ≤ length records.now }
{
    let Some((r, older)) = records.split_first() else {
        return 0;
    };
    let behind = prepares_in(lane, older);
    match r {
        Record::Prepare { batch, .. } => {
            if batch.lane.0 == lane.0 {
                behind + 1
            } else {
                behind
            }
        }
        _ => behind,
    }
}

// How many Prepares the lanes below this one have got.
fn batches_below(
    shape: &Shape,
    entry: &[List<Record>],
    exit: &[List<Record>],
    lanes: u32,
) -> Option<u64>
    ensures { IfSome result
        (λ n. n ≡ batches_below shape.now (journals_in entry.now) (journals_in exit.now) lanes) }
{
    if lanes == 0 {
        return Some(0);
    }
    let lane = LaneId(lanes - 1);
    let below = batches_below(shape, entry, exit, lanes - 1)?;
    let home = home_of(shape, lane);
    let newer = added(journal_at(entry, home.0), journal_at(exit, home.0));
    below.checked_add(prepares_in(lane, newer) as u64)
}

/// How many new Prepares all lanes have, where that is a number of 64 bits.
pub fn batches_of(shape: &Shape, entry: &[List<Record>], exit: &[List<Record>]) -> Option<u64>
    ensures { IfSome result (λ n. n ≡ new_batches shape.now (journals_in entry.now) (journals_in exit.now)) }
{
    batches_below(shape, entry, exit, shape.lane_count())
}

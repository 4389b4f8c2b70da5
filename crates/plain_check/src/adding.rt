// What a stage of a run adds to the journals.
ghost use Rattle.std.specs.Prelude.{◌≡◌, ◌↔◌, ◌<◌, ℕ, is_some, IsTrue};
ghost use Rattle.std.specs.List.{AllByRecursion};
ghost use Rattle.cbdc_model.specs.Records.{record_of};
ghost use Rattle.cbdc_model.specs.Ranges.{home_of};
ghost use Rattle.cbdc_model.specs.Slots.{slot, Idle};
ghost use Rattle.cbdc_model.specs.World.{AreIdle};
ghost use Rattle.cbdc_model.specs.Waves.{Adds};
ghost use Rattle.plain_check.specs.Journals.{journals_in};
ghost use Rattle.plain_check.specs.Adding.{MayAdd, IsAdded, GrowsByNew};

use crate::{batch_of, home_journal, is_idle, journal_at, record_of, slot_of};
use cbdc_types::{BatchId, LaneId, List, Record, RecordKind, Shape};
use same_records::{home_of, is_journal};

// Whether a batch's coordinator has its record of a kind.
fn has_kind(kind: u64, shape: &Shape, journals: &[List<Record>], batch: &BatchId) -> bool
    ensures { result
        ≡ is_some (record_of kind (journals_in journals.now (home_of shape.now batch.now.lane)) batch.now) }
{
    record_of(kind, home_journal(journals, shape, batch), batch).is_some()
}

// Whether a stage may write records of a batch: where it resumes, of an open one; else of one that it prepared.
fn may_add(
    resumes: bool,
    shape: &Shape,
    old: &[List<Record>],
    new: &[List<Record>],
    batch: &BatchId,
) -> bool
    ensures { IsTrue result ↔ MayAdd resumes shape.now (journals_in old.now) (journals_in new.now) batch.now }
{
    let begun = has_kind(RecordKind::Prepare as u64, shape, old, batch);
    if resumes {
        begun && !has_kind(RecordKind::Done as u64, shape, old, batch)
    } else {
        !begun && has_kind(RecordKind::Prepare as u64, shape, new, batch)
    }
}

// Whether a record is of a batch of which the stage may write records.
#[tactic(auto, using(crate::proofs::Batches::not_new))]
fn is_new(
    resumes: bool,
    shape: &Shape,
    old: &[List<Record>],
    new: &[List<Record>],
    r: &Record,
) -> bool
    ensures { IsTrue result
        ↔ IsAdded (MayAdd resumes shape.now (journals_in old.now) (journals_in new.now)) r.now }
{
    match batch_of(r) {
        Some(batch) => may_add(resumes, shape, old, new, &batch),
        None => false,
    }
}

// The same of records.
fn are_new(
    resumes: bool,
    shape: &Shape,
    old: &[List<Record>],
    new: &[List<Record>],
    rs: &[Record],
) -> bool
    ensures { IsTrue result ↔ AllByRecursion
        (IsAdded (MayAdd resumes shape.now (journals_in old.now) (journals_in new.now))) rs.now }
{
    match rs.split_first() {
        None => true,
        Some((r, rest)) => {
            is_new(resumes, shape, old, new, r) && are_new(resumes, shape, old, new, rest)
        }
    }
}

/// A node's journal, nothing past the last node.
pub fn journal_of<'a>(journals: &'a [List<Record>], node: usize) -> &'a [Record]
    ensures { result.now ≡ journals_in journals.now node }
{
    match journals.get(node) {
        Some(own) => own.as_slice(),
        None => &[],
    }
}

/// Whether a node's journal has grown by records that the stage may write.
#[tactic(auto, using(crate::proofs::Growing::is_cut_at, crate::proofs::Growing::grows_by, crate::proofs::Growing::grows_not, crate::proofs::Growing::grows_short))]
pub fn has_grown(
    resumes: bool,
    shape: &Shape,
    old: &[List<Record>],
    new: &[List<Record>],
    node: usize,
) -> bool
    ensures { IsTrue result ↔ GrowsByNew (MayAdd resumes shape.now
        (journals_in old.now) (journals_in new.now)) (journals_in old.now node) (journals_in new.now node) }
{
    let before = journal_of(old, node);
    let after = journal_of(new, node);
    if after.len() < before.len() {
        return false;
    }
    let (newer, rest) = after.split_at(after.len() - before.len());
    is_journal(rest, before) && are_new(resumes, shape, old, new, newer)
}

// The same of the nodes below n.
fn have_grown_below(
    resumes: bool,
    shape: &Shape,
    old: &[List<Record>],
    new: &[List<Record>],
    n: usize,
) -> bool
    ensures { IsTrue result ↔ ((k : ℕ) → k < n → GrowsByNew (MayAdd resumes shape.now
        (journals_in old.now) (journals_in new.now)) (journals_in old.now k) (journals_in new.now k)) }
{
    if n == 0 {
        return true;
    }
    has_grown(resumes, shape, old, new, n - 1) && have_grown_below(resumes, shape, old, new, n - 1)
}

/// Whether all journals have grown by records that the stage may write.
#[tactic(auto, using(crate::proofs::Growing::adds_by, crate::proofs::Growing::past_end))]
pub fn adds(resumes: bool, shape: &Shape, old: &[List<Record>], new: &[List<Record>]) -> bool
    ensures { IsTrue result ↔ Adds (MayAdd resumes shape.now (journals_in old.now) (journals_in new.now))
        (journals_in old.now) (journals_in new.now) }
{
    have_grown_below(resumes, shape, old, new, old.len().max(new.len()))
}

// Whether the lanes below n are idle at their coordinators.
fn are_idle_below(shape: &Shape, journals: &[List<Record>], n: u32) -> bool
    ensures { IsTrue result ↔ ((lane : ℕ) → lane < n
        → (slot (journals_in journals.now (home_of shape.now lane)) lane).phase ≡ Idle) }
{
    if n == 0 {
        return true;
    }
    let lane = LaneId(n - 1);
    let own = journal_at(journals, home_of(shape, lane).0);
    is_idle(slot_of(own, lane).phase) && are_idle_below(shape, journals, n - 1)
}

/// Whether every lane is idle at its coordinator.
pub fn are_idle(shape: &Shape, journals: &[List<Record>]) -> bool
    ensures { IsTrue result ↔ AreIdle shape.now (journals_in journals.now) }
{
    are_idle_below(shape, journals, shape.lane_count())
}

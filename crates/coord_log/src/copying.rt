// What the records of a lane's open batch hold.
ghost use Rattle.std.specs.Prelude.{◌≡◌, ◌≤◌, ◌==◌, ◌&&◌, length, reverse, [], Some, IfOk};
ghost use Rattle.std.specs.Vec.{vec_capacity};
ghost use Rattle.cbdc_model.specs.Records.{kind_of, is_of, tells_lane, stamp_in, txs_in, outcomes_in, txs_of as journal_txs, outcomes_of as journal_outcomes};
ghost use Rattle.cbdc_model.specs.Slots.{slot_stamp};

use cbdc_types::{BatchId, CompactTx, LaneId, List, Outcome, Outcomes, Record, Stamp};
use coord_core::copied_txs;
use std::alloc::{AllocError, Global};

// Whether a record tells what this lane's last batch is.
fn tells_lane(written: &Record, lane: LaneId) -> bool
    ensures { result ≡ tells_lane lane written.now }
{
    match written {
        Record::Genesis { .. } => false,
        Record::Start { .. } => false,
        Record::Lock { batch, .. } => batch.lane == lane,
        Record::Finish { batch, .. } => batch.lane == lane,
        Record::Forget { batch, .. } => batch.lane == lane,
        Record::Prepare { batch, .. } => batch.lane == lane,
        Record::Commit { batch, .. } => batch.lane == lane,
        Record::Discard { batch, .. } => batch.lane == lane,
        Record::Done { batch, .. } => batch.lane == lane,
        Record::Upgrade { .. } => false,
        Record::Carry { numbers, .. } => (lane.0 as usize) < numbers.len(),
        Record::CarryStart { header, .. } => lane.0 / header.shape.lanes() == header.node.0,
        Record::Seal { .. } => false,
    }
}

// The stamp of a record, 0 for a first one of a mint.
fn stamp_at(written: &Record) -> Stamp
    ensures { result ≡ stamp_in (Some written.now) }
{
    match written {
        Record::Genesis { .. } => Stamp(0),
        Record::Start { .. } => Stamp(0),
        Record::Lock { stamp, .. } => *stamp,
        Record::Finish { stamp, .. } => *stamp,
        Record::Forget { stamp, .. } => *stamp,
        Record::Prepare { stamp, .. } => *stamp,
        Record::Commit { stamp, .. } => *stamp,
        Record::Discard { stamp, .. } => *stamp,
        Record::Done { stamp, .. } => *stamp,
        Record::Upgrade { stamp, .. } => *stamp,
        Record::Carry { stamp, .. } => *stamp,
        Record::CarryStart { stamp, .. } => *stamp,
        Record::Seal { stamp, .. } => *stamp,
    }
}

// Whether a record is the Prepare of a batch.
fn is_prepare_of(written: &Record, wanted: &BatchId) -> bool
    ensures { result ≡ (kind_of written.now == 6) && is_of wanted.now written.now }
{
    match written {
        Record::Prepare { batch, .. } => {
            batch.lane == wanted.lane && batch.number == wanted.number
        }
        _ => false,
    }
}

// Whether a record is the Commit of a batch.
fn is_commit_of(written: &Record, wanted: &BatchId) -> bool
    ensures { result ≡ (kind_of written.now == 7) && is_of wanted.now written.now }
{
    match written {
        Record::Commit { batch, .. } => batch.lane == wanted.lane && batch.number == wanted.number,
        _ => false,
    }
}

// A copy of the transactions of a Prepare.
fn copied_from_prepare(alloc: Global, written: &Record) -> Result<List<CompactTx>, AllocError>
    ensures { IfOk result (λ txs. txs ≡ txs_in (Some written.now)) }
{
    match written {
        Record::Prepare { txs, .. } => copied_txs(alloc, txs.as_slice()),
        _ => Ok(List::new(alloc)),
    }
}

// A copy of the outcomes of a Commit.
fn copied_from_commit(alloc: Global, written: &Record) -> Result<Outcomes, AllocError>
    ensures { IfOk result (λ os. os ≡ outcomes_in (Some written.now)) }
{
    match written {
        Record::Commit { outcomes, .. } => {
            let copied = Vec::from_slice(alloc, outcomes.as_slice())?;
            Ok(List::from_vec(copied))
        }
        _ => Ok(List::new(alloc)),
    }
}

/// The stamp of a lane's newest record, 0 where there is none.
pub(crate) fn stamp_of(records: &[Record], lane: LaneId) -> Stamp
    ensures { result ≡ slot_stamp (reverse records.now) lane }
{
    'records: for i in (0..records.len()).rev() {
        if tells_lane(&records[i], lane) {
            return stamp_at(&records[i]);
        }
    }
    Stamp(0)
}

/// A copy of the transactions of a batch.
pub(crate) fn txs_of(
    alloc: Global,
    records: &[Record],
    wanted: &BatchId,
) -> Result<List<CompactTx>, AllocError>
    ensures { IfOk result (λ txs. txs ≡ journal_txs (reverse records.now) wanted.now) }
{
    'records: for i in (0..records.len()).rev() {
        if is_prepare_of(&records[i], wanted) {
            return copied_from_prepare(alloc, &records[i]);
        }
    }
    Ok(List::new(alloc))
}

/// A copy of the outcomes of a batch, none before its Commit.
pub(crate) fn outcomes_of(
    alloc: Global,
    records: &[Record],
    wanted: &BatchId,
) -> Result<Outcomes, AllocError>
    ensures { IfOk result (λ os. os ≡ journal_outcomes (reverse records.now) wanted.now) }
{
    'records: for i in (0..records.len()).rev() {
        if is_commit_of(&records[i], wanted) {
            return copied_from_commit(alloc, &records[i]);
        }
    }
    Ok(List::new(alloc))
}

/// Puts the outcomes of a Commit in place of what a vector holds that has room for them.
pub(crate) fn tell(commit: &Record, out: &mut Vec<Outcome>)
    requires room { length (outcomes_in (Some commit.now)) ≤ vec_capacity out.old }
    ensures { out.new.items ≡ outcomes_in (Some commit.now) }
{
    out.clear();
    if let Record::Commit { outcomes, .. } = commit {
        out.extend_from_slice(outcomes.as_slice()).unwrap();
    }
}

// What is kept of the journals along a walk over a history.
ghost use Rattle.std.specs.Prelude.{◌≡◌, ◌<◌, ◌∷◌, ◌==◌, ◌&&◌, if◌then◌else◌, [], false, ℕ, None, Some, List as Items, MatchOption, IsSomeAnd, OnOk, length};
ghost use Rattle.cbdc_model.specs.Records.{Batch, Record as ModelRecord, Row, journal, record_of, last_stamp, stamp_of, is_of, kind_of, same_batch};
ghost use Rattle.audit.specs.Rows.{read, journal_in, record_at};

use crate::merging::stamp_of;
use cbdc_types::{BatchId, Record, RecordKind};
use std::alloc::{AllocError, Global};
use std::collections::HashMap;

/// The newest record of each kind of each batch at each node, as its index in the node's journal, and the last stamp of each node. A key
/// is a node, a kind, a lane and a number.
#[derive(Drop)]
pub(crate) struct Known {
    pub(crate) indices: HashMap<(u32, u64, u32, u64), u64>,
    pub(crate) stamps: HashMap<u32, u64>,
}

// The kind of a record, as the first byte of its body names it, and its batch, if it has one.
fn kind_and_batch(r: &Record) -> Option<(u64, BatchId)>
    ensures { MatchOption result ((b : Batch) → is_of b r.now ≡ false) (λ p. (kind_of r.now ≡ p.0)
        × ((b : Batch) → is_of b r.now ≡ same_batch p.1 b)) }
{
    match r {
        Record::Genesis { .. } => None,
        Record::Lock { batch, .. } => Some((RecordKind::Lock as u64, *batch)),
        Record::Finish { batch, .. } => Some((RecordKind::Finish as u64, *batch)),
        Record::Forget { batch, .. } => Some((RecordKind::Forget as u64, *batch)),
        Record::Start { .. } => None,
        Record::Prepare { batch, .. } => Some((RecordKind::Prepare as u64, *batch)),
        Record::Commit { batch, .. } => Some((RecordKind::Commit as u64, *batch)),
        Record::Discard { batch, .. } => Some((RecordKind::Discard as u64, *batch)),
        Record::Done { batch, .. } => Some((RecordKind::Done as u64, *batch)),
        Record::Upgrade { .. } => None,
        Record::Carry { .. } => None,
        Record::CarryStart { .. } => None,
        Record::Seal { .. } => None,
    }
}

// The record at an index of a node's journal, if it is there.
fn record_if_there<'a>(journals: &[&'a [Record]], node: u32, index: u64) -> Option<&'a Record>
    ensures { index < length (journal_in (read journals.now) node) → IsSomeAnd result
        (λ r. r.now ≡ record_at (read journals.now) (record { node = node; index = index })) }
{
    match journals.get(node as usize) {
        Some(journal) => journal.get(index as usize),
        None => None,
    }
}

impl Known {
    ghost use Rattle.audit.specs.Knowing.{Knows, index_of};

    /// Nothing, of journals without records.
    pub(crate) fn new(alloc: Global) -> Known
        ensures { (all : Items (Items ModelRecord)) → Knows all result (λ n. []) }
    {
        Known {
            indices: HashMap::new(alloc),
            stamps: HashMap::new(alloc),
        }
    }

    /// The newest record of a kind of a batch at a node.
    pub(crate) fn found<'a>(
        &self,
        journals: &[&'a [Record]],
        node: u32,
        kind: u64,
        batch: &BatchId,
    ) -> Option<&'a Record>
        ensures { (J : ℕ → Items ModelRecord) → Knows (read journals.now) self.now J → MatchOption result
            (record_of kind (J node) batch.now ≡ None) (λ r. record_of kind (J node) batch.now ≡ Some r.now) }
    {
        match self.indices.get(&(node, kind, batch.lane.0, batch.number)) {
            Some(index) => record_if_there(journals, node, *index),
            None => None,
        }
    }

    /// The last stamp of a node, 0 where it has no record.
    pub(crate) fn last_stamp(&self, node: u32) -> u64
        ensures { (all : Items (Items ModelRecord)) → (J : ℕ → Items ModelRecord) → Knows all self.now J
            → result ≡ last_stamp (J node) }
    {
        match self.stamps.get(&node) {
            Some(stamp) => *stamp,
            None => 0,
        }
    }

    // Keeps the index of a record of a node, if it is of a batch.
    fn keep(&mut self, node: u32, index: u64, r: &Record) -> Result<(), AllocError>
        ensures kept { OnOk result ((n kind : ℕ) → (b : Batch) → index_of self.new n kind b ≡ (if (node == n)
            && ((kind_of r.now == kind) && is_of b r.now) then Some index else index_of self.old n kind b)) }
        ensures stamps { self.new.stamps ≡ self.old.stamps }
    {
        match kind_and_batch(r) {
            Some((kind, batch)) => {
                self.indices
                    .insert((node, kind, batch.lane.0, batch.number), index)?;
                Ok(())
            }
            None => Ok(()),
        }
    }

    /// Takes a record of a node in, which stands at this index of its journal.
    pub(crate) fn note(&mut self, node: u32, index: u64, r: &Record) -> Result<(), AllocError>
        ensures { OnOk result ((all : Items (Items ModelRecord)) → (past : Items Row)
            → index < length (journal_in all node) → record_at all (record { node = node; index = index })
            ≡ r.now → Knows all self.old (λ n. journal n past)
            → Knows all self.new (λ n. journal n (record { node = node; what = r.now } ∷ past))) }
    {
        self.keep(node, index, r)?;
        self.stamps.insert(node, stamp_of(r))?;
        Ok(())
    }
}

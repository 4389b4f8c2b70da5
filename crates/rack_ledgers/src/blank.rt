// A disk that is to become a node.
ghost use Rattle.std.specs.Prelude.{◌≡◌, ◌≢◌, ◌≤◌, ℕ, List, IfOk, IfErr, MatchBool, MatchResult};
ghost use Rattle.outside.specs.Counts.{Rose};
ghost use Rattle.record_log.specs.LogReading.{IsNoLog};
ghost use Rattle.rack_ledgers.specs.Places.{IsOpening};
ghost use Rattle.rack_ledgers.specs.Blank.{AreWholeRecords, IsInUse, IsUnused, IsNoBlank, IsBlankRefusal};

use crate::OnDisk;
use cbdc_types::{Answer, Header, NodeId, NodeOpenFault};
use outside::Disk;
use record_log::{NoLog, open_records};
use std::alloc::Global;

/// A disk without records, for this node: node 0 has no whole first record, another node no second one.
pub struct Blank<D> {
    pub node: NodeId,
    pub disk: D,
}

// Whether a node with so many records may be made anew.
fn is_blank(node: NodeId, records: usize) -> bool
    ensures { (c : List ℕ) → AreWholeRecords records c → MatchBool result (IsUnused node c) (IsInUse node c) }
{
    if node.0 == 0 {
        records == 0
    } else {
        records <= 1
    }
}

// How many records a disk has that did not open into a journal, or why that can't be told.
fn records_of(node: NodeId, refused: NoLog) -> Result<usize, Answer>
    ensures whole { IfOk result (λ n. (c : List ℕ) → IsNoLog c refused → AreWholeRecords n c) }
    ensures kept { IfOk result (λ _. refused ≢ NoLog.Fault NodeOpenFault.DiskFault) }
    ensures fault { IfErr result (λ e. (before now : _)
        → (refused ≡ NoLog.Fault NodeOpenFault.DiskFault → Rose before now) → IsOpening node before now e) }
    ensures free { IfErr result (λ e. (c : List ℕ) → IsNoBlank node c e) }
    ensures kind { IfErr result IsBlankRefusal }
{
    match refused {
        NoLog::Cut { records, .. } => Ok(records.len()),
        NoLog::Fault(NodeOpenFault::DiskFault) => Err(Answer::DiskFault(node)),
        NoLog::Fault(NodeOpenFault::Memory) => Err(Answer::Memory),
        NoLog::Fault(NodeOpenFault::NotReady) => Ok(0),
        NoLog::Fault(NodeOpenFault::OtherKind) => Ok(0),
        NoLog::Fault(NodeOpenFault::Damaged { .. }) => Ok(0),
        NoLog::Fault(NodeOpenFault::Full { .. }) => Ok(0),
    }
}

// A disk with so many records as a blank one, where it is.
fn blank_of<D: Disk>(node: NodeId, disk: D, records: usize) -> Result<Blank<D>, (D, Answer)>
    ensures blank { MatchResult result (λ b. (b.disk ≡ disk)
        × (b.node ≡ node)) (λ e. (e.0 ≡ disk) × (e.1 ≡ Answer.NotEmpty node)) }
    ensures unused { (c : List ℕ) → AreWholeRecords records c
        → MatchResult result (λ _. IsUnused node c) (λ _. IsInUse node c) }
{
    if is_blank(node, records) {
        Ok(Blank { node, disk })
    } else {
        Err((disk, Answer::NotEmpty(node)))
    }
}

impl<D: Disk> OnDisk<D> for Blank<D> {
    ghost use Rattle.std.specs.Prelude.{◌≡◌, refl};
    ghost use Rattle.rack_ledgers.specs.Blank.{IsUnused, IsNoBlank, IsBlankRefusal};

    ghost disk_of = { λ b. b.disk };

    ghost opens = { λ b c. IsUnused b.node c };

    ghost fits = { λ node ledger b. b.node ≡ node };

    ghost refused = { λ node ledger limit c e. IsNoBlank node c e };

    ghost refusals = { λ e. IsBlankRefusal e };

    ghost free = { λ node ledger limit c. (tt, refl) };

    ghost may_fail = { λ node. (tt, tt) };

    fn open_disk(
        alloc: Global,
        node: NodeId,
        _ledger: Option<&Header>,
        disk: D,
    ) -> Result<Blank<D>, (D, Answer)> {
        match open_records(alloc, disk) {
            Ok(log) => {
                let records = log.records.len();
                blank_of(node, log.into_disk(), records)
            }
            Err((disk, refused)) => match records_of(node, refused) {
                Ok(records) => blank_of(node, disk, records),
                Err(fault) => Err((disk, fault)),
            },
        }
    }

    fn give_disk(self) -> D {
        let Blank { node: _, disk } = self;
        disk
    }
}

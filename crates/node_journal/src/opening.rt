// Opening a node's disk.
ghost use Rattle.std.specs.Prelude.{◌≡◌, ◌≢◌, ◌+◌, ◌≤◌, ℕ, List as Items, None, reverse, sum_by, IfOk, IfErr, MatchResult};
ghost use Rattle.cbdc_types.specs.declared.calls.NodeOpenFault.{NodeOpenFault as TheFault};
ghost use Rattle.outside.specs.Counts.{Rose};
ghost use Rattle.outside.specs.Images.{Tells, Leaves};
ghost use Rattle.gate_journal.specs.Shown.{disk_of, gate_of, broken_of};
ghost use Rattle.cbdc_model.specs.Room.{size_of, kept_room};
ghost use Rattle.cbdc_model.specs.Due.{used_of};
ghost use Rattle.record_log.specs.Held.{MayHold, OpensTo};
ghost use Rattle.record_log.specs.LogReading.{HoldsBefore, IsNoLog};
ghost use Rattle.node_journal.specs.Nodes.{HoldsJournal};
ghost use Rattle.node_journal.specs.Opening.{IsPlayed, IsJournalOf, IsNoNodeOf};
ghost use Rattle.node_journal.specs.Sound.{IsOpened, journal_of, view_of};

use crate::nodes::Node;
use crate::replaying::{cut_fault, replayed};
use cbdc_types::NodeOpenFault;
use outside::Disk;
use record_grammar::Core;
use record_log::{NoLog, RecordLog, open_records};
use std::alloc::Global;

// The core that stands for a log, with room for the records that are still to come.
fn core_of<C: Core, D: Disk>(alloc: Global, log: &RecordLog<D>) -> Result<C, NodeOpenFault>
    requires grammar { MayHold log.now.header log.now.records.items }
    requires ends { gate_of log.now.journal ≡ sum_by size_of log.now.records.items }
    requires whole { broken_of log.now.journal ≡ None }
    ensures played { IfOk result
        (λ core. IsPlayed C.header C.stands C.kind log.now.header core (reverse log.now.records.items)) }
    ensures room { IfOk result (λ core. used_of (reverse log.now.records.items) + kept_room
        log.now.header.shape (reverse log.now.records.items) ≤ D.limit (disk_of log.now.journal)) }
    ensures refusal { IfErr result (λ e. (c : Items ℕ) → OpensTo log.now.records.items c
        → IsNoNodeOf C.kind C.other (D.limit (disk_of log.now.journal)) c e) }
    ensures fault { IfErr result (λ e. e ≢ NodeOpenFault.DiskFault) }
{
    let used = log.used();
    let replay: Result<C, NodeOpenFault> = replayed(alloc, &log.header, &log.records);
    let core = match replay {
        Ok(core) => core,
        Err(fault) => return Err(fault),
    };
    let need = core.kept_room();
    let capacity = log.capacity();
    if need > capacity - used {
        return Err(NodeOpenFault::Full {
            used,
            need,
            capacity,
        });
    }
    Ok(core)
}

// Why a disk did not open into records.
fn no_log_fault<C: Core>(alloc: Global, refused: NoLog) -> NodeOpenFault
    requires { HoldsBefore refused }
    ensures fault { result ≡ NodeOpenFault.DiskFault → refused ≡ NoLog.Fault NodeOpenFault.DiskFault }
    ensures kept { (fault : TheFault) → refused ≡ NoLog.Fault fault → result ≡ fault }
    ensures refusal { (limit : ℕ) (c : Items ℕ) → IsNoLog c refused
        → IsNoNodeOf C.kind C.other limit c result }
{
    match refused {
        NoLog::Fault(fault) => fault,
        NoLog::Cut {
            header,
            records,
            at,
        } => cut_fault::<C>(alloc, &header, &records, at),
    }
}

/// Opens a node's disk into its log and its core. A refusal hands the disk back.
///
/// Out of memory: the disk comes back as it was read.
pub fn open_node<C: Core, D: Disk>(alloc: Global, disk: D) -> Result<Node<C, D>, (D, NodeOpenFault)>
    ensures opened { IfOk result (IsOpened C.header C.stands C.kind) }

    // The content opens to just this journal, and a crash leaves nothing else.
    ensures opens { IfOk result (λ n. Tells (D.content disk) (λ c.
        IsJournalOf C.kind n.log.header (journal_of n) c × HoldsJournal D.Disk (view_of n))) }

    // Which refusal it is.
    ensures refusal { IfErr result
        (λ e. Tells (D.content disk) (λ c. IsNoNodeOf C.kind C.other (D.limit disk) c e.1)) }
    ensures later { MatchResult result
        (λ n. D.count disk ≤ D.count (disk_of n.log.journal)) (λ e. D.count disk ≤ D.count e.0) }
    ensures fault { IfErr result (λ e. e.1 ≡ NodeOpenFault.DiskFault → Rose (D.count disk) (D.count e.0)) }
    ensures limit { MatchResult result
        (λ n. D.limit (disk_of n.log.journal) ≡ D.limit disk) (λ e. D.limit e.0 ≡ D.limit disk) }

    // Unless it failed, the disk reads as before, and a crash may leave nothing more than before.
    ensures same { MatchResult result (λ n. D.content (disk_of n.log.journal) ≡ D.content disk)
        (λ e. e.1 ≢ NodeOpenFault.DiskFault → D.content e.0 ≡ D.content disk) }
    ensures leaves { MatchResult result (λ n.
        Leaves D.tells_past D.moment D.images_since D.images disk (disk_of n.log.journal) (D.images disk))
        (λ e. Leaves D.tells_past D.moment D.images_since D.images disk e.0 (D.images disk)) }
{
    match open_records(alloc, disk) {
        Ok(log) => match core_of(alloc, &log) {
            Ok(core) => {
                let opened = log.faults();
                Ok(Node {
                    log,
                    core,
                    opened,
                    flight: None,
                })
            }
            Err(fault) => Err((log.into_disk(), fault)),
        },
        Err((disk, refused)) => {
            let fault = no_log_fault::<C>(alloc, refused);
            Err((disk, fault))
        }
    }
}

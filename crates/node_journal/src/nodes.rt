// A node of either kind, and a record that is due at it.
ghost use Rattle.std.specs.Prelude.{◌≡◌, ◌+◌, ◌≤◌, false, None, length, OnOk, OnErr};
ghost use Rattle.gate_journal.specs.Shown.{disk_of, broken_of};
ghost use Rattle.cbdc_model.specs.After.{After};
ghost use Rattle.cbdc_model.specs.Due.{used_of};
ghost use Rattle.cbdc_model.specs.Room.{need_of};
ghost use Rattle.record_log.specs.Bodies.{body_of};
ghost use Rattle.record_log.specs.Logs.{HasLogRoom};
ghost use Rattle.node_journal.specs.Answered.{HasAnswered, one_write};
ghost use Rattle.node_journal.specs.Sound.{IsNode, journal_of, view_of};
ghost use Rattle.node_journal.specs.Writing.{HasKept, HasBroken};

use cbdc_types::{NodeFault, Record};
use outside::Disk;
use record_grammar::Core;
use record_log::{LogFault, RecordLog};

/// A log, the core that stands for its records, how often the disk had failed when it was opened, and a record that a
/// failed call may have left on the disk.
#[derive(Drop)]
pub struct Node<C: Core, D: Disk> {
    pub log: RecordLog<D>,
    pub core: C,
    pub opened: u64,
    pub flight: Option<Record>,
}

/// Writes a record that may come next and has its room, and then takes it in. Where the disk fails, the record is in
/// flight.
///
/// Out of memory: never.
pub fn write<C: Core, D: Disk>(node: &mut Node<C, D>, next: Record) -> Result<(), NodeFault>
    requires node { IsNode C.kind node.old }
    requires admitted { C.admits node.old.core next }
    requires after { After node.old.log.header (journal_of node.old) next }
    requires memory { HasLogRoom node.old.log 1 (length (body_of next)) }
    requires whole { broken_of node.old.log.journal ≡ None }
    requires need { used_of (journal_of node.old)
        + need_of node.old.log.header.shape (journal_of node.old) next
        ≤ D.limit (disk_of node.old.log.journal) }
    ensures node { IsNode C.kind node.new }
    ensures answered { HasAnswered D.Disk false (one_write next) (view_of node.old) (view_of node.new) result }
    ensures written { OnOk result (HasKept node.old.log node.new.log next
        × C.takes node.old.core node.new.core next × (C.header node.new.core ≡ C.header node.old.core)) }
    ensures failed { OnErr result (HasBroken node.old.log node.new.log × (node.new.core ≡ node.old.core)) }
{
    match node.log.write(&next) {
        Ok(()) => {
            node.core.apply(&next);
            node.log.keep(next);
            Ok(())
        }
        Err(LogFault::DiskFault) => {
            node.flight = Some(next);
            Err(NodeFault::DiskFault)
        }
        Err(_) => unreachable!(),
    }
}

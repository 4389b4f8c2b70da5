// Writing a record, and the room for it.
ghost use Rattle.std.specs.Prelude.{◌≡◌, ◌+◌, ◌*◌, ◌≤◌, ◌<◌, ◌^◌, false, OnOk, IfErr};
ghost use Rattle.gate_journal.specs.Shown.{disk_of, gate_of};
ghost use Rattle.cbdc_model.specs.Room.{room_behind_prepare};
ghost use Rattle.coord_core.specs.Lanes.{IsCoordWhole, kept_of, ahead_of};
ghost use Rattle.record_log.specs.Logs.{HasLogRoom, KeepsRoom, IsUntouched};
ghost use Rattle.node_journal.specs.Answered.{HasAnswered, one_write};
ghost use Rattle.node_journal.specs.Sound.{view_of};
ghost use Rattle.coord_log.specs.Inside.{largest, IsCoordSound, IsDue, IsNoRoom};

use cbdc_types::{NodeFault, Record};
use coord_core::CoordCore;
use node_journal::{Node, write};
use outside::Disk;
use record_log::RecordLog;

/// The bytes of a Commit without its outcomes, and of a Discard and a Done.
const BEHIND_PREPARE: u64 = 110;

/// The most bytes of an outcome.
const OUTCOME: u64 = 57;

/// The most bytes of a Commit: of 1,024 outcomes.
pub(crate) const LARGEST_COMMIT: u64 = 58410;

/// Writes a record that has its place, and then takes it in. Where the disk fails, the record is in flight.
pub(crate) fn write_due<D: Disk>(
    node: &mut Node<CoordCore, D>,
    next: Record,
) -> Result<(), NodeFault>
    requires { IsDue node.old next }
    ensures sound { IsCoordSound node.new }
    ensures answered { HasAnswered D.Disk false (one_write next) (view_of node.old) (view_of node.new) result }
{
    write(node, next)
}

/// Takes the room for a Prepare of so many bytes and transactions and for all records that are still to come: on
/// the disk, and in memory.
pub(crate) fn make_room<D: Disk>(
    log: &mut RecordLog<D>,
    core: &CoordCore,
    size: u64,
    count: usize,
) -> Result<(), NodeFault>
    requires size { size < 2 ^ 40 }
    requires count { count ≤ 1024 }
    requires used { gate_of log.old.journal + 1 ≤ D.limit (disk_of log.old.journal) }
    ensures whole { IsCoordWhole core.now }
    ensures header { log.new.header ≡ log.old.header }
    ensures records { log.new.records.items ≡ log.old.records.items }
    ensures untouched { IsUntouched log.old log.new }
    ensures keeps { KeepsRoom log.old log.new }
    ensures room { OnOk result (HasLogRoom log.new (ahead_of core.now.lanes + 4) size
        × HasLogRoom log.new (ahead_of core.now.lanes + 4) largest) }
    ensures space { OnOk result (gate_of log.old.journal + 1
        + (size + room_behind_prepare count + kept_of core.now.lanes) ≤ D.limit (disk_of log.old.journal)) }
    ensures refusal { IfErr result (λ e. IsNoRoom (gate_of log.old.journal + 1)
        (size + room_behind_prepare count + kept_of core.now.lanes) (D.limit (disk_of log.old.journal)) e) }
{
    let used = log.used();
    let need = size + BEHIND_PREPARE + OUTCOME * count as u64 + core.kept_room();
    let capacity = log.capacity();
    if need > capacity - used {
        return Err(NodeFault::Full {
            used,
            need,
            capacity,
        });
    }
    match log.reserve(core.records_ahead() + 4, size.max(LARGEST_COMMIT)) {
        Ok(()) => Ok(()),
        Err(_) => Err(NodeFault::Memory),
    }
}

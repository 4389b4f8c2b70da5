// A wave of lanes at the nodes of a ledger.
ghost use Rattle.std.specs.Prelude.{◌≡◌, ◌*◌, length};
ghost use Rattle.cbdc_model.specs.World.{AreIdle};
ghost use Rattle.ledger_runs.specs.Waving.{AreWithin};
ghost use Rattle.file_runs.specs.Ledgers.{ledger_journals, IsChecked};
ghost use Rattle.file_runs.specs.Waving.{IsWave};

use crate::driving::{see_logs, see_shards};
use crate::ledger::Ledger;
use lane_driver::Source;
use lane_waves::{Nodes, wave};
use ledger_runs::Work;
use outside::{Disk, Gate};
use std::alloc::Global;
use std::sync::Wait;
use std::thread::Threads;

/// Runs a wave of idle lanes at the nodes of a ledger, each lane on a thread of its own.
///
/// A wave over a ledger's nodes. Each lane runs what it got, whatever the order in which lanes ask a node: a file's run as the definitions have it.
/// Kept journals stay kept, also at a fault, and journals that are checked stay checked. Where no lane stopped, no node has a record in flight where
/// none had one, and each lane that had done nothing tells the batch and the outcome of each transaction that it prepared newly, in order, one for
/// each, and how many batches these are (as far as 64 bits count). Each lane has then prepared all that it gets, cut into pieces of a batch's size,
/// and nothing else. Whatever the others met, each lane that met no fault has run all that it got, and is idle (header, wave (`IsWave`)).
///
/// Each lane that stopped has its cause, by the journals at the end. Either the disk of a node that it asks has failed since that was opened: of its
/// coordinator, for its next Prepare, where it is idle; else of a shard that its open batch concerns, once each lesser one has its record of the
/// phase, a Lock, a Finish or a Forget, or of its coordinator, once all have. Or there is no room, with the numbers, or no stamp at the Prepare of
/// the next piece of what it gets (the lane is idle and has prepared the pieces before it, and nothing else), or at the first Lock that its prepared
/// batch lacks.
///
/// A record in flight, which a failed call may have left on a disk or not, follows its node's journal and is caused, where each did before and all
/// that the lanes get is proper. A Prepare in flight was so before, and its lane has prepared nothing since; or it is that of its lane's next
/// piece: the lane has prepared the pieces before it, and nothing else (wave (`flies` and `launches` of `WaveSays`)).
///
/// Tested in `ledger_rows` (`run.rows`, `lanes.rows`, `threads.rows`).
///
/// Out of memory: before the first call, of all lanes; after that as `run_lane`. Each lane is as it ended.
pub fn run_wave<W: Threads + Wait + Sync, D: Disk + Send, X: Source + Send, G: Gate + Sync>(
    rt: &W,
    alloc: Global,
    ledger: Ledger<D>,
    lanes: &mut Vec<Work<X>>,
    gate: &G,
) -> Ledger<D>
    requires count { length lanes.old.items ≡ ledger.header.shape.coordinators * ledger.header.shape.lanes }
    requires idle { AreIdle ledger.header.shape (ledger_journals ledger) }
    requires limits { AreWithin lanes.old.items }
    requires checked { IsChecked ledger }
    ensures header { result.header ≡ ledger.header }
    ensures wave { IsWave D.Disk ledger result lanes.old.items lanes.new.items }
{
    let Ledger {
        header,
        logs,
        shards,
        mut watch,
    } = ledger;
    let Nodes { logs, shards } = wave(
        rt,
        alloc,
        &header.shape,
        Nodes { logs, shards },
        lanes,
        &mut watch,
        gate,
    );
    see_logs(logs.as_slice());
    see_shards(shards.as_slice());
    Ledger {
        header,
        logs,
        shards,
        watch,
    }
}

// A whole wave.
ghost use Rattle.std.specs.Prelude.{◌≡◌, ◌≤◌, ◌<◌, ◌*◌, ℕ, [], All, IfOk, IfErr, length, map, vec_capacity};
ghost use Rattle.cbdc_types.specs.Limits.{IsWithinLimits};
ghost use Rattle.cbdc_model.specs.Grammar.{IsCompact};
ghost use Rattle.cbdc_model.specs.Ranges.{home_of};
ghost use Rattle.node_journal.specs.Nodes.{sight};
ghost use Rattle.node_ports.specs.Nodes.{sight_at, IsNodeHeld};
ghost use Rattle.lane_driver.specs.Stops.{IsLaneSettled};
ghost use Rattle.port_sets.specs.Nodes.{log_sight, shard_sight};
ghost use Rattle.lane_waves.specs.NodeRows.{AreWatchedRows, AreLocked, AreStill, AreLeft};
ghost use Rattle.lane_waves.specs.Watching.{AreFreshWatchers};
ghost use Rattle.lane_waves.specs.Watchers.{CanWatch, HasWatched, HasSeen, IfSaw};
ghost use Rattle.lane_waves.specs.Held.{RunBegins};
ghost use Rattle.thread_laws.specs.Running.{WaveRan};
ghost use Rattle.lane_waves.specs.Laws.{WentOn};
ghost use Rattle.lane_waves.specs.Places.{AllFrom};
ghost use Rattle.lane_waves.specs.Rows.{IsHomeRow, IsShardRow, all_lanes};
ghost use Rattle.lane_waves.specs.Deals.{MayRun, AreLocksOpen, IsHomeFresh, IsEmptyRoom};
ghost use Rattle.lane_waves.specs.Gathers.{AreRun};
ghost use Rattle.lane_waves.specs.Rooms.{IsNodeRoom, IsLaneRoom};
ghost use Rattle.lane_waves.specs.Waves.{log_goes, shard_goes, AreNodesOf, AreThrough};

use crate::choosing::pace_of;
use crate::dealing::{Table, deal_all, port_rooms};
use crate::gathering::gather_all;
use crate::lanes::{make_ready, stop_all};
use crate::rows::{home_rows, shard_rows};
use crate::runs::run_beside;
use crate::watching::{Watch, Watcher};
use crate::{LaneRun, Locked, close_all, lock_all};
use cbdc_types::{LaneId, Shape};
use coord_log::CoordLog;
use lane_driver::Source;
use ledger_runs::Work;
use node_lock::{Guarded, Seat};
use outside::{Disk, Gate};
use port_sets::{
    Locks, Shard, ShardSeat, SharedLog, SharedShard, own_logs, own_shards, share_logs, share_shards,
};
use std::alloc::{AllocError, Global};
use std::marker::Brand;
use std::mem;
use std::sync::Wait;
use std::thread::Threads;

/// All nodes of a ledger: its coordinators, and its shards.
pub struct Nodes<D: Disk, S: Shard> {
    pub logs: Vec<CoordLog<D>>,
    pub shards: Vec<S>,
}

// All nodes under the wrappers that lanes share.
struct SharedNodes<D: Disk, S: Shard> {
    logs: Vec<SharedLog<D>>,
    shards: Vec<SharedShard<S>>,
}

// The memory of a wave that its nodes want: the lanes that each is locked for, and a list for them under their wrappers.
struct NodeRoom<D: Disk, S: Shard> {
    home_rows: Vec<Vec<LaneId>>,
    shard_rows: Vec<Vec<LaneId>>,
    nodes: SharedNodes<D, S>,
}

// Locks round all nodes.
struct LockedNodes<D: Disk, S: Shard> {
    logs: Locked<SharedLog<D>>,
    shards: Locked<SharedShard<S>>,
}

// The memory that its lanes want.
struct LaneRoom<'a, W: Wait, D: Disk, S: Shard, B: Locks, X: Source> {
    emptied: Vec<Vec<Seat<SharedLog<D>>>>,
    spare: Vec<Vec<Seat<SharedShard<S>>>>,
    seats: Vec<Seat<SharedShard<S>>>,
    rooms: Vec<Vec<ShardSeat<'a, W, S, B>>>,
    runs: Vec<LaneRun<'a, W, D, S, B, X>>,
}

// The seats of all locks, a list for each lock, and the lanes.
struct SeatedLanes<D: Disk, S: Shard, X: Source> {
    homes: Vec<Vec<Seat<SharedLog<D>>>>,
    rows: Vec<Vec<Seat<SharedShard<S>>>>,
    lanes: Vec<Work<X>>,
}

// Each coordinator's disk has failed no less often than when it was opened: a call that reads it says so.
fn see_logs<D: Disk>(logs: &[CoordLog<D>])
    ensures { All (λ l. l.opened ≤ l.faults) logs.now }
{
    'logs: for log in logs {
        let _header = log.header();
    }
}

// Each shard has failed no less often than when it was opened, and one that is asked nothing stays: a call that reads it says so.
fn see_shards<S: Shard>(shards: &[S])
    ensures since { All (λ s. (S.sight s).opened ≤ (S.sight s).faults) shards.now }
    ensures stay { (s : _) → S.goes s s }
{
    'shards: for shard in shards {
        let _header = shard.header();
    }
}

// Two empty lists with room for so many items each, or none.
fn two_lists<S, T>(
    alloc: Global,
    first: usize,
    second: usize,
) -> Result<(Vec<S>, Vec<T>), AllocError>
    ensures { IfOk result (λ lists. IsEmptyRoom first lists.0 × IsEmptyRoom second lists.1) }
{
    let one = Vec::with_capacity(alloc, first)?;
    let Ok(other) = Vec::with_capacity(alloc, second) else {
        one.destroy_empty();
        return Err(AllocError);
    };
    Ok((one, other))
}

// The memory that the nodes of a wave want, and the lanes made ready.
fn node_room<D: Disk, S: Shard, X: Source>(
    alloc: Global,
    shape: &Shape,
    lanes: &mut Vec<Work<X>>,
) -> Result<NodeRoom<D, S>, AllocError>
    ensures same { map (λ x. x.txs) lanes.new.items ≡ map (λ x. x.txs) lanes.old.items }
    ensures room { IfOk result (λ r. IsNodeRoom shape.now r lanes.new.items) }
{
    make_ready(lanes)?;
    let home_rows = home_rows(alloc, shape)?;
    let shard_rows = shard_rows(alloc, shape)?;
    let (logs, shards) = two_lists(
        alloc,
        shape.coordinators() as usize,
        shape.shards() as usize,
    )?;
    Ok(NodeRoom {
        home_rows,
        shard_rows,
        nodes: SharedNodes { logs, shards },
    })
}

// The memory that the lanes of a wave want.
fn lane_room<'a, W: Wait, D: Disk, S: Shard, B: Locks, X: Source>(
    alloc: Global,
    shape: &Shape,
) -> Result<LaneRoom<'a, W, D, S, B, X>, AllocError>
    ensures { IfOk result (λ r. IsLaneRoom shape.now r) }
{
    let homes = shape.coordinators() as usize;
    let shards = shape.shards() as usize;
    let lanes = shape.lane_count() as usize;
    let (emptied, runs) = two_lists(alloc, homes, lanes)?;
    let Ok((spare, seats)) = two_lists(alloc, shards, shards) else {
        emptied.destroy_empty();
        runs.destroy_empty();
        return Err(AllocError);
    };
    let Ok(rooms) = port_rooms(alloc, lanes, shards) else {
        emptied.destroy_empty();
        runs.destroy_empty();
        spare.destroy_empty();
        seats.destroy_empty();
        return Err(AllocError);
    };
    Ok(LaneRoom {
        emptied,
        spare,
        seats,
        rooms,
        runs,
    })
}

// Runs all lanes at their seats, beside the auditor.
fn run_table<
    'a,
    W: Threads + Wait + Sync,
    D: Disk + Send,
    S: Shard + Send,
    B: Locks + Send + Sync,
    X: Source + Send,
    G: Gate + Sync,
>(
    rt: &'a W,
    alloc: Global,
    shape: &Shape,
    log_locks: &[Guarded<SharedLog<D>>],
    shard_locks: &[Guarded<SharedShard<S>>],
    watcher: &mut Watcher<D, S>,
    mut table: Table<'a, W, D, S, B, X>,
    gate: &G,
) -> Table<'a, W, D, S, B, X>
    requires begin { All (RunBegins S.sight B.tables shape.now) table.runs.items }
    requires watch { CanWatch log_locks.now shard_locks.now watcher.old }
    ensures run { AreRun S.sight B.tables shape.now table.entry result }
    ensures watched { HasWatched log_locks.now shard_locks.now watcher.old watcher.new }
{
    run_beside(
        rt,
        alloc,
        shape,
        log_locks,
        shard_locks,
        watcher,
        table.runs.as_mut_slice(),
        gate,
    );
    table
}

// Runs all lanes, each at its seats, beside the auditor at its own. All seats come back.
fn run_seated<
    'a,
    W: Threads + Wait + Sync,
    D: Disk + Send,
    S: Shard + Send,
    B: Locks + Send + Sync,
    X: Source + Send,
    G: Gate + Sync,
>(
    rt: &'a W,
    alloc: Global,
    shape: &Shape,
    log_locks: &'a [Guarded<SharedLog<D>>],
    shard_locks: &'a [Guarded<SharedShard<S>>],
    watcher: &mut Watcher<D, S>,
    seated: SeatedLanes<D, S, X>,
    gate: &G,
) -> SeatedLanes<D, S, X>
    requires open { AreLocksOpen S.sight B.tables shape.now log_locks.now shard_locks.now }
    requires homes { AllFrom (IsHomeFresh shape.now log_locks.now) 0 seated.homes.items }
    requires homes_many { length seated.homes.items ≡ shape.now.coordinators }
    requires left { AreLeft (shard_sight S.sight) (all_lanes shape.now) shard_locks.now seated.rows.items }
    requires lanes { All MayRun seated.lanes.items }
    requires lanes_many { length seated.lanes.items ≡ shape.now.coordinators * shape.now.lanes }
    requires watch { CanWatch log_locks.now shard_locks.now watcher.old }
    ensures through { AreThrough S.sight shape.now log_locks.now
        shard_locks.now result.homes.items result.rows.items seated.lanes.items result.lanes.items }
    ensures watched { HasWatched log_locks.now shard_locks.now watcher.old watcher.new }
{
    let SeatedLanes {
        homes,
        rows,
        mut lanes,
    } = seated;
    let Ok(room) = lane_room::<W, D, S, B, X>(alloc, shape) else {
        stop_all(&mut lanes);
        return SeatedLanes { homes, rows, lanes };
    };
    let LaneRoom {
        emptied,
        spare,
        seats,
        rooms,
        runs,
    } = room;
    let pace = pace_of(shape, lanes.as_slice());
    let table = Table {
        rows,
        spare,
        seats,
        rooms,
        lanes,
        runs,
    };
    let (homes, emptied, table) = deal_all(
        rt,
        pace,
        shape,
        log_locks,
        shard_locks,
        homes,
        emptied,
        table,
    );
    let table = run_table(
        rt,
        alloc,
        shape,
        log_locks,
        shard_locks,
        watcher,
        table,
        gate,
    );
    let (homes, table) = gather_all(shape.lanes(), emptied, homes, table);
    let Table {
        rows,
        spare,
        seats,
        rooms,
        lanes,
        runs,
    } = table;
    spare.destroy_empty();
    seats.destroy_empty();
    rooms.destroy_empty();
    runs.destroy_empty();
    SeatedLanes { homes, rows, lanes }
}

// A lock round each node, with a seat for each lane of its row. Where memory is wanting all nodes come back, asked nothing.
fn lock_nodes<D: Disk, S: Shard>(
    alloc: Global,
    nodes: SharedNodes<D, S>,
    home_rows: Vec<Vec<LaneId>>,
    shard_rows: Vec<Vec<LaneId>>,
    watcher: LaneId,
) -> Result<LockedNodes<D, S>, SharedNodes<D, S>>
    requires logs_many { length home_rows.items ≡ length nodes.logs.items }
    requires shards_many { length shard_rows.items ≡ length nodes.shards.items }
    requires logs_fit { AreWatchedRows watcher home_rows.items }
    requires shards_fit { AreWatchedRows watcher shard_rows.items }
    ensures logs { IfOk result
        (λ k. AreLocked log_sight nodes.logs.items home_rows.items k.logs.locks.items k.logs.seats.items) }
    ensures logs_watched { IfOk result
        (λ k. AreFreshWatchers log_sight watcher k.logs.locks.items k.logs.watchers.items) }
    ensures logs_room { IfOk result (λ k. (k.logs.room.items ≡ [])
        × (length nodes.logs.items ≤ vec_capacity k.logs.room)) }
    ensures shards { IfOk result (λ k. AreLocked
        (shard_sight S.sight) nodes.shards.items shard_rows.items k.shards.locks.items k.shards.seats.items) }
    ensures shards_watched { IfOk result (λ k. AreFreshWatchers
        (shard_sight S.sight) watcher k.shards.locks.items k.shards.watchers.items) }
    ensures shards_room { IfOk result (λ k. (k.shards.room.items ≡ [])
        × (length nodes.shards.items ≤ vec_capacity k.shards.room)) }
    ensures logs_back { IfErr result
        (λ n. AreStill log_sight (log_goes D.Disk) nodes.logs.items n.logs.items) }
    ensures shards_back { IfErr result
        (λ n. AreStill (shard_sight S.sight) (shard_goes S.goes) nodes.shards.items n.shards.items) }
{
    let SharedNodes { logs, shards } = nodes;
    let shards = match lock_all(alloc, shards, shard_rows, watcher) {
        Ok(locked) => locked,
        Err(shards) => return Err(SharedNodes { logs, shards }),
    };
    match lock_all(alloc, logs, home_rows, watcher) {
        Ok(logs) => Ok(LockedNodes { logs, shards }),
        Err(logs) => {
            let Locked {
                locks,
                seats,
                watchers,
                room,
            } = shards;
            let shards = close_all(locks, seats, watchers, room);
            Err(SharedNodes { logs, shards })
        }
    }
}

// A wave over nodes under their wrappers.
fn wave_shared<
    W: Threads + Wait + Sync,
    D: Disk + Send,
    S: Shard + Send,
    X: Source + Send,
    G: Gate + Sync,
>(
    rt: &W,
    alloc: Global,
    shape: &Shape,
    nodes: SharedNodes<D, S>,
    home_rows: Vec<Vec<LaneId>>,
    shard_rows: Vec<Vec<LaneId>>,
    lanes: &mut Vec<Work<X>>,
    watch: &mut Watch,
    gate: &G,
) -> SharedNodes<D, S>
    requires limits { IsWithinLimits shape.now }
    requires logs_many { length nodes.logs.items ≡ shape.now.coordinators }
    requires shards_many { length nodes.shards.items ≡ shape.now.shards }
    requires ledger { AreNodesOf shape.now
        (sight_at log_sight nodes.logs.items) (sight_at (shard_sight S.sight) nodes.shards.items) }
    requires logs_since { All (λ l. (log_sight l).opened ≤ (log_sight l).faults) nodes.logs.items }
    requires shards_since { All
        (λ s. (shard_sight S.sight s).opened ≤ (shard_sight S.sight s).faults) nodes.shards.items }
    requires settled { (lane : ℕ) → lane < shape.now.coordinators * shape.now.lanes
        → IsLaneSettled shape.now lane (sight_at log_sight nodes.logs.items (home_of shape.now lane))
        (sight_at (shard_sight S.sight) nodes.shards.items) }
    requires home_rows { AllFrom (IsHomeRow shape.now) 0 home_rows.items }
    requires home_rows_many { length home_rows.items ≡ shape.now.coordinators }
    requires shard_rows { AllFrom (IsShardRow shape.now) 0 shard_rows.items }
    requires shard_rows_many { length shard_rows.items ≡ shape.now.shards }
    requires lanes { All MayRun lanes.old.items }
    requires lanes_many { length lanes.old.items ≡ shape.now.coordinators * shape.now.lanes }
    ensures ran { WaveRan shape.now (sight_at log_sight nodes.logs.items)
        (sight_at (shard_sight S.sight) nodes.shards.items) (sight_at log_sight result.logs.items)
        (sight_at (shard_sight S.sight) result.shards.items) lanes.old.items lanes.new.items }
    ensures looked { IfSaw watch.new (HasSeen shape.now (sight_at log_sight nodes.logs.items)
        (sight_at (shard_sight S.sight) nodes.shards.items) (sight_at log_sight result.logs.items)
        (sight_at (shard_sight S.sight) result.shards.items)) }
    ensures logs_go { WentOn log_sight (log_goes D.Disk) nodes.logs.items result.logs.items }
    ensures shards_go { WentOn
        (shard_sight S.sight) (shard_goes S.goes) nodes.shards.items result.shards.items }
{
    let wanted = watch.begin();
    let lane = LaneId(shape.lane_count());
    let LockedNodes { logs, shards } = match lock_nodes(alloc, nodes, home_rows, shard_rows, lane) {
        Ok(locked) => locked,
        Err(nodes) => {
            stop_all(lanes);
            return nodes;
        }
    };
    let Locked {
        locks: log_locks,
        seats: homes,
        watchers: log_watchers,
        room: log_room,
    } = logs;
    let Locked {
        locks: shard_locks,
        seats: rows,
        watchers: shard_watchers,
        room: shard_room,
    } = shards;
    let mut watcher = Watcher {
        wanted,
        lane,
        log_seats: log_watchers,
        shard_seats: shard_watchers,
        saw: Watch::Off,
    };
    let seated = SeatedLanes {
        homes,
        rows,
        lanes: mem::replace(lanes, Vec::new(alloc)),
    };
    let SeatedLanes {
        homes,
        rows,
        lanes: back,
    } = run_seated::<W, D, S, Brand, X, G>(
        rt,
        alloc,
        shape,
        log_locks.as_slice(),
        shard_locks.as_slice(),
        &mut watcher,
        seated,
        gate,
    );
    mem::replace(lanes, back).destroy_empty();
    let Watcher {
        wanted: _,
        lane: _,
        log_seats,
        shard_seats,
        saw,
    } = watcher;
    *watch = saw;
    SharedNodes {
        logs: close_all(log_locks, homes, log_seats, log_room),
        shards: close_all(shard_locks, rows, shard_seats, shard_room),
    }
}

/// Runs a wave of lanes that are all settled: each lane on a thread of its own, over locks round all nodes. Where memory is wanting before their first
/// calls all lanes stop for it, and no node was asked.
///
/// A wave of settled lanes over the nodes of a ledger. Each node was locked with a seat for each lane that asks it, at most one a lane, and closed
/// with all of them, as `Guarded::close` says. Each lane had fresh seats, of its coordinator and of each shard, and has ended: it has done all that
/// it got, met no fault, and keeps what it decided and how many batches that were; or it stopped, with its fault, which may be that memory ran out
/// before its first call. Its transactions are as they were. What stays true of a node is true behind the wave, if it was before: of a coordinator
/// that its disk holds its journal, of a shard what its type keeps (ran (`WaveRan`), logs_go, shards_go).
///
/// Where `watch` is `Next`, an auditor looks at one node after another beside the lanes, on a thread of its own where one can be made. It makes no call
/// and holds no two locks. What it saw is, of each node, at least what the node had before the wave and a beginning of what it has behind it; where
/// memory was wanting it saw nothing (looked (`HasSeen`)).
pub fn wave<
    W: Threads + Wait + Sync,
    D: Disk + Send,
    S: Shard + Send,
    X: Source + Send,
    G: Gate + Sync,
>(
    rt: &W,
    alloc: Global,
    shape: &Shape,
    nodes: Nodes<D, S>,
    lanes: &mut Vec<Work<X>>,
    watch: &mut Watch,
    gate: &G,
) -> Nodes<D, S>
    requires logs_many { length nodes.logs.items ≡ shape.now.coordinators }
    requires shards_many { length nodes.shards.items ≡ shape.now.shards }
    requires ledger { AreNodesOf shape.now
        (sight_at sight nodes.logs.items) (sight_at S.sight nodes.shards.items) }
    requires settled { (lane : ℕ) → lane < shape.now.coordinators * shape.now.lanes
        → IsLaneSettled shape.now lane
        (sight_at sight nodes.logs.items (home_of shape.now lane)) (sight_at S.sight nodes.shards.items) }
    requires limits { All (λ x. All IsCompact x.txs) lanes.old.items }
    requires lanes_many { length lanes.old.items ≡ shape.now.coordinators * shape.now.lanes }
    ensures ran { WaveRan shape.now (sight_at sight nodes.logs.items)
        (sight_at S.sight nodes.shards.items) (sight_at sight result.logs.items)
        (sight_at S.sight result.shards.items) lanes.old.items lanes.new.items }
    ensures looked { IfSaw watch.new (HasSeen shape.now (sight_at sight nodes.logs.items)
        (sight_at S.sight nodes.shards.items) (sight_at sight result.logs.items)
        (sight_at S.sight result.shards.items)) }
    ensures logs_go { WentOn sight (λ a b. IsNodeHeld D.Disk a
        → IsNodeHeld D.Disk b) nodes.logs.items result.logs.items }
    ensures shards_go { WentOn S.sight S.goes nodes.shards.items result.shards.items }
{
    see_logs(nodes.logs.as_slice());
    see_shards(nodes.shards.as_slice());
    let _lanes = shape.lanes();
    let Ok(room) = node_room::<D, S, X>(alloc, shape, lanes) else {
        stop_all(lanes);
        *watch = Watch::Off;
        return nodes;
    };
    let NodeRoom {
        home_rows,
        shard_rows,
        nodes: lists,
    } = room;
    let SharedNodes {
        logs: log_list,
        shards: shard_list,
    } = lists;
    let Nodes { logs, shards } = nodes;
    let (logs, log_list) = share_logs(logs, log_list);
    let (shards, shard_list) = share_shards(shards, shard_list);
    let shared = SharedNodes { logs, shards };
    let SharedNodes { logs, shards } = wave_shared(
        rt, alloc, shape, shared, home_rows, shard_rows, lanes, watch, gate,
    );
    Nodes {
        logs: own_logs(logs, log_list),
        shards: own_shards(shards, shard_list),
    }
}

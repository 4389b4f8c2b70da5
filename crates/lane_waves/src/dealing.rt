// Seats dealt to lanes.
ghost use Rattle.std.specs.Prelude.{◌≡◌, ◌≤◌, ◌<◌, ◌+◌, ◌*◌, ◌^◌, suc, [], All, List, length, IfOk, vec_len, vec_capacity};
ghost use Rattle.node_lock.specs.Seats.{knows};
ghost use Rattle.ledger_runs.specs.Lanes.{LaneOf};
ghost use Rattle.lane_waves.specs.Places.{AllFrom};
ghost use Rattle.lane_waves.specs.Deals.{AreLanesWaiting, IsLaneSeated, AreLocksOpen, HaveSeats, IsHomeLeft, IsHomeFresh, IsEmptyRoom, IsNone, AreRunsNumbered};

use crate::{Dealt, LaneRun, SeatSet, deal, ports_over};
use cbdc_types::{NodeId, Shape};
use lane_driver::{Ports, Source};
use ledger_runs::Work;
use node_lock::{Guarded, Seat};
use outside::Disk;
use phase_calls::{Fanout, Pace};
use port_sets::{Locks, LogSeat, Shard, ShardSeat, SharedLog, SharedShard};
use std::alloc::{AllocError, Global};
use std::marker::PhantomData;
use std::sync::Wait;

/// The shards' seats that no lane has, a list for each shard; the lanes that have none; and the runs of those that have theirs. The other lists give room.
pub(crate) struct Table<'a, W: Wait, D: Disk, S: Shard, B: Locks, X: Source> {
    pub rows: Vec<Vec<Seat<SharedShard<S>>>>,
    pub spare: Vec<Vec<Seat<SharedShard<S>>>>,
    pub seats: Vec<Seat<SharedShard<S>>>,
    pub rooms: Vec<Vec<ShardSeat<'a, W, S, B>>>,
    pub lanes: Vec<Work<X>>,
    pub runs: Vec<LaneRun<'a, W, D, S, B, X>>,
}

/// An empty list with room for a port to each shard, for each of so many lanes.
pub(crate) fn port_rooms<'a, W: Wait, S: Shard, B: Locks>(
    alloc: Global,
    lanes: usize,
    shards: usize,
) -> Result<Vec<Vec<ShardSeat<'a, W, S, B>>>, AllocError>
    ensures rooms { IfOk result (λ v. All (IsEmptyRoom shards) v.items) }
    ensures as_many { IfOk result (λ v. vec_len v ≡ lanes) }
{
    let mut rooms = Vec::with_capacity(alloc, lanes)?;
    for _place in 0..lanes {
        let Ok(room) = Vec::with_capacity(alloc, shards) else {
            let_go(rooms);
            return Err(AllocError);
        };
        rooms.push_reserved(room);
    }
    Ok(rooms)
}

// Lets empty lists go.
pub(crate) fn let_go<T>(mut rooms: Vec<Vec<T>>)
    requires { All IsNone rooms.items }
{
    while let Some(room) = rooms.pop() {
        room.destroy_empty();
    }
    rooms.destroy_empty();
}

// The last lane gets its seat of each shard, beside that of its coordinator.
fn deal_lane<'a, W: Wait, D: Disk, S: Shard, B: Locks, X: Source>(
    rt: &'a W,
    pace: Pace,
    first: u32,
    locks: &'a [Guarded<SharedShard<S>>],
    home: LogSeat<'a, W, D, B>,
    table: Table<'a, W, D, S, B, X>,
) -> Table<'a, W, D, S, B, X>
    requires small { first + length locks.now < 2 ^ 32 }
    requires waiting { AreLanesWaiting S.sight locks.now (suc (knows home.seat).lane) table }
    ensures waiting { AreLanesWaiting S.sight locks.now (knows home.entry.seat).lane result }
    ensures next { IsLaneSeated S.sight locks.now home.entry table.entry result }
    ensures numbered { AreRunsNumbered first table.entry.runs.items
        → AreRunsNumbered first result.runs.items }
{
    let Table {
        rows,
        spare,
        seats,
        mut rooms,
        mut lanes,
        mut runs,
    } = table;
    let Dealt { rows, items, spare } = deal(rows, seats, spare);
    let Some(room) = rooms.pop() else {
        unreachable!()
    };
    let Some(work) = lanes.pop() else {
        unreachable!()
    };
    let (ports, seats) = ports_over(rt, first, locks, items, room);
    runs.push_reserved(LaneRun {
        lane: home.seat.lane(),
        work,
        ports: Ports {
            shards: SeatSet {
                rt,
                locks,
                pace,
                each: Fanout { ports },
            },
            log: home,
        },
        came: None,
    });
    Table {
        rows,
        spare,
        seats,
        rooms,
        lanes,
        runs,
    }
}

// The lanes of a coordinator get their seats, the last one first. Its list of seats is empty then.
fn deal_home<'a, W: Wait, D: Disk, S: Shard, B: Locks, X: Source>(
    rt: &'a W,
    pace: Pace,
    shape: &Shape,
    home: u32,
    log_locks: &'a [Guarded<SharedLog<D>>],
    shard_locks: &'a [Guarded<SharedShard<S>>],
    mut own: Vec<Seat<SharedLog<D>>>,
    mut table: Table<'a, W, D, S, B, X>,
) -> (Vec<Seat<SharedLog<D>>>, Table<'a, W, D, S, B, X>)
    requires open { AreLocksOpen S.sight B.tables shape.now log_locks.now shard_locks.now }
    requires home { home < length log_locks.now }
    requires many { length own.items ≤ shape.now.lanes }
    requires own { IsHomeLeft shape.now home log_locks.now own.items }
    requires waiting { AreLanesWaiting S.sight shard_locks.now
        (home * shape.now.lanes + length own.items) table }
    ensures empty { (result.0.items ≡ []) × (vec_capacity result.0 ≡ vec_capacity own) }
    ensures waiting { AreLanesWaiting S.sight shard_locks.now (home * shape.now.lanes) result.1 }
    ensures dealt { (lanes : List LaneOf) → HaveSeats S.sight B.tables shape.now log_locks.now shard_locks.now
        (home * shape.now.lanes + length own.items) lanes table.entry
        → HaveSeats S.sight B.tables shape.now log_locks.now shard_locks.now
        (home * shape.now.lanes) lanes result.1 }
    ensures numbered { AreRunsNumbered shape.now.coordinators table.entry.runs.items
        → AreRunsNumbered shape.now.coordinators result.1.runs.items }
{
    let first = shape.coordinators();
    let guarded = &log_locks[home as usize];
    while let Some(seat) = own.pop() {
        let port = LogSeat {
            rt,
            node: NodeId(home),
            guarded,
            seat,
            of: PhantomData,
        };
        table = deal_lane(rt, pace, first, shard_locks, port, table);
    }
    (own, table)
}

/// All lanes get their seats, those of the last coordinator first. Their phases are made as told, at once or not. The
/// coordinators' lists of seats are empty then, the last one first.
pub(crate) fn deal_all<'a, W: Wait, D: Disk, S: Shard, B: Locks, X: Source>(
    rt: &'a W,
    pace: Pace,
    shape: &Shape,
    log_locks: &'a [Guarded<SharedLog<D>>],
    shard_locks: &'a [Guarded<SharedShard<S>>],
    mut homes: Vec<Vec<Seat<SharedLog<D>>>>,
    mut emptied: Vec<Vec<Seat<SharedLog<D>>>>,
    mut table: Table<'a, W, D, S, B, X>,
) -> (
    Vec<Vec<Seat<SharedLog<D>>>>,
    Vec<Vec<Seat<SharedLog<D>>>>,
    Table<'a, W, D, S, B, X>,
)
    requires open { AreLocksOpen S.sight B.tables shape.now log_locks.now shard_locks.now }
    requires many { length homes.items ≡ shape.now.coordinators }
    requires homes { AllFrom (IsHomeFresh shape.now log_locks.now) 0 homes.items }
    requires empty { emptied.items ≡ [] }
    requires place { shape.now.coordinators ≤ vec_capacity emptied }
    requires waiting { AreLanesWaiting S.sight shard_locks.now
        (shape.now.coordinators * shape.now.lanes) table }
    requires none { table.runs.items ≡ [] }
    ensures empty { (result.0.items ≡ []) × (shape.now.coordinators ≤ vec_capacity result.0) }
    ensures emptied { (length result.1.items ≡ shape.now.coordinators)
        × All (IsEmptyRoom shape.now.lanes) result.1.items }
    ensures waiting { AreLanesWaiting S.sight shard_locks.now 0 result.2 }
    ensures dealt { HaveSeats
        S.sight B.tables shape.now log_locks.now shard_locks.now 0 table.entry.lanes.items result.2 }
    ensures numbered { AreRunsNumbered shape.now.coordinators result.2.runs.items }
{
    while let Some(own) = homes.pop() {
        let home = homes.len() as u32;
        let (own, rest) = deal_home(rt, pace, shape, home, log_locks, shard_locks, own, table);
        emptied.push_reserved(own);
        table = rest;
    }
    (homes, emptied, table)
}

// Seats given back, and the lanes with their results.
ghost use Rattle.std.specs.Prelude.{◌≡◌, ◌≤◌, ◌<◌, ◌*◌, [], All, List, length, vec_capacity};
ghost use Rattle.node_lock.specs.declared.lock.Guarded.{Guarded as GuardedOf};
ghost use Rattle.port_sets.specs.declared.locking.SharedShard.{SharedShard as SharedShardOf};
ghost use Rattle.lane_waves.specs.Deals.{IsEmptyRoom};
ghost use Rattle.lane_waves.specs.Gathers.{MayGather, IsRunBack, RunsGathered, AreHome, HomesBack};

use crate::dealing::Table;
use crate::lanes::kept;
use crate::{Dealt, LaneRun, SeatSet, gather, seats_back};
use lane_driver::{Ports, Source};
use node_lock::Seat;
use outside::Disk;
use phase_calls::Fanout;
use port_sets::{Locks, LogSeat, Shard, SharedLog};
use std::sync::Wait;

// The first lane that is not back gives back its seats: those of the shards onto their lists, that of its coordinator to the caller.
fn gather_lane<'a, W: Wait, D: Disk, S: Shard, B: Locks, X: Source>(
    table: Table<'a, W, D, S, B, X>,
) -> (Seat<SharedLog<D>>, Table<'a, W, D, S, B, X>)
    requires some { 0 < length table.runs.items }
    requires room { MayGather table }
    ensures room { MayGather result.1 }
    ensures rooms { result.1.rooms ≡ table.entry.rooms }
    ensures back { IsRunBack table.entry result.0 result.1 }
{
    let Table {
        rows,
        spare,
        seats,
        rooms,
        mut lanes,
        mut runs,
    } = table;
    let Some(run) = runs.pop() else {
        unreachable!()
    };
    let LaneRun {
        lane: _,
        work,
        ports,
        came,
    } = run;
    let Ports { shards, log } = ports;
    let SeatSet {
        rt: _,
        locks: _,
        pace: _,
        each,
    } = shards;
    let Fanout { ports } = each;
    let LogSeat {
        rt: _,
        node: _,
        guarded: _,
        seat,
        of: _,
    } = log;
    let Some(came) = came else { unreachable!() };
    let Dealt { rows, items, spare } = gather(rows, seats_back(ports, seats), spare);
    lanes.push_reserved(kept(work, came));
    let table = Table {
        rows,
        spare,
        seats: items,
        rooms,
        lanes,
        runs,
    };
    (seat, table)
}

// So many lanes give back their seats, those of their coordinator onto its list.
fn gather_home<'a, W: Wait, D: Disk, S: Shard, B: Locks, X: Source>(
    count: u32,
    mut own: Vec<Seat<SharedLog<D>>>,
    mut table: Table<'a, W, D, S, B, X>,
) -> (Vec<Seat<SharedLog<D>>>, Table<'a, W, D, S, B, X>)
    requires some { count ≤ length table.runs.items }
    requires own { IsEmptyRoom count own }
    requires room { MayGather table }
    ensures room { MayGather result.1 }
    ensures rooms { result.1.rooms ≡ table.entry.rooms }
    ensures home { AreHome count table.entry result.0.items result.1 }
    ensures gathered { (locks : List (GuardedOf (SharedShardOf S))) (all : _)
        → RunsGathered locks all table.entry → RunsGathered locks all result.1 }
{
    for _place in 0..count {
        let (seat, rest) = gather_lane(table);
        own.push_reserved(seat);
        table = rest;
    }
    (own, table)
}

/// All lanes give back their seats, those of the first coordinator first, for which there is an empty list each, the last one first.
pub(crate) fn gather_all<'a, W: Wait, D: Disk, S: Shard, B: Locks, X: Source>(
    count: u32,
    mut emptied: Vec<Vec<Seat<SharedLog<D>>>>,
    mut homes: Vec<Vec<Seat<SharedLog<D>>>>,
    mut table: Table<'a, W, D, S, B, X>,
) -> (Vec<Vec<Seat<SharedLog<D>>>>, Table<'a, W, D, S, B, X>)
    requires runs { length table.runs.items ≡ length emptied.items * count }
    requires emptied { All (IsEmptyRoom count) emptied.items }
    requires empty { homes.items ≡ [] }
    requires place { length emptied.items ≤ vec_capacity homes }
    requires room { MayGather table }
    ensures none { result.1.runs.items ≡ [] }
    ensures room { MayGather result.1 }
    ensures rooms { result.1.rooms ≡ table.entry.rooms }
    ensures many { length result.0.items ≡ length emptied.items }
    ensures homes { HomesBack count table.entry.runs.items result.0.items }
    ensures gathered { (locks : List (GuardedOf (SharedShardOf S))) (all : _)
        → RunsGathered locks all table.entry → RunsGathered locks all result.1 }
{
    while let Some(own) = emptied.pop() {
        let (own, rest) = gather_home(count, own, table);
        homes.push_reserved(own);
        table = rest;
    }
    emptied.destroy_empty();
    (homes, table)
}

// Locks round all nodes of a list, and all of them back.
ghost use Rattle.std.specs.Prelude.{◌≡◌, ◌≤◌, ◌+◌, ◌++◌, List, [], length, reverse, IfOk, IfErr, vec_len, vec_capacity};
ghost use Rattle.node_lock.specs.Seats.{AreFresh, opening_of, table_of};
ghost use Rattle.lane_waves.specs.NodeRows.{IsWatchedRow, AreWatchedRows, AreLocked, HaveAllSeats, AreClosed, AreStill, lanes_of};
ghost use Rattle.lane_waves.specs.Watching.{AreWatching, IsFreshWatcher, AreFreshWatchers, AreFrontsOf};

use cbdc_types::LaneId;
use node_lock::{Guarded, Seat, Sighted};
use std::alloc::Global;

/// Locks in the order of their nodes, the seats of each, a further seat of each that makes no call (an auditor's), and an empty list with room for
/// the nodes.
pub struct Locked<N: Sighted> {
    pub locks: Vec<Guarded<N>>,
    pub seats: Vec<Vec<Seat<N>>>,
    pub watchers: Vec<Seat<N>>,
    pub room: Vec<N>,
}

/// Makes a lock round each node, with a seat for each lane of its row, and one of the watcher's lane. Where memory is wanting all nodes come back,
/// asked nothing.
///
/// At Ok a lock around each node, in order, each with a fresh seat for each lane of its row, in order, and one more, of the watcher's lane; and the
/// nodes' list, which is empty and has room for them all. Else memory ran out, and all nodes are back in order: each has its journal, nothing new is
/// in flight there, its disk has failed no less often, and what stays true of it is true still.
pub fn lock_all<N: Sighted>(
    alloc: Global,
    mut nodes: Vec<N>,
    mut rows: Vec<Vec<LaneId>>,
    watcher: LaneId,
) -> Result<Locked<N>, Vec<N>>
    requires count { vec_len rows ≡ vec_len nodes }
    requires fit { AreWatchedRows watcher rows.items }
    ensures locked { IfOk result (λ k. AreLocked N.sight nodes.items rows.items k.locks.items k.seats.items) }
    ensures watchers { IfOk result (λ k. AreFreshWatchers N.sight watcher k.locks.items k.watchers.items) }
    ensures room { IfOk result (λ k. (k.room.items ≡ []) × (length nodes.items ≤ vec_capacity k.room)) }
    ensures back { IfErr result (λ ns. AreStill N.sight N.goes nodes.items ns.items) }
{
    let count = nodes.len();
    let Ok(mut locks) = Vec::with_capacity(alloc, count) else {
        return Err(nodes);
    };
    let Ok(mut seats) = Vec::with_capacity(alloc, count) else {
        locks.destroy_empty();
        return Err(nodes);
    };
    let Ok(mut watchers) = Vec::with_capacity(alloc, count) else {
        locks.destroy_empty();
        seats.destroy_empty();
        return Err(nodes);
    };
    while let Some(node) = nodes.pop() {
        let Some(row) = rows.pop() else {
            unreachable!()
        };
        match lock_one(alloc, node, row, watcher) {
            Ok((lock, own, watch)) => {
                locks.push_reserved(lock);
                seats.push_reserved(own);
                watchers.push_reserved(watch);
            }
            Err(node) => {
                nodes.push_reserved(node);
                return Err(close_onto(locks, seats, watchers, nodes));
            }
        }
    }
    locks.reverse();
    seats.reverse();
    watchers.reverse();
    Ok(Locked {
        locks,
        seats,
        watchers,
        room: nodes,
    })
}

// A lock round a node, with a seat for each lane of a row, and one of the watcher's lane.
fn lock_one<N: Sighted>(
    alloc: Global,
    node: N,
    mut row: Vec<LaneId>,
    watcher: LaneId,
) -> Result<(Guarded<N>, Vec<Seat<N>>, Seat<N>), N>
    requires { IsWatchedRow watcher row.items }
    ensures opening { IfOk result (λ r. opening_of r.0 ≡ node) }
    ensures lanes { IfOk result (λ r. lanes_of r.0 ≡ row.items) }
    ensures seats { IfOk result (λ r. AreFresh (N.sight node) node (table_of r.0) row.items r.1.items) }
    ensures watcher { IfOk result (λ r. IsFreshWatcher N.sight watcher r.0 r.2) }
    ensures back { IfErr result (λ n. n ≡ node) }
{
    let Ok(()) = row.push(watcher) else {
        return Err(node);
    };
    match Guarded::new(alloc, node, row.as_slice()) {
        Ok((lock, mut seats)) => {
            let Some(watch) = seats.pop() else {
                unreachable!()
            };
            Ok((lock, seats, watch))
        }
        Err((node, _)) => Err(node),
    }
}

// Closes the locks from the last to the first, and adds their nodes to those that stand already.
fn close_onto<N: Sighted>(
    mut locks: Vec<Guarded<N>>,
    mut seats: Vec<Vec<Seat<N>>>,
    mut watchers: Vec<Seat<N>>,
    mut nodes: Vec<N>,
) -> Vec<N>
    requires ready { HaveAllSeats (reverse locks.items) (reverse seats.items) }
    requires watching { AreWatching (reverse locks.items) (reverse watchers.items) }
    requires room { length nodes.items + length locks.items ≤ vec_capacity nodes }
    ensures { (back : List N) × (result.items ≡ nodes.items ++ back)
        × AreClosed N.sight N.goes (reverse locks.items) (reverse seats.items) back
        × AreFrontsOf N.sight (reverse watchers.items) back }
{
    while let Some(lock) = locks.pop() {
        let Some(own) = seats.pop() else {
            unreachable!()
        };
        let Some(watch) = watchers.pop() else {
            unreachable!()
        };
        nodes.push_reserved(lock.close_watched(watch, own));
    }
    locks.destroy_empty();
    nodes
}

/// All nodes back, in order, once all seats are.
///
/// Once all seats of each lock are given back, in whatever order, and the watchers have only looked: the nodes, in order, each as `Guarded::close`
/// says; and what each watcher has seen is a beginning of its node's journal.
pub fn close_all<N: Sighted>(
    mut locks: Vec<Guarded<N>>,
    mut seats: Vec<Vec<Seat<N>>>,
    mut watchers: Vec<Seat<N>>,
    room: Vec<N>,
) -> Vec<N>
    requires ready { HaveAllSeats locks.items seats.items }
    requires watching { AreWatching locks.items watchers.items }
    requires empty { room.items ≡ [] }
    requires room { length locks.items ≤ vec_capacity room }
    ensures closed { AreClosed N.sight N.goes locks.items seats.items result.items }
    ensures fronts { AreFrontsOf N.sight watchers.items result.items }
{
    locks.reverse();
    seats.reverse();
    watchers.reverse();
    close_onto(locks, seats, watchers, room)
}

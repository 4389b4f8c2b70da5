// An auditor beside the lanes of a wave: it looks at one node after another while they run, and makes no call.
ghost use Rattle.std.specs.Prelude.{◌≡◌, ◌+◌, ◌<◌, ◌^◌, ◌++◌, List, length, IfOk, OnOk};
ghost use Rattle.std.specs.Global.{Vec as VecOf};
ghost use Rattle.cbdc_model.specs.Records.{Record as ModelRecord};
ghost use Rattle.lane_waves.specs.Watching.{AreSeatsOf, HaveLooked, AreListed, AreAllListed};
ghost use Rattle.lane_waves.specs.Watchers.{CanWatch, HasWatched};
ghost use Rattle.lane_waves.specs.declared.watching.Watch.TheVariants.{Off as NoWatch};

use cbdc_types::{LaneId, NodeId, Record};
use node_lock::{Guarded, Seat};
use outside::{Disk, Gate, Point, When};
use port_sets::{Shard, SharedLog, SharedShard, list_log, list_shard};
use std::alloc::{AllocError, Global};
use std::sync::Wait;

/// An auditor beside the lanes of a wave: whether there is to be one, and what it saw.
#[derive(Drop)]
pub enum Watch {
    /// There is none; or it saw nothing, since memory ran out.
    Off,
    /// The next wave has one.
    Next,
    /// It saw these records, a list for each node, the coordinators before the shards; in each list the oldest is the first.
    Saw(Vec<Vec<Record>>),
}

impl Watch {
    // Whether there is to be one. It has seen nothing then.
    pub(crate) fn begin(&mut self) -> bool
        ensures { self.new ≡ NoWatch }
    {
        let wanted = matches!(self, Watch::Next);
        *self = Watch::Off;
        wanted
    }
}

// Behind a look, with no lock held.
fn looked(lane: LaneId, node: u32) -> Point {
    Point {
        lane,
        node: NodeId(node),
        kind: 0,
        when: When::After,
    }
}

// The records of each coordinator, the first of which has this number, one after another. One lock is held at a time, and the gate is passed behind
// each look, also where there was no memory for it.
fn list_logs<W: Wait, D: Disk, G: Gate>(
    rt: &W,
    alloc: Global,
    lane: LaneId,
    node: u32,
    locks: &[Guarded<SharedLog<D>>],
    seats: &mut [Seat<SharedLog<D>>],
    lists: &mut Vec<Vec<Record>>,
    gate: &G,
) -> Result<(), AllocError>
    requires seats { AreSeatsOf locks.now seats.old }
    requires few { node + length locks.now < 2 ^ 32 }
    ensures seats { AreSeatsOf locks.now seats.new }
    ensures kept { HaveLooked seats.old seats.new }
    ensures listed { OnOk result ((more : List (VecOf ModelRecord))
        × (lists.new.items ≡ lists.old.items ++ more) × AreListed more seats.new) }
{
    let Some((guarded, others)) = locks.split_first() else {
        return Ok(());
    };
    let Some((seat, rest)) = seats.split_first_mut() else {
        unreachable!()
    };
    let all = list_log(rt, alloc, guarded, seat);
    gate.pass(rt, &looked(lane, node));
    lists.push(all?)?;
    list_logs(rt, alloc, lane, node + 1, others, rest, lists, gate)
}

// The same of each shard.
fn list_shards<W: Wait, S: Shard, G: Gate>(
    rt: &W,
    alloc: Global,
    lane: LaneId,
    node: u32,
    locks: &[Guarded<SharedShard<S>>],
    seats: &mut [Seat<SharedShard<S>>],
    lists: &mut Vec<Vec<Record>>,
    gate: &G,
) -> Result<(), AllocError>
    requires seats { AreSeatsOf locks.now seats.old }
    requires few { node + length locks.now < 2 ^ 32 }
    ensures seats { AreSeatsOf locks.now seats.new }
    ensures kept { HaveLooked seats.old seats.new }
    ensures listed { OnOk result ((more : List (VecOf ModelRecord))
        × (lists.new.items ≡ lists.old.items ++ more) × AreListed more seats.new) }
{
    let Some((guarded, others)) = locks.split_first() else {
        return Ok(());
    };
    let Some((seat, rest)) = seats.split_first_mut() else {
        unreachable!()
    };
    let all = list_shard(rt, alloc, guarded, seat);
    gate.pass(rt, &looked(lane, node));
    lists.push(all?)?;
    list_shards(rt, alloc, lane, node + 1, others, rest, lists, gate)
}

// The records of all nodes, one after another in rising order of their numbers.
fn list_all<W: Wait, D: Disk, S: Shard, G: Gate>(
    rt: &W,
    alloc: Global,
    lane: LaneId,
    log_locks: &[Guarded<SharedLog<D>>],
    shard_locks: &[Guarded<SharedShard<S>>],
    log_seats: &mut [Seat<SharedLog<D>>],
    shard_seats: &mut [Seat<SharedShard<S>>],
    gate: &G,
) -> Result<Vec<Vec<Record>>, AllocError>
    requires logs { AreSeatsOf log_locks.now log_seats.old }
    requires shards { AreSeatsOf shard_locks.now shard_seats.old }
    requires few { length log_locks.now + length shard_locks.now < 2 ^ 32 }
    ensures logs { AreSeatsOf log_locks.now log_seats.new × HaveLooked log_seats.old log_seats.new }
    ensures shards { AreSeatsOf shard_locks.now shard_seats.new × HaveLooked shard_seats.old shard_seats.new }
    ensures listed { IfOk result (λ lists. AreAllListed lists.items log_seats.new shard_seats.new) }
{
    let mut lists = Vec::new(alloc);
    list_logs(rt, alloc, lane, 0, log_locks, log_seats, &mut lists, gate)?;
    let first = log_locks.len() as u32;
    list_shards(
        rt,
        alloc,
        lane,
        first,
        shard_locks,
        shard_seats,
        &mut lists,
        gate,
    )?;
    Ok(lists)
}

/// The auditor of a wave: a seat of each lock, whether it is to look, and what it saw.
pub(crate) struct Watcher<D: Disk, S: Shard> {
    pub(crate) wanted: bool,
    pub(crate) lane: LaneId,
    pub(crate) log_seats: Vec<Seat<SharedLog<D>>>,
    pub(crate) shard_seats: Vec<Seat<SharedShard<S>>>,
    pub(crate) saw: Watch,
}

impl<D: Disk, S: Shard> Watcher<D, S> {
    /// Looks at one node after another.
    pub(crate) fn go<W: Wait, G: Gate>(
        &mut self,
        rt: &W,
        alloc: Global,
        log_locks: &[Guarded<SharedLog<D>>],
        shard_locks: &[Guarded<SharedShard<S>>],
        gate: &G,
    )
        requires { CanWatch log_locks.now shard_locks.now self.old }
        ensures { HasWatched log_locks.now shard_locks.now self.old self.new }
    {
        let seen = list_all(
            rt,
            alloc,
            self.lane,
            log_locks,
            shard_locks,
            self.log_seats.as_mut_slice(),
            self.shard_seats.as_mut_slice(),
            gate,
        );
        if let Ok(lists) = seen {
            self.saw = Watch::Saw(lists);
        }
    }
}

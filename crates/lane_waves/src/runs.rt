// The lanes of a wave, each on a thread of its own.
ghost use Rattle.std.specs.Prelude.{All};
ghost use denote.Param.Send.{IsSync, IsSend};
ghost use Rattle.lane_waves.specs.Held.{RunBegins, RunEnds};
ghost use Rattle.lane_waves.specs.AllEnds.{AllRunsEnd};
ghost use Rattle.lane_waves.specs.Calling.{MayChange, HasChanged};
ghost use Rattle.lane_waves.specs.Watchers.{CanWatch, HasWatched};

use crate::seats::{SeatSet, run_over};
use crate::watching::Watcher;
use cbdc_types::{LaneId, Shape};
use lane_driver::{LaneFault, LaneReport, Ports, Source};
use ledger_runs::Work;
use node_lock::Guarded;
use outside::{Disk, Gate};
use port_sets::{Locks, LogSeat, Shard, ShardSeat, SharedLog, SharedShard};
use std::alloc::Global;
use std::sync::Wait;
use std::thread;
use std::thread::{Threads, join_mut};

/// A lane of a wave: its number, its transactions, its ports, and its result.
pub struct LaneRun<'a, W: Wait, D: Disk, S: Shard, B: Locks, X: Source> {
    pub lane: LaneId,
    pub work: Work<X>,
    pub ports: Ports<
        SeatSet<'a, W, Guarded<SharedShard<S>>, ShardSeat<'a, W, S, B>>,
        LogSeat<'a, W, D, B>,
    >,
    pub came: Option<Result<LaneReport, LaneFault>>,
}

impl<
    'a,
    W: Threads + Wait + Sync,
    D: Disk,
    S: Shard + Send,
    B: Locks + Send + Sync,
    X: Source,
> LaneRun<'a, W, D, S, B, X> {
    /// Runs the lane's transactions, and keeps its result. Then it lets go of its sentinel, which makes nothing more for it.
    ///
    /// A settled, idle lane at seats of the wave's locks ends as the same lane with the same transactions, and its seats are of the same locks.
    /// Either it has done all that it got and is idle, and reports its batches, each done behind the one before it with the outcomes of its Commit.
    /// Or it stopped, with all that `run_lane` says of that, and its fault has its cause in a node as the lane has seen it.
    pub fn go<G: Gate + Sync>(&mut self, alloc: Global, shape: &Shape, gate: &G)
        requires begins { RunBegins S.sight B.tables shape.now self.old }
        ensures ends { RunEnds S.sight B.tables shape.now self.old self.new }
    {
        let work = &mut self.work;
        let came = run_over(
            alloc,
            shape,
            self.lane,
            &mut work.source,
            &mut self.ports,
            work.repeats,
            gate,
        );
        work.source.end_ahead();
        self.came = Some(came);
    }
}

/// Runs all lanes, each on a thread of its own where one can be made.
pub fn run_all<
    'a,
    W: Threads + Wait + Sync,
    D: Disk + Send,
    S: Shard + Send,
    B: Locks + Send + Sync,
    X: Source + Send,
    G: Gate + Sync,
>(rt: &W, alloc: Global, shape: &Shape, runs: &mut [LaneRun<'a, W, D, S, B, X>], gate: &G)
    requires begin { All (RunBegins S.sight B.tables shape.now) runs.old }
    ensures end { AllRunsEnd S.sight B.tables shape.now runs.old runs.new }
{
    let count = runs.len().max(1);
    thread::for_each_mut(
        rt,
        runs,
        count,
        &|_: usize, run: &mut LaneRun<'_, W, D, S, B, X>|
            requires { IsSync W.row × IsSend S.row
                × IsSend B.row × IsSync B.row × IsSync G.row × RunBegins S.sight B.tables shape.now run.old }
            ensures { RunEnds S.sight B.tables shape.entry.now run.old run.new }
        { run.go(alloc, shape, gate) },
    );
}

// A call that is given something to change.
fn change<T, F: Fn(&mut T)>(f: &F, it: &mut T)
    requires { MayChange F.Fn f.now it.old }
    ensures { HasChanged F.Fn f.now it.old it.new }
{
    f(it)
}

// A call that is given the items of a list to change.
fn change_all<T, F: Fn(&mut [T])>(f: &F, all: &mut [T])
    requires { MayChange F.Fn f.now all.old }
    ensures { HasChanged F.Fn f.now all.old all.new }
{
    f(all)
}

// Two calls beside each other, the first on a thread of its own where one can be made.
//
// Apart from what they call: a closure that is sent to a thread can capture nothing whose type has a lifetime.
fn both<W: Threads, T: Send, U: Send, F: Fn(&mut T) + Sync, H: Fn(&mut [U]) + Sync>(
    rt: &W,
    one: &mut T,
    change_one: &F,
    many: &mut [U],
    change_many: &H,
)
    requires one { MayChange F.Fn change_one.now one.old }
    requires many { MayChange H.Fn change_many.now many.old }
    ensures one { HasChanged F.Fn change_one.now one.old one.new }
    ensures many { HasChanged H.Fn change_many.now many.old many.new }
{
    let mut first = ||
        requires { IsSync F.row × IsSend T.row × MayChange F.Fn change_one.now one.now }
        ensures { HasChanged F.Fn change_one.entry.now one.entry.now one.exit.now }
    { change(change_one, one) };
    let mut second = ||
        requires { IsSync H.row × IsSend U.row × MayChange H.Fn change_many.now many.now }
        ensures { HasChanged H.Fn change_many.entry.now many.entry.now many.exit.now }
    { change_all(change_many, many) };
    join_mut(rt, &mut first, &mut second);
}

// Runs all lanes, with an auditor beside them that looks at one node after another.
fn run_watched<
    'a,
    W: Threads + Wait + Sync,
    D: Disk + Send,
    S: Shard + Send,
    B: Locks + Send + Sync,
    X: Source + Send,
    G: Gate + Sync,
>(
    rt: &W,
    alloc: Global,
    shape: &Shape,
    log_locks: &[Guarded<SharedLog<D>>],
    shard_locks: &[Guarded<SharedShard<S>>],
    watcher: &mut Watcher<D, S>,
    runs: &mut [LaneRun<'a, W, D, S, B, X>],
    gate: &G,
)
    requires begin { All (RunBegins S.sight B.tables shape.now) runs.old }
    requires watch { CanWatch log_locks.now shard_locks.now watcher.old }
    ensures end { AllRunsEnd S.sight B.tables shape.now runs.old runs.new }
    ensures watched { HasWatched log_locks.now shard_locks.now watcher.old watcher.new }
{
    both(
        rt,
        watcher,
        &|watcher: &mut Watcher<D, S>|
            requires { IsSync W.row × IsSend D.row × IsSend S.row × IsSync G.row
                × CanWatch log_locks.now shard_locks.now watcher.old }
            ensures { HasWatched log_locks.entry.now shard_locks.entry.now watcher.old watcher.new }
        { watcher.go(rt, alloc, log_locks, shard_locks, gate) },
        runs,
        &|runs: &mut [LaneRun<'_, W, D, S, B, X>]|
            requires { IsSync W.row × IsSend D.row × IsSend S.row × IsSend B.row × IsSync B.row
                × IsSend X.row × IsSync G.row × All (RunBegins S.sight B.tables shape.now) runs.old }
            ensures { AllRunsEnd S.sight B.tables shape.entry.now runs.old runs.new }
        { run_all(rt, alloc, shape, runs, gate) },
    );
}

/// Runs all lanes, with an auditor beside them if there is to be one.
pub(crate) fn run_beside<
    'a,
    W: Threads + Wait + Sync,
    D: Disk + Send,
    S: Shard + Send,
    B: Locks + Send + Sync,
    X: Source + Send,
    G: Gate + Sync,
>(
    rt: &W,
    alloc: Global,
    shape: &Shape,
    log_locks: &[Guarded<SharedLog<D>>],
    shard_locks: &[Guarded<SharedShard<S>>],
    watcher: &mut Watcher<D, S>,
    runs: &mut [LaneRun<'a, W, D, S, B, X>],
    gate: &G,
)
    requires begin { All (RunBegins S.sight B.tables shape.now) runs.old }
    requires watch { CanWatch log_locks.now shard_locks.now watcher.old }
    ensures end { AllRunsEnd S.sight B.tables shape.now runs.old runs.new }
    ensures watched { HasWatched log_locks.now shard_locks.now watcher.old watcher.new }
{
    if watcher.wanted {
        run_watched(
            rt,
            alloc,
            shape,
            log_locks,
            shard_locks,
            watcher,
            runs,
            gate,
        );
        return;
    }
    run_all(rt, alloc, shape, runs, gate);
}

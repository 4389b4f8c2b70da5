// The shards of a ledger through a lane's seats, and a lane over them.
ghost use Rattle.std.specs.Prelude.{◌≡◌, ℕ, [], length, All, IfOk, OnOk};
ghost use denote.Param.Send.{IsSync, IsSend};
ghost use Rattle.cbdc_model.specs.Slots.{Idle};
ghost use Rattle.cbdc_model.specs.Grammar.{IsCompact};
ghost use Rattle.cbdc_model.specs.Ranges.{home_of};
ghost use Rattle.lane_driver.specs.Stops.{IsLaneSettled};
ghost use Rattle.lane_driver.specs.Told.{IsLane, AreShardsOf};
ghost use Rattle.lane_driver.specs.Reports.{IsReported};
ghost use Rattle.lane_driver.specs.Outcomes.{LaneResult};
ghost use Rattle.node_ports.specs.Nodes.{sight_at};
ghost use Rattle.phase_calls.specs.Phase.{MakesAll, AsksLocks, AsksFinishes, AsksForgets, Locks, Finishes, Forgets, IsPhaseTold};
ghost use Rattle.lane_waves.specs.Phases.{SeatsShow, SeatsTell, KeepsSeats};

use cbdc_types::{FinishCall, ForgetCall, LaneId, LockCall, NodeFault, Replied, Shape, Stamp};
use lane_driver::{LaneFault, LaneReport, LogPort, PortSet, Ports, ShardPort, Source, run_lane};
use outside::Gate;
use phase_calls::{Fanout, Pace, PhaseGate, finish_phase, forget_phase, lock_phase};
use std::alloc::Global;
use std::thread::Threads;

/// A port to each shard, over the seats of a lane, with the runtime and the locks that the ports borrow, and how the calls of a phase are made.
///
/// Keeps `PortSet` over a lane's seats of the shards, not alone.
pub struct SeatSet<'a, W, X, P> {
    pub rt: &'a W,
    pub locks: &'a [X],
    pub pace: Pace,
    pub each: Fanout<P>,
}

impl<
    'a,
    'g,
    W,
    X,
    P: ShardPort,
    G: Gate,
    L: Fn(&[(u32, LockCall)], &mut Vec<Result<Replied, NodeFault>>, &mut [P]),
    N: Fn(&[(u32, FinishCall)], &mut Vec<Result<Stamp, NodeFault>>, &mut [P]),
    T: Fn(&[(u32, ForgetCall)], &mut Vec<Result<Stamp, NodeFault>>, &mut [P]),
> PortSet<PhaseGate<'g, G, L, N, T>> for SeatSet<'a, W, X, P> {
    ghost sights = { λ p n. sight_at P.sight p.each.ports.items n };

    ghost alone = { P.alone };

    ghost count = { λ p. length p.each.ports.items };

    ghost faults = { λ p n. (sight_at P.sight p.each.ports.items n).faults };

    ghost serves = { λ p lane. All (λ q. P.serves q lane) p.each.ports.items × MakesAll L.Fn N.Fn T.Fn P.sight P.serves P.alone P.at P.faults P.holds };

    ghost holds = { λ p. All P.holds p.each.ports.items };

    fn lock(
        &mut self,
        calls: &[(u32, LockCall)],
        out: &mut Vec<Result<Replied, NodeFault>>,
        gate: &PhaseGate<'g, G, L, N, T>,
    ) {
        self.each.lock(calls, out, gate);
    }

    fn finish(
        &mut self,
        calls: &[(u32, FinishCall)],
        out: &mut Vec<Result<Stamp, NodeFault>>,
        gate: &PhaseGate<'g, G, L, N, T>,
    ) {
        self.each.finish(calls, out, gate);
    }

    fn forget(
        &mut self,
        calls: &[(u32, ForgetCall)],
        out: &mut Vec<Result<Stamp, NodeFault>>,
        gate: &PhaseGate<'g, G, L, N, T>,
    ) {
        self.each.forget(calls, out, gate);
    }
}

/// Runs what a source gives to an idle lane, as `run_lane` does, over seats whose phases may be made at once.
pub(crate) fn run_over<
    'a,
    W: Threads + Sync,
    X,
    P: ShardPort + Send,
    L: LogPort,
    Y: Source,
    G: Gate + Sync,
>(
    alloc: Global,
    shape: &Shape,
    lane: LaneId,
    source: &mut Y,
    ports: &mut Ports<SeatSet<'a, W, X, P>, L>,
    repeats: u32,
    gate: &G,
) -> Result<LaneReport, LaneFault>
    requires same { P.alone ≡ L.alone }
    requires at { L.at ports.old.log ≡ home_of shape.now lane }
    requires home { IsLane (L.header ports.old.log) lane }
    requires shape { (L.header ports.old.log).shape ≡ shape.now }
    requires idle { L.phase ports.old.log lane ≡ Idle }
    requires count { length ports.old.shards.each.ports.items ≡ shape.now.shards }
    requires ledger { AreShardsOf shape.now (sight_at P.sight ports.old.shards.each.ports.items) }
    requires mine { All (λ p. P.serves p lane) ports.old.shards.each.ports.items }
    requires settled { SeatsShow L.LogPort P.ShardPort ports.old (IsLaneSettled shape.now lane) }
    requires limits { All IsCompact (Y.all source.old) }
    ensures same { Y.all source.new ≡ Y.all source.old }

    // All its batches are done, one behind the other, each with the outcomes of its Commit; or it stopped, with those before it done.
    ensures outcome { SeatsTell L.LogPort P.ShardPort ports.old ports.new
        (LaneResult shape.now L.alone lane (Y.all source.old) repeats result) }
    ensures idle { OnOk result (L.phase ports.new.log lane ≡ Idle) }
    ensures keeps { KeepsSeats L.LogPort P.ShardPort ports.old ports.new }
    ensures report { IfOk result (λ r. IsReported lane shape.now.batch (Y.all source.old) [] r.batches) }
{
    let rt = ports.shards.rt;
    let pace = ports.shards.pace;
    let lock = |calls: &[(u32, LockCall)], out: &mut Vec<
        Result<Replied, NodeFault>,
    >, ports: &mut [P]|
        requires { IsSync W.row
            × IsSend P.row × IsSync G.row × AsksLocks P.sight P.serves calls.now out.old ports.old }
        ensures { IsPhaseTold (Locks P.sight P.serves P.alone P.at P.faults P.holds)
            calls.now out.old ports.old out.new ports.new }
    { lock_phase(rt, gate, pace, calls, out, ports) };
    let finish = |calls: &[(u32, FinishCall)], out: &mut Vec<
        Result<Stamp, NodeFault>,
    >, ports: &mut [P]|
        requires { IsSync W.row
            × IsSend P.row × IsSync G.row × AsksFinishes P.sight P.serves calls.now out.old ports.old }
        ensures { IsPhaseTold (Finishes P.sight P.serves P.alone P.at P.faults P.holds)
            calls.now out.old ports.old out.new ports.new }
    { finish_phase(rt, gate, pace, calls, out, ports) };
    let forget = |calls: &[(u32, ForgetCall)], out: &mut Vec<
        Result<Stamp, NodeFault>,
    >, ports: &mut [P]|
        requires { IsSync W.row
            × IsSend P.row × IsSync G.row × AsksForgets P.sight P.serves calls.now out.old ports.old }
        ensures { IsPhaseTold (Forgets P.sight P.serves P.alone P.at P.faults P.holds)
            calls.now out.old ports.old out.new ports.new }
    { forget_phase(rt, gate, pace, calls, out, ports) };
    let phases = PhaseGate {
        gate,
        lock: &lock,
        finish: &finish,
        forget: &forget,
    };
    run_lane(alloc, shape, lane, source, ports, repeats, &phases)
}

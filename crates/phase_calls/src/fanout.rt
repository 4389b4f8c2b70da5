// The shards of a ledger, each through a port of its own, and the calls of a phase at them.
ghost use Rattle.std.specs.Prelude.{◌≡◌, ◌<◌, length, All};
ghost use Rattle.node_ports.specs.Nodes.{sight_at};
ghost use Rattle.phase_calls.specs.Phase.{TakesPhase, PhaseCalled, MakesAll};

use cbdc_types::{FinishCall, ForgetCall, LockCall, NodeFault, Replied, Stamp};
use lane_driver::{PortSet, ShardPort};
use outside::{Gate, Point};
use std::sync::Wait;

/// A gate, and what makes the calls of a phase: each is given the calls, a place for their answers, and the ports.
#[derive(Drop)]
pub struct PhaseGate<'g, G, L, N, T> {
    pub gate: &'g G,
    pub lock: &'g L,
    pub finish: &'g N,
    pub forget: &'g T,
}

impl<'g, G: Gate, L, N, T> Gate for PhaseGate<'g, G, L, N, T> {
    fn pass<W: Wait>(&self, rt: &W, point: &Point) {
        self.gate.pass(rt, point);
    }

    fn is_slow(&self) -> bool {
        self.gate.is_slow()
    }
}

/// The shards of a ledger for one lane, each through a port of its own. What makes the calls of a phase comes with the gate.
///
/// Keeps `PortSet` over a port to each shard, whatever these are: each call of a phase is made through its shard's port, and the answers stand in
/// the calls' order. It is alone where they are, and serves the lanes that all of them serve.
pub struct Fanout<P> {
    pub ports: Vec<P>,
}

// Has the calls of a phase made, where it has any.
fn make_phase<P, C, A, F: Fn(&[(u32, C)], &mut Vec<A>, &mut [P])>(
    f: &F,
    calls: &[(u32, C)],
    out: &mut Vec<A>,
    ports: &mut [P],
)
    requires { 0 < length calls.now → TakesPhase F.Fn f.now calls.now out.old ports.old }
    ensures none { length calls.now ≡ 0 → (out.new ≡ out.old) × (ports.new ≡ ports.old) }
    ensures some { 0 < length calls.now
        → PhaseCalled F.Fn f.now calls.now out.old ports.old out.new ports.new }
{
    if calls.is_empty() {
        return;
    }
    f(calls, out, ports);
}

impl<
    'g,
    P: ShardPort,
    G: Gate,
    L: Fn(&[(u32, LockCall)], &mut Vec<Result<Replied, NodeFault>>, &mut [P]),
    N: Fn(&[(u32, FinishCall)], &mut Vec<Result<Stamp, NodeFault>>, &mut [P]),
    T: Fn(&[(u32, ForgetCall)], &mut Vec<Result<Stamp, NodeFault>>, &mut [P]),
> PortSet<PhaseGate<'g, G, L, N, T>> for Fanout<P> {
    ghost sights = { λ p n. sight_at P.sight p.ports.items n };

    ghost alone = { P.alone };

    ghost count = { λ p. length p.ports.items };

    ghost faults = { λ p n. (sight_at P.sight p.ports.items n).faults };

    ghost holds = { λ p. All P.holds p.ports.items };

    ghost serves = { λ p lane. All (λ q. P.serves q lane) p.ports.items × MakesAll L.Fn N.Fn T.Fn P.sight P.serves P.alone P.at P.faults P.holds };

    fn lock(
        &mut self,
        calls: &[(u32, LockCall)],
        out: &mut Vec<Result<Replied, NodeFault>>,
        gate: &PhaseGate<'g, G, L, N, T>,
    ) {
        make_phase(gate.lock, calls, out, self.ports.as_mut_slice());
    }

    fn finish(
        &mut self,
        calls: &[(u32, FinishCall)],
        out: &mut Vec<Result<Stamp, NodeFault>>,
        gate: &PhaseGate<'g, G, L, N, T>,
    ) {
        make_phase(gate.finish, calls, out, self.ports.as_mut_slice());
    }

    fn forget(
        &mut self,
        calls: &[(u32, ForgetCall)],
        out: &mut Vec<Result<Stamp, NodeFault>>,
        gate: &PhaseGate<'g, G, L, N, T>,
    ) {
        make_phase(gate.forget, calls, out, self.ports.as_mut_slice());
    }
}

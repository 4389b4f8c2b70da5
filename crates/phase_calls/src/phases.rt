// The calls of a phase, made at once or one after another.
ghost use Rattle.std.specs.Prelude.{◌≡◌, ◌≤◌, ◌<◌, [], length, vec_len, vec_capacity};
ghost use denote.Param.Send.{IsSync, IsSend};
ghost use Rattle.cbdc_model.specs.Calls.{IsLockCall, IsFinishCall, IsForgetCall};
ghost use Rattle.phase_calls.specs.Phase.{Accepts, Makes, IsPhase, IsPhaseTaken, IsPhaseMade, AsksLocks, AsksFinishes, AsksForgets, Locks, Finishes, Forgets, IsPhaseTold};

use cbdc_types::{FinishCall, ForgetCall, LockCall, NodeFault, Replied, Stamp};
use lane_driver::ShardPort;
use outside::Gate;
use std::thread::{Threads, join_mut};

/// How the calls of a phase are made.
#[derive(Clone, Copy, Debug, PartialEq, Eq)]
pub enum Pace {
    /// One after another, by the caller.
    InTurn,
    /// At once, each but one in a thread of its own.
    AtOnce,
    /// At once as long as the gate says that calls are slow.
    AtOnceWhereSlow,
}

impl Pace {
    // Whether the calls of a phase are made at once.
    fn is_at_once<G: Gate>(self, gate: &G) -> bool {
        match self {
            Pace::InTurn => false,
            Pace::AtOnce => true,
            Pace::AtOnceWhereSlow => gate.is_slow(),
        }
    }
}

/// Makes the lock calls of a phase: at once, in as many threads as there are calls, one of them the caller's; or one after another, in rising
/// order of shards, by the caller.
pub fn lock_phase<W: Threads + Sync, P: ShardPort + Send, G: Gate + Sync>(
    rt: &W,
    gate: &G,
    pace: Pace,
    calls: &[(u32, LockCall)],
    out: &mut Vec<Result<Replied, NodeFault>>,
    ports: &mut [P],
)
    requires asks { AsksLocks P.sight P.serves calls.now out.old ports.old }
    ensures told { IsPhaseTold
        (Locks P.sight P.serves P.alone P.at P.faults P.holds) calls.now out.old ports.old out.new ports.new }
{
    let lock = |port: &mut P, call: &LockCall| -> Result<Replied, NodeFault>
        requires { IsLockCall (P.sight port.old).header call.now × P.serves port.old call.now.batch.lane }
        ensures { Locks P.sight P.serves P.alone P.at P.faults P.holds call.now port.old port.new result }
    { port.lock(call, gate) };
    make_each(rt, pace.is_at_once(gate), &lock, calls, out, ports);
}

/// Makes the finish calls of a phase: at once, in as many threads as there are calls, one of them the caller's; or one after another, in rising
/// order of shards, by the caller.
pub fn finish_phase<W: Threads + Sync, P: ShardPort + Send, G: Gate + Sync>(
    rt: &W,
    gate: &G,
    pace: Pace,
    calls: &[(u32, FinishCall)],
    out: &mut Vec<Result<Stamp, NodeFault>>,
    ports: &mut [P],
)
    requires asks { AsksFinishes P.sight P.serves calls.now out.old ports.old }
    ensures told { IsPhaseTold (Finishes P.sight P.serves P.alone P.at P.faults P.holds)
        calls.now out.old ports.old out.new ports.new }
{
    let finish = |port: &mut P, call: &FinishCall| -> Result<Stamp, NodeFault>
        requires { IsFinishCall (P.sight port.old).header call.now × P.serves port.old call.now.batch.lane }
        ensures { Finishes P.sight P.serves P.alone P.at P.faults P.holds call.now port.old port.new result }
    { port.finish(call, gate) };
    make_each(rt, pace.is_at_once(gate), &finish, calls, out, ports);
}

/// Makes the forget calls of a phase: at once, in as many threads as there are calls, one of them the caller's; or one after another, in rising
/// order of shards, by the caller.
pub fn forget_phase<W: Threads + Sync, P: ShardPort + Send, G: Gate + Sync>(
    rt: &W,
    gate: &G,
    pace: Pace,
    calls: &[(u32, ForgetCall)],
    out: &mut Vec<Result<Stamp, NodeFault>>,
    ports: &mut [P],
)
    requires asks { AsksForgets P.sight P.serves calls.now out.old ports.old }
    ensures told { IsPhaseTold (Forgets P.sight P.serves P.alone P.at P.faults P.holds)
        calls.now out.old ports.old out.new ports.new }
{
    let forget = |port: &mut P, call: &ForgetCall| -> Result<Stamp, NodeFault>
        requires { IsForgetCall (P.sight port.old).header call.now × P.serves port.old call.now.batch.lane }
        ensures { Forgets P.sight P.serves P.alone P.at P.faults P.holds call.now port.old port.new result }
    { port.forget(call, gate) };
    make_each(rt, pace.is_at_once(gate), &forget, calls, out, ports);
}

// Calls `f` with each call of a phase and the port of its shard, and leaves the answers at the calls' places.
fn make_each<
    R: Threads + Sync,
    P: Send,
    C: Sync,
    A: Send + Drop,
    F: Fn(&mut P, &C) -> Result<A, NodeFault> + Sync,
>(
    rt: &R,
    at_once: bool,
    f: &F,
    calls: &[(u32, C)],
    out: &mut Vec<Result<A, NodeFault>>,
    ports: &mut [P],
)
    requires { IsPhaseTaken (Accepts F.Fn f.now) calls.now out.old ports.old }
    ensures { IsPhaseTold (Makes F.Fn f.now) calls.now out.old ports.old out.new ports.new }
{
    hold_places(out, calls.len());
    at_each(rt, at_once, f, 0, calls, out.as_mut_slice(), ports);
}

// A place for each of so many answers.
fn hold_places<A: Drop>(out: &mut Vec<Result<A, NodeFault>>, count: usize)
    requires empty { out.old.items ≡ [] }
    requires room { count ≤ vec_capacity out.old }
    ensures count { vec_len out.new ≡ count }
    ensures capacity { vec_capacity out.new ≡ vec_capacity out.old }
{
    for _place in 0..count {
        out.push_reserved(Err(NodeFault::Memory));
    }
}

// Calls `f` with a call that is alone and the port of its shard, or with none.
fn make_alone<P, C, A: Drop, F: Fn(&mut P, &C) -> A>(
    f: &F,
    first: u32,
    calls: &[(u32, C)],
    answers: &mut [A],
    ports: &mut [P],
)
    requires few { length calls.now < 2 }
    requires phase { IsPhase (Accepts F.Fn f.now) first calls.now ports.old answers.old }
    ensures { IsPhaseMade (Makes F.Fn f.now) first calls.now ports.old ports.new answers.new }
{
    let Some(((shard, call), _rest)) = calls.split_first() else {
        return;
    };
    answers[0] = f(&mut ports[(*shard - first) as usize], call);
}

/// Calls `f` with each call and the port of its shard: at once, all but one in a thread of its own where one can be made, or one after another.
/// The ports stand for the shards from `first` on, and the calls' shards rise.
//
// The calls are halved at each step, and at once one half goes to a new thread: so the stack grows as the logarithm of their number.
#[cycle(halves)]
fn at_each<R: Threads + Sync, P: Send, C: Sync, A: Send + Drop, F: Fn(&mut P, &C) -> A + Sync>(
    rt: &R,
    at_once: bool,
    f: &F,
    first: u32,
    calls: &[(u32, C)],
    answers: &mut [A],
    ports: &mut [P],
)
    requires { IsPhase (Accepts F.Fn f.now) first calls.now ports.old answers.old }
    ensures { IsPhaseMade (Makes F.Fn f.now) first calls.now ports.old ports.new answers.new }
{
    if calls.len() < 2 {
        make_alone(f, first, calls, answers, ports);
        return;
    }
    let half = calls.len() / 2;
    let (low, high) = calls.split_at(half);
    let at = high[0].0;
    let (low_answers, high_answers) = answers.split_at_mut(half);
    let (low_ports, high_ports) = ports.split_at_mut((at - first) as usize);
    both_halves(
        rt,
        at_once,
        f,
        first,
        low,
        low_answers,
        low_ports,
        at,
        high,
        high_answers,
        high_ports,
    );
}

// Makes the calls of both halves, at once or those of the lower half first.
#[cycle(halves)]
fn both_halves<R: Threads + Sync, P: Send, C: Sync, A: Send + Drop, F: Fn(&mut P, &C) -> A + Sync>(
    rt: &R,
    at_once: bool,
    f: &F,
    first: u32,
    low: &[(u32, C)],
    low_answers: &mut [A],
    low_ports: &mut [P],
    at: u32,
    high: &[(u32, C)],
    high_answers: &mut [A],
    high_ports: &mut [P],
)
    requires some { (0 < length low.now) × (0 < length high.now) }
    requires low { IsPhase (Accepts F.Fn f.now) first low.now low_ports.old low_answers.old }
    requires high { IsPhase (Accepts F.Fn f.now) at high.now high_ports.old high_answers.old }
    ensures low { IsPhaseMade (Makes F.Fn f.now) first low.now low_ports.old low_ports.new low_answers.new }
    ensures high { IsPhaseMade (Makes F.Fn f.now) at high.now high_ports.old high_ports.new high_answers.new }
{
    if at_once {
        halves_at_once(
            rt,
            f,
            first,
            low,
            low_answers,
            low_ports,
            at,
            high,
            high_answers,
            high_ports,
        );
        return;
    }
    at_each(rt, false, f, first, low, low_answers, low_ports);
    at_each(rt, false, f, at, high, high_answers, high_ports);
}

// Apart from them, so that what the closures require is what this function is given.
#[cycle(halves)]
fn halves_at_once<
    R: Threads + Sync,
    P: Send,
    C: Sync,
    A: Send + Drop,
    F: Fn(&mut P, &C) -> A + Sync,
>(
    rt: &R,
    f: &F,
    first: u32,
    low: &[(u32, C)],
    low_answers: &mut [A],
    low_ports: &mut [P],
    at: u32,
    high: &[(u32, C)],
    high_answers: &mut [A],
    high_ports: &mut [P],
)
    requires some { (0 < length low.now) × (0 < length high.now) }
    requires low { IsPhase (Accepts F.Fn f.now) first low.now low_ports.old low_answers.old }
    requires high { IsPhase (Accepts F.Fn f.now) at high.now high_ports.old high_answers.old }
    ensures low { IsPhaseMade (Makes F.Fn f.now) first low.now low_ports.old low_ports.new low_answers.new }
    ensures high { IsPhaseMade (Makes F.Fn f.now) at high.now high_ports.old high_ports.new high_answers.new }
{
    let mut front = ||
        requires { IsSync R.row × IsSync F.row × IsSync C.row × IsSend P.row
            × IsSend A.row × IsPhase (Accepts F.Fn f.now) first low.now low_ports.now low_answers.now }
        ensures { IsPhaseMade (Makes F.Fn f.entry.now)
            first low.entry.now low_ports.entry.now low_ports.exit.now low_answers.exit.now }
    { at_each(rt, true, f, first, low, low_answers, low_ports) };
    let mut back = ||
        requires { IsSync R.row × IsSync F.row × IsSync C.row × IsSend P.row
            × IsSend A.row × IsPhase (Accepts F.Fn f.now) at high.now high_ports.now high_answers.now }
        ensures { IsPhaseMade (Makes F.Fn f.entry.now)
            at high.entry.now high_ports.entry.now high_ports.exit.now high_answers.exit.now }
    { at_each(rt, true, f, at, high, high_answers, high_ports) };
    join_mut(rt, &mut front, &mut back);
}

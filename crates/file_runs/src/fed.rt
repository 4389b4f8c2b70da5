// What is found ahead of the lanes of a file, and a wave with the lanes' feeders beside it.
ghost use Rattle.std.specs.Prelude.{◌≡◌, ◌<◌, ◌^◌, true, List, []};
ghost use denote.Param.Send.{IsSync, IsSend};
ghost use Rattle.ledger_runs.specs.Lanes.{LaneOf};
ghost use Rattle.file_runs.specs.Ledgers.{LedgerOf, ledger_journals};
ghost use Rattle.file_runs.specs.Looking.{AreLooks};
ghost use Rattle.lane_waves.specs.Watchers.{IfSaw};
ghost use Rattle.file_runs.specs.Waving.{IsWave};
ghost use Rattle.file_runs.specs.Feeding.{CanWave, no_ledger};

use crate::{Ledger, run_wave};
use cbdc_types::{LaneId, Shape};
use lane_driver::Source;
use lane_sources::{Ahead, Deals, Feeder, FileOf, LaneSource, feed, pipe, rule_ahead};
use lane_waves::Watch;
use ledger_runs::Work;
use outside::{Disk, Gate};
use sentinel::Verifier;
use std::alloc::Global;
use std::marker::{Brand, Model, PhantomData};
use std::sync::Wait;
use std::thread::Threads;
use std::vec::IntoIter;
use std::{mem, thread};

// From how many submissions of a lane on no feeder checks them.
const SHARE: usize = 2048;

// So many feeders have a thread each, on any machine.
const FEW: usize = 4;

/// Who checks the submissions of a file.
#[derive(Clone, Copy)]
pub(crate) enum Checkers {
    /// All processors, before the wave.
    Processors,
    /// A feeder of each lane with a submission, beside it.
    Feeders,
    /// Each lane, as it comes to them.
    Lanes,
}

// Whether there are fewer lanes than processors, so that lanes that check their own submissions would leave some idle.
fn are_few<W: Threads>(rt: &W, lanes: usize) -> bool {
    match thread::available_parallelism(rt) {
        Ok(processors) => lanes < processors.get(),
        Err(_) => false,
    }
}

/// Who checks the submissions of a file, by the largest share of a lane.
pub(crate) fn checkers_of<W: Threads, V: Verifier, F: Deals>(
    rt: &W,
    file: &FileOf<'_, V, F>,
) -> Checkers {
    let lanes = file.lanes();
    if file.txs().len().div_ceil(lanes) < SHARE {
        Checkers::Feeders
    } else if are_few(rt, lanes) {
        Checkers::Processors
    } else {
        Checkers::Lanes
    }
}

// The feeder of a lane is put to the others, and what it sends is ahead of it; nothing is where the lane gets nothing, or memory runs out.
fn fed<V: Verifier, F: Deals>(
    alloc: Global,
    shape: &Shape,
    file: &FileOf<'_, V, F>,
    lane: usize,
    feeders: &mut Vec<Feeder<F>>,
) -> Ahead<F>
    requires { lane < 2 ^ 32 }
{
    if lane >= file.txs().len() {
        return Ahead::Nothing;
    }
    let Ok((feeder, messages)) = pipe(alloc, shape, file, LaneId(lane as u32)) else {
        return Ahead::Nothing;
    };
    match feeders.push(feeder) {
        Ok(()) => Ahead::Sent(messages),
        Err(_) => Ahead::Nothing,
    }
}

// What all processors find of a lane before the wave, or nothing where memory runs out.
fn found<W: Threads + Sync, V: Verifier + Sync, F: Deals + Send + Sync>(
    rt: &W,
    alloc: Global,
    file: &FileOf<'_, V, F>,
    lane: usize,
) -> Ahead<F> {
    match rule_ahead(rt, alloc, file, lane, file.txs().len()) {
        Ok(rulings) => Ahead::Found(rulings),
        Err(_) => Ahead::Nothing,
    }
}

/// What is found ahead of a lane, by these. Its feeder, where it has one, is put to the others. A lane for which memory runs out here checks
/// its submissions itself.
pub(crate) fn ahead_of<W: Threads + Sync, V: Verifier + Sync, F: Deals + Send + Sync>(
    rt: &W,
    alloc: Global,
    shape: &Shape,
    file: &FileOf<'_, V, F>,
    lane: usize,
    checkers: Checkers,
    feeders: &mut Vec<Feeder<F>>,
) -> Ahead<F>
    requires { lane < 2 ^ 32 }
{
    match checkers {
        Checkers::Processors => found(rt, alloc, file, lane),
        Checkers::Feeders => fed(alloc, shape, file, lane, feeders),
        Checkers::Lanes => Ahead::Nothing,
    }
}

// Lanes that memory kept from running let go of their feeders, too, so that each ends at its next message.
fn end_ahead<X: Source>(works: &mut Vec<Work<X>>)
    ensures { works.new.items ≡ works.old.items }
{
    'works: for lane in 0..works.len() {
        let work = &mut works[lane];
        work.source.end_ahead();
    }
}

/// Which wave runs. A call at `Brand` picks it.
pub(crate) trait Waving<D> {
    /// The ledger before it.
    ghost before: { LedgerOf D };

    /// Its lanes before it.
    ghost lanes: { List LaneOf };
}

impl<D> Waving<D> for Brand {
    ghost before = { no_ledger };

    ghost lanes = { [] };
}

// The ledger and the lanes of the wave that `B` picks, before it or behind it. Contracts see whether it has run; the rest is what the type
// says, since a scope tells nothing of what its closure has changed.
struct Held<'a, W: Wait, D: Disk, V: Verifier, F: Deals, B: Waving<D>> {
    ledger: Option<Ledger<D>>,
    works: Vec<Work<LaneSource<'a, W, V, F>>>,
    has_run: bool,
    of: PhantomData<B>,
}

impl<'a, W: Wait, D: Disk, V: Verifier, F: Deals, B: Waving<D>> Model for Held<'a, W, D, V, F, B> {
    ghost use Rattle.std.specs.Prelude.{Bool};
    ghost use Rattle.file_runs.specs.Feeding.{IsHeld};

    ghost Value = { Bool };

    ghost view = { λ h. h.has_run };

    ghost invariant = { λ h. IsHeld D.Disk B.before B.lanes h.ledger h.works.items h.has_run };
}

// Runs the wave, unless it has run.
fn run_held<
    'a,
    W: Wait + Threads + Sync,
    D: Disk + Send,
    V: Verifier + Sync,
    F: Deals + Send + Sync,
    B: Waving<D>,
    G: Gate + Sync,
>(rt: &W, alloc: Global, held: &mut Held<'a, W, D, V, F, B>, gate: &G)
    ensures { held.new ≡ true }
{
    if held.has_run {
        return;
    }
    let Some(ledger) = mem::replace(&mut held.ledger, None) else {
        unreachable!()
    };
    let ledger = run_wave(rt, alloc, ledger, &mut held.works, gate);
    end_ahead(&mut held.works);
    match mem::replace(&mut held.ledger, Some(ledger)) {
        None => held.has_run = true,
        Some(_other) => unreachable!(),
    }
}

// How many threads so many feeders have: one each, but no more than there are processors, where there are more than a few of both.
fn threads_for<W: Threads>(rt: &W, feeders: usize) -> usize {
    if feeders <= FEW {
        return feeders;
    }
    match thread::available_parallelism(rt) {
        Ok(processors) => feeders.min(processors.get().max(FEW)),
        Err(_) => FEW,
    }
}

// The next ones of some feeders, up to so many; as far as memory is there for them.
fn next_of<F: Deals>(
    alloc: Global,
    feeders: &mut IntoIter<Feeder<F>>,
    many: usize,
) -> Vec<Feeder<F>> {
    let mut own = Vec::new(alloc);
    for _ in 0..many {
        let Some(feeder) = feeders.next() else {
            break;
        };
        if own.push(feeder).is_err() {
            break;
        }
    }
    own
}

// Runs the wave, with the feeders of its lanes beside it, some on each of a few threads. Those of a thread that can't be started are dropped.
fn run_beside<
    'a,
    W: Wait + Threads + Sync,
    D: Disk + Send,
    V: Verifier + Sync,
    F: Deals + Send + Sync,
    B: Waving<D>,
    G: Gate + Sync,
>(
    rt: &W,
    alloc: Global,
    shape: Shape,
    file: &FileOf<'a, V, F>,
    held: &mut Held<'a, W, D, V, F, B>,
    feeders: Vec<Feeder<F>>,
    gate: &G,
) {
    let threads = threads_for(rt, feeders.len());
    let each = feeders.len().div_ceil(threads.max(1));
    let mut feeders = feeders.into_iter();
    thread::scope(
        thread::scope_env(),
        rt,
        move |scope|
            requires { IsSync W.row
                × IsSend D.row × IsSync V.row × IsSend F.row × IsSync F.row × IsSync G.row }
        {
            for _ in 0..threads {
                let own = next_of(alloc, &mut feeders, each);
                if own.is_empty() {
                    break;
                }
                let _ = scope.spawn(move || feed(rt, alloc, &shape, file, own, gate));
            }
            // Those for which memory ran out, whose lanes would wait for them.
            drop(feeders);
            run_held(rt, alloc, held, gate);
        },
    );
}

/// A ledger behind a wave, its lanes, and what an auditor saw beside them.
pub(crate) struct Waved<'a, W: Wait, D: Disk, V: Verifier, F: Deals> {
    pub(crate) ledger: Ledger<D>,
    pub(crate) works: Vec<Work<LaneSource<'a, W, V, F>>>,
    pub(crate) looks: Watch,
}

/// Runs the wave that `B` picks, with the feeders of its lanes beside it.
pub(crate) fn run_fed<
    'a,
    W: Wait + Threads + Sync,
    D: Disk + Send,
    V: Verifier + Sync,
    F: Deals + Send + Sync,
    B: Waving<D>,
    G: Gate + Sync,
>(
    rt: &W,
    alloc: Global,
    file: &FileOf<'a, V, F>,
    ledger: Ledger<D>,
    works: Vec<Work<LaneSource<'a, W, V, F>>>,
    feeders: Vec<Feeder<F>>,
    gate: &G,
) -> Waved<'a, W, D, V, F>
    requires before { ledger ≡ B.before }
    requires lanes { works.items ≡ B.lanes }
    requires can { CanWave B.before B.lanes }
    ensures wave { IsWave D.Disk B.before result.ledger B.lanes result.works.items }
    ensures looks { IfSaw result.looks (AreLooks result.ledger.header.shape (ledger_journals result.ledger)) }
{
    let shape = *ledger.shape();
    let mut held: Held<'a, W, D, V, F, B> = Held {
        ledger: Some(ledger),
        works,
        has_run: false,
        of: PhantomData,
    };
    run_beside(rt, alloc, shape, file, &mut held, feeders, gate);
    run_held(rt, alloc, &mut held, gate);
    let Held {
        ledger,
        works,
        has_run: _,
        of: _,
    } = held;
    let Some(mut ledger) = ledger else {
        unreachable!()
    };
    let looks = ledger.take_looks();
    Waved {
        ledger,
        works,
        looks,
    }
}

// What a driver takes and makes of a batch's parts.
ghost use Rattle.std.specs.Prelude.{◌≤◌, ◌↔◌, IsTrue, length, All};

use cbdc_types::{
    BatchId, CompactTx, FinishCall, ForgetCall, Hash, LaneId, List, LockCall, NodeFault, Outcome,
    Record, Replied, Replies, Reply, Shape, Stamp,
};
use lane_driver::{
    BatchRoom, LaterRoom, ShardFault, finish_calls, forget_calls, gather, latest, lock_calls,
};
use row_records::{
    Known, Told, finish_call, forget_call, lock_call, record, rest, txs, words_around,
};
use std::alloc::Global;

// Whether no part has more entries than that.
fn are_small(locks: &[(u32, LockCall)], size: usize) -> bool
    ensures { IsTrue result ↔ All (λ c. length c.1.part ≤ size) locks.now }
{
    locks.iter().all(|c| c.1.part.len() <= size)
}

// The calls of a batch, each with its shard.
#[derive(Drop)]
struct BatchCalls {
    locks: Vec<(u32, LockCall)>,
    finishes: Vec<(u32, FinishCall)>,
    forgets: Vec<(u32, ForgetCall)>,
}

/// The stamps of the Prepare and the Discard of the batches whose calls are told.
const PREPARED: Stamp = Stamp(1);

const DISCARDED: Stamp = Stamp(5);

// The calls of a batch of these transactions, whose Commit has these outcomes.
fn calls_of(
    shape: &Shape,
    txs: &[CompactTx],
    batch: &BatchId,
    committed: Stamp,
    outcomes: &[Outcome],
    told: &mut Told,
) -> Option<BatchCalls> {
    if txs.len() != outcomes.len() || txs.len() > 1024 {
        told.refuse("an outcome for each transaction");
        return None;
    }
    match BatchRoom::take(told.alloc, shape, txs) {
        Ok(room) => {
            let BatchRoom {
                parts,
                mut locks,
                later,
                ..
            } = room;
            let LaterRoom {
                mut finishes,
                mut forgets,
                mut decisions,
                ..
            } = later;
            lock_calls(parts, batch, PREPARED, &mut locks);
            if are_small(&locks, outcomes.len()) {
                finish_calls(
                    &locks,
                    outcomes,
                    batch,
                    committed,
                    &mut decisions,
                    &mut finishes,
                );
                forget_calls(&locks, batch, DISCARDED, &mut forgets);
            } else {
                told.refuse("a large part");
            }
            Some(BatchCalls {
                locks,
                finishes,
                forgets,
            })
        }
        Err(_) => {
            told.no_memory();
            None
        }
    }
}

// The calls of a batch of these transactions, by its Commit.
fn calls_by(
    shape: &Shape,
    txs: &[CompactTx],
    commit: &Record,
    told: &mut Told,
) -> Option<BatchCalls> {
    match commit {
        Record::Commit {
            stamp,
            batch,
            outcomes,
        } => calls_of(shape, txs, batch, *stamp, outcomes.as_slice(), told),
        _ => {
            told.refuse("no Commit");
            None
        }
    }
}

// Takes in a call that a line tells: `SHARD lock ..`, `SHARD finish ..`, `SHARD forget ..`.
fn take_call(
    known: &Known,
    shape: &Shape,
    calls: &mut BatchCalls,
    words: &[&str],
    told: &mut Told,
) {
    let shard = told.small_at(words, 0);
    let own = rest(words, 2);
    match told.word_at(words, 1) {
        "lock" => {
            let node = shape.coordinators().saturating_add(shard);
            if let Some(call) = lock_call(known, node, own, told) {
                told.push(&mut calls.locks, (shard, call));
            }
        }
        "finish" => {
            let call = finish_call(own, told);
            told.push(&mut calls.finishes, (shard, call));
        }
        "forget" => {
            let call = forget_call(own, told);
            told.push(&mut calls.forgets, (shard, call));
        }
        _ => told.refuse("no call of a batch"),
    }
}

fn take_line(known: &Known, shape: &Shape, calls: &mut BatchCalls, line: &str, told: &mut Told) {
    let words = told.words_of(line);
    take_call(known, shape, calls, &words, told);
}

// The calls that lines tell.
fn calls_told(known: &Known, shape: &Shape, text: &str, told: &mut Told) -> BatchCalls {
    let alloc = told.alloc;
    let mut calls = BatchCalls {
        locks: Vec::new(alloc),
        finishes: Vec::new(alloc),
        forgets: Vec::new(alloc),
    };
    for line in text.lines() {
        take_line(known, shape, &mut calls, line, told);
    }
    calls
}

// Looks whether calls of a batch are those.
fn check_calls(wanted: &BatchCalls, came: &BatchCalls, told: &mut Told) {
    told.check_yes(
        wanted.locks == came.locks
            && wanted.finishes == came.finishes
            && wanted.forgets == came.forgets,
    );
}

// Looks whether lines tell the calls of a batch of these transactions that has this Commit.
fn check_by(
    known: &Known,
    shape: &Shape,
    txs: &[CompactTx],
    commit: &Record,
    text: &str,
    told: &mut Told,
) {
    if let Some(came) = calls_by(shape, txs, commit, told) {
        let wanted = calls_told(known, shape, text, told);
        check_calls(&wanted, &came, told);
    }
}

/// `calls TX.. / COMMIT`, and a line for each call at a shard of the batch of these transactions that has this Commit, whose Prepare has the stamp 1
/// and whose Discard has 5: `SHARD lock ..`, `SHARD finish ..`, `SHARD forget ..`, those of a kind in their order.
pub fn calls(known: &Known, words: &[&str], text: &str, told: &mut Told) {
    let (names, commit) = words_around(words, "/");
    let Some(shape) = told.given(known.shape()) else {
        return;
    };
    let batch = txs(known, names, told);
    if let Some(commit) = record(known, 0, commit, told) {
        check_by(known, &shape, batch.as_slice(), &commit, text, told);
    }
}

/// What a shard answered: a stamp, or a fault.
type Stamped = Result<Stamp, NodeFault>;

// The same as a row tells it.
#[derive(Clone, Copy, Drop)]
enum Answer {
    Stamp(Stamp),
    DiskFault,
    Memory,
    Broken(u64),
}

fn stamped(answer: &Answer) -> Stamped {
    match answer {
        Answer::Stamp(stamp) => Ok(*stamp),
        Answer::DiskFault => Err(NodeFault::DiskFault),
        Answer::Memory => Err(NodeFault::Memory),
        Answer::Broken(since) => Err(NodeFault::Broken { since: *since }),
    }
}

// `SHARD ANSWER`
fn answer_of(words: &[&str], told: &mut Told) -> (u32, Answer) {
    let shard = told.small_at(words, 0);
    let kind = told.word_at(words, 1);
    told.at_most(words, if kind == "broken" { 3 } else { 2 });
    let own = match kind {
        "disk-fault" => Answer::DiskFault,
        "memory" => Answer::Memory,
        "broken" => Answer::Broken(told.number_at(words, 2)),
        _ => Answer::Stamp(Stamp(told.number_at(words, 1))),
    };
    (shard, own)
}

// `SHARD ANSWER`, with strokes between them.
fn answers_of(words: &[&str], told: &mut Told) -> Vec<(u32, Answer)> {
    let mut all = Vec::new(told.alloc);
    let mut at = 0usize;
    for _ in 0..words.len() {
        if at < words.len() {
            let (own, _) = words_around(rest(words, at), "/");
            let one = answer_of(own, told);
            told.push(&mut all, one);
            at = at.saturating_add(own.len()).saturating_add(1);
        }
    }
    all
}

// The answer to a lock: the reply that the hash 04 is missing, under a stamp, or a fault.
fn replied(answer: &Answer, told: &mut Told) -> Result<Replied, NodeFault> {
    match stamped(answer) {
        Ok(stamp) => {
            let mut replies = List::new(told.alloc);
            told.made(replies.push(Reply::Missing(Hash([4; 32]))));
            Ok(Replied { replies, stamp })
        }
        Err(fault) => Err(fault),
    }
}

// A call to lock nothing.
fn empty_call(alloc: Global) -> LockCall {
    LockCall {
        batch: BatchId {
            lane: LaneId(0),
            number: 1,
        },
        part: List::new(alloc),
        cause: PREPARED,
    }
}

// A call to lock nothing at each shard that answers.
fn empty_calls(own: &[(u32, Answer)], told: &mut Told) -> Vec<(u32, LockCall)> {
    let alloc = told.alloc;
    let mut calls = Vec::new(alloc);
    for (shard, _) in own {
        told.push(&mut calls, (*shard, empty_call(alloc)));
    }
    calls
}

// What each shard answers to it.
fn all_replied(own: &[(u32, Answer)], told: &mut Told) -> Vec<Result<Replied, NodeFault>> {
    let mut answers = Vec::new(told.alloc);
    for (_, answer) in own {
        let one = replied(answer, told);
        told.push(&mut answers, one);
    }
    answers
}

// Tells the shards and the stamps of all replies, or the first fault.
fn tell_gathered(told: &mut Told, came: &Result<Replies, ShardFault>) {
    match came {
        Ok(replies) => {
            for one in replies.as_slice() {
                told.numbers(&[u64::from(one.shard), one.stamp.0]);
            }
        }
        Err(first) => told.shown(first),
    }
}

// Gathers the answers to calls.
fn gather_all(
    calls: &[(u32, LockCall)],
    answers: Vec<Result<Replied, NodeFault>>,
    told: &mut Told,
) {
    if answers.len() != calls.len() {
        told.refuse("an answer is missing");
        return;
    }
    match Vec::with_capacity(told.alloc, calls.len()) {
        Ok(replies) => tell_gathered(told, &gather(calls, answers, replies)),
        Err(_) => told.no_memory(),
    }
}

/// `gather SHARD ANSWER / SHARD ANSWER ..`, each answer a stamp, with the reply that 04 is missing, or a fault; and the shards and stamps of all replies, or the first fault
pub fn gathers(words: &[&str], told: &mut Told) {
    let own = answers_of(words, told);
    let calls = empty_calls(&own, told);
    let answers = all_replied(&own, told);
    gather_all(&calls, answers, told);
}

// Tells the greatest stamp, or the first fault.
fn tell_latest(own: &[(u32, Answer)], stamps: &[Stamped], told: &mut Told) {
    if stamps.len() != own.len() {
        told.refuse("an answer is missing");
        return;
    }
    match latest(own, stamps) {
        Ok(stamp) => told.number(stamp.0),
        Err(first) => told.shown(&first),
    }
}

/// `latest SHARD ANSWER / SHARD ANSWER ..`, each answer a stamp or a fault, and the greatest stamp, or the first fault
pub fn latest_of(words: &[&str], told: &mut Told) {
    let own = answers_of(words, told);
    let mut stamps = Vec::new(told.alloc);
    for (_, answer) in &own {
        told.push(&mut stamps, stamped(answer));
    }
    tell_latest(&own, &stamps, told);
}

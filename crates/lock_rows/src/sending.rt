// Sixty-seven submissions of each of two lanes, which are checked ahead of a lane: by a sentinel on a thread of its own, or by all processors.
ghost use Rattle.std.specs.Prelude.{◌≡◌, ◌<◌};

use crate::feeding::{feed_or_drop, given, payment};
use cbdc_types::{FullTx, Hash, LaneId, Shape};
use crossbeam_channel::Receiver;
use lane_sources::{Ahead, Deals, FileOf, RuledAt, pipe, rule_ahead};
use sentinel::{Verdict, Verifier};
use std::alloc::{AllocError, Global};
use std::marker::Brand;
use std::sync::Wait;
use std::sync::atomic::{AtomicU64, Ordering};
use std::thread::{Threads, join};

// How many submissions there are, each with one input, and how many of them each lane has.
const COUNT: u8 = 134;

const SHARE: usize = 67;

// To it every witness is good, and it counts how often it is asked for a verdict.
#[derive(Drop)]
struct Counting {
    asked: AtomicU64,
}

impl Counting {
    fn new() -> Counting {
        Counting {
            asked: AtomicU64::new(0),
        }
    }
}

impl Verifier for Counting {
    ghost use Rattle.sentinel.specs.declared.verifier.Verdict.TheVariants.{Good};

    ghost verdict_of = { λ _ _ _. Good };

    fn verdict(&self, _tx: &Hash, _index: u64) -> Verdict {
        self.asked.fetch_add(1, Ordering::SeqCst);
        Verdict::Good
    }
}

fn submissions(alloc: Global) -> Result<Vec<FullTx>, AllocError> {
    let mut txs = Vec::new(alloc);
    for number in 0..COUNT {
        txs.push(payment(alloc, Some(number))?)?;
    }
    Ok(txs)
}

// Whether a message has so many rulings, of every second place from this one on, the first one last.
fn are_from<F: Deals>(message: &[RuledAt<F>], many: usize, from: usize) -> bool {
    let mut place = from;
    for ruling in message.iter().rev() {
        if ruling.place() != place {
            return false;
        }
        place = place.saturating_add(2);
    }
    message.len() == many
}

// Whether four messages of sixteen rulings come and one of three, in the order of the second lane's places, and then no more.
fn come_in_order<R: Wait, F: Deals>(rt: &R, messages: Receiver<Vec<RuledAt<F>>>) -> bool {
    let mut from = 1usize;
    for number in 0..5usize {
        let Ok(message) = messages.recv(rt) else {
            return false;
        };
        let many = if number < 4 { 16 } else { 3 };
        if !are_from(message.as_slice(), many, from) {
            return false;
        }
        from = from.saturating_add(32);
    }
    messages.recv(rt).is_err()
}

// Whether the messages of the second lane come as they should, from a sentinel on a thread of its own.
fn are_sent<R: Threads + Wait + Sync, F: Deals + Send + Sync>(
    rt: &R,
    alloc: Global,
    shape: &Shape,
    file: &FileOf<'_, Counting, F>,
) -> Result<bool, AllocError> {
    let (feeder, messages) = pipe(alloc, shape, file, LaneId(1))?;
    let (_, come) = join(
        rt,
        || feed_or_drop(rt, alloc, shape, file, feeder, true),
        || come_in_order(rt, messages),
    );
    Ok(come)
}

// Whether the first lane gets all, while its sentinel checks them on a thread of its own or is dropped.
fn has_all<R: Threads + Wait + Sync, F: Deals + Send + Sync>(
    rt: &R,
    alloc: Global,
    shape: &Shape,
    file: &FileOf<'_, Counting, F>,
    starts: bool,
) -> Result<bool, AllocError>
    requires { 0 < file.now }
{
    let (feeder, messages) = pipe(alloc, shape, file, LaneId(0))?;
    let (_, given) = join(
        rt,
        || feed_or_drop(rt, alloc, shape, file, feeder, starts),
        || given(rt, alloc, file, Ahead::Sent(messages)),
    );
    Ok(given?.len() == SHARE)
}

// Whether the first lane gets all, which all processors have checked before.
fn has_found<R: Threads + Wait + Sync, F: Deals + Send + Sync>(
    rt: &R,
    alloc: Global,
    file: &FileOf<'_, Counting, F>,
) -> Result<bool, AllocError>
    requires { 0 < file.now }
{
    let found = rule_ahead(rt, alloc, file, 0, SHARE)?;
    let all = given(rt, alloc, file, Ahead::Found(found))?;
    Ok(all.len() == SHARE)
}

// What is tried: the messages of a sentinel, and what a lane gets that has one, from which it was dropped, or ahead of which all is found.
#[derive(Clone, Copy)]
enum Trial {
    Messages,
    Fed,
    Unfed,
    Found,
}

// Whether it holds.
fn holds<R: Threads + Wait + Sync, F: Deals + Send + Sync>(
    rt: &R,
    alloc: Global,
    shape: &Shape,
    txs: &[FullTx],
    verifier: &Counting,
    trial: Trial,
) -> Result<bool, AllocError>
    requires file { F.file ≡ txs.now }
    requires verdicts { F.verdicts ≡ ⟦<Counting as Verifier>⟧.verdict_of verifier.now }
    requires shape { F.shape ≡ shape.now }
{
    let file: FileOf<'_, Counting, F> = FileOf::new(txs, verifier, shape.lane_count());
    match trial {
        Trial::Messages => are_sent(rt, alloc, shape, &file),
        Trial::Fed => has_all(rt, alloc, shape, &file, true),
        Trial::Unfed => has_all(rt, alloc, shape, &file, false),
        Trial::Found => has_found(rt, alloc, &file),
    }
}

// Whether it holds of two lanes, and how often a verdict was asked for.
fn tried<R: Threads + Wait + Sync>(rt: &R, alloc: Global, trial: Trial) -> Option<(bool, u64)> {
    let shape = Shape::new(1, 1, 2, 16).ok()?;
    let verifier = Counting::new();
    let txs = submissions(alloc).ok()?;
    let holds = holds::<R, Brand>(rt, alloc, &shape, txs.as_slice(), &verifier, trial).ok()?;
    Some((holds, verifier.asked.load(Ordering::SeqCst)))
}

/// Sixty-seven submissions of the second of two lanes come in five messages, in order.
pub fn come_in_messages<R: Threads + Wait + Sync>(rt: &R, alloc: Global) -> Option<bool> {
    Some(tried(rt, alloc, Trial::Messages)?.0)
}

/// As many verdicts on the submissions of a lane are asked for where a sentinel sends them or all processors check them before as where the lane asks:
/// none anew.
pub fn asks_none_anew<R: Threads + Wait + Sync>(rt: &R, alloc: Global) -> Option<bool> {
    let (unfed, asked) = tried(rt, alloc, Trial::Unfed)?;
    let fed = tried(rt, alloc, Trial::Fed)?;
    let found = tried(rt, alloc, Trial::Found)?;
    Some(unfed && asked > 0 && fed == (true, asked) && found == (true, asked))
}

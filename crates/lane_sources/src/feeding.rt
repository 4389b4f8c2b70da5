// Sentinels ahead of lanes: a thread of their own checks the submissions of one lane, or of several in turn, and sends what it makes of each.
ghost use Rattle.cbdc_model.specs.Ranges.{home_of};
ghost use Rattle.std.specs.Prelude.{◌≡◌};

use crate::ruled::rule_some;
use crate::{Deals, FileOf, RuledAt};
use cbdc_types::{LaneId, NodeId, Shape};
use crossbeam_channel::{Receiver, Sender, bounded};
use outside::{Gate, Point, When};
use sentinel::Verifier;
use std::alloc::{AllocError, Global};
use std::sync::Wait;

// How many messages a lane gets at most.
const MESSAGES: usize = 64;

/// A feeder that has not ended: the lane that it feeds, the place of the next submission that it checks, how many it sends in a message, and the sending
/// end of the lane's channel. Where it is dropped the lane computes everything itself that was not sent.
#[derive(Drop)]
pub struct Feeder<F: Deals> {
    lane: LaneId,
    at: usize,
    size: usize,
    sender: Sender<Vec<RuledAt<F>>>,
}

/// The feeder of a lane and the receiving end of its channel, which has room for all that is sent to it, so that no feeder waits; or memory ran out. A
/// message is of as many submissions as a batch has, since a lane that waits for one is woken by it, which takes longer than a check does; or of more
/// where there would be very many messages.
pub fn pipe<V: Verifier, F: Deals>(
    alloc: Global,
    shape: &Shape,
    file: &FileOf<'_, V, F>,
    lane: LaneId,
) -> Result<(Feeder<F>, Receiver<Vec<RuledAt<F>>>), AllocError> {
    let share = file.txs().len().div_ceil(file.lanes());
    let size = share.div_ceil(MESSAGES).max(shape.batch() as usize).max(1);
    let (sender, receiver) = bounded(alloc, share.div_ceil(size).max(1))?;
    let at = lane.0 as usize;
    Ok((
        Feeder {
            lane,
            at,
            size,
            sender,
        },
        receiver,
    ))
}

// Where a run passes its gate behind each message for a lane: at its coordinator, with no kind of record.
fn point_of(shape: &Shape, lane: LaneId) -> Point
    ensures lane { result.lane ≡ lane }
    ensures node { result.node ≡ home_of shape.now lane }
    ensures kind { result.kind ≡ 0 }
{
    let _limits = shape.coordinators();
    Point {
        lane,
        node: NodeId(lane.0 / shape.lanes()),
        kind: 0,
        when: When::After,
    }
}

// Sends what a sentinel makes of so many submissions of a lane from a place on. The answer is whether that came about: memory can run out, and
// the receiver be gone.
fn send_some<W: Wait, V: Verifier, F: Deals>(
    rt: &W,
    alloc: Global,
    file: &FileOf<'_, V, F>,
    sender: &Sender<Vec<RuledAt<F>>>,
    from: usize,
    many: usize,
) -> bool {
    match rule_some(alloc, file, from, many) {
        Ok(message) => sender.send(rt, message).is_ok(),
        Err(_) => false,
    }
}

// Sends what a sentinel makes of a lane's next submissions, and passes the gate behind that. Whether there are more to send, and someone who
// receives them.
fn send_next<W: Wait, V: Verifier, F: Deals, G: Gate>(
    rt: &W,
    alloc: Global,
    shape: &Shape,
    file: &FileOf<'_, V, F>,
    feeder: &mut Feeder<F>,
    gate: &G,
) -> bool {
    if !send_some(rt, alloc, file, &feeder.sender, feeder.at, feeder.size) {
        return false;
    }
    gate.pass(rt, &point_of(shape, feeder.lane));
    let step = file.lanes().saturating_mul(feeder.size);
    feeder.at = feeder.at.saturating_add(step);
    feeder.at < file.txs().len()
}

/// Checks the submissions of some lanes, a message of each lane in turn, and sends what a sentinel makes of each, with its place, the first one of a
/// message last. Behind each message it passes the gate. It ends with a lane where nobody receives any more, or
/// memory runs out.
pub fn feed<W: Wait, V: Verifier, F: Deals, G: Gate>(
    rt: &W,
    alloc: Global,
    shape: &Shape,
    file: &FileOf<'_, V, F>,
    feeders: Vec<Feeder<F>>,
    gate: &G,
) {
    let mut feeders = feeders;
    'rounds: for _ in 0..file.txs().len() {
        if feeders.is_empty() {
            break;
        }
        feeders.retain_mut(|feeder: &mut Feeder<F>| -> bool {
            send_next(rt, alloc, shape, file, feeder, gate)
        });
    }
}

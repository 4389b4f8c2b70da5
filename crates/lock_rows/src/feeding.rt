// A sentinel ahead of a lane, and a lane to which it sends.
ghost use Rattle.std.specs.Prelude.{◌≡◌, ◌<◌};

use crate::gates::{KeepGate, RowGate};
use cbdc_types::{
    CompactTx, FullTx, Hash, Input, LaneId, List, NodeId, OutPoint, Output, Refusal, Shape,
};
use crossbeam_channel::Receiver;
use lane_driver::Source;
use lane_sources::{Ahead, Deals, Feeder, FileOf, LaneSource, RuledAt, feed, pipe};
use outside::{OpenGate, Point, When};
use sentinel::{AllGood, Verifier};
use std::alloc::{AllocError, Global};
use std::marker::Brand;
use std::sync::Wait;
use submissions::Ruling;

// The output of this number, spent.
fn spent(number: u8) -> Input {
    Input {
        point: OutPoint {
            tx: Hash([number; 32]),
            index: 0,
        },
        output: Output {
            program: Hash([1; 32]),
            value: 7,
        },
    }
}

// Puts together a transaction that spends the output of this number, or nothing where there is none.
fn put_parts(alloc: Global, tx: &mut FullTx, number: Option<u8>) -> Result<(), AllocError> {
    if let Some(number) = number {
        tx.inputs.push(spent(number))?;
    }
    tx.outputs.push(Output {
        program: Hash([2; 32]),
        value: 7,
    })?;
    if number.is_some() {
        tx.witnesses.push(List::new(alloc))?;
    }
    Ok(())
}

/// A transaction that spends the output of this number, or nothing where there is none.
pub(crate) fn payment(alloc: Global, number: Option<u8>) -> Result<FullTx, AllocError> {
    let mut tx = FullTx {
        inputs: List::new(alloc),
        outputs: List::new(alloc),
        witnesses: List::new(alloc),
    };
    put_parts(alloc, &mut tx, number)?;
    Ok(tx)
}

// Three submissions, of which the second has no inputs.
fn three(alloc: Global) -> Result<Vec<FullTx>, AllocError> {
    let mut txs = Vec::new(alloc);
    for number in [Some(3), None, Some(4)] {
        txs.push(payment(alloc, number)?)?;
    }
    Ok(txs)
}

/// Lets a feeder do its work, or drops it.
pub(crate) fn feed_or_drop<R: Wait, V: Verifier, F: Deals>(
    rt: &R,
    alloc: Global,
    shape: &Shape,
    file: &FileOf<'_, V, F>,
    feeder: Feeder<F>,
    starts: bool,
) {
    let mut feeders = Vec::new(alloc);
    let is_there = feeders.push(feeder).is_ok();
    if starts && is_there {
        feed(rt, alloc, shape, file, feeders, &OpenGate);
    } else {
        drop(feeders);
    }
}

// What the sentinel ahead of a lane sends, for which its channel has room; nothing where it is dropped before its first message.
fn sent<R: Wait, V: Verifier, F: Deals>(
    rt: &R,
    alloc: Global,
    shape: &Shape,
    file: &FileOf<'_, V, F>,
    lane: LaneId,
    starts: bool,
) -> Result<Receiver<Vec<RuledAt<F>>>, AllocError> {
    let (feeder, messages) = pipe(alloc, shape, file, lane)?;
    feed_or_drop(rt, alloc, shape, file, feeder, starts);
    Ok(messages)
}

// Whether the second message has a refusal because it has no inputs, and another one a compact form.
fn is_due(ruling: &Ruling, place: usize) -> bool {
    match ruling {
        Ruling::Refused(refusal) => place == 1 && *refusal == Refusal::NoInputs,
        Ruling::Sound(_) => place != 1,
    }
}

// Whether a ruling is of this place, with a refusal because it has no inputs at the second one, and a compact form elsewhere.
fn is_of<F: Deals>(ruling: RuledAt<F>, place: usize) -> bool {
    let at = ruling.place();
    let ruled = ruling.take();
    let told = at == place && is_due(&ruled.ruling, place);
    drop(ruled);
    told
}

// Whether a message has one ruling, of this place.
fn is_one_of<F: Deals>(mut message: Vec<RuledAt<F>>, place: usize) -> bool {
    match message.pop() {
        Some(ruling) => message.is_empty() && is_of(ruling, place),
        None => false,
    }
}

// Whether messages of these places come, each of one of them and in this order, and then no more.
fn come<R: Wait, F: Deals>(rt: &R, messages: &Receiver<Vec<RuledAt<F>>>, places: &[usize]) -> bool {
    for place in places {
        let Ok(message) = messages.recv(rt) else {
            return false;
        };
        if !is_one_of(message, *place) {
            return false;
        }
    }
    messages.recv(rt).is_err()
}

// Puts all that a source gives there, piece by piece.
fn put_all<S: Source>(
    alloc: Global,
    source: &mut S,
    all: &mut Vec<CompactTx>,
) -> Result<(), AllocError> {
    for _ in 0..source.begin() {
        source.advance(alloc, 2)?;
        for tx in source.piece() {
            all.push(tx.clone()?)?;
        }
    }
    Ok(())
}

// All that a source gives.
fn taken<S: Source>(alloc: Global, source: &mut S) -> Result<Vec<CompactTx>, AllocError> {
    let mut all = Vec::new(alloc);
    put_all(alloc, source, &mut all)?;
    Ok(all)
}

/// All that a lane gets that has this ahead of it.
pub(crate) fn given<R: Wait, V: Verifier, F: Deals>(
    rt: &R,
    alloc: Global,
    file: &FileOf<'_, V, F>,
    ahead: Ahead<F>,
) -> Result<Vec<CompactTx>, AllocError>
    requires { 0 < file.now }
{
    let mut source = LaneSource::new(rt, alloc, file, 0, ahead)?;
    taken(alloc, &mut source)
}

// A gate that keeps the points behind messages for the first lane.
fn keeping() -> RowGate {
    RowGate::Keep(KeepGate::new(Point {
        lane: LaneId(0),
        node: NodeId(0),
        kind: 0,
        when: When::After,
    }))
}

// How the sentinels of two lanes on one thread pass their gate: 3 behind a message for the first lane, and 9 behind one for the second.
fn passes_in_turn<R: Wait, V: Verifier, F: Deals>(
    rt: &R,
    alloc: Global,
    shape: &Shape,
    file: &FileOf<'_, V, F>,
) -> Result<u64, AllocError> {
    let mut feeders = Vec::new(alloc);
    let (first, to_first) = pipe(alloc, shape, file, LaneId(0))?;
    feeders.push(first)?;
    let (second, to_second) = pipe(alloc, shape, file, LaneId(1))?;
    feeders.push(second)?;
    let gate = keeping();
    feed(rt, alloc, shape, file, feeders, &gate);
    drop(to_first);
    drop(to_second);
    Ok(gate.passed())
}

// How often the sentinel of a lane passes its gate, a digit for each time, where the lane has let go of it before, or not.
fn passes<R: Wait, V: Verifier, F: Deals>(
    rt: &R,
    alloc: Global,
    shape: &Shape,
    file: &FileOf<'_, V, F>,
    lets_go: bool,
) -> Result<u64, AllocError>
    requires { 0 < file.now }
{
    let (feeder, messages) = pipe(alloc, shape, file, LaneId(0))?;
    let mut feeders = Vec::new(alloc);
    feeders.push(feeder)?;
    let Ok(mut source) = LaneSource::new(rt, alloc, file, 0, Ahead::Sent(messages)) else {
        drop(feeders);
        return Err(AllocError);
    };
    if lets_go {
        source.end_ahead();
    }
    let gate = keeping();
    feed(rt, alloc, shape, file, feeders, &gate);
    Ok(gate.passed())
}

// Whether the messages of a lane are of these places.
fn is_sent<R: Wait, V: Verifier, F: Deals>(
    rt: &R,
    alloc: Global,
    shape: &Shape,
    file: &FileOf<'_, V, F>,
    lane: LaneId,
    places: &[usize],
) -> Result<bool, AllocError> {
    let messages = sent(rt, alloc, shape, file, lane, true)?;
    let told = come(rt, &messages, places);
    drop(messages);
    Ok(told)
}

// Whether the messages of each lane come, of one or of two.
fn all_come<R: Wait, V: Verifier, F: Deals>(
    rt: &R,
    alloc: Global,
    shape: &Shape,
    file: &FileOf<'_, V, F>,
) -> Result<bool, AllocError> {
    if shape.lane_count() == 1 {
        return is_sent(rt, alloc, shape, file, LaneId(0), &[0, 1, 2]);
    }
    let first = is_sent(rt, alloc, shape, file, LaneId(0), &[0, 2])?;
    let second = is_sent(rt, alloc, shape, file, LaneId(1), &[1])?;
    Ok(first && second)
}

// All that a lane gets whose sentinel sends, or is dropped before its first message.
fn received<R: Wait, V: Verifier, F: Deals>(
    rt: &R,
    alloc: Global,
    shape: &Shape,
    file: &FileOf<'_, V, F>,
    starts: bool,
) -> Result<Vec<CompactTx>, AllocError>
    requires { 0 < file.now }
{
    let messages = sent(rt, alloc, shape, file, LaneId(0), starts)?;
    given(rt, alloc, file, Ahead::Sent(messages))
}

// Whether the lane gets the two sound ones, with a sentinel that sends, with one that was dropped, and with none.
fn are_same<R: Wait, V: Verifier, F: Deals>(
    rt: &R,
    alloc: Global,
    shape: &Shape,
    file: &FileOf<'_, V, F>,
) -> Result<bool, AllocError>
    requires { 0 < file.now }
{
    let alone = given(rt, alloc, file, Ahead::Nothing)?;
    let with = received(rt, alloc, shape, file, true)?;
    let without = received(rt, alloc, shape, file, false)?;
    Ok(alone.len() == 2 && with == alone && without == alone)
}

// What comes of the messages of each lane, of what the first lane gets, and of its sentinel.
fn tried<R: Wait, V: Verifier, F: Deals>(
    rt: &R,
    alloc: Global,
    shape: &Shape,
    txs: &[FullTx],
    verifier: &V,
) -> Result<Fed, AllocError>
    requires file { F.file ≡ txs.now }
    requires verdicts { F.verdicts ≡ V.verdict_of verifier.now }
    requires shape { F.shape ≡ shape.now }
{
    let file: FileOf<'_, V, F> = FileOf::new(txs, verifier, shape.lane_count());
    Ok(Fed {
        comes: all_come(rt, alloc, shape, &file)?,
        is_same: are_same(rt, alloc, shape, &file)?,
        in_turn: passes_in_turn(rt, alloc, shape, &file)?,
        kept: passes(rt, alloc, shape, &file, false)?,
        let_go: passes(rt, alloc, shape, &file, true)?,
    })
}

// What was tried.
#[derive(Clone, Copy)]
struct Fed {
    comes: bool,
    is_same: bool,
    in_turn: u64,
    kept: u64,
    let_go: u64,
}

fn try_all<R: Wait, V: Verifier>(rt: &R, alloc: Global, lanes: u32, verifier: &V) -> Option<Fed> {
    let shape = Shape::new(1, 1, lanes, 1).ok()?;
    let txs = three(alloc).ok()?;
    tried::<R, V, Brand>(rt, alloc, &shape, txs.as_slice(), verifier).ok()
}

/// Three submissions, the second refused, come in three messages.
pub fn sends_three<R: Wait>(rt: &R, alloc: Global) -> Option<bool> {
    Some(try_all(rt, alloc, 1, &AllGood)?.comes)
}

/// Of three submissions each of two lanes gets those that go to it.
pub fn send_their_own<R: Wait>(rt: &R, alloc: Global) -> Option<bool> {
    Some(try_all(rt, alloc, 2, &AllGood)?.comes)
}

/// The sentinels of two lanes on one thread send a message of each lane in turn.
pub fn take_turns<R: Wait>(rt: &R, alloc: Global) -> Option<bool> {
    Some(try_all(rt, alloc, 2, &AllGood)?.in_turn == 393)
}

/// A lane has the same transactions whether its sentinel sends them, ends before the first or was never there.
pub fn has_the_same<R: Wait>(rt: &R, alloc: Global) -> Option<bool> {
    Some(try_all(rt, alloc, 1, &AllGood)?.is_same)
}

/// The sentinel of a lane that has let go of it ends at its first message, and one of a lane that has not sends all three.
pub fn ends_with_its_lane<R: Wait>(rt: &R, alloc: Global) -> Option<bool> {
    let fed = try_all(rt, alloc, 1, &AllGood)?;
    Some(fed.let_go == 0 && fed.kept == 333)
}

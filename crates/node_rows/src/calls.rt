// Calls at coordinators and shards on their disks.
ghost use Rattle.std.specs.Prelude.{◌↔◌, ◌≤◌, ◌^◌, IsTrue, All};
ghost use Rattle.coord_core.specs.Decided.{ShardsRise, StampsBelow};
ghost use Rattle.coord_core.specs.Hashes.{NamesBatch, AllNameBatches};
ghost use Rattle.coord_core.specs.Lanes.{IsOwnLane};
ghost use Rattle.coord_log.specs.Logs.{HasShortLists};

use cbdc_types::{
    CompactTx, FinishCall, ForgetCall, Hash, Header, LaneId, List, LockCall, NodeFault, Outcome,
    Replies, Reply, Shape, ShardReplies, Stamp,
};
use coord_core::LanePhase;
use coord_log::CoordLog;
use mem_devices::FaultDisk;
use record_grammar::is_batch_of;
use row_records::{Known, Told, finish_call, forget_call, lock_call, replies, rest, txs};
use shard_node::{ShardNode, is_finish_call, is_forget_call, is_lock_call};

/// A call that comes at the wrong time.
pub const NO_CALL: &str = "no call that the node may be asked";

// Tells a stamp, or why there is none.
fn tell_stamp(told: &mut Told, answer: &Result<Stamp, NodeFault>) {
    match answer {
        Ok(stamp) => told.number(stamp.0),
        Err(fault) => told.shown(fault),
    }
}

// The calls at a shard.
fn lock(shard: &mut ShardNode<FaultDisk>, call: &LockCall, told: &mut Told) {
    let may_ask = is_lock_call(shard.header(), call);
    if !may_ask {
        told.refuse(NO_CALL);
        return;
    }
    match shard.lock(call) {
        Ok(replied) => {
            told.number(replied.stamp.0);
            for reply in replied.replies.as_slice() {
                told.reply(reply);
            }
        }
        Err(fault) => told.shown(&fault),
    }
}

fn finish(shard: &mut ShardNode<FaultDisk>, call: &FinishCall, told: &mut Told) {
    let may_ask = is_finish_call(shard.header(), call);
    if may_ask {
        tell_stamp(told, &shard.finish(call));
    } else {
        told.refuse(NO_CALL);
    }
}

fn forget(shard: &mut ShardNode<FaultDisk>, call: &ForgetCall, told: &mut Told) {
    let may_ask = is_forget_call(shard.header(), call);
    if may_ask {
        tell_stamp(told, &shard.forget(call));
    } else {
        told.refuse(NO_CALL);
    }
}

/// `call NODE CALL`, and what a shard answers: `lock LANE NUMBER cause STAMP NAME@PLACE..`, `finish LANE NUMBER cause STAMP +..`,
/// `forget LANE NUMBER cause STAMP`
pub fn call_shard(
    known: &Known,
    shard: &mut ShardNode<FaultDisk>,
    words: &[&str],
    told: &mut Told,
) {
    let own = rest(words, 1);
    match told.word_at(words, 0) {
        "lock" => {
            if let Some(call) = lock_call(known, shard.header().node.0, own, told) {
                lock(shard, &call, told);
            }
        }
        "finish" => {
            let call = finish_call(own, told);
            finish(shard, &call, told);
        }
        "forget" => {
            let call = forget_call(own, told);
            forget(shard, &call, told);
        }
        _ => told.refuse(NO_CALL),
    }
}

// Whether the lane is one of this coordinator.
fn is_own(header: &Header, lane: LaneId) -> bool
    ensures { IsTrue result → IsOwnLane header.now lane }
{
    let shape = header.shape;
    lane.0 / shape.lanes() == header.node.0
}

fn is_short(tx: &CompactTx) -> bool
    ensures { IsTrue result ↔ HasShortLists tx.now }
{
    tx.inputs.len() <= 255 && tx.outputs.len() <= 255
}

fn are_short(txs: &[CompactTx]) -> bool
    ensures { IsTrue result ↔ All HasShortLists txs.now }
{
    txs.iter().all(|tx| is_short(tx))
}

// The calls at a coordinator.
fn prepare(log: &mut CoordLog<FaultDisk>, lane: LaneId, txs: &[CompactTx], told: &mut Told) {
    let header = *log.header();
    let size = header.shape.batch() as usize;
    let fits = is_own(&header, lane) && 1 <= txs.len() && txs.len() <= size && are_short(txs);
    match log.phase(lane) {
        LanePhase::Idle(_) if fits => match log.prepare(lane, txs) {
            Ok((batch, stamp)) => {
                told.number(stamp.0);
                told.batch(&batch);
            }
            Err(fault) => told.shown(&fault),
        },
        _ => told.refuse(NO_CALL),
    }
}

// What a coordinator says of a decision, or nothing where it may not be asked.
fn ask_decide(
    log: &mut CoordLog<FaultDisk>,
    lane: LaneId,
    replies: &Replies,
    out: &mut Vec<Outcome>,
) -> Option<Result<Stamp, NodeFault>> {
    let header = *log.header();
    let LanePhase::Prepared(_) = log.phase(lane) else {
        return None;
    };
    let Ok(Some(batch)) = log.open_lane(lane) else {
        return None;
    };
    let fits = is_own(&header, lane) && batch.txs.len() <= out.capacity();
    if fits && may_decide(&header.shape, replies.as_slice()) {
        Some(log.decide(lane, replies, out))
    } else {
        None
    }
}

// `discard LANE cause STAMP`, `done LANE cause STAMP`
fn end(
    log: &mut CoordLog<FaultDisk>,
    lane: LaneId,
    is_last: bool,
    words: &[&str],
    told: &mut Told,
) {
    let cause = cause_of(words, told);
    let fits = is_own(log.header(), lane) && cause.0 < 1 << 63;
    match log.phase(lane) {
        LanePhase::Committed(_) if fits && !is_last => {
            tell_stamp(told, &log.discard(lane, cause));
        }
        LanePhase::Discarded(_) if fits && is_last => tell_stamp(told, &log.done(lane, cause)),
        _ => told.refuse(NO_CALL),
    }
}

fn names_batch(shape: &Shape, reply: &Reply) -> bool
    ensures { IsTrue result → NamesBatch shape.now reply.now }
{
    match reply {
        Reply::Locked(_, by) => is_batch_of(shape, by),
        Reply::Held => true,
        Reply::Missing(_) => true,
    }
}

fn all_name(shape: &Shape, replies: &[Reply]) -> bool
    ensures { IsTrue result → All (NamesBatch shape.now) replies.now }
{
    replies.iter().all(|reply| names_batch(shape, reply))
}

/// Whether a batch of this shape may be decided by these replies, of one shard alone.
pub fn may_decide(shape: &Shape, replies: &[ShardReplies]) -> bool
    ensures rising { IsTrue result → ShardsRise 0 shape.now.shards replies.now }
    ensures earlier { IsTrue result → StampsBelow (2 ^ 63) replies.now }
    ensures named { IsTrue result → AllNameBatches shape.now replies.now }
{
    if replies.len() != 1 {
        return false;
    }
    let first = &replies[0];
    first.shard < shape.shards()
        && first.stamp.0 < 1 << 63
        && all_name(shape, first.replies.as_slice())
}

/// What the only shard replied, as all replies: `STAMP REPLY..`.
pub fn replies_told(words: &[&str], told: &mut Told) -> Replies {
    let mut all = List::new(told.alloc);
    let own = ShardReplies {
        shard: 0,
        stamp: Stamp(told.number_at(words, 0)),
        replies: replies(rest(words, 1), told),
    };
    told.made(all.push(own));
    all
}

// How many transactions the open batch of a lane has.
fn size_of(log: &CoordLog<FaultDisk>, lane: LaneId) -> usize {
    match log.open_lane(lane) {
        Ok(Some(batch)) => batch.txs.len(),
        _ => 1,
    }
}

// Asks for a decision by all replies, and tells it with its outcomes.
fn decide_by(
    log: &mut CoordLog<FaultDisk>,
    lane: LaneId,
    replies: &Replies,
    out: &mut Vec<Outcome>,
    told: &mut Told,
) {
    match ask_decide(log, lane, replies, out) {
        Some(answer) => tell_stamp(told, &answer),
        None => told.refuse(NO_CALL),
    }
    for outcome in out.iter() {
        told.outcome(outcome);
    }
}

// `decide LANE STAMP REPLY..` by what the only shard replied; where outcomes are told, one that stands there before is gone
fn decide(log: &mut CoordLog<FaultDisk>, lane: LaneId, words: &[&str], told: &mut Told) {
    let replies = replies_told(words, told);
    let room = Vec::with_capacity(told.alloc, size_of(log, lane));
    if let Some(mut out) = told.made(room) {
        told.push(&mut out, Outcome::Missing(0, Hash([7; 32])));
        decide_by(log, lane, &replies, &mut out, told);
    }
}

/// The cause that a call ends with: `cause STAMP`.
pub fn cause_of(words: &[&str], told: &mut Told) -> Stamp {
    told.expect(words, 0, "cause");
    told.at_most(words, 2);
    Stamp(told.number_at(words, 1))
}

/// `call NODE CALL`, and what a coordinator answers: `prepare LANE TX..`, and the calls above
pub fn call_log(known: &Known, log: &mut CoordLog<FaultDisk>, words: &[&str], told: &mut Told) {
    let lane = told.lane_at(words, 1);
    let own = rest(words, 2);
    match told.word_at(words, 0) {
        "prepare" => {
            let txs = txs(known, own, told);
            prepare(log, lane, txs.as_slice(), told);
        }
        "decide" => decide(log, lane, own, told),
        "discard" => end(log, lane, false, own, told),
        "done" => end(log, lane, true, own, told),
        _ => told.refuse(NO_CALL),
    }
}

// The lanes of a coordinator in memory, without a disk.
use crate::calls::{NO_CALL, cause_of, may_decide, replies_told};
use crate::looking::{check_records, tell_phase};
use crate::state::{Node, put_node};
use cbdc_types::{CompactTx, LaneId, Record, Replies, Stamp};
use coord_core::{CoordCore, LanePhase};
use row_records::{Known, Told, record, rest, txs};
use std::slice;

/// `lanes NODE`: those of a coordinator that has written nothing yet.
pub fn make_lanes(known: &Known, nodes: &mut Vec<Node>, place: u32, told: &mut Told) {
    let Some(header) = told.given(known.header(place)) else {
        return;
    };
    if header.node.0 >= header.shape.coordinators() {
        told.refuse("no coordinator");
        return;
    }
    let made = CoordCore::new(told.alloc, &header);
    if let Some(core) = told.made(made) {
        if *core.header() != header {
            told.refuse("the lanes have another header");
        }
        put_node(nodes, place, Node::Lanes(core));
    }
}

// The next record of a lane, where it may be asked for.
fn ask_prepare(
    core: &mut CoordCore,
    lane: LaneId,
    txs: &[CompactTx],
    told: &mut Told,
) -> Option<Record> {
    let size = core.header().shape.batch() as usize;
    if !core.owns(lane) || txs.is_empty() || txs.len() > size {
        return None;
    }
    match core.phase(lane) {
        LanePhase::Idle(_) => told.made(core.prepare(lane, txs)),
        _ => None,
    }
}

// Whether a record is a Commit with this stamp.
fn is_commit_at(own: &Record, wanted: Stamp) -> bool {
    match own {
        Record::Commit { stamp, .. } => *stamp == wanted,
        _ => false,
    }
}

fn ask_decide(
    core: &mut CoordCore,
    lane: LaneId,
    replies: &Replies,
    told: &mut Told,
) -> Option<Record> {
    let shape = core.header().shape;
    if !core.owns(lane) || !core.has_room(lane) {
        return None;
    }
    match core.phase(lane) {
        LanePhase::Prepared(_) if may_decide(&shape, replies.as_slice()) => {
            let stamp = core.commit_stamp(replies);
            let next = core.decide(lane, replies);
            if !is_commit_at(&next, stamp) {
                told.refuse("the Commit has another stamp than is told");
            }
            Some(next)
        }
        _ => None,
    }
}

// `discard LANE cause STAMP`, `done LANE cause STAMP`
fn ask_end(core: &mut CoordCore, lane: LaneId, cause: Stamp, is_last: bool) -> Option<Record> {
    if !core.owns(lane) || cause.0 >= 1 << 63 {
        return None;
    }
    match core.phase(lane) {
        LanePhase::Committed(_) if !is_last => Some(core.discard(lane, cause)),
        LanePhase::Discarded(_) if is_last => Some(core.done(lane, cause)),
        _ => None,
    }
}

// The next record of a lane by a call: `prepare LANE TX..`, `decide LANE STAMP REPLY..`, `discard` and `done LANE cause STAMP`.
fn next_by(known: &Known, core: &mut CoordCore, words: &[&str], told: &mut Told) -> Option<Record> {
    let lane = told.lane_at(words, 1);
    let own = rest(words, 2);
    match told.word_at(words, 0) {
        "prepare" => {
            let txs = txs(known, own, told);
            ask_prepare(core, lane, txs.as_slice(), told)
        }
        "decide" => {
            let replies = replies_told(own, told);
            ask_decide(core, lane, &replies, told)
        }
        "discard" => ask_end(core, lane, cause_of(own, told), false),
        "done" => ask_end(core, lane, cause_of(own, told), true),
        _ => None,
    }
}

// Takes a record in where the text tells it.
fn take_told(known: &Known, core: &mut CoordCore, next: &Record, text: &str, told: &mut Told) {
    let node = core.header().node.0;
    check_records(known, node, slice::from_ref(next), text, told);
    match core.admit(next) {
        Ok(is_next) => {
            if is_next {
                core.apply(next);
            } else {
                told.refuse("the lanes do not admit their own record");
            }
        }
        Err(_) => told.no_memory(),
    }
}

/// `next NODE CALL`, and the record that the lanes make, which is taken in.
pub fn next(known: &Known, core: &mut CoordCore, words: &[&str], text: &str, told: &mut Told) {
    match next_by(known, core, words, told) {
        Some(next) => take_told(known, core, &next, text, told),
        None => told.refuse(NO_CALL),
    }
}

/// `core NODE LANE after CAUSE`, and where the lane stands, whether it is the coordinator's own, how many bytes are kept for later records and
/// how many of these there are, and the stamp of a record with that cause
pub fn core_stands(core: &CoordCore, words: &[&str], told: &mut Told) {
    let lane = told.lane_at(words, 0);
    told.expect(words, 1, "after");
    let cause = Stamp(told.number_at(words, 2));
    tell_phase(told, &core.phase(lane));
    told.word(if core.owns(lane) { "own" } else { "other" });
    told.number(core.kept_room());
    told.number(core.records_ahead() as u64);
    if cause.0 < 1 << 63 {
        told.number(core.after(cause).0);
    } else {
        told.refuse("a cause past 2^63");
    }
}

/// `admits NODE RECORD`, and `yes` or `no`: whether the lanes let it come next. They stay as they are.
pub fn admits(known: &Known, core: &mut CoordCore, words: &[&str], told: &mut Told) {
    let Some(next) = record(known, core.header().node.0, words, told) else {
        return;
    };
    match core.admit(&next) {
        Ok(is_next) => told.yes(is_next),
        Err(_) => told.no_memory(),
    }
}

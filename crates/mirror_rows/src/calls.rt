// A shard whose records lie on several disks.
use crate::making::NODE;
use crate::state::{Place, State};
use cbdc_types::{FinishCall, ForgetCall, LockCall, NodeFault, Record, Stamp};
use mem_devices::FaultDisk;
use mirror_devices::Mirror;
use replicated_shard::{ReplicatedShard, finish, forget, lock};
use row_records::{Known, Told, differ, finish_call, forget_call, lock_call, records_in, rest};
use shard_node::{ShardNode, is_finish_call, is_forget_call, is_lock_call};

// A call that comes at the wrong time.
const NO_CALL: &str = "no call that the shard may be asked";

// Tells a stamp, or why there is none.
fn tell_stamp(told: &mut Told, answer: &Result<Stamp, NodeFault>) {
    match answer {
        Ok(stamp) => told.number(stamp.0),
        Err(fault) => told.shown(fault),
    }
}

// The calls at a shard.
fn ask_lock(shard: &mut ReplicatedShard<FaultDisk>, call: &LockCall, told: &mut Told) {
    let may_ask = is_lock_call(shard.header(), call);
    if !may_ask {
        told.refuse(NO_CALL);
        return;
    }
    match lock(shard, call) {
        Ok(replied) => {
            told.number(replied.stamp.0);
            for reply in replied.replies.as_slice() {
                told.reply(reply);
            }
        }
        Err(fault) => told.shown(&fault),
    }
}

fn ask_finish(shard: &mut ReplicatedShard<FaultDisk>, call: &FinishCall, told: &mut Told) {
    let may_ask = is_finish_call(shard.header(), call);
    if may_ask {
        tell_stamp(told, &finish(shard, call));
    } else {
        told.refuse(NO_CALL);
    }
}

fn ask_forget(shard: &mut ReplicatedShard<FaultDisk>, call: &ForgetCall, told: &mut Told) {
    let may_ask = is_forget_call(shard.header(), call);
    if may_ask {
        tell_stamp(told, &forget(shard, call));
    } else {
        told.refuse(NO_CALL);
    }
}

// `call CALL`, and what the shard answers: `lock LANE NUMBER cause STAMP NAME@PLACE..`, `finish LANE NUMBER cause STAMP +..`,
// `forget LANE NUMBER cause STAMP`
fn call(known: &Known, shard: &mut ReplicatedShard<FaultDisk>, words: &[&str], told: &mut Told) {
    let own = rest(words, 1);
    match told.word_at(words, 0) {
        "lock" => {
            if let Some(call) = lock_call(known, NODE, own, told) {
                ask_lock(shard, &call, told);
            }
        }
        "finish" => {
            let call = finish_call(own, told);
            ask_finish(shard, &call, told);
        }
        "forget" => {
            let call = forget_call(own, told);
            ask_forget(shard, &call, told);
        }
        _ => told.refuse("no call at a shard"),
    }
}

// `journal`, with a line for each record: the shard has written these.
fn check_records(known: &Known, came: &[Record], text: &str, told: &mut Told) {
    let wanted = records_in(known, NODE, text, told);
    if wanted.as_slice() != came {
        let mut own = Told::new(told.alloc);
        for record in came {
            own.record(record);
        }
        told.fail(differ(told.alloc, text, own.as_str()));
    }
}

/// A step of the shard; whether it takes the text behind it in.
pub fn on_shard(
    known: &Known,
    shard: &mut ReplicatedShard<FaultDisk>,
    words: &[&str],
    text: &str,
    told: &mut Told,
) -> bool {
    match told.word_at(words, 0) {
        "call" => call(known, shard, rest(words, 1), told),
        "journal" => {
            check_records(known, shard.records(), text, told);
            return true;
        }
        _ => told.refuse("no step of a shard"),
    }
    false
}

// The shard on disks as one, or these, and why it could not be opened.
fn opened(disks: Mirror<FaultDisk>, told: &mut Told) -> Place {
    match ShardNode::open(told.alloc, disks) {
        Ok(shard) => {
            told.named("records", shard.records().len() as u128);
            Place::Shard(shard)
        }
        Err((disks, fault)) => {
            told.shown(&fault);
            Place::Mirror(disks)
        }
    }
}

/// `open`: the shard whose records lie on the disks, with how many there are, or why it could not be opened.
pub fn open(state: &mut State, told: &mut Told) {
    match state.take() {
        Place::Mirror(disks) => {
            let own = opened(disks, told);
            state.put(own);
        }
        _ => told.refuse("no disks as one"),
    }
}

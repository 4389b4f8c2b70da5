// What calls at a shard are answered, by the plain program over its journal and by the shard itself, which has taken the journal in.
ghost use Rattle.std.specs.Prelude.{◌<◌, ◌*◌, ◌^◌};
ghost use Rattle.std.specs.Bool.{OnTrue};
ghost use Rattle.cbdc_model.specs.Records.{last_stamp};

use crate::state::State;
use crate::verbs::Verb;
use cbdc_types::{BatchId, FinishCall, ForgetCall, LockCall, Record, Replied, Stamp};
use plain_check::{
    ShardCall, is_after, last_stamp, next_finish, next_forget, next_lock, status_of,
};
use row_records::{Known, Told, finish_call, forget_call, lock_call, rest};
use shard_core::{LockPlan, Remembered, ShardCore, StampPlan};

// Tells a stamp, which was kept or is new.
fn tell_stamp(told: &mut Told, kind: &str, stamp: Stamp) {
    told.named(kind, stamp.0 as u128);
}

// Tells a stamp and replies, which were kept or are new.
fn tell_replied(told: &mut Told, kind: &str, own: &Replied) {
    tell_stamp(told, kind, own.stamp);
    for reply in own.replies.as_slice() {
        told.reply(reply);
    }
}

fn tell_lock(told: &mut Told, plan: &LockPlan) {
    match plan {
        LockPlan::Kept(own) => tell_replied(told, "kept", own),
        LockPlan::Append(own) => tell_replied(told, "append", own),
        LockPlan::Refused(why) => told.shown(why),
    }
}

fn tell_other(told: &mut Told, plan: &StampPlan) {
    match plan {
        StampPlan::Kept(own) => tell_stamp(told, "kept", *own),
        StampPlan::Append(own) => tell_stamp(told, "append", *own),
        StampPlan::Refused(why) => told.shown(why),
    }
}

// Tells the plan of the definition.
fn tell_defined_lock(told: &mut Told, plan: &plain_check::LockPlan) {
    match plan {
        plain_check::LockPlan::Kept(own) => tell_replied(told, "kept", own),
        plain_check::LockPlan::Append(own) => tell_replied(told, "append", own),
        plain_check::LockPlan::Refuse(why) => told.shown(why),
    }
}

fn tell_defined(told: &mut Told, plan: &plain_check::StampPlan) {
    match plan {
        plain_check::StampPlan::Kept(own) => tell_stamp(told, "kept", *own),
        plain_check::StampPlan::Append(own) => tell_stamp(told, "append", *own),
        plain_check::StampPlan::Refuse(why) => told.shown(why),
    }
}

// Causes and last stamps are below this; calls are answered for no later ones.
const TOO_LATE: u64 = 1 << 63;

// Whether a call with this cause is answered: neither stamp is too late, and the shard has the lane.
fn is_answered(past: &[Record], core: &ShardCore, batch: &BatchId, cause: Stamp) -> bool
    ensures last { OnTrue result (last_stamp past.now < 2 ^ 63) }
    ensures cause { OnTrue result (cause < 2 ^ 63) }
    ensures lane { OnTrue result
        (batch.now.lane < core.now.header.shape.coordinators * core.now.header.shape.lanes) }
{
    last_stamp(past).0 < TOO_LATE
        && cause.0 < TOO_LATE
        && batch.lane.0 < core.header().shape.lane_count()
}

const NO_CALL: &str = "a stamp of 2^63 or more, or no such lane";

// Tells what a Lock is answered, by the shard and by the definition.
fn ask_lock(
    past: &[Record],
    core: &mut ShardCore,
    call: &LockCall,
    own: &mut Told,
    told: &mut Told,
) {
    if !is_answered(past, core, &call.batch, call.cause) {
        told.refuse(NO_CALL);
        return;
    }
    let alloc = told.alloc;
    if let Some(plan) = own.made(next_lock(alloc, past, call)) {
        tell_defined_lock(own, &plan);
    }
    if let Some(plan) = told.made(core.plan_lock(call)) {
        tell_lock(told, &plan);
    }
}

// Tells what a Finish is answered.
fn ask_finish(
    past: &[Record],
    core: &ShardCore,
    call: &FinishCall,
    own: &mut Told,
    told: &mut Told,
) {
    if !is_answered(past, core, &call.batch, call.cause) {
        told.refuse(NO_CALL);
        return;
    }
    tell_defined(own, &next_finish(past, call));
    tell_other(told, &core.plan_finish(call));
}

// Tells what a Forget is answered.
fn ask_forget(
    past: &[Record],
    core: &ShardCore,
    call: &ForgetCall,
    own: &mut Told,
    told: &mut Told,
) {
    if !is_answered(past, core, &call.batch, call.cause) {
        told.refuse(NO_CALL);
        return;
    }
    tell_defined(own, &next_forget(past, call));
    tell_other(told, &core.plan_forget(call));
}

// Takes the next record in, if the shard admits it.
fn take_in(core: &mut ShardCore, next: &Record, told: &mut Told) {
    match core.admit(next) {
        Ok(true) => match next {
            Record::Lock { .. } => core.apply_lock(next),
            Record::Finish { .. } => core.apply_finish(next),
            Record::Forget { .. } => core.apply_forget(next),
            _ => {}
        },
        Ok(false) => told.refuse("the shard does not admit a record of this journal"),
        Err(_) => told.no_memory(),
    }
}

// Takes the records of a journal in, the newest of which stands first, behind the oldest of them.
fn take_all(core: &mut ShardCore, past: &[Record], told: &mut Told) {
    for record in past.iter().rev().skip(1) {
        take_in(core, record, told);
    }
}

// The shard that has taken a journal in.
fn shard_of(past: &[Record], told: &mut Told) -> Option<ShardCore> {
    let alloc = told.alloc;
    let Some(Record::Genesis { header, hashes }) = past.last() else {
        told.refuse("a shard's journal begins with a Genesis");
        return None;
    };
    let mut core = told.made(ShardCore::new(alloc, header, hashes.as_slice()))?;
    take_all(&mut core, past, told);
    Some(core)
}

/// `lock LANE NUMBER cause STAMP NAME@PLACE..`, `finish LANE NUMBER cause STAMP +..`, `forget LANE NUMBER cause STAMP`
pub fn call_of(known: &Known, node: u32, words: &[&str], told: &mut Told) -> Option<ShardCall> {
    let own = rest(words, 1);
    match told.word_at(words, 0) {
        "lock" => Some(ShardCall::Lock(lock_call(known, node, own, told)?)),
        "finish" => Some(ShardCall::Finish(finish_call(own, told))),
        "forget" => Some(ShardCall::Forget(forget_call(own, told))),
        _ => {
            told.refuse("no call");
            None
        }
    }
}

// Tells what a call is answered behind a journal, by the definition and by the shard.
fn ask_call(
    past: &[Record],
    core: &mut ShardCore,
    call: &ShardCall,
    own: &mut Told,
    told: &mut Told,
) {
    match call {
        ShardCall::Lock(call) => ask_lock(past, core, call, own, told),
        ShardCall::Finish(call) => ask_finish(past, core, call, own, told),
        ShardCall::Forget(call) => ask_forget(past, core, call, own, told),
    }
}

// The same, compared.
fn ask_twice(past: &[Record], core: &mut ShardCore, call: &ShardCall, told: &mut Told) {
    let mut own = Told::new(told.alloc);
    ask_call(past, core, call, &mut own, told);
    told.check_twice(own);
}

// `ask LEDGER NODE CALL`, and the line of its answer, by the definition and by the shard.
fn ask(state: &State, past: &[Record], core: &mut ShardCore, words: &[&str], told: &mut Told) {
    let node = told.small_at(words, 1);
    if let Some(call) = call_of(&state.known, node, rest(words, 2), told) {
        ask_twice(past, core, &call, told);
    }
}

// `status LEDGER NODE HASH`, and the line of its answer, by the definition and by the shard.
fn status(past: &[Record], core: &ShardCore, words: &[&str], told: &mut Told) {
    let x = told.hash_at(words, 2);
    told.status(&core.check_unspent(&x));
    let mut own = Told::new(told.alloc);
    own.status(&status_of(past, &x));
    told.check_twice(own);
}

fn remembered_word(own: Option<Remembered>) -> &'static str {
    match own {
        None => "none",
        Some(Remembered::Waiting) => "waiting",
        Some(Remembered::Committed) => "committed",
        Some(Remembered::Rejected) => "rejected",
    }
}

// `remembers LEDGER NODE ID`, and the line of the shard's answer: `waiting`, `committed`, `rejected` or `none`.
fn remembers(core: &ShardCore, words: &[&str], told: &mut Told) {
    let id = told.hash_at(words, 2);
    told.word(remembered_word(core.check_tx(&id)));
}

// `counts LEDGER NODE`, and a line `node NODE unspent N room BYTES last STAMP` of the shard.
fn counts(core: &ShardCore, told: &mut Told) {
    told.named("node", core.header().node.0 as u128);
    told.named("unspent", core.unspent_len() as u128);
    told.named("room", core.kept_room() as u128);
    told.named("last", core.last_stamp().0 as u128);
}

// Tells `yes` or `no`, which was asked in two ways; where these differ that is told too.
fn yes_twice(is_so: bool, is_too: bool, told: &mut Told) {
    told.yes(is_too);
    told.check_is(if is_so { "yes" } else { "no" }, is_too);
}

// Tells whether a record may come next behind a journal, by the definition and by the shard.
fn tell_next(past: &[Record], core: &mut ShardCore, next: &Record, told: &mut Told) {
    let after = told.made(is_after(told.alloc, core.header(), past, next));
    let admits = told.made(core.admit(next));
    yes_twice(after.unwrap_or(false), admits.unwrap_or(false), told);
}

// `next LEDGER NODE RECORD`, and `yes` or `no`: whether it may come next, by the definition and by the shard.
fn next(state: &State, past: &[Record], core: &mut ShardCore, words: &[&str], told: &mut Told) {
    if let Some(row) = state.row(rest(words, 1), told) {
        tell_next(past, core, &row.what, told);
    }
}

// Does a step that asks a shard which has taken a journal in.
fn ask_core(
    state: &State,
    verb: Verb,
    past: &[Record],
    core: &mut ShardCore,
    words: &[&str],
    told: &mut Told,
) {
    match verb {
        Verb::Ask => ask(state, past, core, words, told),
        Verb::Status => status(past, core, words, told),
        Verb::Remembers => remembers(core, words, told),
        Verb::Counts => counts(core, told),
        Verb::Next => next(state, past, core, words, told),
        _ => told.refuse("no such step"),
    }
}

/// Does a step that asks the shard at `LEDGER NODE`, whose journal this is.
pub fn ask_shard(state: &State, verb: Verb, past: &[Record], words: &[&str], told: &mut Told) {
    if let Some(mut core) = shard_of(past, told) {
        ask_core(state, verb, past, &mut core, words, told);
    }
}

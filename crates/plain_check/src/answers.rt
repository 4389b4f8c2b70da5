// What a shard writes where a call is made again.
ghost use Rattle.std.specs.Prelude.{◌≡◌, ◌<◌, ◌^◌, ◌↔◌, IsTrue, IfOk, MatchOption};
ghost use Rattle.cbdc_model.specs.Records.{last_stamp, Record as AnyRecord};
ghost use Rattle.cbdc_model.specs.World.{record_for, journals, batch_of, Lock_call, Finish_call, Forget_call, IsConcerned, CauseStands};
ghost use Rattle.plain_check.specs.Events.{call_in, cause_of, InClock, IsCallAnswered};

use crate::event_causes::{has_cause, header_at, is_concerned_at};
use crate::events::ShardCall;
use crate::{
    LockPlan, Node, StampPlan, journal_in, last_stamp, next_finish, next_forget, next_lock,
    replies_of,
};
use cbdc_types::{
    BatchId, FinishCall, ForgetCall, Hash, List, LockCall, NodeId, Record, Shape, Stamp,
};
use record_grammar::is_in_grammar;
use std::alloc::{AllocError, Global};

// The batch of a call.
fn batch_in(call: &ShardCall) -> BatchId
    ensures { result ≡ batch_of (call_in call.now) }
{
    match call {
        ShardCall::Lock(c) => c.batch,
        ShardCall::Finish(c) => c.batch,
        ShardCall::Forget(c) => c.batch,
    }
}

// The stamp of a call's cause.
fn cause_in(call: &ShardCall) -> Stamp
    ensures { result ≡ cause_of (call_in call.now) }
{
    match call {
        ShardCall::Lock(c) => c.cause,
        ShardCall::Finish(c) => c.cause,
        ShardCall::Forget(c) => c.cause,
    }
}

// The Lock that a shard with this journal writes at a call, if it writes one.
fn lock_for(alloc: Global, past: &[Record], call: &LockCall) -> Result<Option<Record>, AllocError>
    requires last { last_stamp past.now < 2 ^ 63 }
    requires cause { call.now.cause < 2 ^ 63 }
    ensures { IfOk result (λ o. o ≡ record_for past.now (Lock_call call.now)) }
{
    match next_lock(alloc, past, call)? {
        LockPlan::Append(replied) => Ok(Some(Record::Lock {
            stamp: replied.stamp,
            batch: call.batch,
            entries: replies_of(alloc, past, &call.batch, call.part.as_slice())?,
        })),
        LockPlan::Kept(_) => Ok(None),
        LockPlan::Refuse(_) => Ok(None),
    }
}

// The Finish that a shard with this journal writes at a call, if it writes one.
fn finish_for(
    alloc: Global,
    past: &[Record],
    call: &FinishCall,
) -> Result<Option<Record>, AllocError>
    requires last { last_stamp past.now < 2 ^ 63 }
    requires cause { call.now.cause < 2 ^ 63 }
    ensures { IfOk result (λ o. o ≡ record_for past.now (Finish_call call.now)) }
{
    match next_finish(past, call) {
        StampPlan::Append(stamp) => Ok(Some(Record::Finish {
            stamp,
            batch: call.batch,
            decisions: List::from_vec(Vec::from_slice(alloc, call.decisions.as_slice())?),
        })),
        StampPlan::Kept(_) => Ok(None),
        StampPlan::Refuse(_) => Ok(None),
    }
}

// The Forget that a shard with this journal writes at a call, if it writes one.
fn forget_for(past: &[Record], call: &ForgetCall) -> Option<Record>
    requires last { last_stamp past.now < 2 ^ 63 }
    requires cause { call.now.cause < 2 ^ 63 }
    ensures { result ≡ record_for past.now (Forget_call call.now) }
{
    match next_forget(past, call) {
        StampPlan::Append(stamp) => Some(Record::Forget {
            stamp,
            batch: call.batch,
        }),
        StampPlan::Kept(_) => None,
        StampPlan::Refuse(_) => None,
    }
}

// The record that a shard with this journal writes at a call, if it writes one.
fn record_for(
    alloc: Global,
    past: &[Record],
    call: &ShardCall,
) -> Result<Option<Record>, AllocError>
    requires last { last_stamp past.now < 2 ^ 63 }
    requires cause { cause_of (call_in call.now) < 2 ^ 63 }
    ensures { IfOk result (λ o. o ≡ record_for past.now (call_in call.now)) }
{
    match call {
        ShardCall::Lock(c) => lock_for(alloc, past, c),
        ShardCall::Finish(c) => finish_for(alloc, past, c),
        ShardCall::Forget(c) => Ok(forget_for(past, c)),
    }
}

// Whether the last stamp of a node's journal and that of a cause are such that there is a greater one.
fn is_in_clock(nodes: &[Node], node: NodeId, cause: Stamp) -> bool
    ensures { IsTrue result ↔ InClock (last_stamp (journals nodes.now node)) cause }
{
    last_stamp(journal_in(nodes, node.0)).0 < 1 << 63 && cause.0 < 1 << 63
}

// Whether a call is one of the node's, and its cause stands.
fn is_called(nodes: &[Node], shape: &Shape, node: NodeId, call: &ShardCall) -> bool
    ensures { IsTrue result ↔ (IsConcerned shape.now (journals nodes.now) node (batch_of (call_in call.now))
        × CauseStands shape.now (journals nodes.now) node (call_in call.now)) }
{
    is_concerned_at(nodes, shape, node, &batch_in(call)) && has_cause(nodes, shape, node, call)
}

/// What a node writes where a call is made again: nothing where the call isn't the node's, its cause doesn't stand, or the
/// answer takes no record that may stand in a journal.
pub fn written(
    alloc: Global,
    nodes: &[Node],
    shape: &Shape,
    genesis: &Hash,
    node: NodeId,
    call: &ShardCall,
) -> Result<Option<Record>, AllocError>
    ensures { IfOk result (λ o. MatchOption o
        ((r : AnyRecord) → IsCallAnswered shape.now genesis.now nodes.now node (call_in call.now) r → ⊥)
        (λ r. IsCallAnswered shape.now genesis.now nodes.now node (call_in call.now) r)) }
{
    if !is_called(nodes, shape, node, call) {
        return Ok(None);
    }
    let cause = cause_in(call);
    if !is_in_clock(nodes, node, cause) {
        return Ok(None);
    }
    let past = journal_in(nodes, node.0);
    let Some(r) = record_for(alloc, past, call)? else {
        return Ok(None);
    };
    let header = header_at(shape, genesis, node);
    if !is_in_grammar(&header, &r) {
        return Ok(None);
    }
    Ok(Some(r))
}

// Whether a call may be made at a node, and a record begun there, by what stands in the journals.
ghost use Rattle.std.specs.Prelude.{◌≡◌, ◌<◌, ◌↔◌, IsTrue, IfOk, map};
ghost use Rattle.cbdc_model.specs.Ranges.{home_of};
ghost use Rattle.cbdc_model.specs.History.{header_of};
ghost use Rattle.cbdc_model.specs.After.{After};
ghost use Rattle.cbdc_model.specs.Causes.{IsCaused};
ghost use Rattle.cbdc_model.specs.World.{journals, Lock_call, Finish_call, Forget_call, IsConcerned, CauseStands};
ghost use Rattle.plain_check.specs.Events.{call_in};

use crate::copying::put_copy;
use crate::events::ShardCall;
use crate::outcomes::are_decided_by;
use crate::parts::is_own_part;
use crate::{Node, is_after, is_caused, journal_in, lock_of, record_of, txs_of};
use cbdc_types::{
    BatchId, FinishCall, ForgetCall, Hash, Header, List, LockCall, NodeId, Record, RecordKind,
    Shape,
};
use same_records::{home_of, is_batch, is_concerned};
use std::alloc::{AllocError, Global};

/// The header of a node's journal.
pub fn header_at(shape: &Shape, genesis: &Hash, node: NodeId) -> Header
    ensures { result ≡ header_of shape.now genesis.now node }
{
    Header {
        node,
        shape: *shape,
        genesis: *genesis,
    }
}

// The journal of a batch's coordinator.
fn home_journal<'a>(nodes: &'a [Node], shape: &Shape, batch: &BatchId) -> &'a [Record]
    ensures { result.now ≡ journals nodes.now (home_of shape.now batch.now.lane) }
{
    journal_in(nodes, home_of(shape, batch.lane).0)
}

/// Whether the node is a shard that the batch concerns, by its Prepare.
pub fn is_concerned_at(nodes: &[Node], shape: &Shape, node: NodeId, batch: &BatchId) -> bool
    ensures { IsTrue result ↔ IsConcerned shape.now (journals nodes.now) node batch.now }
{
    let txs = txs_of(home_journal(nodes, shape, batch), batch);
    shape.coordinators() <= node.0 && is_concerned(shape, txs, node.0 - shape.coordinators())
}

// Whether a Lock's cause stands, with the part that the call carries.
fn has_lock_cause(nodes: &[Node], shape: &Shape, node: NodeId, call: &LockCall) -> bool
    ensures { IsTrue result ↔ CauseStands shape.now (journals nodes.now) node (Lock_call call.now) }
{
    match record_of(
        RecordKind::Prepare as u64,
        home_journal(nodes, shape, &call.batch),
        &call.batch,
    ) {
        Some(Record::Prepare { stamp, batch, txs }) => {
            stamp.0 == call.cause.0
                && is_batch(batch, &call.batch)
                && is_own_part(shape, node, txs.as_slice(), call.part.as_slice())
        }
        _ => false,
    }
}

// Whether a Finish's cause stands, with the decisions that the call carries.
fn has_finish_cause(nodes: &[Node], shape: &Shape, node: NodeId, call: &FinishCall) -> bool
    ensures { IsTrue result ↔ CauseStands shape.now (journals nodes.now) node (Finish_call call.now) }
{
    match record_of(
        RecordKind::Commit as u64,
        home_journal(nodes, shape, &call.batch),
        &call.batch,
    ) {
        Some(
            Record::Commit {
                stamp,
                batch,
                outcomes,
            },
        ) => {
            let locked = lock_of(journal_in(nodes, node.0), &call.batch);
            stamp.0 == call.cause.0
                && is_batch(batch, &call.batch)
                && are_decided_by(outcomes.as_slice(), locked, call.decisions.as_slice())
        }
        _ => false,
    }
}

// Whether a Forget's cause stands.
fn has_forget_cause(nodes: &[Node], shape: &Shape, node: NodeId, call: &ForgetCall) -> bool
    ensures { IsTrue result ↔ CauseStands shape.now (journals nodes.now) node (Forget_call call.now) }
{
    match record_of(
        RecordKind::Discard as u64,
        home_journal(nodes, shape, &call.batch),
        &call.batch,
    ) {
        Some(Record::Discard { stamp, batch }) => {
            stamp.0 == call.cause.0 && is_batch(batch, &call.batch)
        }
        _ => false,
    }
}

/// Whether the call's cause stands, with the stamp and the part or the decisions that the call carries.
pub fn has_cause(nodes: &[Node], shape: &Shape, node: NodeId, call: &ShardCall) -> bool
    ensures { IsTrue result ↔ CauseStands shape.now (journals nodes.now) node (call_in call.now) }
{
    match call {
        ShardCall::Lock(c) => has_lock_cause(nodes, shape, node, c),
        ShardCall::Finish(c) => has_finish_cause(nodes, shape, node, c),
        ShardCall::Forget(c) => has_forget_cause(nodes, shape, node, c),
    }
}

// Copies of the journals of all nodes.
fn journals_of(alloc: Global, nodes: &[Node]) -> Result<List<List<Record>>, AllocError>
    ensures { IfOk result (λ l. l ≡ map (λ n. n.journal) nodes.now) }
{
    let mut all = Vec::with_capacity(alloc, nodes.len())?;
    for own in nodes {
        put_copy(alloc, own.journal.as_slice(), &mut all)?;
    }
    Ok(List::from_vec(all))
}

// Whether a record behind a node's journal is caused by what stands in the journals.
fn is_caused_in(
    alloc: Global,
    nodes: &[Node],
    shape: &Shape,
    node: NodeId,
    r: &Record,
) -> Result<bool, AllocError>
    ensures { IfOk result (λ yes. IsTrue yes ↔ IsCaused shape.now (journals nodes.now) node r.now) }
{
    let all = journals_of(alloc, nodes)?;
    is_caused(alloc, all.as_slice(), shape, node, r)
}

/// Whether a record may be begun at a node: it is next there, and caused.
pub fn may_begin(
    alloc: Global,
    nodes: &[Node],
    shape: &Shape,
    genesis: &Hash,
    node: NodeId,
    r: &Record,
) -> Result<bool, AllocError>
    ensures { IfOk result (λ yes. IsTrue yes ↔ (After (header_of shape.now genesis.now node)
        (journals nodes.now node) r.now × IsCaused shape.now (journals nodes.now) node r.now)) }
{
    let header = header_at(shape, genesis, node);
    if !is_after(alloc, &header, journal_in(nodes, node.0), r)? {
        return Ok(false);
    }
    is_caused_in(alloc, nodes, shape, node, r)
}

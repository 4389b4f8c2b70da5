// What a shard replies to a part.
ghost use Rattle.std.specs.Prelude.{◌≡◌, List as Items, [], length, IfOk};
ghost use Rattle.cbdc_model.specs.Records.{Digest, Record};
ghost use Rattle.cbdc_model.specs.Status.{has, status};
ghost use Rattle.cbdc_model.specs.Replies.{refusal, reply_to as the_reply, answered, replies as replies_in};
ghost use Rattle.shard_core.specs.Agrees.{HashesAgree};

use crate::applying::hash_count;
use crate::claiming::Claims;
use crate::comparing::is_held;
use cbdc_types::{BatchId, Entry, Hash, Reply, Status};
use shard_table::{Locks, Table};
use std::alloc::{AllocError, Global};

/// What the table and the locks say of a hash.
pub fn status_of(unspent: &Table, locks: &Locks, x: &Hash) -> Status
    ensures { (J : Items Record) → HashesAgree unspent.now.hashes locks.now.held J → result ≡ status J x.now }
{
    if unspent.contains(x) {
        return Status::Unspent;
    }
    match locks.holder(x) {
        Some((by, _)) => Status::Locked(by),
        None => Status::Absent,
    }
}

// Why an input can't be held, if it can't.
fn refused(status: Status, x: &Hash, claimed: bool, batch: &BatchId) -> Option<Reply>
    ensures { result ≡ refusal status x.now claimed batch.now }
{
    match status {
        Status::Unspent => {
            if claimed {
                Some(Reply::Locked(*x, *batch))
            } else {
                None
            }
        }
        Status::Locked(by) => Some(Reply::Locked(*x, by)),
        Status::Absent => Some(Reply::Missing(*x)),
    }
}

// The reply to an entry with these inputs, where earlier entries of the part claim some hashes.
fn reply_to(
    unspent: &Table,
    locks: &Locks,
    claimed: &Claims,
    inputs: &[Hash],
    batch: &BatchId,
) -> Reply
    ensures { (J : Items Record) (before : Items Digest)
        → HashesAgree unspent.now.hashes locks.now.held J → ((y : Digest) → has claimed.now y ≡ has before y)
        → result ≡ the_reply J batch.now before inputs.now }
{
    for x in inputs {
        let status = status_of(unspent, locks, x);
        if let Some(reply) = refused(status, x, claimed.contains(x), batch) {
            return reply;
        }
    }
    Reply::Held
}

/// The replies to a part, in the order of its entries.
pub fn replies_to(
    alloc: Global,
    unspent: &Table,
    locks: &Locks,
    entries: &[Entry],
    batch: &BatchId,
) -> Result<Vec<Reply>, AllocError>
    ensures len { IfOk result (λ v. length v.items ≡ length entries.now) }
    ensures replies { IfOk result (λ v. (J : Items Record) → HashesAgree unspent.now.hashes locks.now.held J
        → v.items ≡ replies_in (answered J batch.now [] entries.now)) }
{
    let mut claimed = Claims::of_part(alloc, hash_count(entries))?;
    let mut replies = Vec::with_capacity(alloc, entries.len())?;
    for entry in entries {
        let inputs = entry.inputs.as_slice();
        let reply = reply_to(unspent, locks, &claimed, inputs, batch);
        if is_held(&reply) {
            claimed.claim(inputs)?;
        }
        replies.push(reply)?;
    }
    Ok(replies)
}

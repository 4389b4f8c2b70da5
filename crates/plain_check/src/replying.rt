// What a shard with a journal replies to a part.
ghost use Rattle.std.specs.Prelude.{◌≡◌, ◌++◌, [], IfOk, OnOk};
ghost use Rattle.cbdc_model.specs.Replies.{refusal, reply_to, answered};

use crate::copying::{copy_of_entry, put};
use crate::status::{has, status_of};
use cbdc_types::{Answered, BatchId, Entry, Hash, List, Record, Reply, Status};
use same_records::is_held;
use std::alloc::{AllocError, Global};

/// Why an input of this status can't be held, if it can't: the batch's own earlier Held entries may claim it.
pub fn refusal(status: Status, x: &Hash, claimed: bool, batch: &BatchId) -> Option<Reply>
    ensures { result ≡ refusal status x.now claimed batch.now }
{
    match status {
        Status::Unspent => {
            if claimed {
                Some(Reply::Locked(*x, *batch))
            } else {
                None
            }
        }
        Status::Locked(by) => Some(Reply::Locked(*x, by)),
        Status::Absent => Some(Reply::Missing(*x)),
    }
}

/// The reply to an entry with these inputs, where the Held entries before it claim some: Held where each input is
/// Unspent and not claimed, else by the first input that isn't.
pub fn reply_to(past: &[Record], batch: &BatchId, claimed: &[Hash], inputs: &[Hash]) -> Reply
    ensures { result ≡ reply_to past.now batch.now claimed.now inputs.now }
{
    let Some((x, rest)) = inputs.split_first() else {
        return Reply::Held;
    };
    match refusal(status_of(past, x), x, has(claimed, x), batch) {
        Some(reply) => reply,
        None => reply_to(past, batch, claimed, rest),
    }
}

// The first list and then the second.
fn joined(alloc: Global, xs: &[Hash], ys: &[Hash]) -> Result<Vec<Hash>, AllocError>
    ensures { IfOk result (λ v. v.items ≡ xs.now ++ ys.now) }
{
    let mut all = Vec::from_slice(alloc, xs)?;
    all.extend_from_slice(ys)?;
    Ok(all)
}

// Puts the answers to a part behind those so far.
fn answer(
    alloc: Global,
    past: &[Record],
    batch: &BatchId,
    claimed: &[Hash],
    part: &[Entry],
    out: &mut Vec<Answered>,
) -> Result<(), AllocError>
    ensures { OnOk result (out.new.items
        ≡ out.old.items ++ answered past.now batch.now claimed.now part.now) }
{
    let Some((e, rest)) = part.split_first() else {
        return Ok(());
    };
    let reply = reply_to(past, batch, claimed, e.inputs.as_slice());
    let entry = copy_of_entry(e)?;
    put(out, Answered { entry, reply })?;
    if is_held(&reply) {
        let more = joined(alloc, e.inputs.as_slice(), claimed)?;
        answer(alloc, past, batch, more.as_slice(), rest, out)
    } else {
        answer(alloc, past, batch, claimed, rest, out)
    }
}

/// The part with the replies that a shard with this journal gives to it, in order.
pub fn replies_of(
    alloc: Global,
    past: &[Record],
    batch: &BatchId,
    part: &[Entry],
) -> Result<List<Answered>, AllocError>
    ensures { IfOk result (λ l. l ≡ answered past.now batch.now [] part.now) }
{
    let mut out = Vec::new(alloc);
    answer(alloc, past, batch, &[], part, &mut out)?;
    Ok(List::from_vec(out))
}

// What of a batch lies on a shard.
ghost use Rattle.std.specs.Prelude.{◌≡◌, ◌+◌, ◌<◌, ◌^◌, ◌++◌, ◌↔◌, ℕ, length, IsTrue, IfOk, OnOk};
ghost use Rattle.cbdc_model.specs.Replies.{entries};
ghost use Rattle.cbdc_model.specs.Ranges.{on_shard, is_empty, entry_of, part, is_no_part, home_of, Concerned};

use crate::is_hash;
use cbdc_types::{Answered, CompactTx, Entry, Hash, LaneId, List, NodeId, Shape};
use shard_ranges::shard_of;
use std::alloc::{AllocError, Global};

/// The node of a lane's coordinator.
pub fn home_of(shape: &Shape, lane: LaneId) -> NodeId
    ensures { result ≡ home_of shape.now lane }
{
    NodeId(lane.0 / shape.lanes())
}

// Puts those of the hashes that lie on a shard behind those so far.
fn add_hashes(shape: &Shape, shard: u32, xs: &[Hash], out: &mut Vec<Hash>) -> Result<(), AllocError>
    ensures { OnOk result (out.new.items ≡ out.old.items ++ on_shard shape.now shard xs.now) }
{
    let Some((x, rest)) = xs.split_first() else {
        return Ok(());
    };
    if shard_of(x, shape) == shard {
        out.push(*x)?;
    }
    add_hashes(shape, shard, rest, out)
}

/// Those of the hashes that lie on a shard, in order.
pub fn hashes_on(
    alloc: Global,
    shape: &Shape,
    shard: u32,
    xs: &[Hash],
) -> Result<List<Hash>, AllocError>
    ensures { IfOk result (λ l. l ≡ on_shard shape.now shard xs.now) }
{
    let mut out = Vec::new(alloc);
    add_hashes(shape, shard, xs, &mut out)?;
    Ok(List::from_vec(out))
}

/// A transaction's entry at a shard, with its place.
pub fn entry_at(
    alloc: Global,
    shape: &Shape,
    shard: u32,
    place: u32,
    t: &CompactTx,
) -> Result<Entry, AllocError>
    ensures { IfOk result (λ e. e ≡ entry_of shape.now shard place t.now) }
{
    Ok(Entry {
        place,
        id: t.id,
        inputs: hashes_on(alloc, shape, shard, t.inputs.as_slice())?,
        outputs: hashes_on(alloc, shape, shard, t.outputs.as_slice())?,
    })
}

/// Whether none of the hashes lies on a shard.
pub fn are_elsewhere(shape: &Shape, shard: u32, xs: &[Hash]) -> bool
    ensures { result ≡ is_empty (on_shard shape.now shard xs.now) }
{
    match xs.split_first() {
        None => true,
        Some((x, rest)) => shard_of(x, shape) != shard && are_elsewhere(shape, shard, rest),
    }
}

// Whether no transaction, the first of which has this place, has a hash on a shard.
fn has_no_part(shape: &Shape, shard: u32, txs: &[CompactTx]) -> bool
    ensures { (place : ℕ) → result ≡ is_no_part (part shape.now shard place txs.now) }
{
    match txs.split_first() {
        None => true,
        Some((t, rest)) => {
            are_elsewhere(shape, shard, t.inputs.as_slice())
                && are_elsewhere(shape, shard, t.outputs.as_slice())
                && has_no_part(shape, shard, rest)
        }
    }
}

/// Whether a shard has a part in these transactions.
pub fn is_concerned(shape: &Shape, txs: &[CompactTx], shard: u32) -> bool
    ensures { IsTrue result ↔ Concerned shape.now txs.now shard }
{
    shard < shape.shards() && !has_no_part(shape, shard, txs)
}

// Whether the hashes that lie on a shard are these, in order.
fn are_those_on(shape: &Shape, shard: u32, xs: &[Hash], ys: &[Hash]) -> bool
    ensures { IsTrue result ↔ (ys.now ≡ on_shard shape.now shard xs.now) }
{
    let Some((x, others)) = xs.split_first() else {
        return ys.is_empty();
    };
    if shard_of(x, shape) != shard {
        return are_those_on(shape, shard, others, ys);
    }
    match ys.split_first() {
        None => false,
        Some((y, rest)) => is_hash(y, x) && are_those_on(shape, shard, others, rest),
    }
}

/// Whether an entry is a transaction's at a shard, with this place.
pub fn is_entry_at(shape: &Shape, shard: u32, place: u64, t: &CompactTx, e: &Entry) -> bool
    ensures { IsTrue result ↔ (e.now ≡ entry_of shape.now shard place t.now) }
{
    u64::from(e.place) == place
        && is_hash(&e.id, &t.id)
        && are_those_on(shape, shard, t.inputs.as_slice(), e.inputs.as_slice())
        && are_those_on(shape, shard, t.outputs.as_slice(), e.outputs.as_slice())
}

/// Whether answered entries are those of a shard's part of the transactions from this place on.
pub fn is_part_from(
    shape: &Shape,
    shard: u32,
    place: u64,
    txs: &[CompactTx],
    es: &[Answered],
) -> bool
    requires places { place + length txs.now < 2 ^ 64 }
    ensures { IsTrue result ↔ (entries es.now ≡ part shape.now shard place txs.now) }
{
    let Some((t, others)) = txs.split_first() else {
        return es.is_empty();
    };
    if are_elsewhere(shape, shard, t.inputs.as_slice())
        && are_elsewhere(shape, shard, t.outputs.as_slice())
    {
        return is_part_from(shape, shard, place + 1, others, es);
    }
    match es.split_first() {
        None => false,
        Some((a, rest)) => {
            is_entry_at(shape, shard, place, t, &a.entry)
                && is_part_from(shape, shard, place + 1, others, rest)
        }
    }
}

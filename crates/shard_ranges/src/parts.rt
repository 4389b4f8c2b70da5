// The parts of a batch.
ghost use Rattle.std.specs.Prelude.{◌≡◌, ◌≤◌, ◌<◌, ◌^◌, ◌++◌, ℕ, length, vec_len, List as Items, [], ◌∷◌, IfOk, OnOk};
ghost use Rattle.cbdc_model.specs.Records.{Compact, Digest, Entry, Shape};
ghost use Rattle.shard_ranges.specs.Parts.{AreBefore, AreGrown, AreParts, AreSplit, entry_if, numbered};

use crate::shard_of;
use cbdc_types::{CompactTx, Entry, Hash, List, Part, Shape};
use std::alloc::{AllocError, Global};

// Opens an entry for the transaction at this place, unless the last one is its.
fn open_entry(
    alloc: Global,
    entries: &mut Vec<Entry>,
    place: u32,
    id: &Hash,
) -> Result<(), AllocError>
    ensures some { OnOk result (0 < vec_len entries.new) }
    ensures opened { OnOk result ((before : Items Entry) (ins outs : Items Digest) → AreBefore place before
        → entries.old.items ≡ before ++ entry_if place id.now ins outs → entries.new.items
        ≡ before ++ record { place = place; id = id.now; inputs = ins; outputs = outs } ∷ []) }
{
    if let Some(last) = entries.last() {
        if last.place == place {
            return Ok(());
        }
    }
    entries.push(Entry {
        place,
        id: *id,
        inputs: List::new(alloc),
        outputs: List::new(alloc),
    })?;
    Ok(())
}

// Puts an input into the entry of the transaction at this place.
fn add_input(
    alloc: Global,
    entries: &mut Vec<Entry>,
    place: u32,
    id: &Hash,
    x: &Hash,
) -> Result<(), AllocError>
    ensures { OnOk result ((before : Items Entry) (ins outs : Items Digest) → AreBefore place before
        → entries.old.items ≡ before ++ entry_if place id.now ins outs
        → entries.new.items ≡ before ++ entry_if place id.now (ins ++ x.now ∷ []) outs) }
{
    open_entry(alloc, entries, place, id)?;
    let last = entries.len() - 1;
    entries[last].inputs.push(*x)?;
    Ok(())
}

// Puts an output into the entry of the transaction at this place.
fn add_output(
    alloc: Global,
    entries: &mut Vec<Entry>,
    place: u32,
    id: &Hash,
    x: &Hash,
) -> Result<(), AllocError>
    ensures { OnOk result ((before : Items Entry) (ins outs : Items Digest) → AreBefore place before
        → entries.old.items ≡ before ++ entry_if place id.now ins outs
        → entries.new.items ≡ before ++ entry_if place id.now ins (outs ++ x.now ∷ [])) }
{
    open_entry(alloc, entries, place, id)?;
    let last = entries.len() - 1;
    entries[last].outputs.push(*x)?;
    Ok(())
}

// Puts each input of a transaction into its shard's part.
fn add_inputs(
    alloc: Global,
    parts: &mut Vec<Vec<Entry>>,
    shape: &Shape,
    place: u32,
    tx: &CompactTx,
) -> Result<(), AllocError>
    requires count { vec_len parts.old ≡ shape.now.shards }
    ensures count { vec_len parts.new ≡ shape.now.shards }
    ensures grown { OnOk result ((txs : Items Compact)
        → length txs ≡ place → AreSplit shape.now txs parts.old.items
        → AreGrown shape.now txs place tx.now.id tx.now.inputs [] parts.new.items) }
{
    for x in tx.inputs.as_slice() {
        let shard = shard_of(x, shape) as usize;
        add_input(alloc, &mut parts[shard], place, &tx.id, x)?;
    }
    Ok(())
}

// Puts each output of a transaction into its shard's part, behind its inputs.
fn add_outputs(
    alloc: Global,
    parts: &mut Vec<Vec<Entry>>,
    shape: &Shape,
    place: u32,
    tx: &CompactTx,
) -> Result<(), AllocError>
    requires count { vec_len parts.old ≡ shape.now.shards }
    ensures count { vec_len parts.new ≡ shape.now.shards }
    ensures grown { OnOk result ((txs : Items Compact)
        → length txs ≡ place → AreGrown shape.now txs place tx.now.id tx.now.inputs [] parts.old.items
        → AreGrown shape.now txs place tx.now.id tx.now.inputs tx.now.outputs parts.new.items) }
{
    for x in tx.outputs.as_slice() {
        let shard = shard_of(x, shape) as usize;
        add_output(alloc, &mut parts[shard], place, &tx.id, x)?;
    }
    Ok(())
}

// Puts each hash of a transaction into its shard's part.
fn add_tx(
    alloc: Global,
    parts: &mut Vec<Vec<Entry>>,
    shape: &Shape,
    place: u32,
    tx: &CompactTx,
) -> Result<(), AllocError>
    requires count { vec_len parts.old ≡ shape.now.shards }
    ensures count { vec_len parts.new ≡ shape.now.shards }
    ensures added { OnOk result ((txs : Items Compact) → length txs ≡ place
        → AreSplit shape.now txs parts.old.items → AreSplit shape.now (txs ++ tx.now ∷ []) parts.new.items) }
{
    add_inputs(alloc, parts, shape, place, tx)?;
    add_outputs(alloc, parts, shape, place, tx)
}

// An empty part for each shard.
fn empty_parts(alloc: Global, shape: &Shape) -> Result<Vec<Vec<Entry>>, AllocError>
    ensures count { IfOk result (λ v. vec_len v ≡ shape.now.shards) }
    ensures few { IfOk result (λ v. vec_len v < 2 ^ 32) }
    ensures empty { IfOk result (λ v. AreSplit shape.now [] v.items) }
{
    let shards = shape.shards();
    let mut parts = Vec::with_capacity(alloc, shards as usize)?;
    for _shard in 0..shards {
        parts.push(Vec::new(alloc))?;
    }
    Ok(parts)
}

// Puts a shard's part behind those found so far, where it has an entry.
fn keep(found: &mut Vec<(u32, Part)>, shard: u32, entries: Vec<Entry>) -> Result<(), AllocError>
    ensures { OnOk result (found.new.items ≡ found.old.items ++ numbered shard (entries ∷ [])) }
{
    if entries.is_empty() {
        return Ok(());
    }
    found.push((shard, List::from_vec(entries)))?;
    Ok(())
}

// The parts that have an entry, each with its shard.
fn concerned(alloc: Global, parts: Vec<Vec<Entry>>) -> Result<List<(u32, Part)>, AllocError>
    requires { vec_len parts < 2 ^ 32 }
    ensures { IfOk result (λ ps. ps ≡ numbered 0 parts.items) }
{
    let mut found = Vec::with_capacity(alloc, parts.len())?;
    let mut shard = 0u32;
    for entries in parts {
        keep(&mut found, shard, entries)?;
        shard += 1;
    }
    Ok(List::from_vec(found))
}

/// For each shard that holds a hash of these transactions, in rising order, its part: an entry for each transaction
/// that has an input or an output there, with those hashes in order.
pub fn split(
    alloc: Global,
    txs: &[CompactTx],
    shape: &Shape,
) -> Result<List<(u32, Part)>, AllocError>
    requires { length txs.now < 2 ^ 32 }
    ensures { IfOk result (AreParts shape.now txs.now) }
{
    let mut parts = empty_parts(alloc, shape)?;
    let mut place = 0u32;
    for tx in txs {
        add_tx(alloc, &mut parts, shape, place, tx)?;
        place += 1;
    }
    concerned(alloc, parts)
}

// Copies of parts, for the slots.
ghost use Rattle.std.specs.Prelude.{◌≡◌, ◌↔◌, length, IfOk, IsTrue};
ghost use Rattle.cbdc_model.specs.Replies.{entries as parts_of, replies as replies_of};

use cbdc_types::{Answered, Entry, Hash, List, Reply};
use std::alloc::{AllocError, Global};

fn is_same_reply(x: &Reply, y: &Reply) -> bool
    ensures { IsTrue result ↔ (x.now ≡ y.now) }
{
    x == y
}

// Whether the replies of a Lock are these.
pub fn same_replies(entries: &[Answered], replies: &[Reply]) -> bool
    ensures { IsTrue result ↔ (replies.now ≡ replies_of entries.now) }
{
    if entries.len() != replies.len() {
        return false;
    }
    for at in 0..replies.len() {
        if !is_same_reply(&entries[at].reply, &replies[at]) {
            return false;
        }
    }
    true
}

fn copy_of_entry(alloc: Global, entry: &Entry) -> Result<Entry, AllocError>
    ensures { IfOk result (λ e. e ≡ entry.now) }
{
    let inputs = Vec::from_slice(alloc, entry.inputs.as_slice())?;
    let outputs = Vec::from_slice(alloc, entry.outputs.as_slice())?;
    Ok(Entry {
        place: entry.place,
        id: entry.id,
        inputs: List::from_vec(inputs),
        outputs: List::from_vec(outputs),
    })
}

// A list of these hashes, in this memory if they have room there.
fn list_in(alloc: Global, memory: List<Hash>, xs: &[Hash]) -> Result<List<Hash>, AllocError>
    ensures { IfOk result (λ l. l ≡ xs.now) }
{
    let mut list = memory.into_vec();
    if list.capacity() < xs.len() {
        return Ok(List::from_vec(Vec::from_slice(alloc, xs)?));
    }
    list.clear();
    list.extend_from_slice(xs)?;
    Ok(List::from_vec(list))
}

// A copy of an entry, in the memory of the last of these entries, which goes.
fn copy_in(alloc: Global, memory: &mut Vec<Entry>, entry: &Entry) -> Result<Entry, AllocError>
    ensures { IfOk result (λ e. e ≡ entry.now) }
{
    let Some(old) = memory.pop() else {
        return copy_of_entry(alloc, entry);
    };
    let Entry {
        place: _,
        id: _,
        inputs,
        outputs,
    } = old;
    let inputs = list_in(alloc, inputs, entry.inputs.as_slice())?;
    let outputs = list_in(alloc, outputs, entry.outputs.as_slice())?;
    Ok(Entry {
        place: entry.place,
        id: entry.id,
        inputs,
        outputs,
    })
}

// A copy of a part, in the memory of these entries as far as it goes.
pub fn copy_of(
    alloc: Global,
    memory: &mut Vec<Entry>,
    entries: &[Entry],
) -> Result<Vec<Entry>, AllocError>
    ensures { IfOk result (λ v. v.items ≡ entries.now) }
{
    let mut copies = Vec::with_capacity(alloc, entries.len())?;
    for entry in entries {
        copies.push(copy_in(alloc, memory, entry)?)?;
    }
    Ok(copies)
}

// The entries of a Lock without their replies, in the memory of these entries as far as it goes.
pub fn entries_of(
    alloc: Global,
    memory: &mut Vec<Entry>,
    answered: &[Answered],
) -> Result<Vec<Entry>, AllocError>
    ensures { IfOk result (λ v. v.items ≡ parts_of answered.now) }
{
    let mut entries = Vec::with_capacity(alloc, answered.len())?;
    for one in answered {
        entries.push(copy_in(alloc, memory, &one.entry)?)?;
    }
    Ok(entries)
}

/// The entries of a part, each with its reply.
pub fn answered(
    alloc: Global,
    part: &[Entry],
    replies: &[Reply],
) -> Result<Vec<Answered>, AllocError>
    requires { length replies.now ≡ length part.now }
    ensures entries { IfOk result (λ v. parts_of v.items ≡ part.now) }
    ensures replies { IfOk result (λ v. replies_of v.items ≡ replies.now) }
{
    let mut entries = Vec::with_capacity(alloc, part.len())?;
    for at in 0..part.len() {
        entries.push(Answered {
            entry: copy_of_entry(alloc, &part[at])?,
            reply: replies[at],
        })?;
    }
    Ok(entries)
}

// What a record changes at the hashes.
ghost use Rattle.std.specs.Prelude.{◌≡◌, ◌+◌, ◌≤◌, ◌^◌, ◌-◌, min, not, ◌&&◌, ◌||◌, length, Some, None, if◌then◌else◌};
ghost use Rattle.cbdc_model.specs.Records.{Digest, is_held as reply_is_held};
ghost use Rattle.cbdc_model.specs.Status.{has, held_inputs};
ghost use Rattle.shard_table.specs.Entries.{lookup};
ghost use Rattle.shard_core.specs.Agrees.{holder_in};
ghost use Rattle.shard_core.specs.Moves.{inputs_where, outputs_where, returned_where, inputs_in, outputs_in, hashes_in};

use crate::comparing::is_held;
use cbdc_types::{Answered, BatchId, Entry, Hash, Reply};
use shard_table::{Locks, Table};

/// How many inputs and outputs a part has.
pub fn hash_count(entries: &[Entry]) -> u64
    ensures { result ≡ min (2 ^ 64 - 1) (hashes_in entries.now) }
{
    let mut count = 0u64;
    for entry in entries {
        let hashes = (entry.inputs.len() as u64).saturating_add(entry.outputs.len() as u64);
        count = count.saturating_add(hashes);
    }
    count
}

// Locks hashes for an entry of a batch. One that stands twice is locked once.
fn lock_all(unspent: &mut Table, locks: &mut Locks, xs: &[Hash], batch: &BatchId, place: u32)
    requires { length xs.now ≤ locks.old.spare }
    ensures unspent { (y : Digest)
        → has unspent.new.hashes y ≡ (not (has xs.now y) && has unspent.old.hashes y) }
    ensures locks { (y : Digest)
        → holder_in locks.new.held y ≡ (if has xs.now y then Some batch.now else holder_in locks.old.held y) }
    ensures spare { unspent.old.spare ≤ unspent.new.spare }
    ensures room { locks.old.spare ≤ locks.new.spare + length xs.now }
{
    for x in xs {
        unspent.remove(x);
        locks.release(x);
        locks.take(*x, *batch, place);
    }
}

/// Locks the inputs of the Held entries.
pub fn lock_held(unspent: &mut Table, locks: &mut Locks, entries: &[Answered], batch: &BatchId)
    requires { length (held_inputs entries.now) ≤ locks.old.spare }
    ensures unspent { (y : Digest)
        → has unspent.new.hashes y ≡ (not (has (held_inputs entries.now) y) && has unspent.old.hashes y) }
    ensures locks { (y : Digest) → holder_in locks.new.held y
        ≡ (if has (held_inputs entries.now) y then Some batch.now else holder_in locks.old.held y) }
    ensures spare { unspent.old.spare ≤ unspent.new.spare }
{
    for answered in entries {
        if is_held(&answered.reply) {
            let inputs = answered.entry.inputs.as_slice();
            lock_all(unspent, locks, inputs, batch, answered.entry.place);
        }
    }
}

// Takes spent hashes out.
fn take_all(unspent: &mut Table, locks: &mut Locks, xs: &[Hash])
    ensures unspent { (y : Digest)
        → has unspent.new.hashes y ≡ (not (has xs.now y) && has unspent.old.hashes y) }
    ensures locks { (y : Digest)
        → lookup locks.new.held y ≡ (if has xs.now y then None else lookup locks.old.held y) }
    ensures spare { unspent.old.spare ≤ unspent.new.spare }
{
    for x in xs {
        unspent.remove(x);
        locks.release(x);
    }
}

// Makes hashes unspent and free.
fn put_all(unspent: &mut Table, locks: &mut Locks, xs: &[Hash])
    requires { length xs.now ≤ unspent.old.spare }
    ensures unspent { (y : Digest) → has unspent.new.hashes y ≡ (has xs.now y || has unspent.old.hashes y) }
    ensures locks { (y : Digest)
        → lookup locks.new.held y ≡ (if has xs.now y then None else lookup locks.old.held y) }
    ensures spare { unspent.old.spare ≤ unspent.new.spare + length xs.now }
{
    for x in xs {
        locks.release(x);
        unspent.insert(*x);
    }
}

/// Takes the inputs of the committed entries out.
pub fn take_committed(unspent: &mut Table, locks: &mut Locks, entries: &[Entry], decisions: &[bool])
    requires { length decisions.now ≡ length entries.now }
    ensures unspent { (y : Digest) → has unspent.new.hashes y
        ≡ (not (has (inputs_where entries.now decisions.now) y) && has unspent.old.hashes y) }
    ensures locks { (y : Digest) → lookup locks.new.held y
        ≡ (if has (inputs_where entries.now decisions.now) y then None else lookup locks.old.held y) }
    ensures spare { unspent.old.spare ≤ unspent.new.spare }
{
    for at in 0..entries.len() {
        let entry = &entries[at];
        if decisions[at] {
            take_all(unspent, locks, entry.inputs.as_slice());
        }
    }
}

// Whether the inputs of an entry with this reply return.
fn is_returned(reply: &Reply, commit: bool) -> bool
    ensures { result ≡ (reply_is_held reply.now && not commit) }
{
    is_held(reply) && !commit
}

/// Returns the inputs of the Held entries that aren't committed.
pub fn return_others(
    unspent: &mut Table,
    locks: &mut Locks,
    entries: &[Entry],
    replies: &[Reply],
    decisions: &[bool],
)
    requires replies { length replies.now ≡ length entries.now }
    requires decisions { length decisions.now ≡ length entries.now }
    requires room { inputs_in entries.now ≤ unspent.old.spare }
    ensures unspent { (y : Digest) → has unspent.new.hashes y
        ≡ (has (returned_where entries.now replies.now decisions.now) y || has unspent.old.hashes y) }
    ensures locks { (y : Digest) → lookup locks.new.held y ≡ (if has
        (returned_where entries.now replies.now decisions.now) y then None else lookup locks.old.held y) }
    ensures spare { unspent.old.spare ≤ unspent.new.spare + inputs_in entries.now }
{
    for at in 0..entries.len() {
        let entry = &entries[at];
        let reply = &replies[at];
        if is_returned(reply, decisions[at]) {
            put_all(unspent, locks, entry.inputs.as_slice());
        }
    }
}

/// Makes the outputs of the committed entries unspent.
pub fn make_committed(unspent: &mut Table, locks: &mut Locks, entries: &[Entry], decisions: &[bool])
    requires decisions { length decisions.now ≡ length entries.now }
    requires room { outputs_in entries.now ≤ unspent.old.spare }
    ensures unspent { (y : Digest) → has unspent.new.hashes y
        ≡ (has (outputs_where entries.now decisions.now) y || has unspent.old.hashes y) }
    ensures locks { (y : Digest) → lookup locks.new.held y
        ≡ (if has (outputs_where entries.now decisions.now) y then None else lookup locks.old.held y) }
    ensures spare { unspent.old.spare ≤ unspent.new.spare + outputs_in entries.now }
{
    for at in 0..entries.len() {
        let entry = &entries[at];
        if decisions[at] {
            put_all(unspent, locks, entry.outputs.as_slice());
        }
    }
}

// What a shard's journal says of a hash, looking back over its records.
ghost use Rattle.std.specs.Prelude.{◌≡◌};
ghost use Rattle.cbdc_model.specs.Status.{has, held_inputs, taken_inputs, made_outputs, returned_inputs, finished_status, status};

use cbdc_types::{Answered, Hash, Record, Status};
use same_records::{is_held, lock_of};

/// Whether a hash stands in a list.
pub fn has(xs: &[Hash], x: &Hash) -> bool
    ensures { result ≡ has xs.now x.now }
{
    xs.contains(x)
}

/// Whether the hash is an input of a Held entry.
#[tactic(auto, using(crate::proofs::Digests::has_append))]
pub fn is_held_input(es: &[Answered], x: &Hash) -> bool
    ensures { result ≡ has (held_inputs es.now) x.now }
{
    match es.split_first() {
        None => false,
        Some((a, rest)) => {
            if is_held(&a.reply) {
                has(a.entry.inputs.as_slice(), x) || is_held_input(rest, x)
            } else {
                is_held_input(rest, x)
            }
        }
    }
}

/// Whether the hash is an input of a committed entry.
#[tactic(auto, using(crate::proofs::Digests::has_append))]
pub fn is_taken_input(es: &[Answered], decisions: &[bool], x: &Hash) -> bool
    ensures { result ≡ has (taken_inputs es.now decisions.now) x.now }
{
    match (es.split_first(), decisions.split_first()) {
        (Some((a, rest)), Some((d, others))) => {
            if *d {
                has(a.entry.inputs.as_slice(), x) || is_taken_input(rest, others, x)
            } else {
                is_taken_input(rest, others, x)
            }
        }
        _ => false,
    }
}

/// Whether the hash is an output of a committed entry.
#[tactic(auto, using(crate::proofs::Digests::has_append))]
pub fn is_made_output(es: &[Answered], decisions: &[bool], x: &Hash) -> bool
    ensures { result ≡ has (made_outputs es.now decisions.now) x.now }
{
    match (es.split_first(), decisions.split_first()) {
        (Some((a, rest)), Some((d, others))) => {
            if *d {
                has(a.entry.outputs.as_slice(), x) || is_made_output(rest, others, x)
            } else {
                is_made_output(rest, others, x)
            }
        }
        _ => false,
    }
}

/// Whether the hash is an input of an entry that is Held and not committed.
#[tactic(auto, using(crate::proofs::Digests::has_append))]
pub fn is_returned_input(es: &[Answered], decisions: &[bool], x: &Hash) -> bool
    ensures { result ≡ has (returned_inputs es.now decisions.now) x.now }
{
    match (es.split_first(), decisions.split_first()) {
        (Some((a, rest)), Some((d, others))) => {
            if is_held(&a.reply) && !*d {
                has(a.entry.inputs.as_slice(), x) || is_returned_input(rest, others, x)
            } else {
                is_returned_input(rest, others, x)
            }
        }
        _ => false,
    }
}

/// What a Finish with these decisions makes of a hash that had the status before.
pub fn finished_status(es: &[Answered], decisions: &[bool], x: &Hash, before: Status) -> Status
    ensures { result ≡ finished_status es.now decisions.now x.now before }
{
    if is_made_output(es, decisions, x) {
        Status::Unspent
    } else if is_returned_input(es, decisions, x) {
        Status::Unspent
    } else if is_taken_input(es, decisions, x) {
        Status::Absent
    } else {
        before
    }
}

/// What a shard with this journal knows of a hash: the last record that names it decides.
pub fn status_of(past: &[Record], x: &Hash) -> Status
    ensures { result ≡ status past.now x.now }
{
    let Some((r, rest)) = past.split_first() else {
        return Status::Absent;
    };
    match r {
        Record::Genesis { hashes, .. } => {
            if has(hashes.as_slice(), x) {
                Status::Unspent
            } else {
                status_of(rest, x)
            }
        }
        Record::Carry { hashes, .. } => {
            if has(hashes.as_slice(), x) {
                Status::Unspent
            } else {
                status_of(rest, x)
            }
        }
        Record::Lock { batch, entries, .. } => {
            if is_held_input(entries.as_slice(), x) {
                Status::Locked(*batch)
            } else {
                status_of(rest, x)
            }
        }
        Record::Finish {
            batch,
            decisions,
            ..
        } => {
            let before = status_of(rest, x);
            finished_status(lock_of(rest, batch), decisions.as_slice(), x, before)
        }
        _ => status_of(rest, x),
    }
}

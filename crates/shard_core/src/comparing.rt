// Where two lists first differ.
ghost use Rattle.std.specs.Prelude.{◌≡◌};
ghost use Rattle.cbdc_model.specs.Records.{same_digest, is_held as reply_is_held};
ghost use Rattle.cbdc_model.specs.Next.{same_entry, same_digests, same_decision};
ghost use Rattle.shard_core.specs.Places.{first_misfit, fits_reply};

use cbdc_types::{Entry, Hash, Reply};

fn are_same_hashes(a: &[Hash], b: &[Hash]) -> bool
    ensures { result ≡ same_digests a.now b.now }
{
    a == b
}

/// Whether two hashes are the same.
pub fn is_same_hash(x: &Hash, y: &Hash) -> bool
    ensures { result ≡ same_digest x.now y.now }
{
    x == y
}

fn are_same_entries(x: &Entry, y: &Entry) -> bool
    ensures { result ≡ same_entry x.now y.now }
{
    x.place == y.place
        && is_same_hash(&x.id, &y.id)
        && are_same_hashes(x.inputs.as_slice(), y.inputs.as_slice())
        && are_same_hashes(x.outputs.as_slice(), y.outputs.as_slice())
}

/// The first place where the parts differ, or the shorter length; None where they are the same.
pub fn other_part(kept: &[Entry], given: &[Entry]) -> Option<u64>
    ensures { result ≡ first_misfit same_entry kept.now given.now }
{
    for at in 0..kept.len().min(given.len()) {
        if !are_same_entries(&kept[at], &given[at]) {
            return Some(at as u64);
        }
    }
    if kept.len() == given.len() {
        None
    } else {
        Some(kept.len().min(given.len()) as u64)
    }
}

/// The first place where the decisions differ, or the shorter length; None where they are the same.
pub fn other_decisions(kept: &[bool], given: &[bool]) -> Option<u64>
    ensures { result ≡ first_misfit same_decision kept.now given.now }
{
    for at in 0..kept.len().min(given.len()) {
        if kept[at] != given[at] {
            return Some(at as u64);
        }
    }
    if kept.len() == given.len() {
        None
    } else {
        Some(kept.len().min(given.len()) as u64)
    }
}

/// The first place where an entry that isn't Held is to be committed, or the shorter length; None where the decisions fit.
pub fn misfit(replies: &[Reply], decisions: &[bool]) -> Option<u64>
    ensures { result ≡ first_misfit fits_reply replies.now decisions.now }
{
    for at in 0..replies.len().min(decisions.len()) {
        if decisions[at] && !is_held(&replies[at]) {
            return Some(at as u64);
        }
    }
    if replies.len() == decisions.len() {
        None
    } else {
        Some(replies.len().min(decisions.len()) as u64)
    }
}

/// Whether a reply is Held.
pub fn is_held(reply: &Reply) -> bool
    ensures { result ≡ reply_is_held reply.now }
{
    match reply {
        Reply::Held => true,
        Reply::Missing(_) => false,
        Reply::Locked(_, _) => false,
    }
}

// All journals that given ones may have been once.
ghost use Rattle.std.specs.Prelude.{◌≡◌, ◌↔◌, ◌∷◌, ◌++◌, ◌<◌, ℕ, map, IsTrue, IfOk, OnOk};
ghost use Rattle.plain_check.specs.Journals.{journals_in};
ghost use Rattle.plain_check.specs.Choices.{ends_of, each_before, choices};

use crate::adding::journal_of;
use crate::copying::{put, put_copy, with_front};
use cbdc_types::{List, Record};
use same_records::is_journal;
use std::alloc::{AllocError, Global};

// Puts copies of journals behind those so far.
fn add_copies(
    alloc: Global,
    journals: &[List<Record>],
    out: &mut Vec<List<Record>>,
) -> Result<(), AllocError>
    ensures { OnOk result (out.new.items ≡ out.old.items ++ journals.now) }
{
    match journals.split_first() {
        None => Ok(()),
        Some((first, rest)) => {
            put_copy(alloc, first.as_slice(), out)?;
            add_copies(alloc, rest, out)
        }
    }
}

// A journal in front of others, all copied.
fn with_journal(
    alloc: Global,
    first: &[Record],
    others: &[List<Record>],
) -> Result<List<List<Record>>, AllocError>
    ensures { IfOk result (λ l. l ≡ first.now ∷ others.now) }
{
    let mut all = Vec::new(alloc);
    put_copy(alloc, first, &mut all)?;
    add_copies(alloc, others, &mut all)?;
    Ok(List::from_vec(all))
}

// Puts a journal in front of each of those, behind what there is.
fn add_before(
    alloc: Global,
    first: &[Record],
    others: &[List<List<Record>>],
    out: &mut Vec<List<List<Record>>>,
) -> Result<(), AllocError>
    ensures { OnOk result (out.new.items ≡ out.old.items ++ map (λ w. first.now ∷ w) others.now) }
{
    match others.split_first() {
        None => Ok(()),
        Some((world, rest)) => {
            put(out, with_journal(alloc, first, world.as_slice())?)?;
            add_before(alloc, first, rest, out)
        }
    }
}

// Puts a journal, and what it was before each of its records, in front of each of those, behind what there is.
fn add_ends_before(
    alloc: Global,
    past: &[Record],
    others: &[List<List<Record>>],
    out: &mut Vec<List<List<Record>>>,
) -> Result<(), AllocError>
    ensures { OnOk result (out.new.items ≡ out.old.items ++ each_before (ends_of past.now) others.now) }
{
    add_before(alloc, past, others, out)?;
    match past.split_first() {
        None => Ok(()),
        Some((_, rest)) => add_ends_before(alloc, rest, others, out),
    }
}

// A journal, and what it was before each of its records, in front of each of those.
fn ends_before(
    alloc: Global,
    past: &[Record],
    others: &[List<List<Record>>],
) -> Result<List<List<List<Record>>>, AllocError>
    ensures { IfOk result (λ l. l ≡ each_before (ends_of past.now) others.now) }
{
    let mut out = Vec::new(alloc);
    add_ends_before(alloc, past, others, &mut out)?;
    Ok(List::from_vec(out))
}

/// All journals of these nodes that those given may have been once.
pub fn choices_of(
    alloc: Global,
    journals: &[List<Record>],
) -> Result<List<List<List<Record>>>, AllocError>
    ensures { IfOk result (λ l. l ≡ choices journals.now) }
{
    match journals.split_first() {
        None => with_front(List::new(alloc), List::new(alloc)),
        Some((first, rest)) => {
            let others = choices_of(alloc, rest)?;
            ends_before(alloc, first.as_slice(), others.as_slice())
        }
    }
}

// Whether the nodes below n have the same journals.
fn are_same_below(old: &[List<Record>], new: &[List<Record>], n: usize) -> bool
    ensures { IsTrue result ↔ ((k : ℕ) → k < n → journals_in new.now k ≡ journals_in old.now k) }
{
    if n == 0 {
        return true;
    }
    is_journal(journal_of(new, n - 1), journal_of(old, n - 1)) && are_same_below(old, new, n - 1)
}

/// Whether all nodes have the same journals.
#[tactic(auto, using(crate::proofs::Choosing::same_by, crate::proofs::Growing::past_end))]
pub fn are_same(old: &[List<Record>], new: &[List<Record>]) -> bool
    ensures { IsTrue result ↔ ((n : ℕ) → journals_in new.now n ≡ journals_in old.now n) }
{
    are_same_below(old, new, old.len().max(new.len()))
}

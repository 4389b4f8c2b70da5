// The committed transactions as they were handed in.
ghost use Rattle.std.specs.Prelude.{◌≡◌, ◌∷◌, List as Items, None, Some, IfOk, MatchOption};
ghost use Rattle.cbdc_model.specs.Coins.{FullTx as ModelTx, compact};
ghost use Rattle.cbdc_model.specs.History.{first_with, same_compact, AreHandedIn, AreCommitted};

use crate::copying::{copy_of_full, with_front};
use crate::history::{Row, committed_compact};
use cbdc_types::{CompactTx, FullTx, List};
use same_records::is_same_compact;
use sentinel::compact;
use std::alloc::{AllocError, Global};

// Whether a transaction has a compact form.
fn has_form(alloc: Global, t: &FullTx, k: &CompactTx) -> Result<bool, AllocError>
    ensures { IfOk result (λ yes. yes ≡ same_compact (compact t.now) k.now) }
{
    let own = compact(alloc, t)?;
    Ok(is_same_compact(&own, k))
}

/// The first submission with a compact form.
pub fn first_with<'a>(
    alloc: Global,
    submissions: &'a [FullTx],
    k: &CompactTx,
) -> Result<Option<&'a FullTx>, AllocError>
    ensures { IfOk result (λ o. MatchOption o (first_with submissions.now k.now ≡ None)
        (λ t. first_with submissions.now k.now ≡ Some t.now)) }
{
    let Some((t, rest)) = submissions.split_first() else {
        return Ok(None);
    };
    if has_form(alloc, t, k)? {
        return Ok(Some(t));
    }
    first_with(alloc, rest, k)
}

// For each compact form in turn the first submission with it. None where one has none.
fn handed_in(
    alloc: Global,
    submissions: &[FullTx],
    ks: &[CompactTx],
) -> Result<Option<List<FullTx>>, AllocError>
    ensures { IfOk result (λ o. MatchOption o ((ts : Items ModelTx)
        → ¬ (AreHandedIn submissions.now ks.now ts)) (λ ts. AreHandedIn submissions.now ks.now ts)) }
{
    let Some((k, rest)) = ks.split_first() else {
        return Ok(Some(List::new(alloc)));
    };
    let Some(t) = first_with(alloc, submissions, k)? else {
        return Ok(None);
    };
    match handed_in(alloc, submissions, rest)? {
        None => Ok(None),
        Some(more) => Ok(Some(with_copy(t, more)?)),
    }
}

// A copy of a transaction in front of others.
fn with_copy(t: &FullTx, more: List<FullTx>) -> Result<List<FullTx>, AllocError>
    ensures { IfOk result (λ l. l ≡ t.now ∷ more) }
{
    with_front(copy_of_full(t)?, more)
}

/// The committed transactions of a history, in the order of their Commits, each the first submission with its compact
/// form. None exactly where one has no such submission.
pub fn committed_of(
    alloc: Global,
    rows: &[Row],
    submissions: &[FullTx],
) -> Result<Option<List<FullTx>>, AllocError>
    ensures { IfOk result (λ o. MatchOption o ((ts : Items ModelTx)
        → ¬ (AreCommitted submissions.now rows.now ts)) (λ ts. AreCommitted submissions.now rows.now ts)) }
{
    let ks = committed_compact(alloc, rows)?;
    handed_in(alloc, submissions, ks.as_slice())
}

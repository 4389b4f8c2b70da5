// Which transactions may be prepared.
ghost use Rattle.std.specs.Prelude.{◌≡◌, ◌↔◌, All, IsTrue, IfOk};
ghost use Rattle.cbdc_model.specs.Clean.{IsProper, IsProperCompact};
ghost use Rattle.cbdc_model.specs.History.{TxsPass};

use cbdc_types::{CompactTx, FullTx, Hash, Record};
use same_records::is_compact;
use sentinel::{AllGood, check, compact};
use std::alloc::{AllocError, Global};

/// Whether a transaction is proper: all but its witnesses' verdicts is as it must be. A sentinel to which all witnesses are good
/// refuses every other one.
#[tactic(auto, using(crate::proofs::Propers::refused_is))]
pub fn is_proper(t: &FullTx) -> bool
    ensures { IsTrue result ↔ IsProper t.now }
{
    match check(t, &Hash([0; 32]), &AllGood) {
        Ok(()) => true,
        Err(_) => false,
    }
}

// Whether a transaction is proper and its compact form, which is given, is this one.
fn is_form(t: &FullTx, own: &CompactTx, k: &CompactTx) -> bool
    ensures { IsTrue result ↔ (IsProper t.now × (own.now ≡ k.now)) }
{
    is_proper(t) && is_compact(own, k)
}

/// Whether a compact transaction is the form of a proper submission.
#[tactic(auto, using(crate::proofs::Propers::proper_none, crate::proofs::Propers::proper_first))]
pub fn is_proper_compact(
    alloc: Global,
    submissions: &[FullTx],
    k: &CompactTx,
) -> Result<bool, AllocError>
    ensures { IfOk result (λ yes. IsTrue yes ↔ IsProperCompact submissions.now k.now) }
{
    let Some((t, rest)) = submissions.split_first() else {
        return Ok(false);
    };
    let own = compact(alloc, t)?;
    if is_form(t, &own, k) {
        return Ok(true);
    }
    is_proper_compact(alloc, rest, k)
}

// Whether each of these is the form of a proper submission.
fn are_proper_compact(
    alloc: Global,
    submissions: &[FullTx],
    ks: &[CompactTx],
) -> Result<bool, AllocError>
    ensures { IfOk result (λ yes. IsTrue yes ↔ All (IsProperCompact submissions.now) ks.now) }
{
    let Some((k, rest)) = ks.split_first() else {
        return Ok(true);
    };
    if !is_proper_compact(alloc, submissions, k)? {
        return Ok(false);
    }
    are_proper_compact(alloc, submissions, rest)
}

/// Whether a record, where it is a Prepare, has forms of proper submissions alone.
pub fn passes(alloc: Global, submissions: &[FullTx], r: &Record) -> Result<bool, AllocError>
    ensures { IfOk result (λ yes. IsTrue yes ↔ TxsPass (IsProperCompact submissions.now) r.now) }
{
    match r {
        Record::Prepare { txs, .. } => are_proper_compact(alloc, submissions, txs.as_slice()),
        _ => Ok(true),
    }
}

// Whether two lists of hashes, entries, compact transactions, outputs or outpoints are the same.
ghost use Rattle.std.specs.Prelude.{◌≡◌, ◌==◌, ◌&&◌};
ghost use Rattle.std.specs.Ordering.{eq_by_cmp, nat_cmp};
ghost use Rattle.std.specs.Cmp.Lexicographic.{slice_cmp};
ghost use Rattle.cbdc_model.specs.Book.{key, same_output};
ghost use Rattle.cbdc_model.specs.History.{same_compact};
ghost use Rattle.cbdc_model.specs.Next.{same_digests, same_entry};
ghost use Rattle.cbdc_model.specs.Records.{same_digest};

use crate::values::is_same_hash;
use cbdc_types::{CompactTx, Entry, Hash, OutPoint, Output};

/// Whether two lists of hashes are the same.
#[tactic(auto, using(crate::proofs::Digests::pointwise_is))]
pub fn are_same_hashes(xs: &[Hash], ys: &[Hash]) -> bool
    ensures { result ≡ same_digests xs.now ys.now }
{
    xs == ys
}

/// Whether two entries are the same.
pub fn is_same_entry(e: &Entry, f: &Entry) -> bool
    ensures { result ≡ same_entry e.now f.now }
{
    e.place == f.place
        && is_same_hash(&e.id, &f.id)
        && are_same_hashes(e.inputs.as_slice(), f.inputs.as_slice())
        && are_same_hashes(e.outputs.as_slice(), f.outputs.as_slice())
}

/// Whether two compact transactions are the same.
pub fn is_same_compact(a: &CompactTx, b: &CompactTx) -> bool
    ensures { result ≡ same_compact a.now b.now }
{
    is_same_hash(&a.id, &b.id)
        && are_same_hashes(a.inputs.as_slice(), b.inputs.as_slice())
        && are_same_hashes(a.outputs.as_slice(), b.outputs.as_slice())
}

/// Whether two outputs are the same.
pub fn is_same_output(o: &Output, p: &Output) -> bool
    ensures { result ≡ same_output o.now p.now }
{
    is_same_hash(&o.program, &p.program) && o.value == p.value
}

// Whether two outpoints have the same index and the same id.
fn has_same_fields(p: &OutPoint, q: &OutPoint) -> bool
    ensures { result ≡ ((p.now.index == q.now.index) && same_digest p.now.tx q.now.tx) }
{
    p.index == q.index && is_same_hash(&p.tx, &q.tx)
}

/// Whether two outpoints are the same.
pub fn is_same_point(p: &OutPoint, q: &OutPoint) -> bool
    ensures { result ≡ eq_by_cmp (slice_cmp nat_cmp) (key p.now) (key q.now) }
{
    has_same_fields(p, q)
}

// Whether two things are the same.
ghost use Rattle.std.specs.Prelude.{◌≡◌, ◌↔◌, IsTrue};

use cbdc_types::{Answered, BatchId, Hash, Outcome};

/// Whether two hashes are the same.
pub fn is_hash(x: &Hash, y: &Hash) -> bool
    ensures { IsTrue result ↔ (x.now ≡ y.now) }
{
    x == y
}

/// Whether two batches are the same.
pub fn is_batch(a: &BatchId, b: &BatchId) -> bool
    ensures { IsTrue result ↔ (a.now ≡ b.now) }
{
    a == b
}

/// Whether two lists of outcomes are the same.
#[tactic(auto, using(crate::proofs::Deciding::outcomes_decide))]
pub fn are_outcomes(os: &[Outcome], ps: &[Outcome]) -> bool
    ensures { IsTrue result ↔ (os.now ≡ ps.now) }
{
    os == ps
}

/// Whether two lists of answered entries are the same.
#[tactic(auto, using(crate::proofs::Deciding::all_answered_decide))]
pub fn are_answered(xs: &[Answered], ys: &[Answered]) -> bool
    ensures { IsTrue result ↔ (xs.now ≡ ys.now) }
{
    xs == ys
}

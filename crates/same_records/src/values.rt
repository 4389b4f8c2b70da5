// Whether two hashes or batches are the same, and whether a reply or an outcome is Held.
ghost use Rattle.std.specs.Prelude.{◌≡◌};
ghost use Rattle.cbdc_model.specs.Records.{same_digest, same_batch, is_held, is_won};

use cbdc_types::{BatchId, Hash, Outcome, Reply};

/// Whether two hashes are the same.
pub fn is_same_hash(x: &Hash, y: &Hash) -> bool
    ensures { result ≡ same_digest x.now y.now }
{
    x == y
}

/// Whether two names of batches are the same.
pub fn is_same_batch(a: &BatchId, b: &BatchId) -> bool
    ensures { result ≡ same_batch a.now b.now }
{
    a.lane.0 == b.lane.0 && a.number == b.number
}

/// Whether a reply is Held.
pub fn is_held(reply: &Reply) -> bool
    ensures { result ≡ is_held reply.now }
{
    match reply {
        Reply::Held => true,
        Reply::Missing(_) => false,
        Reply::Locked(_, _) => false,
    }
}

/// Whether an outcome is Held: the transaction is committed.
pub fn is_won(outcome: &Outcome) -> bool
    ensures { result ≡ is_won outcome.now }
{
    match outcome {
        Outcome::Held => true,
        Outcome::Missing(_, _) => false,
        Outcome::Locked(_, _, _) => false,
    }
}

// A verifier, and what it says of the witnesses of a transaction.

ghost use Rattle.std.specs.Prelude.{◌≡◌, ℕ, List};

use base_types::Hash;

/// What is known of the witness of an input.
#[derive(Clone, Copy, Debug, PartialEq, Eq)]
pub enum Verdict {
    Good,
    Bad,
    /// Nothing is known of it.
    Absent,
}

/// What tells verdicts. A call takes no memory.
pub trait Verifier {
    ghost use Rattle.sentinel.specs.declared.verifier.Verdict.{Verdict};

    /// The verdict on the witness of each input of each transaction, by id and place.
    ghost verdict_of: { Self → List ℕ → ℕ → Verdict };

    /// The verdict on the witness of the input at this place, from 0.
    fn verdict(&self, tx: &Hash, index: u64) -> Verdict
        ensures { result ≡ verdict_of self.now tx.now index };
}

/// Every witness is good.
#[derive(Clone, Copy, Debug, PartialEq, Eq)]
pub struct AllGood;

impl Verifier for AllGood {
    ghost use Rattle.sentinel.specs.declared.verifier.Verdict.TheVariants.{Good};

    ghost verdict_of = { λ _ _ _. Good };

    fn verdict(&self, _tx: &Hash, _index: u64) -> Verdict {
        Verdict::Good
    }
}

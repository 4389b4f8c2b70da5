// Why a transaction is refused.
ghost use Rattle.std.specs.Prelude.{MatchOption};
ghost use Rattle.sentinel.specs.FirstRefusal.{IsFirstRefusal, IsSoundTx};
ghost use Rattle.plain_check.specs.Verdicts.{verdicts_in};

use cbdc_types::{FullTx, Hash, List, Refusal};
use sentinel::{Verdict, Verifier, check};

/// The verdicts on the witnesses of one transaction, by place: Absent past the end.
#[derive(Drop)]
pub struct Listed {
    pub verdicts: List<Verdict>,
}

impl Verifier for Listed {
    ghost use Rattle.plain_check.specs.Verdicts.{verdicts_in};

    ghost verdict_of = { λ s _ i. verdicts_in s.verdicts i };

    fn verdict(&self, _tx: &Hash, index: u64) -> Verdict {
        match self.verdicts.as_slice().get(index as usize) {
            Some(verdict) => *verdict,
            None => Verdict::Absent,
        }
    }
}

/// The first reason that applies to a transaction with these verdicts on its witnesses, by place. None where it is sound.
pub fn first_refusal_of(t: &FullTx, verdicts: &Listed) -> Option<Refusal>
    ensures { MatchOption result (IsSoundTx t.now (verdicts_in verdicts.now.verdicts))
        (λ r. IsFirstRefusal t.now (verdicts_in verdicts.now.verdicts) r) }
{
    check(t, &Hash([0; 32]), verdicts).err()
}

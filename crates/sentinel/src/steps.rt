// Each reason by itself.
ghost use Rattle.std.specs.Prelude.{MatchResult, ℕ, ◌<◌, ◌^◌};
ghost use Rattle.cbdc_model.specs.Money.{ArePaired};
ghost use Rattle.sentinel.specs.FirstRefusal.{AppliesAt, NoneAt, Verdicts, input_sum, issuable_in, issuable_out, output_sum, permits_in, permits_out};

use crate::permits::{permits_among, permits_claimed, worth_among, worth_claimed};
use crate::places::{
    burned_input, repeated, sum_of_inputs, sum_of_outputs, with_verdict, zero_input, zero_output,
};
use crate::{Verdict, Verifier};
use cbdc_types::{FullTx, Hash, Refusal};

const LIMIT: u128 = 0x1_0000_0000_0000_0000;

/// The reason of rank 0.
pub(crate) fn has_inputs(tx: &FullTx) -> Result<(), Refusal>
    ensures { (verdicts : Verdicts)
        → MatchResult result (λ _. NoneAt 0 tx.now verdicts) (λ r. AppliesAt 0 tx.now verdicts r) }
{
    if tx.inputs.is_empty() {
        return Err(Refusal::NoInputs);
    }
    Ok(())
}

/// The reason of rank 1.
pub(crate) fn has_outputs(tx: &FullTx) -> Result<(), Refusal>
    ensures { (verdicts : Verdicts)
        → MatchResult result (λ _. NoneAt 1 tx.now verdicts) (λ r. AppliesAt 1 tx.now verdicts r) }
{
    if tx.outputs.is_empty() {
        return Err(Refusal::NoOutputs);
    }
    Ok(())
}

/// The reason of rank 2.
pub(crate) fn has_witnesses(tx: &FullTx) -> Result<(), Refusal>
    ensures { (verdicts : Verdicts)
        → MatchResult result (λ _. NoneAt 2 tx.now verdicts) (λ r. AppliesAt 2 tx.now verdicts r) }
{
    if tx.witnesses.len() != tx.inputs.len() {
        return Err(Refusal::WitnessCount);
    }
    Ok(())
}

/// The reason of rank 3.
pub(crate) fn repeats(tx: &FullTx) -> Result<(), Refusal>
    ensures { (verdicts : Verdicts)
        → MatchResult result (λ _. NoneAt 3 tx.now verdicts) (λ r. AppliesAt 3 tx.now verdicts r) }
{
    match repeated(tx.inputs.as_slice()) {
        Some(place) => Err(Refusal::RepeatedInput(place)),
        None => Ok(()),
    }
}

/// The reason of rank 4.
pub(crate) fn has_zero_input(tx: &FullTx) -> Result<(), Refusal>
    ensures { (verdicts : Verdicts)
        → MatchResult result (λ _. NoneAt 4 tx.now verdicts) (λ r. AppliesAt 4 tx.now verdicts r) }
{
    match zero_input(tx.inputs.as_slice()) {
        Some(place) => Err(Refusal::ZeroInput(place)),
        None => Ok(()),
    }
}

/// The reason of rank 5.
pub(crate) fn has_zero_output(tx: &FullTx) -> Result<(), Refusal>
    ensures { (verdicts : Verdicts)
        → MatchResult result (λ _. NoneAt 5 tx.now verdicts) (λ r. AppliesAt 5 tx.now verdicts r) }
{
    match zero_output(tx.outputs.as_slice()) {
        Some(place) => Err(Refusal::ZeroOutput(place)),
        None => Ok(()),
    }
}

/// The reason of rank 6.
pub(crate) fn fits_inputs(tx: &FullTx) -> Result<(), Refusal>
    ensures { (verdicts : Verdicts)
        → MatchResult result (λ _. NoneAt 6 tx.now verdicts) (λ r. AppliesAt 6 tx.now verdicts r) }
{
    if sum_of_inputs(tx.inputs.as_slice()) >= LIMIT {
        return Err(Refusal::InputOverflow);
    }
    Ok(())
}

/// The reason of rank 7.
pub(crate) fn fits_outputs(tx: &FullTx) -> Result<(), Refusal>
    ensures { (verdicts : Verdicts)
        → MatchResult result (λ _. NoneAt 7 tx.now verdicts) (λ r. AppliesAt 7 tx.now verdicts r) }
{
    if sum_of_outputs(tx.outputs.as_slice()) >= LIMIT {
        return Err(Refusal::OutputOverflow);
    }
    Ok(())
}

/// The reason of rank 8.
pub(crate) fn balances(tx: &FullTx) -> Result<(), Refusal>
    requires ins { input_sum tx.now < 2 ^ 64 }
    requires outs { output_sum tx.now < 2 ^ 64 }
    ensures { (verdicts : Verdicts)
        → MatchResult result (λ _. NoneAt 8 tx.now verdicts) (λ r. AppliesAt 8 tx.now verdicts r) }
{
    let ins = sum_of_inputs(tx.inputs.as_slice()) as u64;
    let outs = sum_of_outputs(tx.outputs.as_slice()) as u64;
    if ins != outs {
        return Err(Refusal::Unbalanced { ins, outs });
    }
    Ok(())
}

/// The reason of rank 9.
pub(crate) fn spends_burned(tx: &FullTx) -> Result<(), Refusal>
    ensures { (verdicts : Verdicts)
        → MatchResult result (λ _. NoneAt 9 tx.now verdicts) (λ r. AppliesAt 9 tx.now verdicts r) }
{
    match burned_input(tx.inputs.as_slice()) {
        Some(place) => Err(Refusal::BurnedInput(place)),
        None => Ok(()),
    }
}

/// The reason of rank 10.
pub(crate) fn pairs_permits(tx: &FullTx) -> Result<(), Refusal>
    ensures { (verdicts : Verdicts)
        → MatchResult result (λ _. NoneAt 10 tx.now verdicts) (λ r. AppliesAt 10 tx.now verdicts r) }
{
    let ins = permits_claimed(tx.inputs.as_slice());
    let outs = permits_among(tx.outputs.as_slice());
    if ins != outs || ins > 1 {
        return Err(Refusal::PermitCount { ins, outs });
    }
    Ok(())
}

/// The reason of rank 11, where the permits are paired.
pub(crate) fn raises_permit(tx: &FullTx) -> Result<(), Refusal>
    requires ins { issuable_in tx.now < 2 ^ 64 }
    requires outs { issuable_out tx.now < 2 ^ 64 }
    requires paired { ArePaired (permits_in tx.now) (permits_out tx.now) }
    ensures { (verdicts : Verdicts)
        → MatchResult result (λ _. NoneAt 11 tx.now verdicts) (λ r. AppliesAt 11 tx.now verdicts r) }
{
    let was = worth_claimed(tx.inputs.as_slice()) as u64;
    let now = worth_among(tx.outputs.as_slice()) as u64;
    if was < now {
        return Err(Refusal::PermitRaised { was, now });
    }
    Ok(())
}

/// The reason of rank 12.
pub(crate) fn has_bad<V: Verifier>(tx: &FullTx, id: &Hash, verifier: &V) -> Result<(), Refusal>
    ensures { MatchResult result (λ _. NoneAt 12 tx.now (V.verdict_of verifier.now id.now))
        (λ r. AppliesAt 12 tx.now (V.verdict_of verifier.now id.now) r) }
{
    match with_verdict(tx.inputs.as_slice(), id, verifier, Verdict::Bad) {
        Some(place) => Err(Refusal::BadWitness(place)),
        None => Ok(()),
    }
}

/// The reason of rank 13.
pub(crate) fn has_unverified<V: Verifier>(
    tx: &FullTx,
    id: &Hash,
    verifier: &V,
) -> Result<(), Refusal>
    ensures { MatchResult result (λ _. NoneAt 13 tx.now (V.verdict_of verifier.now id.now))
        (λ r. AppliesAt 13 tx.now (V.verdict_of verifier.now id.now) r) }
{
    match with_verdict(tx.inputs.as_slice(), id, verifier, Verdict::Absent) {
        Some(place) => Err(Refusal::Unverified(place)),
        None => Ok(()),
    }
}

// The least place of something.
ghost use Rattle.std.specs.Prelude.{◌≡◌, ◌<◌, ◌≤◌, ◌↔◌, ℕ, length, sum_by, IsTrue, MatchOption};
ghost use Rattle.cbdc_types.specs.Kinds.{kind_of};
ghost use Rattle.cbdc_types.specs.declared.tx.Kind.TheVariants.{Burn as BurnKind};
ghost use Rattle.sentinel.specs.FirstRefusal.{HasAt, HasVerdict, IsLeast, Repeats};

use crate::{Verdict, Verifier};
use cbdc_types::{Hash, Input, Kind, Output, kind};

/// The first input of value 0.
pub(crate) fn zero_input(inputs: &[Input]) -> Option<u64>
    ensures { MatchOption result ((i : ℕ) → ¬ (HasAt (λ x. x.output.value ≡ 0) inputs.now i))
        (λ i. IsLeast (HasAt (λ x. x.output.value ≡ 0) inputs.now) i) }
{
    'inputs: for (index, input) in inputs.iter().enumerate() {
        if input.output.value == 0 {
            return Some(index as u64);
        }
    }
    None
}

/// The first output of value 0.
pub(crate) fn zero_output(outputs: &[Output]) -> Option<u64>
    ensures { MatchOption result ((i : ℕ) → ¬ (HasAt (λ o. o.value ≡ 0) outputs.now i))
        (λ i. IsLeast (HasAt (λ o. o.value ≡ 0) outputs.now) i) }
{
    'outputs: for (index, output) in outputs.iter().enumerate() {
        if output.value == 0 {
            return Some(index as u64);
        }
    }
    None
}

// Whether the outpoint of an input stands earlier.
fn stands_earlier(inputs: &[Input], at: usize) -> bool
    requires { at < length inputs.now }
    ensures { IsTrue result ↔ Repeats inputs.now at }
{
    let point = inputs[at].point;
    'earlier: for index in 0..at {
        if inputs[index].point == point {
            return true;
        }
    }
    false
}

/// The first input whose outpoint stands earlier.
pub(crate) fn repeated(inputs: &[Input]) -> Option<u64>
    ensures { MatchOption result ((i : ℕ) → ¬ (Repeats inputs.now i)) (λ i. IsLeast (Repeats inputs.now) i) }
{
    'inputs: for index in 0..inputs.len() {
        if stands_earlier(inputs, index) {
            return Some(index as u64);
        }
    }
    None
}

/// The first input that claims a burn output.
pub(crate) fn burned_input(inputs: &[Input]) -> Option<u64>
    ensures { MatchOption result ((i : ℕ) → ¬ (HasAt (λ x. kind_of x.output ≡ BurnKind) inputs.now i))
        (λ i. IsLeast (HasAt (λ x. kind_of x.output ≡ BurnKind) inputs.now) i) }
{
    'inputs: for (index, input) in inputs.iter().enumerate() {
        if kind(&input.output) == Kind::Burn {
            return Some(index as u64);
        }
    }
    None
}

/// The first input whose witness has this verdict.
pub(crate) fn with_verdict<V: Verifier>(
    inputs: &[Input],
    id: &Hash,
    verifier: &V,
    wanted: Verdict,
) -> Option<u64>
    ensures { MatchOption result ((i : ℕ)
        → ¬ (HasVerdict wanted inputs.now (V.verdict_of verifier.now id.now) i))
        (λ i. IsLeast (HasVerdict wanted inputs.now (V.verdict_of verifier.now id.now)) i) }
{
    'inputs: for index in 0..inputs.len() {
        if verifier.verdict(id, index as u64) == wanted {
            return Some(index as u64);
        }
    }
    None
}

/// The sum of the inputs' values.
pub(crate) fn sum_of_inputs(inputs: &[Input]) -> u128
    ensures { result ≡ sum_by (λ x. x.output.value) inputs.now }
{
    let mut total: u128 = 0;
    'inputs: for input in inputs {
        total += u128::from(input.output.value);
    }
    total
}

/// The sum of the outputs' values.
pub(crate) fn sum_of_outputs(outputs: &[Output]) -> u128
    ensures { result ≡ sum_by (λ o. o.value) outputs.now }
{
    let mut total: u128 = 0;
    'outputs: for output in outputs {
        total += u128::from(output.value);
    }
    total
}

// What a transaction issues and redeems.
ghost use Rattle.std.specs.Prelude.{◌≡◌, ◌<◌, ◌^◌};
ghost use Rattle.cbdc_model.specs.Money.{burnt_of, issuable_of, issued_by as issued, redeemed_by as redeemed, sum_in, sum_out};

use cbdc_types::{FullTx, Input, Kind, Output, kind};

// What may be issued with an output.
fn issuable(output: &Output) -> u128
    ensures value { result ≡ issuable_of output.now }
    ensures small { result < 2 ^ 64 }
{
    match kind(output) {
        Kind::Permit => u128::from(output.value),
        Kind::Burn | Kind::Money => 0,
    }
}

// What is redeemed with an output.
fn burnt(output: &Output) -> u128
    ensures value { result ≡ burnt_of output.now }
    ensures small { result < 2 ^ 64 }
{
    match kind(output) {
        Kind::Burn => u128::from(output.value),
        Kind::Permit | Kind::Money => 0,
    }
}

// What may be issued with the outputs that inputs claim.
fn issuable_claimed(inputs: &[Input]) -> u128
    ensures { result ≡ sum_in issuable_of inputs.now }
{
    let mut sum: u128 = 0;
    'inputs: for input in inputs {
        sum += issuable(&input.output);
    }
    sum
}

// What may be issued with outputs.
fn issuable_among(outputs: &[Output]) -> u128
    ensures { result ≡ sum_out issuable_of outputs.now }
{
    let mut sum: u128 = 0;
    'outputs: for output in outputs {
        sum += issuable(output);
    }
    sum
}

/// The value of the permits that a transaction spends, less that of the permits that it makes, where that is positive.
pub(crate) fn issued_by(tx: &FullTx) -> u128
    ensures { result ≡ issued tx.now }
{
    issuable_claimed(tx.inputs.as_slice()).saturating_sub(issuable_among(tx.outputs.as_slice()))
}

/// The value of its burn outputs.
pub(crate) fn redeemed_by(tx: &FullTx) -> u128
    ensures { result ≡ redeemed tx.now }
{
    let mut sum: u128 = 0;
    'outputs: for output in tx.outputs.as_slice() {
        sum += burnt(output);
    }
    sum
}

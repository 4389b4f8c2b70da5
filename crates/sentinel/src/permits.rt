// The permits that a transaction spends and makes.
ghost use Rattle.std.specs.Prelude.{◌≡◌, ◌≤◌, ◌*◌, ◌-◌, ◌^◌, ◌<◌, length};
ghost use Rattle.cbdc_model.specs.Money.{permits_of, issuable_of, sum_in, sum_out};

use cbdc_types::{Input, Kind, Output, kind};

// One for a permit.
fn one_of(output: &Output) -> u64
    ensures value { result ≡ permits_of output.now }
    ensures small { result ≤ 1 }
{
    match kind(output) {
        Kind::Permit => 1,
        Kind::Burn | Kind::Money => 0,
    }
}

// What may be issued with an output.
fn worth_of(output: &Output) -> u128
    ensures value { result ≡ issuable_of output.now }
    ensures small { result < 2 ^ 64 }
{
    match kind(output) {
        Kind::Permit => u128::from(output.value),
        Kind::Burn | Kind::Money => 0,
    }
}

/// How many permits inputs claim.
pub(crate) fn permits_claimed(inputs: &[Input]) -> u64
    ensures { result ≡ sum_in permits_of inputs.now }
{
    let mut count = 0;
    'inputs: for input in inputs {
        count += one_of(&input.output);
    }
    count
}

/// How many permits outputs are.
pub(crate) fn permits_among(outputs: &[Output]) -> u64
    ensures { result ≡ sum_out permits_of outputs.now }
{
    let mut count = 0;
    'outputs: for output in outputs {
        count += one_of(output);
    }
    count
}

/// What may be issued with the permits that inputs claim.
pub(crate) fn worth_claimed(inputs: &[Input]) -> u128
    ensures { result ≡ sum_in issuable_of inputs.now }
{
    let mut worth: u128 = 0;
    'inputs: for input in inputs {
        worth += worth_of(&input.output);
    }
    worth
}

/// What may be issued with the permits that outputs are.
pub(crate) fn worth_among(outputs: &[Output]) -> u128
    ensures { result ≡ sum_out issuable_of outputs.now }
{
    let mut worth: u128 = 0;
    'outputs: for output in outputs {
        worth += worth_of(output);
    }
    worth
}

// What is wrong with what is handed in: why a sentinel refuses a transaction, and what is wrong with an input file.

use std::fmt;
use std::fmt::{Display, Formatter, Write};
use thiserror::Error;

/// Why a sentinel refuses a transaction. Places count from 0.
#[derive(Clone, Copy, Debug, PartialEq, Eq, Error)]
pub enum Refusal {
    #[error("there are no inputs")]
    NoInputs,
    #[error("there are no outputs")]
    NoOutputs,
    /// There are not as many witnesses as inputs.
    #[error("there are not as many witnesses as inputs")]
    WitnessCount,
    /// This input's outpoint stands earlier.
    #[error("input {0} repeats an earlier one")]
    RepeatedInput(u64),
    /// This input claims the value 0.
    #[error("input {0} has the value 0")]
    ZeroInput(u64),
    /// This output has the value 0.
    #[error("output {0} has the value 0")]
    ZeroOutput(u64),
    /// The inputs' values pass 2^64 - 1.
    #[error("the inputs' values pass 2^64 - 1")]
    InputOverflow,
    /// The outputs' values pass 2^64 - 1.
    #[error("the outputs' values pass 2^64 - 1")]
    OutputOverflow,
    #[error("the inputs' values come to {ins}, the outputs' to {outs}")]
    Unbalanced { ins: u64, outs: u64 },
    /// This input claims a burn output, which is never spent.
    #[error("input {0} claims a burn output, which is never spent")]
    BurnedInput(u64),
    /// So many inputs claim permits, and so many outputs are: neither none and none nor one and one.
    #[error("{ins} inputs claim permits, and {outs} outputs are permits")]
    PermitCount { ins: u64, outs: u64 },
    /// The permit that is made has more value than the one that is spent.
    #[error("the permit spent has the value {was}, the one made {now}")]
    PermitRaised { was: u64, now: u64 },
    /// The verdict on this input's witness is bad.
    #[error("the witness of input {0} is bad")]
    BadWitness(u64),
    /// There is no verdict on this input's witness.
    #[error("there is no verdict on the witness of input {0}")]
    Unverified(u64),
}

/// What is wrong with an input file.
#[derive(Clone, Copy, Debug, PartialEq, Eq, Error)]
pub enum InputKind {
    /// The file ends within a field.
    Cut,
    /// A count is above its limit.
    TooMany,
    /// A witness has more than 4,096 bytes.
    TooLong,
    /// A minted output has the value 0.
    Zero,
    /// The file goes on behind the last item.
    Extra,
    /// A field reaches past the first 2^30 bytes of a file that goes on there.
    Large,
    /// A line of a verdict file is outside its form.
    Form,
    /// A line of a verdict file has the id and index of an earlier one.
    Repeated,
}

// What is wrong, in words.
fn words(kind: &InputKind) -> &'static str {
    match kind {
        InputKind::Cut => "the file ends within a field",
        InputKind::TooMany => "a count is above its limit",
        InputKind::TooLong => "a witness has more than 4096 bytes",
        InputKind::Zero => "a minted output has the value 0",
        InputKind::Extra => "the file goes on behind the last item",
        InputKind::Large => "a field is too large",
        InputKind::Form => "a field or line is outside its form",
        InputKind::Repeated => "a line repeats an earlier one",
    }
}

impl Display for InputKind {
    fn fmt<W: Write>(&self, f: &mut Formatter<W>) -> fmt::Result {
        f.write_str(words(self))
    }
}

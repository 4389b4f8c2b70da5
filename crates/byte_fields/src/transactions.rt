// Reading the parts of a transaction.
ghost use Rattle.std.specs.Prelude.{◌≡◌, ◌≤◌, List, ℕ, length, take, drop, Result};
ghost use Rattle.byte_fields.specs.Faults.{Gives};
ghost use Rattle.byte_fields.specs.Transactions.{output_at, input_at, witness_at, transaction_at, point_of, output_of, input_of};

use crate::fault::{Fault, ReadError};
use crate::reading::{Item, hash_in, list, number, number_in, split};
use cbdc_types::{FullTx, Input, InputKind, List, OutPoint, Output};
use std::alloc::Global;

#[tactic(auto, unfolding(crate::specs::Transactions::output_of))]
fn output_in(bytes: &[u8]) -> Output
    requires { length bytes.now ≡ 40 }
    ensures { result ≡ output_of bytes.now }
{
    Output {
        program: hash_in(bytes),
        value: number_in(&bytes[32..]),
    }
}

fn point_in(bytes: &[u8]) -> OutPoint
    requires { length bytes.now ≡ 40 }
    ensures { result ≡ point_of bytes.now }
{
    OutPoint {
        tx: hash_in(bytes),
        index: number_in(&bytes[32..]),
    }
}

#[tactic(auto, unfolding(crate::specs::Transactions::input_of))]
fn input_in(bytes: &[u8]) -> Input
    requires { length bytes.now ≡ 80 }
    ensures { result ≡ input_of bytes.now }
{
    let (point, output) = bytes.split_at(40);
    Input {
        point: point_in(point),
        output: output_in(output),
    }
}

impl Item for Input {
    ghost item_at = { input_at };

    fn read(_alloc: Global, bytes: &[u8]) -> Result<(Input, &[u8]), ReadError> {
        let (field, rest) = split(bytes, 80)?;
        Ok((input_in(field), rest))
    }
}

impl Item for Output {
    ghost item_at = { output_at };

    fn read(_alloc: Global, bytes: &[u8]) -> Result<(Output, &[u8]), ReadError> {
        let (field, rest) = split(bytes, 40)?;
        Ok((output_in(field), rest))
    }
}

#[tactic(auto, unfolding(crate::specs::Transactions::witness_at))]
impl Item for List<u8> {
    ghost item_at = { witness_at };

    fn read(alloc: Global, bytes: &[u8]) -> Result<(List<u8>, &[u8]), ReadError> {
        let (len, rest) = number(bytes)?;
        if len > 4096 {
            return Err(ReadError::Bad(Fault {
                left: bytes.len(),
                kind: InputKind::TooLong,
            }));
        }
        let (content, rest) = split(rest, len as usize)?;
        let content = Vec::from_slice(alloc, content)?;
        Ok((List::from_vec(content), rest))
    }
}

#[tactic(auto, unfolding(crate::specs::Transactions::transaction_at))]
impl Item for FullTx {
    ghost item_at = { transaction_at };

    fn read(alloc: Global, bytes: &[u8]) -> Result<(FullTx, &[u8]), ReadError> {
        let (inputs, rest) = list::<Input>(alloc, 255, bytes)?;
        let (outputs, rest) = list::<Output>(alloc, 255, rest)?;
        let (witnesses, rest) = list::<List<u8>>(alloc, 255, rest)?;
        Ok((
            FullTx {
                inputs,
                outputs,
                witnesses,
            },
            rest,
        ))
    }
}

// Mint files.
ghost use Rattle.std.specs.Prelude.{◌≡◌, ℕ, List, length};
ghost use Rattle.byte_fields.specs.Faults.{Gives};
ghost use Rattle.byte_fields.specs.Reading.{items_at, list_at};
ghost use Rattle.client_files.specs.Files.{GivesFile, mint_in, minted_at};

use crate::FileFault;
use crate::places::{behind, place};
use byte_fields::{Fault, ReadError, hash_in, number, number_in, split};
use cbdc_types::{InputKind, List, Mint, Output};
use std::alloc::Global;

// An output of value at least 1.
#[tactic(auto, unfolding(byte_fields::specs::Transactions::output_of))]
fn minted(bytes: &[u8]) -> Result<(Output, &[u8]), ReadError>
    ensures { Gives (λ x. (x.0, x.1.now)) result (minted_at bytes.now) }
{
    let (field, rest) = split(bytes, 40)?;
    let output = Output {
        program: hash_in(field),
        value: number_in(&field[32..]),
    };
    if output.value == 0 {
        return Err(ReadError::Bad(Fault {
            left: bytes.len(),
            kind: InputKind::Zero,
        }));
    }
    Ok((output, rest))
}

// So many of them.
fn outputs(alloc: Global, count: u64, bytes: &[u8]) -> Result<(List<Output>, &[u8]), ReadError>
    ensures { Gives (λ x. (x.0, x.1.now)) result (items_at minted_at count bytes.now) }
{
    let room = count.min(bytes.len() as u64) as usize;
    let mut items = List::from_vec(Vec::with_capacity(alloc, room)?);
    let mut rest = bytes;
    'items: for i in 0..count {
        match minted(rest) {
            Ok((item, after)) => {
                items.push(item)?;
                rest = after;
            }
            Err(fault) => return Err(fault),
        }
    }
    Ok((items, rest))
}

// Their number, and then so many of them.
#[tactic(auto, unfolding(byte_fields::specs::Reading::list_at))]
fn counted(alloc: Global, bytes: &[u8]) -> Result<(List<Output>, &[u8]), ReadError>
    ensures { Gives (λ x. (x.0, x.1.now)) result (list_at 1000000 minted_at bytes.now) }
{
    let (count, rest) = number(bytes)?;
    if count > 1_000_000 {
        return Err(ReadError::Bad(Fault {
            left: bytes.len(),
            kind: InputKind::TooMany,
        }));
    }
    outputs(alloc, count, rest)
}

/// The outputs of a mint file, each of value at least 1: its first 2^30 bytes, and whether it goes on behind
/// them.
pub fn read_mint(alloc: Global, bytes: &[u8], more: bool) -> Result<Mint, FileFault>
    ensures { GivesFile result (mint_in more bytes.now) }
{
    match counted(alloc, bytes) {
        Ok((outputs, rest)) => match behind(more, rest) {
            None => Ok(outputs),
            Some(fault) => Err(FileFault::Bad(place(bytes.len(), more, &fault))),
        },
        Err(ReadError::Memory) => Err(FileFault::Memory),
        Err(ReadError::Bad(fault)) => Err(FileFault::Bad(place(bytes.len(), more, &fault))),
    }
}

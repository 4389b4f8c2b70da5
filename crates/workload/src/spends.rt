// The transactions that split coins, and those that join the halves.
ghost use Rattle.std.specs.Prelude.{◌≡◌, ◌+◌, ◌≤◌, ◌<◌, map, IfOk};
ghost use Rattle.std.specs.List.{range_with_len};
ghost use Rattle.workload.specs.Generator.{zero_witness as witness_bytes, low_half, high_half, split_of, join_of};

use crate::coins::{coin, program, value};
use cbdc_types::{FullTx, Hash, Input, List, OutPoint, Output};
use sentinel::tx_id;
use std::alloc::{AllocError, Global};

// A witness of zeros.
fn witness(alloc: Global) -> Result<List<u8>, AllocError>
    ensures { IfOk result (λ w. w ≡ witness_bytes) }
{
    Ok(List::from_vec(vec![in alloc; 0u8; 64]?))
}

// The lesser half of a coin.
fn low(seed: u64, count: u64, i: u64) -> Output
    requires count { count ≤ 10000 }
    requires place { i ≤ 10000 }
    ensures { result ≡ low_half seed count i }
{
    Output {
        program: program(count + 2 * i),
        value: value(seed, i) / 2,
    }
}

// The greater half of a coin.
fn high(seed: u64, count: u64, i: u64) -> Output
    requires count { count ≤ 10000 }
    requires place { i ≤ 10000 }
    ensures { result ≡ high_half seed count i }
{
    let whole = value(seed, i);
    Output {
        program: program(count + 2 * i + 1),
        value: whole - whole / 2,
    }
}

// Splits a coin of the mint with this id.
fn split(alloc: Global, seed: u64, count: u64, genesis: &Hash, i: u64) -> Result<FullTx, AllocError>
    requires count { count ≤ 10000 }
    requires place { i ≤ 10000 }
    ensures { IfOk result (λ t. t ≡ split_of seed count genesis.now i) }
{
    let point = OutPoint {
        tx: *genesis,
        index: i,
    };
    let output = coin(seed, i);
    let inputs = vec![in alloc; Input { point, output }]?;
    let outputs = vec![in alloc; low(seed, count, i), high(seed, count, i)]?;
    let witnesses = vec![in alloc; witness(alloc)?]?;
    Ok(FullTx {
        inputs: List::from_vec(inputs),
        outputs: List::from_vec(outputs),
        witnesses: List::from_vec(witnesses),
    })
}

/// Splits of so many coins.
pub(crate) fn splits_of(
    alloc: Global,
    seed: u64,
    count: u64,
    genesis: &Hash,
    minted: u64,
) -> Result<List<FullTx>, AllocError>
    requires count { count ≤ 10000 }
    requires minted { minted ≤ 10000 }
    ensures { IfOk result (λ l. l ≡ map (split_of seed count genesis.now) (range_with_len 0 minted)) }
{
    let mut splits = Vec::with_capacity(alloc, minted as usize)?;
    'splits: for i in 0..minted {
        splits.push(split(alloc, seed, count, genesis, i)?)?;
    }
    Ok(List::from_vec(splits))
}

// Joins the halves of a coin.
fn join(alloc: Global, seed: u64, count: u64, genesis: &Hash, i: u64) -> Result<FullTx, AllocError>
    requires count { count ≤ 10000 }
    requires place { i ≤ 10000 }
    ensures { IfOk result (λ t. t ≡ join_of seed count genesis.now i) }
{
    let made = tx_id(&split(alloc, seed, count, genesis, i)?);
    let first = Input {
        point: OutPoint { tx: made, index: 0 },
        output: low(seed, count, i),
    };
    let second = Input {
        point: OutPoint { tx: made, index: 1 },
        output: high(seed, count, i),
    };
    let whole = Output {
        program: program(3 * count + i),
        value: value(seed, i),
    };
    let inputs = vec![in alloc; first, second]?;
    let outputs = vec![in alloc; whole]?;
    let witnesses = vec![in alloc; witness(alloc)?, witness(alloc)?]?;
    Ok(FullTx {
        inputs: List::from_vec(inputs),
        outputs: List::from_vec(outputs),
        witnesses: List::from_vec(witnesses),
    })
}

/// Joins of the halves of so many coins.
pub(crate) fn joins_of(
    alloc: Global,
    seed: u64,
    count: u64,
    genesis: &Hash,
    joined: u64,
) -> Result<List<FullTx>, AllocError>
    requires count { count ≤ 10000 }
    requires joined { joined ≤ 10000 }
    ensures { IfOk result (λ l. l ≡ map (join_of seed count genesis.now) (range_with_len 0 joined)) }
{
    let mut joins = Vec::with_capacity(alloc, joined as usize)?;
    'joins: for i in 0..joined {
        joins.push(join(alloc, seed, count, genesis, i)?)?;
    }
    Ok(List::from_vec(joins))
}

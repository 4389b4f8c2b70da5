// The compact form of a transaction, by which coordinators and shards know it; a mint as a transaction with no inputs.
ghost use Rattle.std.specs.Prelude.{◌≡◌, map, IfOk};
ghost use Rattle.cbdc_model.specs.Coins.{compact, coin_hash, made_coins, genesis_tx, genesis_id, tx_id as spec_id};

use crate::identifiers::{input_hash, tx_id, uhs_id};
use cbdc_types::{CompactTx, FullTx, Hash, Input, List, Output};
use std::alloc::{AllocError, Global};

// The hash of the coin that an input claims.
#[tactic(auto, unfolding(cbdc_model::specs::Coins::coin_hash))]
fn spent_hash(input: &Input) -> Hash
    ensures { result ≡ coin_hash input.now }
{
    input_hash(input)
}

// The hashes of the coins that inputs claim.
fn spent_hashes(alloc: Global, inputs: &[Input]) -> Result<List<Hash>, AllocError>
    ensures { IfOk result (λ l. l ≡ map coin_hash inputs.now) }
{
    let mut hashes = Vec::with_capacity(alloc, inputs.len())?;
    'inputs: for input in inputs {
        hashes.push(spent_hash(input))?;
    }
    Ok(List::from_vec(hashes))
}

// The hash of the coin that an output makes at a place.
#[tactic(auto, unfolding(cbdc_model::specs::Coins::coin_hash))]
fn made_hash(id: &Hash, index: u64, output: &Output) -> Hash
    ensures { result
        ≡ coin_hash (record { point = record { tx = id.now; index = index }; output = output.now }) }
{
    uhs_id(id, index, output)
}

// The id of a transaction.
#[tactic(auto, unfolding(cbdc_model::specs::Coins::id_of))]
fn id_of(tx: &FullTx) -> Hash
    ensures { result ≡ spec_id tx.now }
{
    tx_id(tx)
}

// The hashes of the coins that outputs make under an id.
fn made_hashes(alloc: Global, id: &Hash, outputs: &[Output]) -> Result<List<Hash>, AllocError>
    ensures { IfOk result (λ l. l ≡ map coin_hash (made_coins id.now 0 outputs.now)) }
{
    let mut hashes = Vec::with_capacity(alloc, outputs.len())?;
    'outputs: for (index, output) in outputs.iter().enumerate() {
        hashes.push(made_hash(id, index as u64, output))?;
    }
    Ok(List::from_vec(hashes))
}

/// The transaction's id, which was computed before, and the hashes of its inputs' and its outputs' coins in their order.
pub fn compact_as(alloc: Global, id: &Hash, tx: &FullTx) -> Result<CompactTx, AllocError>
    requires { id.now ≡ spec_id tx.now }
    ensures { IfOk result (λ c. c ≡ compact tx.now) }
{
    let inputs = spent_hashes(alloc, tx.inputs.as_slice())?;
    let outputs = made_hashes(alloc, id, tx.outputs.as_slice())?;
    Ok(CompactTx {
        id: *id,
        inputs,
        outputs,
    })
}

/// The transaction's id, and the hashes of its inputs' and its outputs' coins in their order.
pub fn compact(alloc: Global, tx: &FullTx) -> Result<CompactTx, AllocError>
    ensures { IfOk result (λ c. c ≡ compact tx.now) }
{
    compact_as(alloc, &id_of(tx), tx)
}

/// A mint as a transaction with no inputs.
pub fn genesis_tx(alloc: Global, mint: &[Output]) -> Result<FullTx, AllocError>
    ensures { IfOk result (λ t. t ≡ genesis_tx mint.now) }
{
    Ok(FullTx {
        inputs: List::new(alloc),
        outputs: List::from_vec(Vec::from_slice(alloc, mint)?),
        witnesses: List::new(alloc),
    })
}

/// The id of a mint.
pub fn genesis_id(alloc: Global, mint: &[Output]) -> Result<Hash, AllocError>
    ensures { IfOk result (λ x. x ≡ genesis_id mint.now) }
{
    Ok(tx_id(&genesis_tx(alloc, mint)?))
}

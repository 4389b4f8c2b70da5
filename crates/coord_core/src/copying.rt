// Copies of transactions.
ghost use Rattle.std.specs.Prelude.{◌≡◌, IfOk, All};
ghost use Rattle.cbdc_model.specs.Grammar.{IsHash};
ghost use Rattle.coord_core.specs.Hashes.{AreHashed};

use cbdc_types::{CompactTx, Hash, List};
use std::alloc::{AllocError, Global};

// The same hash, which has 32 bytes.
fn copied_hash(x: &Hash) -> Hash
    ensures same { result ≡ x.now }
    ensures size { IsHash x.now }
{
    Hash(x.0)
}

// A copy of the hashes.
fn copied_hashes(alloc: Global, hashes: &[Hash]) -> Result<List<Hash>, AllocError>
    ensures same { IfOk result (λ xs. xs ≡ hashes.now) }
    ensures sizes { IfOk result (λ xs. All IsHash hashes.now) }
{
    let mut copied = Vec::with_capacity(alloc, hashes.len())?;
    for x in hashes {
        copied.push_reserved(copied_hash(x));
    }
    Ok(List::from_vec(copied))
}

// A copy of a transaction.
fn copied_tx(alloc: Global, tx: &CompactTx) -> Result<CompactTx, AllocError>
    ensures same { IfOk result (λ t. t ≡ tx.now) }
    ensures sizes { IfOk result (λ t. AreHashed tx.now) }
{
    let inputs = copied_hashes(alloc, tx.inputs.as_slice())?;
    let outputs = copied_hashes(alloc, tx.outputs.as_slice())?;
    Ok(CompactTx {
        id: copied_hash(&tx.id),
        inputs,
        outputs,
    })
}

/// A copy of transactions.
pub fn copied_txs(alloc: Global, txs: &[CompactTx]) -> Result<List<CompactTx>, AllocError>
    ensures same { IfOk result (λ ts. ts ≡ txs.now) }
    ensures sizes { IfOk result (λ ts. All AreHashed txs.now) }
{
    let mut copied = Vec::with_capacity(alloc, txs.len())?;
    for tx in txs {
        copied.push_reserved(copied_tx(alloc, tx)?);
    }
    Ok(List::from_vec(copied))
}

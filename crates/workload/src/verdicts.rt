// The verdict file: a good line for each input, in the order of files, places and inputs.
ghost use Rattle.std.specs.Prelude.{◌≡◌, ◌++◌, OnOk, IfOk};
ghost use Rattle.std.specs.List.{flat_map};
ghost use Rattle.hex.specs.Hex.{encode_lower};
ghost use Rattle.workload.specs.Generator.{good_line, split_lines, join_lines};

use cbdc_types::{FullTx, Hash, List};
use hex::encode_to_slice;
use sentinel::tx_id;
use std::alloc::{AllocError, Global};

// The 64 digits of an id.
fn push_id(text: &mut Vec<u8>, id: &Hash) -> Result<(), AllocError>
    ensures { OnOk result (text.new.items ≡ text.old.items ++ encode_lower id.now) }
{
    let mut digits = [0u8; 64];
    let _ = encode_to_slice(id.0.as_slice(), &mut digits);
    text.extend_from_slice(digits.as_slice())
}

// The line of a transaction's first input.
fn push_first(text: &mut Vec<u8>, id: &Hash) -> Result<(), AllocError>
    ensures { OnOk result (text.new.items ≡ text.old.items ++ good_line id.now 0) }
{
    push_id(text, id)?;
    text.extend_from_slice(b" 0 good\n")?;
    Ok(())
}

// The line of its second one.
fn push_second(text: &mut Vec<u8>, id: &Hash) -> Result<(), AllocError>
    ensures { OnOk result (text.new.items ≡ text.old.items ++ good_line id.now 1) }
{
    push_id(text, id)?;
    text.extend_from_slice(b" 1 good\n")?;
    Ok(())
}

fn push_split(text: &mut Vec<u8>, tx: &FullTx) -> Result<(), AllocError>
    ensures { OnOk result (text.new.items ≡ text.old.items ++ split_lines tx.now) }
{
    let id = tx_id(tx);
    push_first(text, &id)
}

fn push_join(text: &mut Vec<u8>, tx: &FullTx) -> Result<(), AllocError>
    ensures { OnOk result (text.new.items ≡ text.old.items ++ join_lines tx.now) }
{
    let id = tx_id(tx);
    push_first(text, &id)?;
    push_second(text, &id)
}

fn push_splits(text: &mut Vec<u8>, txs: &[FullTx]) -> Result<(), AllocError>
    ensures { OnOk result (text.new.items ≡ text.old.items ++ flat_map split_lines txs.now) }
{
    'txs: for tx in txs {
        push_split(text, tx)?;
    }
    Ok(())
}

fn push_joins(text: &mut Vec<u8>, txs: &[FullTx]) -> Result<(), AllocError>
    ensures { OnOk result (text.new.items ≡ text.old.items ++ flat_map join_lines txs.now) }
{
    'txs: for tx in txs {
        push_join(text, tx)?;
    }
    Ok(())
}

/// The lines of splits, and behind them those of joins.
pub(crate) fn verdicts_of(
    alloc: Global,
    splits: &[FullTx],
    joins: &[FullTx],
) -> Result<List<u8>, AllocError>
    ensures { IfOk result (λ l. l ≡ flat_map split_lines splits.now ++ flat_map join_lines joins.now) }
{
    let mut text = Vec::new(alloc);
    push_splits(&mut text, splits)?;
    push_joins(&mut text, joins)?;
    Ok(List::from_vec(text))
}

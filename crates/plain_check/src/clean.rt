// Whether a mint and submissions have no clashes of hashes.
ghost use Rattle.std.specs.Prelude.{◌≡◌, ◌↔◌, ◌++◌, IsTrue, IfOk, OnOk};
ghost use Rattle.std.specs.List.{AllByRecursion};
ghost use Rattle.cbdc_model.specs.Clean.{Clean};
ghost use Rattle.cbdc_model.specs.Coins.{genesis_tx, tx_coins};
ghost use Rattle.plain_check.specs.Agreeing.{Agree, coins_in};

use crate::agreeing::{agrees_with, all_agree, all_coins_agree};
use crate::books::add_made;
use crate::copying::put_slice;
use crate::minted_coins;
use cbdc_types::{FullTx, Input, Output};
use sentinel::genesis_tx;
use std::alloc::{AllocError, Global};

// Puts the coins that transactions spend and make behind those so far.
fn add_coins(ts: &[FullTx], out: &mut Vec<Input>) -> Result<(), AllocError>
    ensures { OnOk result (out.new.items ≡ out.old.items ++ coins_in ts.now) }
{
    match ts.split_first() {
        None => Ok(()),
        Some((t, rest)) => {
            put_slice(out, t.inputs.as_slice())?;
            add_made(t, out)?;
            add_coins(rest, out)
        }
    }
}

// The coins that a mint and submissions spend and make.
fn named_coins(
    alloc: Global,
    mint: &[Output],
    submissions: &[FullTx],
) -> Result<Vec<Input>, AllocError>
    ensures { IfOk result (λ v. v.items ≡ tx_coins (genesis_tx mint.now) ++ coins_in submissions.now) }
{
    let mut coins = minted_coins(alloc, mint)?.into_vec();
    add_coins(submissions, &mut coins)?;
    Ok(coins)
}

// Whether the mint, as a transaction, agrees with each submission.
fn does_mint_agree(
    alloc: Global,
    mint: &[Output],
    submissions: &[FullTx],
) -> Result<bool, AllocError>
    ensures { IfOk result (λ yes. IsTrue yes
        ↔ AllByRecursion (Agree (genesis_tx mint.now)) submissions.now) }
{
    let first = genesis_tx(alloc, mint)?;
    Ok(agrees_with(&first, submissions))
}

/// Whether no two transactions, the mint among them, that differ in inputs or outputs have one id, and no two coins that
/// they spend or make have one hash.
pub fn is_clean(alloc: Global, mint: &[Output], submissions: &[FullTx]) -> Result<bool, AllocError>
    ensures { IfOk result (λ yes. IsTrue yes ↔ Clean mint.now submissions.now) }
{
    if !does_mint_agree(alloc, mint, submissions)? {
        return Ok(false);
    }
    if !all_agree(submissions, submissions) {
        return Ok(false);
    }
    let coins = named_coins(alloc, mint, submissions)?;
    let named = coins.as_slice();
    Ok(all_coins_agree(named, named))
}

//! A workload from a number: as many transactions as wanted, all sound and free of conflict.
//!
//! - Tested in `piece_rows` (`batches.rows`), on ids computed elsewhere.
#![tactic(auto)]

mod coins;
mod spends;
mod verdicts;

ghost use Rattle.std.specs.Prelude.{◌≡◌, ◌≤◌, IfOk};
ghost use Rattle.workload.specs.Generator.{workload_of, mint_of as the_mint, splits_of as the_splits, joins_of as the_joins};

use cbdc_types::{FullTx, List, Mint};
use coins::{genesis_of, mint_of};
use sentinel::tx_id;
use spends::{joins_of, splits_of};
use std::alloc::{AllocError, Global};
use verdicts::verdicts_of;

/// A mint, the transactions of two client files, and the verdict file behind them.
#[derive(Debug, PartialEq, Eq, Drop)]
pub struct Workload {
    /// The coins, in order.
    pub mint: Mint,
    /// The first client file: each coin is split in two.
    pub splits: List<FullTx>,
    /// The second client file: the two halves of a coin are joined.
    pub joins: List<FullTx>,
    /// The bytes of the verdict file: each input's witness is good.
    pub verdicts: List<u8>,
}

/// The mint and the client files of a workload.
#[derive(Debug, PartialEq, Eq, Drop)]
pub struct Clients {
    /// The coins, in order.
    pub mint: Mint,
    /// The first client file: each coin is split in two.
    pub splits: List<FullTx>,
    /// The second client file: the two halves of a coin are joined.
    pub joins: List<FullTx>,
}

/// The mint and the client files of the workload of so many transactions, at most 10,000, from a seed.
pub fn generate_clients(alloc: Global, seed: u64, count: u64) -> Result<Clients, AllocError>
    requires { count ≤ 10000 }
    ensures { IfOk result (λ c. c ≡ record
        { mint = the_mint seed count; splits = the_splits seed count; joins = the_joins seed count }) }
{
    let joined = count / 2;
    let minted = count - joined;
    let mint = mint_of(alloc, seed, minted)?;
    let genesis = genesis_of(alloc, mint);
    let id = tx_id(&genesis);
    let splits = splits_of(alloc, seed, count, &id, minted)?;
    let joins = joins_of(alloc, seed, count, &id, joined)?;
    Ok(Clients {
        mint: genesis.outputs,
        splits,
        joins,
    })
}

/// The workload of so many transactions, at most 10,000, from a seed. The same seed gives the same workload.
pub fn generate(alloc: Global, seed: u64, count: u64) -> Result<Workload, AllocError>
    requires { count ≤ 10000 }
    ensures { IfOk result (λ w. w ≡ workload_of seed count) }
{
    let Clients {
        mint,
        splits,
        joins,
    } = generate_clients(alloc, seed, count)?;
    let verdicts = verdicts_of(alloc, splits.as_slice(), joins.as_slice())?;
    Ok(Workload {
        mint,
        splits,
        joins,
        verdicts,
    })
}

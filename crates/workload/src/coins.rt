// The coins of the mint.
ghost use Rattle.std.specs.Prelude.{◌≡◌, ◌+◌, ◌≤◌, ◌<◌, [], map, IfOk};
ghost use Rattle.std.specs.List.{range_with_len};
ghost use Rattle.workload.specs.Generator.{program as program_of, coin_value, coin as coin_of};

use byteorder::{ByteOrder, LittleEndian};
use cbdc_types::{FullTx, Hash, List, Mint, Output};
use std::alloc::{AllocError, Global};

/// The value of a coin.
pub(crate) fn value(seed: u64, i: u64) -> u64
    requires { i ≤ 10000 }
    ensures { result ≡ coin_value seed i }
{
    2 + (seed % 100 + i) % 100
}

/// The program with a number.
#[tactic(auto, unfolding(byte_spelling::specs::Spelling::number))]
pub(crate) fn program(k: u64) -> Hash
    ensures { result ≡ program_of k }
{
    let mut bytes = [0u8; 32];
    LittleEndian::write_u64(&mut bytes, k);
    Hash(bytes)
}

/// A coin of the mint.
pub(crate) fn coin(seed: u64, i: u64) -> Output
    requires { i ≤ 10000 }
    ensures { result ≡ coin_of seed i }
{
    Output {
        program: program(i),
        value: value(seed, i),
    }
}

/// So many coins.
pub(crate) fn mint_of(alloc: Global, seed: u64, count: u64) -> Result<Mint, AllocError>
    requires { count ≤ 10000 }
    ensures { IfOk result (λ m. m ≡ map (coin_of seed) (range_with_len 0 count)) }
{
    let mut coins = Vec::with_capacity(alloc, count as usize)?;
    'coins: for i in 0..count {
        coins.push(coin(seed, i))?;
    }
    Ok(List::from_vec(coins))
}

/// The transaction that a mint stands for: it has no inputs.
pub(crate) fn genesis_of(alloc: Global, mint: Mint) -> FullTx
    ensures { result ≡ record { inputs = []; outputs = mint; witnesses = [] } }
{
    FullTx {
        inputs: List::new(alloc),
        outputs: mint,
        witnesses: List::new(alloc),
    }
}

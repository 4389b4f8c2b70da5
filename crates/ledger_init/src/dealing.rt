// The sum of a mint, and the hashes that lie on a shard.
ghost use Rattle.std.specs.Prelude.{◌≡◌, ◌≤◌, ◌++◌, ◌∷◌, [], length, IfOk, OnOk};
ghost use Rattle.cbdc_model.specs.Clean.{value_out};
ghost use Rattle.cbdc_model.specs.Ranges.{on_shard};

use cbdc_types::{Hash, List, Output, Shape};
use shard_ranges::shard_of;
use std::alloc::{AllocError, Global};

/// The sum of the minted values.
pub(crate) fn total_of(outputs: &[Output]) -> u128
    requires { length outputs.now ≤ 1000000 }
    ensures { result ≡ value_out outputs.now }
{
    let mut total: u128 = 0;
    'outputs: for output in outputs {
        total += u128::from(output.value);
    }
    total
}

// Puts a hash at the end of a list, if it lies on the shard.
fn keep(list: &mut Vec<Hash>, hash: &Hash, shape: &Shape, shard: u32) -> Result<(), AllocError>
    ensures { OnOk result (list.new.items ≡ list.old.items ++ on_shard shape.now shard (hash.now ∷ [])) }
{
    if shard_of(hash, shape) == shard {
        list.push(*hash)?;
    }
    Ok(())
}

/// Those of the hashes that lie on a shard, in order.
pub(crate) fn hashes_on(
    alloc: Global,
    hashes: &[Hash],
    shape: &Shape,
    shard: u32,
) -> Result<List<Hash>, AllocError>
    ensures { IfOk result (λ l. l ≡ on_shard shape.now shard hashes.now) }
{
    let mut list = Vec::new(alloc);
    'hashes: for hash in hashes {
        keep(&mut list, hash, shape, shard)?;
    }
    Ok(List::from_vec(list))
}

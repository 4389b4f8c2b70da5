// The shard of a hash.
ghost use Rattle.std.specs.Prelude.{◌≡◌, ◌<◌};
ghost use Rattle.cbdc_model.specs.Ranges.{shard_of as the_shard};

use cbdc_types::{Hash, Shape};

/// The shard that holds a hash: its first byte times the number of shards, divided by 256. Takes no memory.
#[tactic(auto, unfolding(cbdc_model::specs::Ranges::shard_of, cbdc_model::specs::Ranges::first_byte))]
pub fn shard_of(x: &Hash, shape: &Shape) -> u32
    ensures value { result ≡ the_shard shape.now x.now }
    ensures below { result < shape.now.shards }
{
    (x.0[0] as u64 * shape.shards() as u64 / 256) as u32
}

// Hashes that a record may name.
ghost use Rattle.std.specs.Prelude.{◌≡◌, ◌↔◌, All, IsTrue};
ghost use Rattle.cbdc_model.specs.Grammar.{AreHere, IsHash, IsHashList};
ghost use Rattle.cbdc_model.specs.Ranges.{shard_of as the_shard, shard_node};

use cbdc_types::{Hash, Header};
use shard_ranges::shard_of;

// A hash has its 32 bytes.
pub(crate) fn is_whole(x: &Hash) -> bool
    ensures { IsTrue result ↔ IsHash x.now }
{
    x.0.as_slice().len() == 32
}

pub(crate) fn are_whole(xs: &[Hash]) -> bool
    ensures { IsTrue result ↔ All IsHash xs.now }
{
    xs.iter().all(|x| is_whole(x))
}

// Whether an entry or a compact transaction may have these hashes.
pub(crate) fn is_hash_list(xs: &[Hash]) -> bool
    ensures { IsTrue result ↔ IsHashList xs.now }
{
    xs.len() <= 255 && are_whole(xs)
}

fn is_here(h: &Header, x: &Hash) -> bool
    ensures { IsTrue result ↔ (shard_node h.now.shape (the_shard h.now.shape x.now) ≡ h.now.node) }
{
    h.shape.coordinators() + shard_of(x, &h.shape) == h.node.0
}

// Whether the hashes lie on the header's shard.
pub(crate) fn are_here(h: &Header, xs: &[Hash]) -> bool
    ensures { IsTrue result ↔ AreHere h.now.shape h.now.node xs.now }
{
    xs.iter().all(|x| is_here(h, x))
}

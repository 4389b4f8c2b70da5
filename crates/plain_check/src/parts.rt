// Whether a part is a shard's.
ghost use Rattle.std.specs.Prelude.{◌≡◌, ◌+◌, ◌<◌, ◌^◌, ◌↔◌, ℕ, length, IsTrue};
ghost use Rattle.cbdc_model.specs.Ranges.{part, shard_node};

use cbdc_types::{CompactTx, Entry, NodeId, Shape};
use same_records::{are_elsewhere, is_entry_at};

// Whether entries are those of a shard's part of the transactions from this place on.
fn is_part_of(shape: &Shape, shard: u32, place: u64, txs: &[CompactTx], entries: &[Entry]) -> bool
    requires places { place + length txs.now < 2 ^ 64 }
    ensures { IsTrue result ↔ (entries.now ≡ part shape.now shard place txs.now) }
{
    let Some((t, others)) = txs.split_first() else {
        return entries.is_empty();
    };
    if are_elsewhere(shape, shard, t.inputs.as_slice())
        && are_elsewhere(shape, shard, t.outputs.as_slice())
    {
        return is_part_of(shape, shard, place + 1, others, entries);
    }
    match entries.split_first() {
        None => false,
        Some((e, rest)) => {
            is_entry_at(shape, shard, place, t, e)
                && is_part_of(shape, shard, place + 1, others, rest)
        }
    }
}

/// Whether entries are the transactions' part at this node, where it is a shard.
pub fn is_own_part(shape: &Shape, node: NodeId, txs: &[CompactTx], entries: &[Entry]) -> bool
    ensures { IsTrue result
        ↔ ((s : ℕ) → node ≡ shard_node shape.now s → entries.now ≡ part shape.now s 0 txs.now) }
{
    if node.0 < shape.coordinators() {
        return true;
    }
    is_part_of(shape, node.0 - shape.coordinators(), 0, txs, entries)
}

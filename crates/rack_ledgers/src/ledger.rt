// All nodes of a ledger, open, and putting their disks back.
ghost use Rattle.std.specs.Prelude.{◌≡◌, ◌+◌, ◌≤◌, ℕ, length};
ghost use Rattle.rack_ledgers.specs.Racked.{OfTold};
ghost use Rattle.rack_ledgers.specs.Ledgers.{ByPlace};
ghost use Rattle.rack_ledgers.specs.Opened.{MayClose};

use crate::close_all;
use cbdc_types::Header;
use coord_log::CoordLog;
use outside::{Disk, Rack};
use shard_node::ShardNode;

/// All nodes of a ledger, the coordinators first. The header is that of node 0.
#[derive(Drop)]
pub struct Nodes<D: Disk> {
    pub header: Header,
    pub logs: Vec<CoordLog<D>>,
    pub shards: Vec<ShardNode<D>>,
}

/// Puts the disks of all nodes back, the last one first and that of node 0 last. So another program, which takes node 0 before all others, finds it
/// taken as long as any of them is (tested by `tools/gate/two-at-once`).
pub fn close_nodes<R: Rack>(rack: &mut R, nodes: Nodes<R::Disk>)
    requires { MayClose R.Disk.Disk
        (R.can_put rack.old) (R.can_take rack.old) nodes.logs.items nodes.shards.items }
    // What the rack then tells of each node is its disk.
    ensures closed_logs { ByPlace (λ n l. OfTold (R.held rack.new n) (λ now. now ≡ l.disk)) nodes.logs.items }
    ensures closed_shards { ByPlace (λ s x.
        OfTold (R.held rack.new (length nodes.logs.items + s)) (λ now. now ≡ x.disk)) nodes.shards.items }
    ensures counted_logs { ByPlace (λ n l. R.Disk.count l.disk ≤ R.count rack.new n) nodes.logs.items }
    ensures counted_shards { ByPlace
        (λ s x. R.Disk.count x.disk ≤ R.count rack.new (length nodes.logs.items + s)) nodes.shards.items }
    ensures others_held { (n : ℕ) → length nodes.logs.items + length nodes.shards.items ≤ n
        → R.held rack.new n ≡ R.held rack.old n }

    ensures back { (n : ℕ) → R.can_take rack.new n }
    ensures later { (n : ℕ) → R.count rack.old n ≤ R.count rack.new n }
{
    let Nodes {
        header: _,
        logs,
        shards,
    } = nodes;
    let first = logs.len() as u32;
    close_all(rack, first, shards);
    close_all(rack, 0, logs);
}

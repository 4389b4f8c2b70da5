// Putting disks back.
ghost use Rattle.std.specs.Prelude.{◌≡◌, ◌^◌, ◌+◌, ◌≤◌, ◌<◌, ℕ, length};
ghost use Rattle.rack_ledgers.specs.Places.{EachFrom, MayReturn};
ghost use Rattle.rack_ledgers.specs.Others.{KeepsOthers};
ghost use Rattle.rack_ledgers.specs.Racked.{OfTold};

use crate::OnDisk;
use cbdc_types::NodeId;
use outside::Rack;

/// Puts the disks of nodes back, the first of which has this place.
///
/// All these disks are back, each in its place, and each node's count is no less than its disk's; others untouched.
pub fn close_all<R: Rack, N: OnDisk<R::Disk>>(rack: &mut R, first: u32, nodes: Vec<N>)
    requires few { first + length nodes.items < 2 ^ 32 }
    requires out { EachFrom
        (MayReturn (λ n. R.Disk.count (N.disk_of n)) (R.can_put rack.old)) first nodes.items }
    ensures closed { EachFrom
        (λ n x. OfTold (R.held rack.new n) (λ now. now ≡ N.disk_of x)) first nodes.items }
    ensures counted { EachFrom (λ n x. R.Disk.count (N.disk_of x) ≤ R.count rack.new n) first nodes.items }
    ensures back { (n : ℕ) → first ≤ n → n < first + length nodes.items → R.can_take rack.new n }
    ensures others { KeepsOthers R.Rack first (first + length nodes.items) rack.old rack.new }
{
    let mut nodes = nodes;
    'nodes: while let Some(node) = nodes.pop() {
        rack.put(NodeId(first + nodes.len() as u32), node.give_disk());
    }
    nodes.destroy_empty();
}

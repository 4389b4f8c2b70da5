// Lists of nodes put under the wrappers that lanes share, and taken out of them.
ghost use Rattle.std.specs.Prelude.{◌≡◌, ◌≤◌, [], length, map, reverse, vec_capacity};

use crate::coordinators::SharedLog;
use crate::locking::SharedShard;
use crate::nodes::Shard;
use coord_log::CoordLog;
use outside::Disk;

/// The shards, each under its wrapper, and the list that they stood in, which is empty.
pub fn share_shards<S: Shard>(
    mut nodes: Vec<S>,
    mut shared: Vec<SharedShard<S>>,
) -> (Vec<SharedShard<S>>, Vec<S>)
    requires empty { shared.items ≡ [] }
    requires room { length nodes.items ≤ vec_capacity shared }
    ensures nodes { map (λ s. s.node) result.0.items ≡ nodes.items }
    ensures room { (result.1.items ≡ []) × (length nodes.items ≤ vec_capacity result.1) }
{
    while let Some(node) = nodes.pop() {
        shared.push_reserved(SharedShard { node });
    }
    shared.reverse();
    (shared, nodes)
}

/// The shards, taken out of their wrappers.
pub fn own_shards<S: Shard>(mut shared: Vec<SharedShard<S>>, mut nodes: Vec<S>) -> Vec<S>
    requires empty { nodes.items ≡ [] }
    requires room { length shared.items ≤ vec_capacity nodes }
    ensures { result.items ≡ map (λ s. s.node) shared.items }
{
    while let Some(SharedShard { node }) = shared.pop() {
        nodes.push_reserved(node);
    }
    shared.destroy_empty();
    nodes.reverse();
    nodes
}

/// The coordinators, each under its wrapper, and the list that they stood in, which is empty.
pub fn share_logs<D: Disk>(
    mut nodes: Vec<CoordLog<D>>,
    mut shared: Vec<SharedLog<D>>,
) -> (Vec<SharedLog<D>>, Vec<CoordLog<D>>)
    requires empty { shared.items ≡ [] }
    requires room { length nodes.items ≤ vec_capacity shared }
    ensures nodes { map (λ s. s.node) result.0.items ≡ nodes.items }
    ensures room { (result.1.items ≡ []) × (length nodes.items ≤ vec_capacity result.1) }
{
    while let Some(node) = nodes.pop() {
        shared.push_reserved(SharedLog { node });
    }
    shared.reverse();
    (shared, nodes)
}

/// The coordinators, taken out of their wrappers.
pub fn own_logs<D: Disk>(
    mut shared: Vec<SharedLog<D>>,
    mut nodes: Vec<CoordLog<D>>,
) -> Vec<CoordLog<D>>
    requires empty { nodes.items ≡ [] }
    requires room { length shared.items ≤ vec_capacity nodes }
    ensures { result.items ≡ map (λ s. s.node) shared.items }
{
    while let Some(SharedLog { node }) = shared.pop() {
        nodes.push_reserved(node);
    }
    shared.destroy_empty();
    nodes.reverse();
    nodes
}

// The parts of a shard.
use node_journal::Node;
use outside::Disk;
use shard_core::ShardCore;

/// A node, and memory for the decisions of each lane's batch.
#[derive(Drop)]
pub(crate) struct Parts<D: Disk> {
    pub node: Node<ShardCore, D>,
    pub decisions: Vec<Vec<bool>>,
}

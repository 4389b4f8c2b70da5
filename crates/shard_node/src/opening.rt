// Opening a shard.
ghost use Rattle.std.specs.Prelude.{◌≡◌, ◌≢◌, ◌+◌, ◌≤◌, None, length, vec_capacity, All, IfOk, IfErr, MatchResult};
ghost use Rattle.outside.specs.Counts.{Rose};
ghost use Rattle.outside.specs.Images.{Tells, Leaves};
ghost use Rattle.cbdc_model.specs.After.{IsJournal};
ghost use Rattle.cbdc_model.specs.Grammar.{IsShard};
ghost use Rattle.cbdc_model.specs.Room.{kept_room};
ghost use Rattle.cbdc_model.specs.Due.{used_of};
ghost use Rattle.record_log.specs.Logs.{IsUntouched};
ghost use Rattle.node_journal.specs.Nodes.{HoldsJournal};
ghost use Rattle.shard_node.specs.Opening.{IsShardJournal, IsNoShard};
ghost use Rattle.shard_node.specs.Parts.{IsShardOf, IsShardOpened};

use crate::ShardNode;
use crate::locking::{LARGEST_FINISH, LEAST};
use crate::parts::Parts;
use cbdc_types::NodeOpenFault;
use node_journal::{Node, open_node};
use outside::Disk;
use shard_core::ShardCore;
use std::alloc::{AllocError, Global};

// Memory for as many decisions in each of so many lanes.
fn memory_of(alloc: Global, lanes: u32, batch: u32) -> Result<Vec<Vec<bool>>, AllocError>
    ensures lanes { IfOk result (λ v. length v.items ≡ lanes) }
    ensures room { IfOk result (λ v. All (λ m. batch ≤ vec_capacity m) v.items) }
{
    let mut memory = Vec::with_capacity(alloc, lanes as usize)?;
    'lanes: for _lane in 0..lanes {
        memory.push(Vec::with_capacity(alloc, batch as usize)?)?;
    }
    Ok(memory)
}

// The memory for the decisions of a shard's batches, and for the records of those that are unfinished.
fn memory_ahead<D: Disk>(
    alloc: Global,
    node: &mut Node<ShardCore, D>,
) -> Result<Vec<Vec<bool>>, AllocError>
    requires { IsShardOpened node.old }
    ensures shard { IfOk result (λ decisions. IsShardOf (record { node = node.new; decisions = decisions })) }
    ensures untouched { IsUntouched node.old.log node.new.log }
    ensures records { node.new.log.records.items ≡ node.old.log.records.items }
    ensures header { node.new.log.header ≡ node.old.log.header }
    ensures fresh { (node.new.opened ≡ node.old.opened) × (node.new.flight ≡ node.old.flight) }
{
    let need = node.core.kept_room();
    let shape = node.log.header.shape;
    let decisions = memory_of(alloc, shape.lane_count(), shape.batch())?;
    node.log
        .reserve((need / LEAST + 1) as usize, LARGEST_FINISH)?;
    Ok(decisions)
}

impl<D: Disk> ShardNode<D> {
    /// Opens a shard's disk. A refusal hands the disk back.
    ///
    /// Out of memory: the disk comes back as it was read.
    pub fn open(alloc: Global, disk: D) -> Result<ShardNode<D>, (D, NodeOpenFault)>
        // The content opens to just this journal, and a crash leaves nothing else.
        ensures opens { IfOk result
            (λ n. Tells (D.content disk) (λ c. IsShardJournal n.header n.journal c × HoldsJournal D.Disk n)) }

        // It is a shard's journal, whatever the content tells.
        ensures journal { IfOk result (λ n. IsJournal n.header n.journal) }
        ensures shard_node { IfOk result (λ n. IsShard n.header.shape n.header.node) }

        // Which refusal it is.
        ensures refusal { IfErr result (λ e. Tells (D.content disk) (λ c. IsNoShard (D.limit disk) c e.1)) }
        ensures fresh { IfOk result (λ n. (n.flight ≡ None) × (n.broken ≡ None) × (n.opened ≡ n.faults)) }
        ensures later { MatchResult result (λ n. D.count disk ≤ n.faults) (λ e. D.count disk ≤ D.count e.0) }
        ensures fault { IfErr result (λ e. e.1 ≡ NodeOpenFault.DiskFault
            → Rose (D.count disk) (D.count e.0)) }
        ensures limit { MatchResult result
            (λ n. n.capacity ≡ D.limit disk) (λ e. D.limit e.0 ≡ D.limit disk) }

        ensures shows { IfOk result (λ n. (n.faults ≡ D.count n.disk) × (n.capacity ≡ D.limit n.disk)) }

        // It fits on the disk with all that its batches still need.
        ensures room { IfOk result
            (λ n. used_of n.journal + kept_room n.header.shape n.journal ≤ n.capacity) }

        // Unless it failed, the disk reads as before, and a crash may leave nothing more than before.
        ensures same { MatchResult result (λ n. D.content n.disk ≡ D.content disk)
            (λ e. e.1 ≢ NodeOpenFault.DiskFault → D.content e.0 ≡ D.content disk) }
        ensures leaves { MatchResult result
            (λ n. Leaves D.tells_past D.moment D.images_since D.images disk n.disk (D.images disk))
            (λ e. Leaves D.tells_past D.moment D.images_since D.images disk e.0 (D.images disk)) }
    {
        let opened: Result<Node<ShardCore, D>, (D, NodeOpenFault)> = open_node(alloc, disk);
        match opened {
            Ok(found) => {
                let mut node = found;
                match memory_ahead(alloc, &mut node) {
                    Ok(decisions) => Ok(ShardNode::of_parts(alloc, Parts { node, decisions })),
                    Err(_) => {
                        let Node {
                            log,
                            core: _,
                            opened: _,
                            flight: _,
                        } = node;
                        Err((log.into_disk(), NodeOpenFault::Memory))
                    }
                }
            }
            Err(refused) => Err(refused),
        }
    }
}

// Coordinators and shards on the disks of a rack.
ghost use Rattle.std.specs.Prelude.{◌≡◌, ◌≤◌, ℕ, IfErr, MatchResult};
ghost use Rattle.std.specs.Option.{option_copied};
ghost use Rattle.outside.specs.Counts.{Rose};
ghost use Rattle.outside.specs.Images.{Tells, Leaves};
ghost use Rattle.record_log.specs.Held.{HasRow};
ghost use Rattle.coord_log.specs.Opening.{IsCoord, IsGenesis};
ghost use Rattle.shard_node.specs.Opening.{IsShardHeader, IsStart};
ghost use Rattle.rack_ledgers.specs.Places.{IsOpening};
ghost use Rattle.rack_ledgers.specs.Refused.{IsNoNode, IsNodeRefusal};

use crate::OnDisk;
use crate::asked::{answer_of, foreign, is_asked};
use cbdc_types::{Answer, Header, NodeId, NodeOpenFault};
use coord_log::CoordLog;
use outside::Disk;
use shard_node::ShardNode;
use std::alloc::Global;

// Why a shard's disk is none of the coordinator that is asked for.
fn shard_instead<D: Disk>(
    alloc: Global,
    node: NodeId,
    ledger: Option<&Header>,
    disk: D,
) -> (D, Answer)
    ensures refusal { Tells (D.content disk) (λ c. HasRow IsGenesis c
        → IsNoNode IsCoord node (option_copied ledger.entry) (D.limit disk) c result.1) }
    ensures kind { IsNodeRefusal result.1 }
    ensures fault { IsOpening node (D.count disk) (D.count result.0) result.1 }
    ensures later { D.count disk ≤ D.count result.0 }
    ensures limit { D.limit result.0 ≡ D.limit disk }
    ensures same { (Rose (D.count disk) (D.count result.0) → ⊥) → D.content result.0 ≡ D.content disk }
    ensures leaves { Leaves D.tells_past D.moment D.images_since D.images disk result.0 (D.images disk) }
{
    match ShardNode::open(alloc, disk) {
        Ok(shard) => {
            let answer = foreign(shard.header(), node, ledger);
            (shard.into_disk(), answer)
        }
        Err((disk, fault)) => (disk, answer_of(node, fault)),
    }
}

// Why a coordinator's disk is none of the shard that is asked for.
fn coordinator_instead<D: Disk>(
    alloc: Global,
    node: NodeId,
    ledger: Option<&Header>,
    disk: D,
) -> (D, Answer)
    ensures refusal { Tells (D.content disk) (λ c. HasRow IsStart c
        → IsNoNode IsShardHeader node (option_copied ledger.entry) (D.limit disk) c result.1) }
    ensures kind { IsNodeRefusal result.1 }
    ensures fault { IsOpening node (D.count disk) (D.count result.0) result.1 }
    ensures later { D.count disk ≤ D.count result.0 }
    ensures limit { D.limit result.0 ≡ D.limit disk }
    ensures same { (Rose (D.count disk) (D.count result.0) → ⊥) → D.content result.0 ≡ D.content disk }
    ensures leaves { Leaves D.tells_past D.moment D.images_since D.images disk result.0 (D.images disk) }
{
    match CoordLog::open(alloc, disk) {
        Ok(log) => {
            let answer = foreign(log.header(), node, ledger);
            (log.into_disk(), answer)
        }
        Err((disk, fault)) => (disk, answer_of(node, fault)),
    }
}

impl<D: Disk> OnDisk<D> for CoordLog<D> {
    ghost use Rattle.coord_log.specs.Opening.{IsCoord};
    ghost use Rattle.rack_ledgers.specs.Fresh.{FitsNode, StandsNode};
    ghost use Rattle.rack_ledgers.specs.Refused.{IsNoNode, IsNodeRefusal};
    ghost use Rattle.std.specs.Prelude.{refl};

    ghost disk_of = { λ n. n.disk };

    ghost opens = { λ n c. StandsNode D.Disk IsCoord n c };

    ghost fits = { λ node ledger n. FitsNode D.Disk IsCoord node ledger n };

    ghost refused = { λ node ledger limit c e. IsNoNode IsCoord node ledger limit c e };

    ghost refusals = { λ e. IsNodeRefusal e };

    ghost free = { λ node ledger limit c. (tt, refl) };

    ghost may_fail = { λ node. (tt, tt) };

    fn open_disk(
        alloc: Global,
        node: NodeId,
        ledger: Option<&Header>,
        disk: D,
    ) -> Result<CoordLog<D>, (D, Answer)> {
        match CoordLog::open(alloc, disk) {
            Ok(log) => {
                if is_asked(log.header(), node, ledger) {
                    Ok(log)
                } else {
                    let answer = foreign(log.header(), node, ledger);
                    Err((log.into_disk(), answer))
                }
            }
            Err((disk, NodeOpenFault::OtherKind)) => {
                Err(shard_instead(alloc, node, ledger, disk))
            }
            Err((disk, fault)) => Err((disk, answer_of(node, fault))),
        }
    }

    fn give_disk(self) -> D {
        self.into_disk()
    }
}

impl<D: Disk> OnDisk<D> for ShardNode<D> {
    ghost use Rattle.shard_node.specs.Opening.{IsShardHeader};
    ghost use Rattle.rack_ledgers.specs.Fresh.{FitsNode, StandsNode};
    ghost use Rattle.rack_ledgers.specs.Refused.{IsNoNode, IsNodeRefusal};
    ghost use Rattle.std.specs.Prelude.{refl};

    ghost disk_of = { λ n. n.disk };

    ghost opens = { λ n c. StandsNode D.Disk IsShardHeader n c };

    ghost fits = { λ node ledger n. FitsNode D.Disk IsShardHeader node ledger n };

    ghost refused = { λ node ledger limit c e. IsNoNode IsShardHeader node ledger limit c e };

    ghost refusals = { λ e. IsNodeRefusal e };

    ghost free = { λ node ledger limit c. (tt, refl) };

    ghost may_fail = { λ node. (tt, tt) };

    fn open_disk(
        alloc: Global,
        node: NodeId,
        ledger: Option<&Header>,
        disk: D,
    ) -> Result<ShardNode<D>, (D, Answer)> {
        match ShardNode::open(alloc, disk) {
            Ok(shard) => {
                if is_asked(shard.header(), node, ledger) {
                    Ok(shard)
                } else {
                    let answer = foreign(shard.header(), node, ledger);
                    Err((shard.into_disk(), answer))
                }
            }
            Err((disk, NodeOpenFault::OtherKind)) => {
                Err(coordinator_instead(alloc, node, ledger, disk))
            }
            Err((disk, fault)) => Err((disk, answer_of(node, fault))),
        }
    }

    fn give_disk(self) -> D {
        self.into_disk()
    }
}

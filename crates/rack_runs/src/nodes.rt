// The nodes of a ledger, as those that a rack keeps.
ghost use Rattle.std.specs.Prelude.{◌≡◌, ◌⊎◌, Ok, Err, map, All, IfOk, IfSome, IfErr};
ghost use Rattle.file_runs.specs.Ledgers.{IsLedger};
ghost use Rattle.rack_runs.specs.Kinds.{answer_to};
ghost use Rattle.rack_runs.specs.Works.{IsSeen, AreSeen};
ghost use Rattle.lane_driver.specs.declared.fault.LaneFault.{LaneFault as FaultOf};
ghost use Rattle.rack_runs.specs.Telling.{CountAll};

use crate::faults::answer_of;
use crate::told::Told;
use cbdc_types::Answer;
use coord_log::CoordLog;
use file_runs::Ledger;
use lane_driver::LaneFault;
use lane_waves::Watch;
use outside::Disk;
use rack_ledgers::Nodes;
use recovery::ResumedBatch;
use shard_node::ShardNode;

// What each coordinator says of itself: a call that reads it says so.
fn see_logs<D: Disk>(logs: &[CoordLog<D>])
    ensures { All (IsSeen D.Disk) logs.now }
{
    'logs: for log in logs {
        let _header = log.header();
    }
}

// The same of each shard.
fn see_shards<D: Disk>(shards: &[ShardNode<D>])
    ensures { All (IsSeen D.Disk) shards.now }
{
    'shards: for shard in shards {
        let _header = shard.header();
    }
}

// How many hashes are unspent over all shards. None where that is no number of 64 bits: memory holds no so many.
fn unspent_of<D: Disk>(shards: &[ShardNode<D>]) -> Option<u64>
    ensures { IfSome result (CountAll (map (λ s. s.journal) shards.now)) }
{
    let mut unspent = 0u64;
    'shards: for shard in shards {
        match unspent.checked_add(shard.unspent_len()) {
            Some(sum) => unspent = sum,
            None => return None,
        }
    }
    Some(unspent)
}

// What a work came to, behind which the shards are these.
pub(crate) fn told_of<D: Disk, T: Drop>(
    resumed: Vec<ResumedBatch>,
    came: Result<T, LaneFault>,
    shards: &[ShardNode<D>],
) -> Result<Told<T>, Answer>
    ensures fault { IfErr result (λ a. ((a ≡ Answer.Memory) × ((d : _) × (came ≡ Ok d)))
        ⊎ ((e : FaultOf) × (came ≡ Err e) × (a ≡ answer_to e))) }
    ensures same { IfOk result (λ t. (t.resumed.items ≡ resumed.items) × (came ≡ Ok t.done)) }
    ensures unspent { IfOk result (λ t. CountAll (map (λ s. s.journal) shards.now) t.unspent) }
{
    match came {
        Ok(done) => match unspent_of(shards) {
            Some(unspent) => Ok(Told {
                resumed,
                done,
                unspent,
            }),
            None => Err(Answer::Memory),
        },
        Err(fault) => Err(answer_of(&fault)),
    }
}

/// Nodes that a rack kept, as a ledger.
pub(crate) fn ledger_of<D: Disk>(nodes: Nodes<D>) -> Ledger<D>
    requires { IsLedger nodes.header nodes.logs.items nodes.shards.items }
    ensures { result
        ≡ record { header = nodes.header; logs = nodes.logs.items; shards = nodes.shards.items } }
{
    let Nodes {
        header,
        logs,
        shards,
    } = nodes;
    Ledger {
        header,
        logs,
        shards,
        watch: Watch::Off,
    }
}

/// The nodes of a ledger, for the rack that keeps them.
pub(crate) fn nodes_of<D: Disk>(ledger: Ledger<D>) -> Nodes<D>
    ensures ledger { IsLedger result.header result.logs.items result.shards.items }
    ensures same { ledger
        ≡ record { header = result.header; logs = result.logs.items; shards = result.shards.items } }
    ensures seen { AreSeen D.Disk result.logs.items result.shards.items }
{
    let Ledger {
        header,
        logs,
        shards,
        watch: _,
    } = ledger;
    see_logs(logs.as_slice());
    see_shards(shards.as_slice());
    Nodes {
        header,
        logs,
        shards,
    }
}

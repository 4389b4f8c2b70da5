// The journals of nodes, lent.
ghost use Rattle.std.specs.Prelude.{◌≡◌, ◌++◌, map, reverse, IfOk};
ghost use Rattle.audit.specs.Rows.{read};

use cbdc_types::Record;
use coord_log::CoordLog;
use outside::Disk;
use shard_node::ShardNode;
use std::alloc::AllocError;

/// Puts the journals of coordinators behind others, the oldest record first.
pub fn lend_logs<'a, D: Disk>(
    logs: &'a [CoordLog<D>],
    all: &mut Vec<&'a [Record]>,
) -> Result<(), AllocError>
    ensures { IfOk result
        (λ u. read all.new.items ≡ read all.old.items ++ map (λ l. reverse l.journal) logs.entry.now) }
{
    'logs: for log in logs {
        all.push(log.records())?;
    }
    Ok(())
}

/// Puts the journals of shards behind others, the oldest record first.
pub fn lend_shards<'a, D: Disk>(
    shards: &'a [ShardNode<D>],
    all: &mut Vec<&'a [Record]>,
) -> Result<(), AllocError>
    ensures { IfOk result
        (λ u. read all.new.items ≡ read all.old.items ++ map (λ s. reverse s.journal) shards.entry.now) }
{
    'shards: for shard in shards {
        all.push(shard.records())?;
    }
    Ok(())
}

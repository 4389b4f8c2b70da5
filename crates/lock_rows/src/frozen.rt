// A shard in memory, for the rows: it has the coins that it began with, and no memory for a batch.
ghost use Rattle.std.specs.Prelude.{◌≡◌, [], ◌∷◌, IfOk, IfSome};
ghost use Rattle.cbdc_model.specs.Sights.{Sight};

use cbdc_types::{
    FinishCall, ForgetCall, Hash, Header, LockCall, NodeFault, Record, Refused, Replied, Stamp,
    Status,
};
use outside::Disk;
use port_sets::Shard;
use shard_core::ShardCore;
use shard_node::ShardNode;
use std::alloc::{AllocError, Global};
use std::marker::Model;

/// A shard whose journal is its Genesis alone. Contracts see what is seen of it.
#[derive(Drop)]
pub struct Frozen {
    core: ShardCore,
    records: Vec<Record>,
}

impl Model for Frozen {
    ghost use Rattle.cbdc_model.specs.Sights.{Sight};

    ghost Value = { Sight };

    ghost use Rattle.lock_rows.specs.Frozen.{seen_of, IsFrozen};

    ghost view = { λ s. seen_of s.core.header s.records.items };

    ghost invariant = { λ s. IsFrozen s.core s.records.items };
}

fn copied(it: &Record) -> Result<Record, AllocError>
    ensures { IfOk result (λ copy. copy ≡ it.now) }
{
    it.clone()
}

// A copy of one record alone.
fn only_copied(alloc: Global, it: &Record) -> Option<Vec<Record>>
    ensures { IfSome result (λ rs. rs.items ≡ it.now ∷ []) }
{
    let Ok(copy) = copied(it) else {
        return None;
    };
    let Ok(mut records) = Vec::with_capacity(alloc, 1) else {
        return None;
    };
    records.push_reserved(copy);
    Some(records)
}

impl Frozen {
    /// A copy in memory of a shard that has no record behind its Genesis; else none, or memory is wanting.
    pub fn of<D: Disk>(alloc: Global, shard: &ShardNode<D>) -> Option<Frozen>
        ensures { IfSome result (λ s. s.header ≡ shard.now.header) }
    {
        let [first] = shard.records() else {
            return None;
        };
        let Record::Genesis { header, hashes } = first else {
            return None;
        };
        let Ok(core) = ShardCore::new(alloc, header, hashes.as_slice()) else {
            return None;
        };
        let Some(records) = only_copied(alloc, first) else {
            drop(core);
            return None;
        };
        Some(Frozen { core, records })
    }
}

impl Shard for Frozen {
    ghost sight = { λ s. s };

    ghost goes = { λ a b. Unit {0} };

    fn header(&self) -> &Header {
        self.core.header()
    }

    fn records(&self) -> &[Record] {
        self.records.as_slice()
    }

    fn is_broken(&self) -> bool {
        let _header = self.core.header();
        false
    }

    fn check_unspent(&self, hash: &Hash) -> Status {
        self.core.check_unspent(hash)
    }

    fn lock(&mut self, _call: &LockCall) -> Result<Replied, NodeFault> {
        let _header = self.core.header();
        Err(NodeFault::Memory)
    }

    fn finish(&mut self, _call: &FinishCall) -> Result<Stamp, NodeFault> {
        let _header = self.core.header();
        Err(NodeFault::Refused(Refused::NotLocked { kept: 0 }))
    }

    fn forget(&mut self, _call: &ForgetCall) -> Result<Stamp, NodeFault> {
        let _header = self.core.header();
        Err(NodeFault::Refused(Refused::NotLocked { kept: 0 }))
    }

    ghost same = { λ s. tt };

    ghost behind = { λ a b c f g. tt };
}

// The calls at a shard.
ghost use Rattle.std.specs.Prelude.{◌≡◌, ◌↔◌, true, false, IsTrue, IsSome, IfSome, reverse};
ghost use Rattle.cbdc_model.specs.Due.{lock_due, finish_due, forget_due};
ghost use Rattle.cbdc_model.specs.After.{After, IsJournal};
ghost use Rattle.cbdc_model.specs.Grammar.{IsShard};
ghost use Rattle.cbdc_model.specs.Status.{status};
ghost use Rattle.cbdc_model.specs.Fates.{fate};
ghost use Rattle.shard_core.specs.Counts.{CountsUnspent};
ghost use Rattle.shard_core.specs.Remembers.{told_fate};
ghost use Rattle.cbdc_model.specs.Calls.{IsLockCall, IsFinishCall, IsForgetCall};
ghost use Rattle.node_journal.specs.Answered.{HasAnswered};
ghost use Rattle.node_journal.specs.Sound.{IsSoundNode};

use crate::locking::lock_parts;
use crate::parts::Parts;
use crate::stamping::{finish_parts, forget_parts};
use cbdc_types::{
    FinishCall, ForgetCall, Hash, Header, LockCall, NodeFault, Record, Replied, Stamp, Status,
};
use node_journal::Node;
use outside::Disk;
use shard_core::Remembered;
use std::alloc::Global;
use std::marker::Model;

/// A shard on its disk. Contracts see of it what they see of any node (`NodeOf`).
#[derive(Drop)]
pub struct ShardNode<D: Disk> {
    alloc: Global,
    parts: Parts<D>,
}

impl<D: Disk> Model for ShardNode<D> {
    ghost use Rattle.node_journal.specs.Nodes.{NodeOf};

    ghost Value = { NodeOf D };

    ghost use Rattle.node_journal.specs.Sound.{view_of};
    ghost use Rattle.shard_node.specs.Parts.{IsShardOf};

    ghost view = { λ n. view_of n.parts.node };

    ghost invariant = { λ n. IsShardOf n.parts };
}

impl<D: Disk> ShardNode<D> {
    ghost use Rattle.node_journal.specs.Sound.{view_of};
    ghost use Rattle.shard_node.specs.Parts.{IsShardOf};

    pub(crate) fn of_parts(alloc: Global, parts: Parts<D>) -> ShardNode<D>
        requires { IsShardOf parts }
        ensures { result ≡ view_of parts.node }
    {
        ShardNode { alloc, parts }
    }

    /// Locks a part for a batch, answers as before, or refuses and changes nothing. What is needed for the batch's later
    /// records is taken here.
    ///
    /// Out of memory: before its first write; the shard's journal is as before.
    pub fn lock(&mut self, call: &LockCall) -> Result<Replied, NodeFault>
        requires { IsLockCall self.old.header call.now }
        ensures { HasAnswered D.Disk true (lock_due self.old.header.shape self.old.capacity call.now
            self.old.broken self.old.journal) self.old self.new result }
    {
        lock_parts(self.alloc, &mut self.parts, call)
    }

    /// Applies a locked batch, answers as before, or refuses and changes nothing. Takes no memory.
    ///
    /// Out of memory: never.
    pub fn finish(&mut self, call: &FinishCall) -> Result<Stamp, NodeFault>
        requires { IsFinishCall self.old.header call.now }
        ensures { HasAnswered D.Disk false (finish_due call.now self.old.broken self.old.journal)
            self.old self.new result }
    {
        finish_parts(self.alloc, &mut self.parts, call)
    }

    /// Forgets a finished batch, answers as before, or refuses and changes nothing. Takes no memory.
    ///
    /// Out of memory: never.
    pub fn forget(&mut self, call: &ForgetCall) -> Result<Stamp, NodeFault>
        requires { IsForgetCall self.old.header call.now }
        ensures { HasAnswered D.Disk false (forget_due call.now self.old.broken self.old.journal)
            self.old self.new result }
    {
        forget_parts(&mut self.parts, call)
    }

    /// What the shard knows of a hash. Takes no memory.
    pub fn check_unspent(&self, hash: &Hash) -> Status
        ensures { result ≡ status self.now.journal hash.now }
    {
        self.parts.node.core.check_unspent(hash)
    }

    /// How many hashes are unspent here. Takes no memory.
    pub fn unspent_len(&self) -> u64
        ensures { CountsUnspent self.now.journal result }
    {
        self.parts.node.core.unspent_len()
    }

    /// What the shard remembers of a transaction. Takes no memory.
    pub fn check_tx(&self, id: &Hash) -> Option<Remembered>
        ensures { told_fate result ≡ fate self.now.header.shape self.now.journal id.now }
    {
        self.parts.node.core.check_tx(id)
    }

    /// The header of its journal. Takes no memory.
    pub fn header(&self) -> &Header
        ensures header { result.now ≡ self.now.header }

        // Its count of faults, what is in flight and the room of its journal are sound.
        ensures sound { IsSoundNode D.Disk self.now }
    {
        &self.parts.node.log.header
    }

    /// Whether an append has failed since it was opened: its record is in flight. Takes no memory.
    pub fn is_broken(&self) -> bool
        ensures { IsTrue result ↔ IsSome self.now.flight }
    {
        self.parts.node.flight.is_some()
    }

    /// Its records, the newest last. Takes no memory.
    pub fn records(&self) -> &[Record]
        ensures records { reverse result.now ≡ self.now.journal }
        ensures journal { IsJournal self.now.header self.now.journal }
        ensures shard { IsShard self.now.header.shape self.now.header.node }

        // A record in flight may come next.
        ensures flying { IfSome self.now.flight (After self.now.header self.now.journal) }
    {
        self.parts.node.log.records.as_slice()
    }

    /// Gives the disk back. Takes no memory.
    pub fn into_disk(self) -> D
        ensures { result ≡ self.disk }
    {
        let ShardNode { alloc: _, parts } = self;
        let Parts { node, decisions: _ } = parts;
        let Node {
            log,
            core: _,
            opened: _,
            flight: _,
        } = node;
        log.into_disk()
    }
}

// What lanes ask of a shard that they share, and the shard on one disk.
ghost use Rattle.std.specs.Prelude.{◌≡◌, ◌↔◌, ◌≤◌, true, false, reverse, IsTrue, IsSome};
ghost use Rattle.cbdc_model.specs.Calls.{IsLockCall, IsFinishCall, IsForgetCall};
ghost use Rattle.cbdc_model.specs.Sights.{Sight};
ghost use Rattle.cbdc_model.specs.Status.{status};
ghost use Rattle.node_journal.specs.Nodes.{sight};
ghost use Rattle.node_ports.specs.Nodes.{IsNodeHeld};
ghost use Rattle.port_sets.specs.Giving.{NodeGives};
ghost use Rattle.port_sets.specs.Shards.{lock_owed, finish_owed, forget_owed, good_reply, good_stamp};

use cbdc_types::{
    FinishCall, ForgetCall, Hash, Header, LockCall, NodeFault, Record, Replied, Stamp, Status,
};
use node_ports::{finish_at, forget_at, lock_at};
use outside::Disk;
use shard_node::ShardNode;

/// A shard of a ledger: it keeps a journal, and does on it what each call owes.
///
/// What lanes ask of a shard, of whatever kind: each call does what the shard owes on its journal, with an answer that is good by the journal
/// behind it, and what is to stay true of the shard does (gives, goes). `ShardNode` keeps it: what stays true is that its disk holds its journal.
/// So does a shard in memory that takes no batch (`lock_rows`).
pub trait Shard {
    /// Its header, its journal, its record in flight, how often it has failed, and how much it may hold.
    ghost sight: { Self → Sight };

    /// What stays true from a state of it to a later one, whatever is asked of it.
    ghost goes: { Self → Self → Type 0 };

    /// Its header. It has failed no less often than when it was opened.
    fn header(&self) -> &Header
        ensures header { result.now ≡ (sight self.now).header }
        ensures since_opened { (sight self.now).opened ≤ (sight self.now).faults };

    /// Its records, the newest last.
    fn records(&self) -> &[Record]
        ensures { reverse result.now ≡ (sight self.now).seen };

    /// Whether a record is in flight.
    fn is_broken(&self) -> bool
        ensures { IsTrue result ↔ IsSome (sight self.now).flight };

    /// What its journal says of a hash.
    fn check_unspent(&self, hash: &Hash) -> Status
        ensures { result ≡ status (sight self.now).seen hash.now };

    /// Locks a part for a batch, answers as before, or refuses and changes nothing.
    fn lock(&mut self, call: &LockCall) -> Result<Replied, NodeFault>
        requires { IsLockCall (sight self.old).header call.now }
        ensures gives { NodeGives call.now.batch.lane true
            (lock_owed call.now) good_reply (sight self.old) (sight self.new) result }
        ensures goes { goes self.old self.new };

    /// Applies a locked batch, or answers as before. It wants neither room nor memory.
    fn finish(&mut self, call: &FinishCall) -> Result<Stamp, NodeFault>
        requires { IsFinishCall (sight self.old).header call.now }
        ensures gives { NodeGives call.now.batch.lane false
            (finish_owed call.now) good_stamp (sight self.old) (sight self.new) result }
        ensures goes { goes self.old self.new };

    /// Forgets an applied batch, or answers as before. It wants neither room nor memory.
    fn forget(&mut self, call: &ForgetCall) -> Result<Stamp, NodeFault>
        requires { IsForgetCall (sight self.old).header call.now }
        ensures gives { NodeGives call.now.batch.lane false
            (forget_owed call.now) good_stamp (sight self.old) (sight self.new) result }
        ensures goes { goes self.old self.new };

    /// Where nothing is asked of it, it stays.
    ghost same: { (s : Self) → goes s s };

    /// One state after another.
    ghost behind: { (a b c : Self) → goes a b → goes b c → goes a c };
}

impl<D: Disk> Shard for ShardNode<D> {
    ghost sight = { sight };

    ghost goes = { λ a b. IsNodeHeld D.Disk a → IsNodeHeld D.Disk b };

    fn header(&self) -> &Header {
        ShardNode::header(self)
    }

    fn records(&self) -> &[Record] {
        ShardNode::records(self)
    }

    fn is_broken(&self) -> bool {
        ShardNode::is_broken(self)
    }

    fn check_unspent(&self, hash: &Hash) -> Status {
        ShardNode::check_unspent(self, hash)
    }

    fn lock(&mut self, call: &LockCall) -> Result<Replied, NodeFault> {
        let _records = ShardNode::records(self);
        lock_at(self, call)
    }

    fn finish(&mut self, call: &FinishCall) -> Result<Stamp, NodeFault> {
        let _records = ShardNode::records(self);
        finish_at(self, call)
    }

    fn forget(&mut self, call: &ForgetCall) -> Result<Stamp, NodeFault> {
        let _records = ShardNode::records(self);
        forget_at(self, call)
    }

    ghost same = { λ s h. h };

    ghost behind = { λ a b c f g h. g (f h) };
}

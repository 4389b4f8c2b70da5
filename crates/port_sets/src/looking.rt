// What is told of a node that lanes share, from its journal.
ghost use Rattle.std.specs.Prelude.{◌≡◌, IfOk};
ghost use Rattle.node_lock.specs.Seats.{knows, IsSeatOf};
ghost use Rattle.port_sets.specs.Looks.{tells_of, lists_all, HasListed};

use crate::coordinators::SharedLog;
use crate::locking::SharedShard;
use crate::nodes::Shard;
use cbdc_types::{Hash, Record, Status};
use node_lock::{Asked, Guarded, Seat};
use outside::Disk;
use std::alloc::{AllocError, Global};
use std::sync::Wait;

/// What a shard can be asked for.
#[derive(Drop)]
pub enum ShardAsk {
    /// What it knows of a hash.
    Status(Hash),
    /// All its records, the oldest first, in memory of this allocator.
    Records(Global),
}

/// What it answers.
#[derive(Drop)]
pub enum ShardAnswer {
    Known(Status),
    Listed(Result<Vec<Record>, AllocError>),
}

fn copied_record(it: &Record) -> Result<Record, AllocError>
    ensures { IfOk result (λ copy. copy ≡ it.now) }
{
    it.clone()
}

// A copy of records.
fn copied(alloc: Global, records: &[Record]) -> Result<Vec<Record>, AllocError>
    ensures { IfOk result (λ all. all.items ≡ records.now) }
{
    let mut all = Vec::with_capacity(alloc, records.len())?;
    for it in records {
        all.push(copied_record(it)?)?;
    }
    Ok(all)
}

impl<S: Shard> Asked for SharedShard<S> {
    type Ask = ShardAsk;

    type Answer = ShardAnswer;

    ghost tells = { tells_of };

    fn ask(&self, ask: &ShardAsk) -> ShardAnswer {
        match ask {
            ShardAsk::Status(hash) => ShardAnswer::Known(self.node.check_unspent(hash)),
            ShardAsk::Records(alloc) => ShardAnswer::Listed(copied(*alloc, self.node.records())),
        }
    }
}

/// A coordinator can be asked for all its records, the oldest first, in memory of the allocator that is handed in.
impl<D: Disk> Asked for SharedLog<D> {
    type Ask = Global;

    type Answer = Result<Vec<Record>, AllocError>;

    ghost tells = { λ s alloc all. lists_all s all };

    fn ask(&self, alloc: &Global) -> Result<Vec<Record>, AllocError> {
        copied(*alloc, self.node.records())
    }
}

/// All records of a coordinator, the oldest first, once the seat's turn has come: they are what the seat has seen then. Nothing is written.
pub fn list_log<R: Wait, D: Disk>(
    rt: &R,
    alloc: Global,
    guarded: &Guarded<SharedLog<D>>,
    seat: &mut Seat<SharedLog<D>>,
) -> Result<Vec<Record>, AllocError>
    requires seat { IsSeatOf guarded.now seat.old }
    ensures seat { IsSeatOf guarded.now seat.new }
    ensures listed { HasListed (knows seat.old) (knows seat.new) result }
{
    guarded.look(rt, seat, &alloc)
}

/// The same of a shard.
pub fn list_shard<R: Wait, S: Shard>(
    rt: &R,
    alloc: Global,
    guarded: &Guarded<SharedShard<S>>,
    seat: &mut Seat<SharedShard<S>>,
) -> Result<Vec<Record>, AllocError>
    requires seat { IsSeatOf guarded.now seat.old }
    ensures seat { IsSeatOf guarded.now seat.new }
    ensures listed { HasListed (knows seat.old) (knows seat.new) result }
{
    match guarded.look(rt, seat, &ShardAsk::Records(alloc)) {
        ShardAnswer::Listed(all) => all,
        ShardAnswer::Known(_) => unreachable!(),
    }
}

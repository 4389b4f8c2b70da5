// A shard under a lock for two lanes, of which one makes a batch's calls: one on a disk, and one in memory.
ghost use Rattle.std.specs.Prelude.{◌≡◌, IfSome};
ghost use Rattle.cbdc_model.specs.Calls.{IsLockCall, IsFinishCall};
ghost use Rattle.node_lock.specs.Seats.{knows, opening_of, IsSeatOf};

use crate::frozen::Frozen;
use crate::gates::RowGate;
use crate::lanes::point_of;
use crate::opening::{only, opened};
use cbdc_types::{
    BatchId, Entry, FinishCall, Hash, Header, LaneId, LockCall, NodeId, Shape, Stamp, Status,
};
use mem_devices::PlainDisk;
use node_lock::{Guarded, Seat};
use outside::When;
use port_sets::{Shard, ShardAnswer, ShardAsk, ShardCall, ShardReply, SharedShard};
use shard_node::{ShardNode, is_finish_call, is_lock_call};
use std::alloc::Global;
use std::sync::Wait;
use std::thread::{Threads, join};

// The lane that makes the calls, and the one that only looks.
const ONE: LaneId = LaneId(0);

const TWO: LaneId = LaneId(1);

// The coin that the shard has, and the one that the batch makes of it.
const COIN: Hash = Hash([1; 32]);

const MADE: Hash = Hash([2; 32]);

// The calls of a batch.
#[derive(Drop)]
struct Calls {
    lock: LockCall,
    finish: FinishCall,
}

// Whether a batch's Lock and Finish were done, and what is told of the coin that it makes: before the Finish, behind it, and to another lane at last.
#[derive(Clone, Copy, PartialEq)]
struct Told {
    locked: bool,
    finished: bool,
    before: Status,
    behind: Status,
    at_last: Status,
}

// What the lane that makes the calls is told, and its seat.
#[derive(Drop)]
struct Spent<S: Shard> {
    seat: Seat<SharedShard<S>>,
    locked: bool,
    finished: bool,
    before: Status,
    behind: Status,
}

// The shard, which has the coin.
fn opened_shard(alloc: Global) -> Option<ShardNode<PlainDisk>> {
    let header = Header {
        node: NodeId(1),
        shape: Shape::new(1, 1, 2, 16).ok()?,
        genesis: Hash([0; 32]),
    };
    opened(alloc, header, COIN, 1000)
}

// The transaction that spends the coin, and makes the other one where it is committed.
fn entry(alloc: Global) -> Option<Entry> {
    let inputs = only(alloc, COIN)?;
    Some(Entry {
        place: 0,
        id: Hash([9; 32]),
        inputs,
        outputs: only(alloc, MADE)?,
    })
}

// The Lock of a batch of that transaction.
fn lock_of(alloc: Global, batch: BatchId) -> Option<LockCall>
    ensures { IfSome result (λ c. c.batch.lane ≡ batch.lane) }
{
    let own = entry(alloc)?;
    Some(LockCall {
        batch,
        part: only(alloc, own)?,
        cause: Stamp(1),
    })
}

// The Finish of that batch.
fn finish_of(alloc: Global, batch: BatchId, committed: bool) -> Option<FinishCall>
    ensures { IfSome result (λ c. c.batch.lane ≡ batch.lane) }
{
    Some(FinishCall {
        batch,
        decisions: only(alloc, committed)?,
        cause: Stamp(3),
    })
}

// The calls of a batch whose one transaction spends the coin, and makes the other one where it is committed.
fn calls_of(alloc: Global, lane: LaneId, committed: bool) -> Option<Calls>
    ensures lock { IfSome result (λ c. c.lock.batch.lane ≡ lane) }
    ensures finish { IfSome result (λ c. c.finish.batch.lane ≡ lane) }
{
    let batch = BatchId { lane, number: 1 };
    let lock = lock_of(alloc, batch)?;
    Some(Calls {
        lock,
        finish: finish_of(alloc, batch, committed)?,
    })
}

fn is_good(reply: &ShardReply) -> bool {
    match reply {
        ShardReply::Locked(answer) => answer.is_ok(),
        ShardReply::Stamped(answer) => answer.is_ok(),
    }
}

fn is_done(reply: ShardReply) -> bool {
    let is_good = is_good(&reply);
    drop(reply);
    is_good
}

// What is told of the coin that the batch makes.
fn look<R: Wait, S: Shard>(
    rt: &R,
    guarded: &Guarded<SharedShard<S>>,
    seat: &mut Seat<SharedShard<S>>,
) -> Status
    requires seat { IsSeatOf guarded.now seat.old }
    ensures seat { IsSeatOf guarded.now seat.new }
    ensures lane { (knows seat.new).lane ≡ (knows seat.old).lane }
{
    match guarded.look(rt, seat, &ShardAsk::Status(MADE)) {
        ShardAnswer::Known(status) => status,
        ShardAnswer::Listed(_) => unreachable!(),
    }
}

// Makes the two calls, and looks before the Finish and behind it.
fn spend<R: Wait, S: Shard>(
    rt: &R,
    guarded: &Guarded<SharedShard<S>>,
    mut seat: Seat<SharedShard<S>>,
    calls: &Calls,
) -> Spent<S>
    requires seat { IsSeatOf guarded.now seat }
    requires lock { calls.now.lock.batch.lane ≡ (knows seat).lane }
    requires finish { calls.now.finish.batch.lane ≡ (knows seat).lane }
    requires may_lock { IsLockCall (S.sight (opening_of guarded.now).node).header calls.now.lock }
    requires may_finish { IsFinishCall (S.sight (opening_of guarded.now).node).header calls.now.finish }
    ensures seat { IsSeatOf guarded.now result.seat }
{
    let at = point_of(seat.lane(), When::Before);
    let mut lock = ShardCall::Lock(&calls.lock);
    let locked = is_done(guarded.call(rt, &mut seat, &mut lock, &RowGate::Open, &at));
    let before = look(rt, guarded, &mut seat);
    let mut finish = ShardCall::Finish(&calls.finish);
    let finished = is_done(guarded.call(rt, &mut seat, &mut finish, &RowGate::Open, &at));
    let behind = look(rt, guarded, &mut seat);
    Spent {
        seat,
        locked,
        finished,
        before,
        behind,
    }
}

// Looks once.
fn watch<R: Wait, S: Shard>(
    rt: &R,
    guarded: &Guarded<SharedShard<S>>,
    mut seat: Seat<SharedShard<S>>,
) -> Seat<SharedShard<S>>
    requires seat { IsSeatOf guarded.now seat }
    ensures seat { IsSeatOf guarded.now result }
{
    let _ = look(rt, guarded, &mut seat);
    seat
}

// Both lanes beside each other, and behind the join what the second is told.
fn beside<R: Threads + Wait + Sync, S: Shard + Send>(
    rt: &R,
    guarded: &Guarded<SharedShard<S>>,
    one: Seat<SharedShard<S>>,
    two: Seat<SharedShard<S>>,
    calls: &Calls,
) -> (Spent<S>, Seat<SharedShard<S>>, Status)
    requires one { IsSeatOf guarded.now one }
    requires two { IsSeatOf guarded.now two }
    requires lock { calls.now.lock.batch.lane ≡ (knows one).lane }
    requires finish { calls.now.finish.batch.lane ≡ (knows one).lane }
    requires may_lock { IsLockCall (S.sight (opening_of guarded.now).node).header calls.now.lock }
    requires may_finish { IsFinishCall (S.sight (opening_of guarded.now).node).header calls.now.finish }
    ensures one { IsSeatOf guarded.now result.0.seat }
    ensures two { IsSeatOf guarded.now result.1 }
{
    let (spent, mut two) = join(
        rt,
        || spend(rt, guarded, one, calls),
        || watch(rt, guarded, two),
    );
    let seen = look(rt, guarded, &mut two);
    (spent, two, seen)
}

// Both lanes at a shard that may be asked so.
fn at_shard<R: Threads + Wait + Sync, S: Shard + Send + Drop>(
    rt: &R,
    alloc: Global,
    node: S,
    calls: &Calls,
) -> Option<Told>
    requires lock { calls.now.lock.batch.lane ≡ 0 }
    requires finish { calls.now.finish.batch.lane ≡ 0 }
    requires may_lock { IsLockCall (S.sight node).header calls.now.lock }
    requires may_finish { IsFinishCall (S.sight node).header calls.now.finish }
{
    let (guarded, mut seats) = Guarded::new(alloc, SharedShard { node }, &[ONE, TWO]).ok()?;
    let two = seats.pop().unwrap();
    let one = seats.pop().unwrap();
    let (spent, two, at_last) = beside(rt, &guarded, one, two, calls);
    let Spent {
        seat,
        locked,
        finished,
        before,
        behind,
    } = spent;
    seats.push_reserved(seat);
    seats.push_reserved(two);
    drop(guarded.close(seats));
    Some(Told {
        locked,
        finished,
        before,
        behind,
        at_last,
    })
}

// Both lanes at a shard, where it may be asked so.
fn asked<R: Threads + Wait + Sync, S: Shard + Send + Drop>(
    rt: &R,
    alloc: Global,
    node: S,
    calls: &Calls,
) -> Option<Told>
    requires lock { calls.now.lock.batch.lane ≡ 0 }
    requires finish { calls.now.finish.batch.lane ≡ 0 }
{
    if !is_lock_call(node.header(), &calls.lock) || !is_finish_call(node.header(), &calls.finish) {
        return None;
    }
    at_shard(rt, alloc, node, calls)
}

// Both lanes at the shard on its disk.
fn asked_on_disk<R: Threads + Wait + Sync>(rt: &R, alloc: Global, calls: &Calls) -> Option<Told>
    requires lock { calls.now.lock.batch.lane ≡ 0 }
    requires finish { calls.now.finish.batch.lane ≡ 0 }
{
    let node = opened_shard(alloc)?;
    asked(rt, alloc, node, calls)
}

/// A lane locks a part and finishes it while another looks. Whether the coin that is made is absent before the Finish, and unspent behind it:
/// for the lane that made it at once, and for the other behind the join.
pub fn shows_output<R: Threads + Wait + Sync>(
    rt: &R,
    alloc: Global,
    committed: bool,
) -> Option<bool> {
    let shown = Told {
        locked: true,
        finished: true,
        before: Status::Absent,
        behind: Status::Unspent,
        at_last: Status::Unspent,
    };
    let calls = calls_of(alloc, ONE, committed)?;
    let told = asked_on_disk(rt, alloc, &calls);
    drop(calls);
    Some(told? == shown)
}

// A copy of the shard that stands on no disk and takes no batch.
fn frozen_shard(alloc: Global) -> Option<Frozen> {
    let node = opened_shard(alloc)?;
    let frozen = Frozen::of(alloc, &node);
    drop(node);
    frozen
}

// Both lanes at that copy.
fn asked_frozen<R: Threads + Wait + Sync>(rt: &R, alloc: Global, calls: &Calls) -> Option<Told>
    requires lock { calls.now.lock.batch.lane ≡ 0 }
    requires finish { calls.now.finish.batch.lane ≡ 0 }
{
    let frozen = frozen_shard(alloc)?;
    asked(rt, alloc, frozen, calls)
}

/// The same lanes at a copy of the shard that stands on no disk and takes no batch. Whether neither call is done, and the coin is absent for both lanes.
pub fn takes_none<R: Threads + Wait + Sync>(rt: &R, alloc: Global) -> Option<bool> {
    let refused = Told {
        locked: false,
        finished: false,
        before: Status::Absent,
        behind: Status::Absent,
        at_last: Status::Absent,
    };
    let calls = calls_of(alloc, ONE, true)?;
    let told = asked_frozen(rt, alloc, &calls);
    drop(calls);
    Some(told? == refused)
}

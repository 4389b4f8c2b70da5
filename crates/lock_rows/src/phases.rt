// The lock calls of a phase at three shards, made at once.
use crate::gates::RowGate;
use crate::opening::{only, opened};
use cbdc_types::{
    BatchId, Entry, Hash, Header, LaneId, List, LockCall, NodeFault, NodeId, Replied, Reply, Shape,
    Stamp,
};
use mem_devices::PlainDisk;
use node_ports::NodeShard;
use phase_calls::{Pace, lock_phase};
use shard_node::{ShardNode, is_lock_call};
use std::alloc::Global;
use std::sync::Wait;
use std::thread::Threads;

// A coin at each of three shards, by the first byte of its hash.
const COINS: [u8; 3] = [1, 101, 201];

// A coin that the third shard has not.
const ABSENT: u8 = 202;

// So many bytes hold a Genesis of one coin and a Lock of one entry; so many the Genesis alone.
const ROOMY: usize = 1000;

const NARROW: usize = 140;

// Whether a shard has so many records.
fn has(shard: &ShardNode<PlainDisk>, records: usize) -> bool {
    shard.records().len() == records
}

// A shard of three, which has one coin, on a disk of this size.
fn shard_of(alloc: Global, node: u32, coin: u8, size: usize) -> Option<ShardNode<PlainDisk>> {
    let header = Header {
        node: NodeId(node),
        shape: Shape::new(3, 1, 1, 16).ok()?,
        genesis: Hash([0; 32]),
    };
    opened(alloc, header, Hash([coin; 32]), size)
}

// An entry that spends the coin.
fn entry_of(alloc: Global, coin: u8) -> Option<Entry> {
    Some(Entry {
        place: 0,
        id: Hash([9; 32]),
        inputs: only(alloc, Hash([coin; 32]))?,
        outputs: List::new(alloc),
    })
}

// A Lock of one entry, which spends the coin.
fn call_of(alloc: Global, coin: u8) -> Option<LockCall> {
    let entry = entry_of(alloc, coin)?;
    Some(LockCall {
        batch: BatchId {
            lane: LaneId(0),
            number: 1,
        },
        part: only(alloc, entry)?,
        cause: Stamp(1),
    })
}

// Whether a shard has answered that it holds the one entry.
fn is_held(answer: &Result<Replied, NodeFault>) -> bool {
    match answer {
        Ok(told) => told.replies.as_slice() == [Reply::Held].as_slice(),
        Err(_) => false,
    }
}

// Whether a shard has answered that it has no such coin.
fn is_missing(answer: &Result<Replied, NodeFault>, coin: u8) -> bool {
    match answer {
        Ok(told) => told.replies.as_slice() == [Reply::Missing(Hash([coin; 32]))].as_slice(),
        Err(_) => false,
    }
}

fn is_full(answer: &Result<Replied, NodeFault>) -> bool {
    match answer {
        Err(NodeFault::Full { .. }) => true,
        _ => false,
    }
}

// What three shards answer to these lock calls, made at once.
fn ask_three<R: Threads + Wait + Sync>(
    rt: &R,
    alloc: Global,
    one: &mut ShardNode<PlainDisk>,
    two: &mut ShardNode<PlainDisk>,
    three: &mut ShardNode<PlainDisk>,
    low: LockCall,
    middle: LockCall,
    high: LockCall,
) -> Option<Vec<Result<Replied, NodeFault>>> {
    if !is_lock_call(one.header(), &low)
        || !is_lock_call(two.header(), &middle)
        || !is_lock_call(three.header(), &high)
    {
        return None;
    }
    let calls = [(0, low), (1, middle), (2, high)];
    let Ok(mut answers) = Vec::with_capacity(alloc, 3) else {
        return None;
    };
    let Ok(mut ports) = Vec::with_capacity(alloc, 3) else {
        return None;
    };
    ports.push_reserved(NodeShard {
        rt,
        lane: LaneId(0),
        node: NodeId(1),
        shard: one,
    });
    ports.push_reserved(NodeShard {
        rt,
        lane: LaneId(0),
        node: NodeId(2),
        shard: two,
    });
    ports.push_reserved(NodeShard {
        rt,
        lane: LaneId(0),
        node: NodeId(3),
        shard: three,
    });
    lock_phase(
        rt,
        &RowGate::Open,
        Pace::AtOnce,
        calls.as_slice(),
        &mut answers,
        ports.as_mut_slice(),
    );
    drop(ports);
    Some(answers)
}

// What three shards answer to lock calls that are made at once: each about the coin that it began with, the third about another.
fn ask_about<R: Threads + Wait + Sync>(
    rt: &R,
    alloc: Global,
    one: &mut ShardNode<PlainDisk>,
    two: &mut ShardNode<PlainDisk>,
    three: &mut ShardNode<PlainDisk>,
) -> Option<Vec<Result<Replied, NodeFault>>> {
    let low = call_of(alloc, COINS[0])?;
    let middle = call_of(alloc, COINS[1])?;
    let high = call_of(alloc, ABSENT)?;
    ask_three(rt, alloc, one, two, three, low, middle, high)
}

// Whether these are held, full and missing, in this order.
fn are_told(answers: &[Result<Replied, NodeFault>]) -> bool {
    let [first, second, third] = answers else {
        return false;
    };
    is_held(first) && is_full(second) && is_missing(third, ABSENT)
}

// Whether three shards answer as they should.
fn is_answered<R: Threads + Wait + Sync>(
    rt: &R,
    alloc: Global,
    one: &mut ShardNode<PlainDisk>,
    two: &mut ShardNode<PlainDisk>,
    three: &mut ShardNode<PlainDisk>,
) -> bool {
    match ask_about(rt, alloc, one, two, three) {
        Some(answers) => are_told(answers.as_slice()),
        None => false,
    }
}

// The row below, with its shards given.
fn has_locks<R: Threads + Wait + Sync>(
    rt: &R,
    alloc: Global,
    one: &mut ShardNode<PlainDisk>,
    two: &mut ShardNode<PlainDisk>,
    three: &mut ShardNode<PlainDisk>,
) -> bool {
    is_answered(rt, alloc, one, two, three) && has(three, 2) && has(two, 1) && has(one, 2)
}

// The row below, with its first two shards given.
fn third_is_missing<R: Threads + Wait + Sync>(
    rt: &R,
    alloc: Global,
    one: &mut ShardNode<PlainDisk>,
    two: &mut ShardNode<PlainDisk>,
) -> bool {
    let Some(mut three) = shard_of(alloc, 3, COINS[2], ROOMY) else {
        return false;
    };
    let told = has_locks(rt, alloc, one, two, &mut three);
    drop(three);
    told
}

// The row below, with its first shard given.
fn second_is_narrow<R: Threads + Wait + Sync>(
    rt: &R,
    alloc: Global,
    one: &mut ShardNode<PlainDisk>,
) -> bool {
    let Some(mut two) = shard_of(alloc, 2, COINS[1], NARROW) else {
        return false;
    };
    let told = third_is_missing(rt, alloc, one, &mut two);
    drop(two);
    told
}

/// The lock calls of a phase at three shards, made at once: the first has the coin, the second no room for its Lock, the third not the coin. Whether
/// the answers stand in the order of the shards, each its own, and the first and the third have their Lock, and the second none.
pub fn second_is_full<R: Threads + Wait + Sync>(rt: &R, alloc: Global) -> Option<bool> {
    let mut one = shard_of(alloc, 1, COINS[0], ROOMY)?;
    let told = second_is_narrow(rt, alloc, &mut one);
    drop(one);
    Some(told)
}

// Whether nothing is answered in a phase of no call, with a port over this shard.
fn is_silent<R: Threads + Wait + Sync>(
    rt: &R,
    alloc: Global,
    one: &mut ShardNode<PlainDisk>,
) -> bool {
    let Ok(mut answers) = Vec::with_capacity(alloc, 1) else {
        return false;
    };
    let Ok(mut ports) = Vec::with_capacity(alloc, 1) else {
        return false;
    };
    ports.push_reserved(NodeShard {
        rt,
        lane: LaneId(0),
        node: NodeId(1),
        shard: one,
    });
    let none = Vec::new(alloc);
    lock_phase(
        rt,
        &RowGate::Open,
        Pace::AtOnce,
        none.as_slice(),
        &mut answers,
        ports.as_mut_slice(),
    );
    drop(ports);
    answers.is_empty()
}

// The row below, with its shard given.
fn leaves_none<R: Threads + Wait + Sync>(
    rt: &R,
    alloc: Global,
    one: &mut ShardNode<PlainDisk>,
) -> bool {
    is_silent(rt, alloc, one) && has(one, 1)
}

/// A phase of no call, made at once. Whether nothing is answered, and each shard has its Genesis alone.
pub fn asks_none<R: Threads + Wait + Sync>(rt: &R, alloc: Global) -> Option<bool> {
    let mut one = shard_of(alloc, 1, COINS[0], ROOMY)?;
    let told = leaves_none(rt, alloc, &mut one);
    drop(one);
    Some(told)
}

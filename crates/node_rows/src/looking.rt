// What open nodes hold and know.
use crate::state::Node;
use cbdc_types::{OpenLane, Phase, Record};
use coord_core::LanePhase;
use coord_log::CoordLog;
use mem_devices::FaultDisk;
use row_records::{Known, Names, Told, Wrong, differ, records_in, words_around};
use shard_core::Remembered;
use shard_node::ShardNode;
use std::alloc::Global;

fn records_differ(alloc: Global, text: &str, came: &[Record]) -> Wrong {
    let mut own = Told::new(alloc);
    for record in came {
        own.record(record);
    }
    differ(alloc, text, own.as_str())
}

/// `journal NODE`, and a line for each of its records: lines spell these records of a node.
pub fn check_records(known: &Known, node: u32, came: &[Record], text: &str, told: &mut Told) {
    let wanted = records_in(known, node, text, told);
    if wanted.as_slice() != came {
        told.fail(records_differ(told.alloc, text, came));
    }
}

fn remembered_word(own: Option<Remembered>) -> &'static str {
    match own {
        None => "none",
        Some(Remembered::Waiting) => "waiting",
        Some(Remembered::Committed) => "committed",
        Some(Remembered::Rejected) => "rejected",
    }
}

/// `knows NODE HASH.. tx ID..`, and what the shard knows of the hashes and remembers of the transactions, and how many hashes are unspent
pub fn knows(shard: &ShardNode<FaultDisk>, words: &[&str], told: &mut Told) {
    let (hashes, ids) = words_around(words, "tx");
    for at in 0..hashes.len() {
        let x = told.hash_at(hashes, at);
        told.status(&shard.check_unspent(&x));
        told.word("/");
    }
    for at in 0..ids.len() {
        let id = told.hash_at(ids, at);
        told.word(remembered_word(shard.check_tx(&id)));
        told.word("/");
    }
    told.number(shard.unspent_len());
}

/// Tells where a lane stands.
pub fn tell_phase(told: &mut Told, phase: &LanePhase) {
    match phase {
        LanePhase::Idle(n) => told.named("idle", *n as u128),
        LanePhase::Prepared(n) => told.named("prepared", *n as u128),
        LanePhase::Committed(n) => told.named("committed", *n as u128),
        LanePhase::Discarded(n) => told.named("discarded", *n as u128),
    }
}

// Tells the phase and the stamp of an open batch, and how many transactions and outcomes it has.
fn tell_open(told: &mut Told, own: &OpenLane) {
    told.word(match own.phase {
        Phase::Prepared => "prepared",
        Phase::Committed => "committed",
        Phase::Discarded => "discarded",
    });
    told.numbers(&[
        own.batch.number,
        own.stamp.0,
        own.txs.len() as u64,
        own.outcomes.len() as u64,
    ]);
}

/// `stands NODE LANE`, and `idle NUMBER`, or the phase, number and stamp of the lane's open batch, and how many transactions and outcomes it has
pub fn stands(log: &CoordLog<FaultDisk>, words: &[&str], told: &mut Told) {
    let lane = told.lane_at(words, 0);
    match log.open_lane(lane) {
        Ok(Some(own)) => tell_open(told, &own),
        Ok(None) => tell_phase(told, &log.phase(lane)),
        Err(_) => told.no_memory(),
    }
}

// The bytes of all disks, each in a line of digits.
fn bytes_told(alloc: Global, nodes: &[Node]) -> Result<String, Wrong> {
    let mut own = Told::new(alloc);
    for node in nodes {
        match node {
            Node::Disk(disk) => own.digits(disk.bytes()),
            _ => own.refuse("a node is not closed"),
        }
        own.line();
    }
    own.text()
}

/// `keep NAME`: the bytes of all disks have this name.
pub fn keep(nodes: &[Node], kept: &mut Names<String>, words: &[&str], told: &mut Told) {
    let alloc = told.alloc;
    let name = told.word_at(words, 0);
    if let Some(bytes) = told.given(bytes_told(alloc, nodes)) {
        told.made(kept.put(alloc, name, bytes));
    }
}

/// `same NAME`: all disks have the bytes of that name.
pub fn same(nodes: &[Node], kept: &Names<String>, words: &[&str], told: &mut Told) {
    let alloc = told.alloc;
    let Some(wanted) = kept.get(told.word_at(words, 0)) else {
        told.refuse("nothing was kept under that name");
        return;
    };
    if let Some(came) = told.given(bytes_told(alloc, nodes)) {
        told.check_same(wanted.as_str(), came.as_str());
    }
}

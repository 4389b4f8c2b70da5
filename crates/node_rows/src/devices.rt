// A rack, a sink, an inbox and gates in memory.
ghost use Rattle.mem_devices.specs.Racks.{NoneOut};

use cbdc_types::NodeId;
use mem_devices::{MemInbox, MemRack, MemSink, PlainDisk, TestGate};
use outside::{Disk, Failed, Gate, Inbox, OpenGate, Point, Rack, Sink, When};
use row_records::{Told, bytes_of, rest, words_around};
use std::sync::Wait;

/// Decimal numbers.
pub fn numbers(words: &[&str], told: &mut Told) -> Vec<u64> {
    let mut all = Vec::new(told.alloc);
    for at in 0..words.len() {
        let n = told.number_at(words, at);
        told.push(&mut all, n);
    }
    all
}

/// Tells how many bytes a call took or gave, or `fails`.
pub fn tell_count(told: &mut Told, word: &str, came: &Result<usize, Failed>) {
    match came {
        Ok(n) => told.named(word, *n as u128),
        Err(_) => told.word("fails"),
    }
}

// Empty disks with these capacities.
fn disks_of(capacities: &[&str], told: &mut Told) -> Vec<PlainDisk> {
    let mut disks = Vec::new(told.alloc);
    for at in 0..capacities.len() {
        let capacity = told.small_at(capacities, at) as usize;
        let made = PlainDisk::new(told.alloc, capacity);
        if let Some(disk) = told.made(made) {
            told.push(&mut disks, disk);
        }
    }
    disks
}

// Tells for each node up to this one whether its disk is in its place.
fn tell_places(told: &mut Told, rack: &MemRack<PlainDisk>, last: usize) {
    for node in 0..last.min(64) as u32 + 1 {
        let is_in = rack.disk(NodeId(node)).is_some();
        told.word(if is_in { "in" } else { "out" });
    }
}

// Takes a node's disk out and puts it back.
fn take_out(rack: &mut MemRack<PlainDisk>, node: NodeId, last: usize, told: &mut Told)
    requires all { NoneOut rack.old }
{
    match rack.take(node) {
        Ok(disk) => {
            told.named("took", disk.capacity() as u128);
            tell_places(told, rack, last);
            told.word("back");
            rack.put(node, disk);
        }
        Err(_) => told.word("none"),
    }
    tell_places(told, rack, last);
}

/// `rack CAPACITY.. take NODE`, and the capacity of the disk that is taken, or `none`; which nodes' disks are in their places while it is
/// out, one more than there are, and which are when it is back.
pub fn rack(words: &[&str], told: &mut Told) {
    let (capacities, taken) = words_around(words, "take");
    told.at_most(taken, 1);
    let node = NodeId(told.small_at(taken, 0));
    let disks = disks_of(capacities, told);
    match MemRack::new(told.alloc, disks) {
        Ok(made) => {
            let mut rack = made;
            take_out(&mut rack, node, capacities.len(), told);
        }
        Err(_) => told.no_memory(),
    }
}

// Gives a sink one piece after another, and tells what each call takes.
fn fill(sink: &mut MemSink, pieces: &[&str], told: &mut Told) {
    for piece in pieces {
        let bytes = bytes_of(&[*piece], told);
        tell_count(told, "took", &sink.write(&bytes));
    }
}

fn check_taken(sink: &MemSink, held: &[&str], told: &mut Told) {
    let wanted = bytes_of(held, told);
    told.check_bytes(&wanted, sink.taken());
}

/// `sink CAPACITY fails CALL.. takes PIECE.. has PIECE..`, and what each call takes, or `fails`; behind them it has those bytes.
pub fn sink(words: &[&str], told: &mut Told) {
    let (words, held) = words_around(words, "has");
    let (words, pieces) = words_around(words, "takes");
    let (words, fails) = words_around(words, "fails");
    told.at_most(words, 1);
    let capacity = told.small_at(words, 0) as usize;
    let fails = numbers(fails, told);
    let made = MemSink::new(told.alloc, capacity, fails);
    if let Some(mut sink) = told.made(made) {
        fill(&mut sink, pieces, told);
        check_taken(&sink, held, told);
    }
}

// An inbox with one file, `NAME PIECE..`.
fn inbox_of(words: &[&str], told: &mut Told) -> MemInbox {
    let mut files = Vec::new(told.alloc);
    let bytes = bytes_of(rest(words, 1), told);
    let name = told.word_at(words, 0);
    let made = String::from_str(told.alloc, name);
    if let Some(name) = told.made(made) {
        told.push(&mut files, (name, bytes));
    }
    MemInbox::new(files)
}

// Reads once: `NAME AT PIECE..`.
fn read_once(inbox: &mut MemInbox, words: &[&str], told: &mut Told) {
    let alloc = told.alloc;
    let (name, at) = (told.word_at(words, 0), told.number_at(words, 1));
    let wanted = bytes_of(rest(words, 2), told);
    let made = vec![in alloc; 0u8; wanted.len()];
    if let Some(mut buffer) = told.made(made) {
        tell_count(told, "read", &inbox.read(name, at, &mut buffer));
        told.check_bytes(&wanted, &buffer);
    }
}

/// `inbox NAME PIECE.. read NAME AT PIECE..`, and how many bytes are read, or `fails`; the buffer has those bytes then, and had zeros. Behind
/// another `read` the same inbox is read again.
pub fn inbox(words: &[&str], told: &mut Told) {
    let (own, asked) = words_around(words, "read");
    let mut inbox = inbox_of(own, told);
    let mut at = 0usize;
    for _ in 0..asked.len() {
        if at < asked.len() {
            let (one, _) = words_around(rest(asked, at), "read");
            read_once(&mut inbox, one, told);
            at = at.saturating_add(one.len()).saturating_add(1);
        }
    }
}

// A point of the lane that a word tells.
fn point(words: &[&str], at: usize, told: &mut Told) -> Point {
    Point {
        lane: told.lane_at(words, at),
        node: NodeId(1),
        kind: 2,
        when: When::Inside,
    }
}

// Tells which points came.
fn tell_came(told: &mut Told, gate: &TestGate) {
    let (held, awaited) = gate.came();
    told.word(if held { "held" } else { "-" });
    told.word(if awaited { "awaited" } else { "-" });
}

// Passes an open gate and one of two points, and tells which of these came.
fn pass<W: Wait>(rt: &W, gate: &TestGate, own: &Point, told: &mut Told) {
    OpenGate.pass(rt, own);
    gate.pass(rt, own);
    tell_came(told, gate);
}

/// `gate HELD AWAITED passes LANE..`, of points by their lanes, and which of the two came, at first and behind each that passes. An open gate lets
/// them by, too.
pub fn gate<W: Wait>(rt: &W, words: &[&str], told: &mut Told) {
    let held = point(words, 0, told);
    let awaited = point(words, 1, told);
    told.expect(words, 2, "passes");
    let gate = TestGate::new(held, awaited);
    tell_came(told, &gate);
    for at in 3..words.len() {
        let own = point(words, at, told);
        pass(rt, &gate, &own, told);
    }
}

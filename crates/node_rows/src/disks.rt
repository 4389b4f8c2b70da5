// Disks in memory.
ghost use Rattle.std.specs.Prelude.{◌≤◌, length};

use crate::devices::{numbers, tell_count};
use crate::state::{Node, make_place, put_node, take_node};
use crate::verbs::Verb;
use cbdc_types::{Header, Record};
use mem_devices::{Choice, FaultDisk, PlainDisk};
use outside::Disk;
use record_log::write_record;
use row_records::{Known, Told, bytes_of, put_number, records_in, rest, words_around};
use std::alloc::{AllocError, Global};

const TOO_LONG: &str = "a disk has more bytes than its capacity";

/// A node that has no disk whose calls may fail.
pub const NO_FAULTS: &str = "no disk that may fail";

/// How many writes and syncs a disk keeps, where a row does not say.
pub const CALLS: u32 = 100_000;

/// Appends a record as a journal has it: its open gate, the length of its body, and the body.
pub fn put_record(bytes: &mut Vec<u8>, own: &Record, header: &Header, told: &mut Told) {
    let mut body = Vec::new(told.alloc);
    told.made(write_record(own, header, &mut body));
    told.push(bytes, 1);
    told.made(put_number(bytes, body.len() as u64));
    told.made(bytes.extend_from_slice(&body));
}

// Appends the records of a node's journal, a line each, and a closed gate.
fn put_journal(bytes: &mut Vec<u8>, known: &Known, node: u32, text: &str, told: &mut Told) {
    let Some(header) = told.given(known.header(node)) else {
        return;
    };
    for own in &records_in(known, node, text, told) {
        put_record(bytes, own, &header, told);
    }
    told.push(bytes, 0);
}

/// Puts a disk with these bytes in its place.
pub fn put_disk(
    nodes: &mut Vec<Node>,
    place: u32,
    bytes: &[u8],
    capacity: u32,
    fails: Vec<u64>,
    keeps: u32,
    told: &mut Told,
) {
    if bytes.len() > capacity as usize {
        told.refuse(TOO_LONG);
        return;
    }
    let made = FaultDisk::new(told.alloc, bytes, capacity as usize, fails, keeps as usize);
    if let Some(disk) = told.made(made) {
        put_node(nodes, place, Node::Disk(disk));
    }
}

/// `disk NODE CAPACITY [holds PIECE..] [fails CALL..] [keeps CALLS]`, or with a line for each record of the journal that it holds.
pub fn disk(known: &Known, nodes: &mut Vec<Node>, words: &[&str], text: &str, told: &mut Told) {
    let (words, keeps) = told.small_behind(words, "keeps", CALLS);
    let (words, fails) = words_around(words, "fails");
    let (words, pieces) = words_around(words, "holds");
    told.at_most(words, 2);
    let place = told.small_at(words, 0);
    let capacity = told.small_at(words, 1);
    make_place(nodes, place, told);
    let fails = numbers(fails, told);
    let mut bytes = bytes_of(pieces, told);
    if !text.is_empty() {
        told.at_most(pieces, 0);
        put_journal(&mut bytes, known, place, text, told);
    }
    put_disk(nodes, place, &bytes, capacity, fails, keeps, told);
}

// A disk that never fails, with these bytes.
fn plain_with(alloc: Global, bytes: Vec<u8>, capacity: usize) -> Result<PlainDisk, AllocError>
    requires { length bytes.items ≤ capacity }
{
    if bytes.is_empty() {
        return PlainDisk::new(alloc, capacity);
    }
    PlainDisk::with_bytes(bytes, capacity)
}

/// `plain NODE CAPACITY [PIECE..]`: a disk that never fails.
pub fn plain_disk(nodes: &mut Vec<Node>, place: u32, words: &[&str], told: &mut Told) {
    let alloc = told.alloc;
    let capacity = told.small_at(words, 0) as usize;
    let bytes = bytes_of(rest(words, 1), told);
    if bytes.len() > capacity {
        told.refuse(TOO_LONG);
        return;
    }
    if let Some(disk) = told.made(plain_with(alloc, bytes, capacity)) {
        put_node(nodes, place, Node::Plain(disk));
    }
}

// Tells whether a call was done.
fn tell_done(told: &mut Told, is_done: bool) {
    told.word(if is_done { "done" } else { "fails" });
}

// `write NODE AT PIECE..`, and `done` or `fails`
fn write<D: Disk>(disk: &mut D, words: &[&str], told: &mut Told) {
    let at = told.number_at(words, 0);
    let bytes = bytes_of(rest(words, 1), told);
    if at > disk.len() || at > disk.capacity() || bytes.len() as u64 > disk.capacity() - at {
        told.refuse("past the disk's end");
    } else {
        tell_done(told, disk.write_at(at, &bytes).is_ok());
    }
}

// `read NODE AT PIECE..`, and how many bytes are read, or `fails`; the buffer has those bytes then, and had zeros.
fn read<D: Disk>(disk: &mut D, words: &[&str], told: &mut Told) {
    let alloc = told.alloc;
    let at = told.number_at(words, 0);
    let wanted = bytes_of(rest(words, 1), told);
    let made = vec![in alloc; 0u8; wanted.len()];
    if let Some(mut buffer) = told.made(made) {
        tell_count(told, "read", &disk.read(at, &mut buffer));
        told.check_bytes(&wanted, &buffer);
    }
}

/// A step of a disk: `write`, `read`, `sync NODE` with `done` or `fails`, and `device NODE` with how many bytes the disk has, how many it may have, and how
/// often it has failed.
pub fn on_disk<D: Disk>(disk: &mut D, verb: Verb, words: &[&str], told: &mut Told) {
    match verb {
        Verb::Write => write(disk, words, told),
        Verb::Read => read(disk, words, told),
        Verb::Sync => tell_done(told, disk.sync().is_ok()),
        Verb::Device => told.numbers(&[disk.len(), disk.capacity(), disk.faults()]),
        _ => told.refuse("no step of a disk"),
    }
}

/// `bytes NODE PIECE..`: what the disk holds.
pub fn bytes(held: &[u8], pieces: &[&str], told: &mut Told) {
    let wanted = bytes_of(pieces, told);
    told.check_bytes(&wanted, held);
}

/// The disk of a node, which is closed.
pub fn disk_in(node: Node) -> Option<FaultDisk> {
    match node {
        Node::Disk(disk) => Some(disk),
        Node::Bodies(journal) => Some(journal.into_disk()),
        Node::Records(log) => Some(log.into_disk()),
        Node::Log(log) => Some(log.into_disk()),
        Node::Shard(shard) => Some(shard.into_disk()),
        _ => None,
    }
}

/// `close NODE`: its disk alone is left.
pub fn close(nodes: &mut Vec<Node>, place: u32, told: &mut Told) {
    match disk_in(take_node(nodes, place)) {
        Some(disk) => put_node(nodes, place, Node::Disk(disk)),
        None => told.refuse(NO_FAULTS),
    }
}

// What a crash leaves of a node's disk by a choice.
fn crash_with(nodes: &mut Vec<Node>, place: u32, choice: &Choice, told: &mut Told) {
    let Some(disk) = disk_in(take_node(nodes, place)) else {
        told.refuse(NO_FAULTS);
        return;
    };
    if let Some(left) = told.made(disk.crash(choice)) {
        put_node(nodes, place, Node::Disk(left));
    }
}

/// `crash NODE LENGTH PIECE..`: the disk becomes what a crash leaves, which is so long where it may, and has these bytes in the places that
/// it may change.
pub fn crash(nodes: &mut Vec<Node>, place: u32, words: &[&str], told: &mut Told) {
    let choice = Choice {
        len: told.small_at(words, 0) as usize,
        bytes: bytes_of(rest(words, 1), told),
    };
    crash_with(nodes, place, &choice, told);
}

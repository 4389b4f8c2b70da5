// Steps that lay disks, keep them and change them.
use crate::disks::{DiskState, cut, digits_of};
use crate::files::change_bytes;
use crate::runs::{Left, Ran};
use crate::state::State;
use crate::verbs::{Verb, verb_of};
use crate::words::{count_at, hex, hex_at};
use row_records::{Told, rest};

// How many bytes a disk may have, where a row does not say.
const CAPACITY: usize = 10_000;

// Lays a disk for the next node, which does not fail.
fn lay(state: &mut State, bytes: Vec<u8>, capacity: usize, told: &mut Told) {
    told.push(
        &mut state.disks,
        DiskState {
            bytes,
            capacity,
            first_fault: 0,
            faults: 0,
        },
    );
}

/// `rack CAPACITY..`: empty disks.
pub fn empty_rack(state: &mut State, words: &[&str], told: &mut Told) {
    state.disks.clear();
    for word in words {
        let capacity = told.number_of(word) as usize;
        lay(state, Vec::new(told.alloc), capacity, told);
    }
}

// The capacity at a place among words, or the usual one behind the last.
fn capacity_at(words: &[&str], at: usize, told: &mut Told) -> usize {
    if at < words.len() {
        count_at(words, at, told)
    } else {
        CAPACITY
    }
}

// Lays disks by their lines; behind the first word stand the capacities.
fn lay_all(state: &mut State, rack: &str, words: &[&str], told: &mut Told) {
    for line in rack.lines() {
        let capacity = capacity_at(words, state.disks.len().saturating_add(1), told);
        lay(state, hex(line, told), capacity, told);
    }
}

/// `load RACK CAPACITY..`: the disks of a rack that was kept, behind the last capacity with the usual one.
pub fn load(state: &mut State, words: &[&str], told: &mut Told) {
    let rack = state.rack(told.word_at(words, 0), told);
    state.disks.clear();
    lay_all(state, rack.as_str(), words, told);
}

/// `keep NAME`: all disks as they are.
pub fn keep(state: &mut State, words: &[&str], told: &mut Told) {
    let alloc = told.alloc;
    let name = told.word_at(words, 0);
    let text = digits_of(&state.disks, told);
    told.made(state.racks.put(alloc, name, text));
}

// The bytes of a node's disk, by the lines of all.
fn bytes_at(rack: &str, node: usize, told: &mut Told) -> Vec<u8> {
    match rack.lines().nth(node) {
        Some(line) => hex(line, told),
        None => {
            told.refuse("no such disk");
            Vec::new(told.alloc)
        }
    }
}

// `like RACK NODE`: the bytes of that disk of a rack that was kept.
fn bytes_like(state: &State, words: &[&str], told: &mut Told) -> Vec<u8> {
    let node = count_at(words, 1, told);
    let rack = state.rack(told.word_at(words, 0), told);
    bytes_at(rack.as_str(), node, told)
}

// How many calls fail where all do from one on.
const STOPPED: u64 = 300;

// Lets calls of the next run fail.
fn fail(disk: &mut DiskState, first: usize, many: u64) {
    disk.first_fault = first as u64;
    disk.faults = many;
}

// Changes a disk by a number: its first records alone, how many bytes it may have, or which calls of the next run fail, one or all from one on.
fn change_by(disk: &mut DiskState, verb: Verb, number: usize, told: &mut Told) {
    match verb {
        Verb::Cut => cut(&mut disk.bytes, number, told),
        Verb::Room => disk.capacity = number,
        Verb::Fails => fail(disk, number, 1),
        Verb::Stops => fail(disk, number, STOPPED),
        _ => told.refuse("no such change of a disk"),
    }
}

// Changes a disk.
fn change(disk: &mut DiskState, verb: Verb, words: &[&str], told: &mut Told) {
    match verb {
        Verb::Set | Verb::Add | Verb::Truncate => {
            change_bytes(&mut disk.bytes, verb, words, told);
        }
        other => {
            let number = count_at(words, 0, told);
            change_by(disk, other, number, told);
        }
    }
}

// `node N like RACK N`: the disk has the bytes of another one.
fn make_like(state: &mut State, words: &[&str], told: &mut Told) {
    let bytes = bytes_like(state, rest(words, 2), told);
    if let Some(disk) = state.disk_mut(words, told) {
        disk.bytes = bytes;
    }
}

/// `node N set AT DIGITS`, `add DIGITS`, `truncate BYTES`, `cut RECORDS`, `like RACK N`, `room CAPACITY`, `fails CALL`, `stops CALL`
pub fn change_disk(state: &mut State, words: &[&str], told: &mut Told) {
    match verb_of(rest(words, 1), told) {
        Some(Verb::Like) => make_like(state, words, told),
        Some(other) => {
            if let Some(disk) = state.disk_mut(words, told) {
                change(disk, other, rest(words, 2), told);
            }
        }
        None => {}
    }
}

/// Gives the disks the bytes that a run left; what was to fail in it alone fails no more.
pub fn take_back(disks: &mut [DiskState], ran: &Ran, told: &mut Told) {
    let mut node = 0u32;
    for disk in disks {
        disk.bytes = ran.bytes(node, told);
        disk.faults = 0;
        node = node.saturating_add(1);
    }
}

// The one of bytes.
fn only(bytes: &[u8], told: &mut Told) -> u8 {
    match bytes {
        [byte] => *byte,
        _ => {
            told.refuse("a byte has two digits");
            0
        }
    }
}

// The byte that the two digits at a place spell.
fn byte_at(words: &[&str], at: usize, told: &mut Told) -> u8 {
    let bytes = hex_at(words, at, told);
    only(&bytes, told)
}

// What a crash is to leave of what was not synced: nothing (a zero in each place, as a closed gate is), all, or a byte in each place.
fn left_of(words: &[&str], told: &mut Told) -> Left {
    let (len, byte) = match told.word_at(words, 0) {
        "none" => (0, Some(0)),
        "all" => (usize::MAX, None),
        "torn" => (usize::MAX, Some(byte_at(words, 1, told))),
        _ => {
            told.refuse("a crash is none, all or torn BYTE");
            (0, None)
        }
    };
    Left { len, byte }
}

// Leaves each disk as a crash behind a run may.
fn crash_all(disks: &mut [DiskState], ran: &Ran, left: Left, told: &mut Told) {
    let mut node = 0u32;
    for disk in disks {
        disk.bytes = ran.crashed(node, left, told);
        node = node.saturating_add(1);
    }
}

/// `crash none`, `all` or `torn BYTE`: each disk as a crash behind the last run may leave it.
pub fn crash(state: &mut State, words: &[&str], told: &mut Told) {
    let left = left_of(words, told);
    match &state.ran {
        Some(ran) => crash_all(state.disks.as_mut_slice(), ran, left, told),
        None => told.refuse("nothing was run"),
    }
}

// The disks by themselves, and what a crash leaves of each.
use crate::state::{Place, State};
use cbdc_types::Record;
use mem_devices::{Choice, FaultDisk};
use outside::Disk;
use row_records::{Told, bytes_of, rest};
use shard_node::ShardNode;
use std::alloc::{AllocError, Global};

// The disks of what is there; none where they are not as one.
fn parted(place: Place) -> Option<Vec<FaultDisk>> {
    match place {
        Place::Mirror(disks) => Some(disks.into_disks()),
        Place::Shard(shard) => Some(shard.into_disk().into_disks()),
        _ => None,
    }
}

// Copies of records.
fn copies(alloc: Global, records: &[Record]) -> Result<Vec<Record>, AllocError> {
    let mut all = Vec::new(alloc);
    for own in records {
        all.push(own.clone()?)?;
    }
    Ok(all)
}

// What the shard has written, where one is there.
fn written(alloc: Global, place: &Place) -> Result<Vec<Record>, AllocError> {
    match place {
        Place::Shard(shard) => copies(alloc, shard.records()),
        _ => Ok(Vec::new(alloc)),
    }
}

/// `part`: the disks by themselves; what the shard had written is remembered.
pub fn part(state: &mut State, told: &mut Told) {
    if let Some(own) = told.made(written(told.alloc, &state.place)) {
        state.written = own;
    }
    match parted(state.take()) {
        Some(disks) => state.put(Place::Apart(disks)),
        None => told.refuse("no disks as one"),
    }
}

// `bytes MEMBER PIECE..`: what a disk holds.
fn bytes(disks: &[FaultDisk], words: &[&str], told: &mut Told) {
    let wanted = bytes_of(rest(words, 1), told);
    match disks.get(told.small_at(words, 0) as usize) {
        Some(disk) => told.check_bytes(&wanted, disk.bytes()),
        None => told.refuse("no disk of that number"),
    }
}

// `faults`, and how often each disk has failed.
fn faults(disks: &[FaultDisk], told: &mut Told) {
    for disk in disks {
        told.number(disk.faults());
    }
}

// What a crash leaves: so long where it may be, with these bytes where they may change.
fn choice_of(words: &[&str], told: &mut Told) -> Choice {
    Choice {
        len: told.small_at(words, 0) as usize,
        bytes: bytes_of(rest(words, 1), told),
    }
}

// The records of the shard that a disk opens to; none where it does not open.
fn opens_to(disk: FaultDisk, told: &mut Told) -> Vec<Record> {
    match ShardNode::open(told.alloc, disk) {
        Ok(shard) => {
            let made = copies(told.alloc, shard.records());
            told.made(made).unwrap_or(Vec::new(told.alloc))
        }
        Err((_disk, fault)) => {
            told.shown(&fault);
            Vec::new(told.alloc)
        }
    }
}

// What a disk opens to behind a crash.
fn after_crash(disk: &FaultDisk, choice: &Choice, told: &mut Told) -> Vec<Record> {
    match told.made(disk.crash(choice)) {
        Some(left) => opens_to(left, told),
        None => Vec::new(told.alloc),
    }
}

// What each disk opens to behind a crash.
fn all_after(disks: &[FaultDisk], choice: &Choice, told: &mut Told) -> Vec<Vec<Record>> {
    let mut all = Vec::new(told.alloc);
    for disk in disks {
        let own = after_crash(disk, choice, told);
        told.push(&mut all, own);
    }
    all
}

// The longest of lists.
fn longest(lists: &[Vec<Record>]) -> &[Record] {
    let mut most: &[Record] = &[];
    for own in lists {
        if most.len() < own.len() {
            most = own.as_slice();
        }
    }
    most
}

// Whether records are the first of others.
fn is_front(front: &[Record], all: &[Record]) -> bool {
    match all.get(..front.len()) {
        Some(first) => first == front,
        None => false,
    }
}

// Tells how many records each list has. Each must be a front of the longest, and have what was written.
fn tell_fronts(lists: &[Vec<Record>], written: &[Record], told: &mut Told) {
    let all = longest(lists);
    for own in lists {
        told.number(own.len() as u64);
        if !is_front(own.as_slice(), all) {
            told.refuse("a disk opens to another list");
        }
        if !is_front(written, own.as_slice()) {
            told.refuse("a disk lacks what was answered");
        }
    }
}

/// A step of the disks by themselves: `bytes`, `faults`, and `after LENGTH PIECE..` with how many records the shard has that each opens to behind a crash.
pub fn on_members(disks: &[FaultDisk], written: &[Record], words: &[&str], told: &mut Told) {
    let own = rest(words, 1);
    match told.word_at(words, 0) {
        "bytes" => bytes(disks, own, told),
        "faults" => faults(disks, told),
        "after" => {
            let choice = choice_of(own, told);
            let lists = all_after(disks, &choice, told);
            tell_fronts(lists.as_slice(), written, told);
        }
        _ => told.refuse("no step of disks by themselves"),
    }
}

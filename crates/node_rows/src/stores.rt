// The tables of a shard: a set of hashes, a map of locks, and values under hashes.
use crate::state::Tables;
use cbdc_types::{BatchId, Hash};
use row_records::Told;
use shard_table::{HashSlots, Locks, Table};

/// A table.
#[derive(Drop)]
pub enum Store {
    /// None was made.
    Gone,
    Set(Table),
    Locks(Locks),
    Values(HashSlots<u64>),
}

const NO_STORE: &str = "no such table was made";

/// `store set`, `store locks`, `store values`: an empty one.
pub fn make_store(tables: &mut Tables, words: &[&str], told: &mut Told) {
    let alloc = told.alloc;
    let made = match told.word_at(words, 0) {
        "set" => Store::Set(Table::new(alloc)),
        "locks" => Store::Locks(Locks::new(alloc)),
        "values" => Store::Values(HashSlots::new(alloc)),
        _ => {
            told.refuse("a table is a set, locks or values");
            return;
        }
    };
    tables.store = made;
    tables.room = None;
}

// For how many more there is room.
fn spare_of(store: &Store) -> u64 {
    match store {
        Store::Gone => 0,
        Store::Set(set) => set.spare(),
        Store::Locks(locks) => locks.spare(),
        Store::Values(values) => values.spare(),
    }
}

/// `reserve N`: makes room for so many more.
pub fn reserve(store: &mut Store, words: &[&str], told: &mut Told) {
    let n = told.number_at(words, 0);
    let is_done = match store {
        Store::Gone => false,
        Store::Set(set) => set.reserve(n).is_ok(),
        Store::Locks(locks) => locks.reserve(n).is_ok(),
        Store::Values(values) => values.reserve(n).is_ok(),
    };
    if !is_done {
        told.refuse("no table, or no memory for so many");
    }
}

/// `room N`: there is room for so many more at least. That is the room from now on.
pub fn room(tables: &mut Tables, words: &[&str], told: &mut Told) {
    let came = spare_of(&tables.store);
    tables.room = Some(came);
    let least = told.number_at(words, 0);
    told.check_yes(came >= least);
}

/// `spare`, and for how many more there is room; `spare N less`: for so many less than the room.
pub fn spare(tables: &Tables, words: &[&str], told: &mut Told) {
    let came = spare_of(&tables.store);
    if words.is_empty() {
        told.number(came);
        return;
    }
    let less = told.number_at(words, 0);
    told.expect(words, 1, "less");
    match tables.room {
        Some(room) => told.check_yes(came.saturating_add(less) == room),
        None => told.refuse("no room was told before"),
    }
}

fn tell_len(told: &mut Told, many: u64, is_empty: bool) {
    told.number(many);
    if is_empty {
        told.word("empty");
    }
}

/// `len`, and how many there are, with `empty` of one that says that it has nothing
pub fn len(store: &Store, told: &mut Told) {
    match store {
        Store::Set(set) => tell_len(told, set.len(), set.is_empty()),
        Store::Values(values) => tell_len(told, values.len(), values.is_empty()),
        _ => told.refuse(NO_STORE),
    }
}

fn put_member(set: &mut Table, x: Hash, told: &mut Told) {
    if set.spare() == 0 {
        told.refuse("the set has no room");
    } else {
        set.insert(x);
    }
}

fn put_lock(locks: &mut Locks, x: Hash, by: BatchId, place: u32, told: &mut Told) {
    if locks.spare() == 0 || locks.holder(&x).is_some() {
        told.refuse("there is no room, or the hash is locked");
    } else {
        locks.take(x, by, place);
    }
}

fn put_value(values: &mut HashSlots<u64>, x: Hash, value: u64, told: &mut Told) {
    if values.spare() == 0 || values.get(&x).is_some() {
        told.refuse("there is no room, or a value is there");
    } else {
        values.insert(x, value);
    }
}

/// `put HASH`, `put HASH LANE NUMBER PLACE`, `put HASH VALUE`: into a set, a map of locks, values.
pub fn put(store: &mut Store, words: &[&str], told: &mut Told) {
    let x = told.hash_at(words, 0);
    match store {
        Store::Gone => told.refuse(NO_STORE),
        Store::Set(set) => {
            told.at_most(words, 1);
            put_member(set, x, told);
        }
        Store::Locks(locks) => {
            told.at_most(words, 4);
            let by = told.batch_at(words, 1);
            let place = told.small_at(words, 3);
            put_lock(locks, x, by, place, told);
        }
        Store::Values(values) => {
            told.at_most(words, 2);
            let value = told.number_at(words, 1);
            put_value(values, x, value, told);
        }
    }
}

// Hashes that differ in their first byte, with the same home, which the ninth one tells.
fn put_members(set: &mut Table, many: u8, home: u8, told: &mut Told) {
    for first in 0..many {
        let mut bytes = [0u8; 32];
        bytes[0] = first;
        bytes[8] = home;
        put_member(set, Hash(bytes), told);
    }
}

// The number below 256 at a place.
fn byte_at(words: &[&str], at: usize, told: &mut Told) -> u8 {
    let n = told.small_at(words, at);
    if n < 256 {
        n as u8
    } else {
        told.refuse("no number below 256");
        0
    }
}

/// `put-all MANY HOME`: so many hashes into a set that differ in their first byte, from 0 on, and have the same home.
pub fn put_all(store: &mut Store, words: &[&str], told: &mut Told) {
    let many = byte_at(words, 0, told);
    let home = byte_at(words, 1, told);
    match store {
        Store::Set(set) => put_members(set, many, home, told),
        _ => told.refuse(NO_STORE),
    }
}

// Tells a value, or that there is none.
fn tell_value(told: &mut Told, found: Option<u64>) {
    match found {
        Some(value) => told.named("value", value as u128),
        None => told.word("none"),
    }
}

/// `out HASH`, and of values the one that was there or `none`
pub fn take_out(store: &mut Store, words: &[&str], told: &mut Told) {
    let x = told.hash_at(words, 0);
    match store {
        Store::Gone => told.refuse(NO_STORE),
        Store::Set(set) => set.remove(&x),
        Store::Locks(locks) => locks.release(&x),
        Store::Values(values) => tell_value(told, values.remove(&x)),
    }
}

// Tells who holds a lock.
fn tell_holder(told: &mut Told, found: Option<(BatchId, u32)>) {
    match found {
        Some((by, place)) => {
            told.batch(&by);
            told.number(u64::from(place));
        }
        None => told.word("none"),
    }
}

/// `find HASH`, and `there`, `LANE NUMBER PLACE` or `value VALUE`, or `none`
pub fn find(store: &Store, words: &[&str], told: &mut Told) {
    let x = told.hash_at(words, 0);
    match store {
        Store::Gone => told.refuse(NO_STORE),
        Store::Set(set) => told.word(if set.contains(&x) { "there" } else { "none" }),
        Store::Locks(locks) => tell_holder(told, locks.holder(&x)),
        Store::Values(values) => tell_value(told, values.get(&x)),
    }
}

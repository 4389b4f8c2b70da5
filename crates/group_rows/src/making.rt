// Steps that name records and begin a group.
use crate::state::{Named, State, record_named};
use cbdc_types::Record;
use replica_group::Group;
use row_records::{Known, Told, record, rest};

// The record of a line `NAME RECORD`.
fn named_in(known: &Known, node: u32, line: &str, told: &mut Told) -> Option<Named> {
    let words = told.words_of(line);
    let name = told.word_at(&words, 0);
    let record = record(known, node, rest(&words, 1), told)?;
    let name = told.made(String::from_str(told.alloc, name))?;
    Some(Named { name, record })
}

/// `records NODE`, with a line `NAME RECORD` for each: records of that node, by name.
pub fn records(state: &mut State, words: &[&str], text: &str, told: &mut Told) {
    told.at_most(words, 1);
    let node = told.small_at(words, 0);
    state.node = node;
    for line in text.lines() {
        let own = named_in(&state.known, node, line, told);
        told.push_some(&mut state.records, own);
    }
}

// The records of these names.
fn records_named(records: &[Named], names: &[&str], told: &mut Told) -> Vec<Record> {
    let mut all = Vec::new(told.alloc);
    for name in names {
        let own = record_named(records, name, told);
        told.push_some(&mut all, own);
    }
    all
}

/// `group BACKUPS NAME..`: a primary and so many backups, 3 at most, each with these records, all answered.
pub fn group(state: &mut State, words: &[&str], told: &mut Told) {
    let backups = told.small_at(words, 0);
    if 3 < backups {
        told.refuse("a group has three backups at most");
        return;
    }
    let own = records_named(state.records.as_slice(), rest(words, 1), told);
    let Some(header) = told.given(state.known.header(state.node)) else {
        return;
    };
    let made = Group::new(told.alloc, &header, own.as_slice(), backups);
    state.group = told.made(made);
}

// What a row has made so far: what records speak of, records by name, and a group.
use cbdc_types::Record;
use replica_group::Group;
use row_records::{Known, Told, Wrong};
use std::alloc::{AllocError, Global};

/// A record with its name.
#[derive(Drop)]
pub struct Named {
    pub name: String,
    pub record: Record,
}

/// Hashes and transactions by name, the records of a node by name, and a group that holds its journal.
#[derive(Drop)]
pub struct State {
    pub wrong: Option<Wrong>,
    pub known: Known,
    pub node: u32,
    pub records: Vec<Named>,
    pub group: Option<Group>,
    mark: usize,
}

impl State {
    pub fn empty(alloc: Global) -> State {
        State {
            wrong: None,
            known: Known::empty(alloc),
            node: 0,
            records: Vec::new(alloc),
            group: None,
            mark: 0,
        }
    }

    /// What was named so far stands for every row.
    pub fn keep(&mut self) {
        self.known.mark();
        self.mark = self.records.len();
    }

    /// Keeps what stood before the first row alone.
    pub fn forget(&mut self) {
        self.known.forget();
        self.records.truncate(self.mark);
        self.group = None;
    }
}

/// A copy of the record that has a name: of several the one that was named last.
pub fn record_named(records: &[Named], name: &str, told: &mut Told) -> Option<Record> {
    for own in records.iter().rev() {
        if own.name.as_str() == name {
            let copy: Result<Record, AllocError> = own.record.clone();
            return told.made(copy);
        }
    }
    told.refuse("no such record");
    None
}

/// Tells the name of a record.
pub fn tell_name(records: &[Named], record: &Record, told: &mut Told) {
    for own in records.iter().rev() {
        if own.record == *record {
            told.word(own.name.as_str());
            return;
        }
    }
    told.refuse("a record without a name");
}

/// Tells the names of records.
pub fn tell_names(names: &[Named], records: &[Record], told: &mut Told) {
    for record in records {
        tell_name(names, record, told);
    }
}

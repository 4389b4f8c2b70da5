// What a row has made so far: names, disks, and what the last run left.
use crate::disks::{DiskState, cut, tell_digits, text_of};
use crate::ordering::Holding;
use crate::runs::Ran;
use crate::words::{count_at, hex};
use outside::Point;
use row_records::{Names, Told, Wrong};
use std::alloc::Global;

/// How many bytes an output takes, where a row does not say.
pub const ROOM: usize = 100_000;

/// The bytes of a transaction, and how many inputs it has.
#[derive(Drop)]
pub struct Tx {
    pub bytes: Vec<u8>,
    pub inputs: usize,
}

/// What a row has made so far; a rack that was kept as the digits of its disks, a line for each.
#[derive(Drop)]
pub struct State {
    pub hashes: Names<String>,
    pub txs: Names<Tx>,
    pub files: Names<Vec<u8>>,
    pub racks: Names<String>,
    pub disks: Vec<DiskState>,
    pub ran: Option<Ran>,
    pub room: usize,
    pub order: Vec<Point>,
    pub holding: Holding,
    pub wrong: Option<Wrong>,
    marks: [usize; 4],
}

impl State {
    /// With no names and no disks.
    pub fn empty(alloc: Global) -> State {
        State {
            hashes: Names::new(alloc),
            txs: Names::new(alloc),
            files: Names::new(alloc),
            racks: Names::new(alloc),
            disks: Vec::new(alloc),
            ran: None,
            room: ROOM,
            order: Vec::new(alloc),
            holding: Holding::long(),
            wrong: None,
            marks: [0; 4],
        }
    }

    /// What was named so far stands for every row.
    pub fn keep_names(&mut self) {
        self.marks = [
            self.hashes.len(),
            self.txs.len(),
            self.files.len(),
            self.racks.len(),
        ];
    }

    /// Begins a row: with the names that stand for every row, and no disks.
    pub fn forget(&mut self) {
        let [hashes, txs, files, racks] = self.marks;
        self.hashes.forget(hashes);
        self.txs.forget(txs);
        self.files.forget(files);
        self.racks.forget(racks);
        self.disks.clear();
        self.ran = None;
        self.room = ROOM;
        self.order.clear();
    }

    /// The digits of a hash; none where there is no such hash.
    pub fn hash(&self, name: &str, told: &mut Told) -> &str {
        match self.hashes.get(name) {
            Some(digits) => digits.as_str(),
            None => {
                told.refuse("no such hash");
                ""
            }
        }
    }

    /// A transaction by its name; where there is none, that is told.
    pub fn tx(&self, name: &str, told: &mut Told) -> Option<&Tx> {
        told_of(self.txs.get(name), "no such transaction", told)
    }

    /// The bytes of a file by its name; where there is none, that is told.
    pub fn file(&self, name: &str, told: &mut Told) -> Option<&Vec<u8>> {
        told_of(self.files.get(name), "no such file", told)
    }

    // The lines of a rack that was kept.
    fn kept(&self, name: &str, told: &mut Told) -> &str {
        match self.racks.get(name) {
            Some(rack) => rack.as_str(),
            None => {
                told.refuse("no such rack was kept");
                ""
            }
        }
    }

    /// The lines of a rack that was kept: `NAME`, or `NAME[2,1]` with so many records of each disk alone.
    pub fn rack(&self, word: &str, told: &mut Told) -> String {
        let mut own = Told::new(told.alloc);
        match word.split_once('[') {
            None => own.put(self.kept(word, told)),
            Some((name, counts)) => tell_cut(&mut own, self.kept(name, told), counts),
        }
        text_of(own, told)
    }

    /// The disk of the node that the words begin with.
    pub fn disk(&self, words: &[&str], told: &mut Told) -> Option<&DiskState> {
        let own = self.disks.get(count_at(words, 0, told));
        told_of(own, "no such disk", told)
    }

    /// The same, to be changed.
    pub fn disk_mut(&mut self, words: &[&str], told: &mut Told) -> Option<&mut DiskState> {
        let own = self.disks.get_mut(count_at(words, 0, told));
        told_of(own, "no such disk", told)
    }

    /// What the last run left.
    pub fn last_run(&self, told: &mut Told) -> Option<&Ran> {
        told_of(self.ran.as_ref(), "nothing was run", told)
    }
}

// What is there; where nothing is, that is told.
fn told_of<T>(own: Option<T>, why: &'static str, told: &mut Told) -> Option<T> {
    if own.is_none() {
        told.refuse(why);
    }
    own
}

// Tells the line of a disk with its first records alone.
fn tell_first(own: &mut Told, line: &str, records: &str) {
    let records = own.number_of(records) as usize;
    let mut bytes = hex(line, own);
    cut(&mut bytes, records, own);
    tell_digits(own, &bytes);
}

// Tells the lines of disks with so many records each, as `2,1]` tells.
fn tell_cut(own: &mut Told, rack: &str, counts: &str) {
    let Some(counts) = counts.strip_suffix(']') else {
        own.refuse("no ] behind [");
        return;
    };
    let mut lines = rack.lines();
    for records in counts.split(',') {
        match lines.next() {
            Some(line) => tell_first(own, line, records),
            None => own.refuse("more counts than disks"),
        }
    }
    if lines.next().is_some() {
        own.refuse("fewer counts than disks");
    }
}

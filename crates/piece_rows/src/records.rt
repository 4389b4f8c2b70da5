// Records as bytes, both ways.
use crate::bytes::{behind_others, bytes_of};
use crate::state::State;
use crate::words::tell_shape;
use cbdc_types::{Header, Record};
use record_log::{RecordFault, read_back, read_first, read_record, size_of_record, write_record};
use row_records::{Told, record, rest, words_around};

// A record is written as these bytes behind others, which stay as they are, where there is room for it.
fn check_written(own: &Record, header: &Header, wanted: &[u8], told: &mut Told) {
    let all = behind_others(wanted, told);
    let mut came = behind_others(&[], told);
    told.made(came.reserve(wanted.len()));
    told.made(write_record(own, header, &mut came));
    told.check_bytes(&all, &came);
}

// Whether what was read is this record.
fn is_same(read: &Result<Record, RecordFault>, own: &Record) -> bool {
    match read {
        Ok(read) => *read == *own,
        Err(_) => false,
    }
}

// A record is written as these bytes, is read from them and read back, and its size in the journal is told.
fn check_record(own: &Record, header: &Header, wanted: &[u8], told: &mut Told) {
    let alloc = told.alloc;
    check_written(own, header, wanted, told);
    if !is_same(&read_record(alloc, wanted, header), own) {
        told.refuse("the bytes are read as another record, or as none");
    }
    if !is_same(&read_back(alloc, own, header), own) {
        told.refuse("the record is not read back");
    }
    told.number(size_of_record(own));
}

/// `record-bytes NODE RECORD.. is PIECE..`, and the size in the journal: these are the bytes of the record, and they are read
/// as it.
pub fn record_bytes(state: &State, words: &[&str], told: &mut Told) {
    let node = told.small_at(words, 0);
    let Some(header) = told.given(state.known.header(node)) else {
        return;
    };
    let (spelled, pieces) = words_around(rest(words, 1), "is");
    let wanted = bytes_of(state, pieces, told);
    if let Some(own) = record(&state.known, node, spelled, told) {
        check_record(&own, &header, &wanted, told);
    }
}

/// `reads-record NODE PIECE..`, and `yes` or `no`: whether the bytes are those of a record of that node.
pub fn reads_record(state: &State, words: &[&str], told: &mut Told) {
    let node = told.small_at(words, 0);
    let Some(header) = told.given(state.known.header(node)) else {
        return;
    };
    let body = bytes_of(state, rest(words, 1), told);
    match read_record(told.alloc, &body, &header) {
        Ok(_) => told.word("yes"),
        Err(RecordFault::NotARecord) => told.word("no"),
        Err(RecordFault::Memory) => told.word("memory"),
    }
}

// A header: the node, the shape and the id of the mint.
fn tell_header(told: &mut Told, header: &Header) {
    let shape = &header.shape;
    told.number(header.node.0 as u64);
    tell_shape(told, shape);
    told.hash(&header.genesis);
}

// What a journal begins with.
fn tell_first(told: &mut Told, first: &Record) {
    match first {
        Record::Start { header } => {
            told.word("start");
            tell_header(told, header);
        }
        Record::Genesis { header, hashes } => {
            told.word("genesis");
            tell_header(told, header);
            told.hashes(hashes.as_slice());
        }
        _ => told.word("another"),
    }
}

/// `reads-first PIECE..`, and the record that a journal may begin with, or `none`.
pub fn reads_first(state: &State, words: &[&str], told: &mut Told) {
    let body = bytes_of(state, words, told);
    match read_first(told.alloc, &body) {
        Ok(first) => tell_first(told, &first),
        Err(RecordFault::NotARecord) => told.word("none"),
        Err(RecordFault::Memory) => told.word("memory"),
    }
}

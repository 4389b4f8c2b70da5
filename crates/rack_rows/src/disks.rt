// Disks as bytes, and the journals that they hold: a record is a gate of 1, the length of its body in 8 bytes, and the body.
use byteorder::{ByteOrder, LittleEndian};
use row_records::Told;

/// A disk between two runs: its bytes, how many it may have, and which calls of the next run fail: so many from one on.
#[derive(Drop)]
pub struct DiskState {
    pub bytes: Vec<u8>,
    pub capacity: usize,
    pub first_fault: u64,
    pub faults: u64,
}

// A number in 8 bytes, the least first; 0 past the end.
fn number_at(bytes: &[u8], at: usize) -> u64 {
    let end = at.saturating_add(8);
    match bytes.get(at..end) {
        Some(field) if field.len() == 8 => LittleEndian::read_u64(field),
        _ => 0,
    }
}

// The gate behind the record at this one.
fn next_gate(bytes: &[u8], gate: usize) -> usize {
    let length = number_at(bytes, gate.saturating_add(1)) as usize;
    gate.saturating_add(9).saturating_add(length)
}

// The gate behind a disk's first records.
fn gate_behind(bytes: &[u8], records: usize) -> usize {
    let mut at = 0usize;
    for _ in 0..records {
        at = next_gate(bytes, at);
    }
    at
}

/// Keeps a disk's first records alone, and the closed gate behind them.
pub fn cut(bytes: &mut Vec<u8>, records: usize, told: &mut Told) {
    bytes.truncate(gate_behind(bytes, records));
    told.push(bytes, 0);
}

// Whether an open gate stands there.
fn is_open(bytes: &[u8], gate: usize) -> bool {
    bytes.get(gate) == Some(&1)
}

/// Tells where the gates of a disk's records stand, and the closing one.
pub fn tell_gates(told: &mut Told, bytes: &[u8]) {
    let mut at = 0usize;
    for _ in bytes {
        told.number(at as u64);
        if !is_open(bytes, at) {
            break;
        }
        at = next_gate(bytes, at);
    }
}

/// The word of a record's kind.
pub fn kind_word(kind: u8) -> &'static str {
    match kind {
        1 => "genesis",
        2 => "lock",
        3 => "finish",
        4 => "forget",
        5 => "start",
        6 => "prepare",
        7 => "commit",
        8 => "discard",
        9 => "done",
        _ => "unknown",
    }
}

// Tells the line of the record at a gate: its kind and stamp, and where it is of a batch that one's lane and number.
fn tell_record(told: &mut Told, bytes: &[u8], gate: usize) {
    let body = gate.saturating_add(9);
    let kind = bytes.get(body).copied().unwrap_or(0);
    told.word(kind_word(kind));
    told.number(number_at(bytes, body.saturating_add(1)));
    if kind != 1 && kind != 5 {
        told.number(number_at(bytes, body.saturating_add(9)));
        told.number(number_at(bytes, body.saturating_add(17)));
    }
    told.line();
}

/// Tells a line for each of a disk's records.
pub fn tell_records(told: &mut Told, bytes: &[u8]) {
    let mut at = 0usize;
    for _ in bytes {
        if !is_open(bytes, at) {
            break;
        }
        tell_record(told, bytes, at);
        at = next_gate(bytes, at);
    }
}

/// Tells bytes in digits, as a line.
pub fn tell_digits(told: &mut Told, bytes: &[u8]) {
    told.digits(bytes);
    told.line();
}

/// All disks in digits, a line for each.
pub fn digits_of(disks: &[DiskState], told: &mut Told) -> String {
    let mut own = Told::new(told.alloc);
    for disk in disks {
        tell_digits(&mut own, &disk.bytes);
    }
    text_of(own, told)
}

/// The whole answer; nothing where something went wrong on the way to it, which is told.
pub fn text_of(own: Told, told: &mut Told) -> String {
    let alloc = told.alloc;
    told.given(own.text()).unwrap_or(String::new(alloc))
}

// Disks as one, which hold the same and have not failed.
ghost use Rattle.std.specs.Prelude.{◌≤◌, length, IfOk};
ghost use Rattle.mirror_rows.specs.Fresh.{IsFresh};

use crate::state::{Place, State};
use cbdc_types::{Header, Record};
use mem_devices::FaultDisk;
use mirror_devices::Mirror;
use record_log::write_record;
use row_records::{Known, Told, bytes_of, put_number, records_in, rest, words_around};
use std::alloc::{AllocError, Global};

/// How many writes and syncs a disk keeps.
const CALLS: usize = 100_000;

/// The number of the node whose journal lies on the disks.
pub const NODE: u32 = 1;

// A disk with these bytes and so much room, whose listed calls fail.
fn disk_of(
    alloc: Global,
    bytes: &[u8],
    capacity: usize,
    fails: &[u64],
) -> Result<FaultDisk, AllocError>
    requires { length bytes.now ≤ capacity }
    ensures { IfOk result (IsFresh bytes.now capacity) }
{
    let fails = Vec::from_slice(alloc, fails)?;
    FaultDisk::new(alloc, bytes, capacity, fails, CALLS)
}

// The calls that fail at one of the disks: the listed ones at the disk of their number, and none at the others.
fn fails_at<'a>(member: u32, failing: u32, fails: &'a [u64]) -> &'a [u64] {
    if member == failing { fails } else { &[] }
}

// So many disks with these bytes and so much room, as one. The listed calls of one of them fail.
fn mirror_of(
    alloc: Global,
    copies: u32,
    bytes: &[u8],
    capacity: usize,
    failing: u32,
    fails: &[u64],
) -> Result<Mirror<FaultDisk>, AllocError>
    requires some { 1 ≤ copies }
    requires room { length bytes.now ≤ capacity }
{
    let mut disks = Vec::with_capacity(alloc, copies as usize)?;
    'disks: for member in 0..copies {
        let disk = disk_of(alloc, bytes, capacity, fails_at(member, failing, fails))?;
        disks.push(disk)?;
    }
    Ok(Mirror::new(disks))
}

// Appends a record as a journal has it: its open gate, the length of its body, and the body.
fn put_record(bytes: &mut Vec<u8>, own: &Record, header: &Header, told: &mut Told) {
    let mut body = Vec::new(told.alloc);
    told.made(write_record(own, header, &mut body));
    told.push(bytes, 1);
    told.made(put_number(bytes, body.len() as u64));
    told.made(bytes.extend_from_slice(&body));
}

// The bytes of a journal with these records, a line each: the records, and a closed gate.
fn journal_of(known: &Known, text: &str, told: &mut Told) -> Vec<u8> {
    let mut bytes = Vec::new(told.alloc);
    if let Some(header) = told.given(known.header(NODE)) {
        for own in &records_in(known, NODE, text, told) {
            put_record(&mut bytes, own, &header, told);
        }
    }
    told.push(&mut bytes, 0);
    bytes
}

// What the disks hold: the bytes of pieces, or the journal of a text.
fn held(known: &Known, pieces: &[&str], text: &str, told: &mut Told) -> Vec<u8> {
    if text.is_empty() {
        bytes_of(pieces, told)
    } else {
        told.at_most(pieces, 0);
        journal_of(known, text, told)
    }
}

// Decimal numbers.
fn numbers(words: &[&str], told: &mut Told) -> Vec<u64> {
    let mut all = Vec::new(told.alloc);
    for word in words {
        let n = told.number_of(word);
        told.push(&mut all, n);
    }
    all
}

// Disks of a step, where it asks for some that can be made.
fn made(
    copies: u32,
    bytes: &[u8],
    capacity: usize,
    failing: u32,
    fails: &[u64],
    told: &mut Told,
) -> Option<Mirror<FaultDisk>> {
    if copies < 1 || 4 < copies || capacity < bytes.len() {
        told.refuse("one disk to four, each with room for what it holds");
        return None;
    }
    let made = mirror_of(told.alloc, copies, bytes, capacity, failing, fails);
    told.made(made)
}

/// `mirror COPIES CAPACITY [holds PIECE..] [fails MEMBER CALL..]`, or with a line for each record of the journal that they hold: so many disks as one. The
/// listed calls of that one fail, counted from 0.
pub fn mirror(state: &mut State, words: &[&str], text: &str, told: &mut Told) {
    let (words, failing) = words_around(words, "fails");
    let (words, pieces) = words_around(words, "holds");
    told.at_most(words, 2);
    let copies = told.small_at(words, 0);
    let capacity = told.small_at(words, 1) as usize;
    let bytes = held(&state.known, pieces, text, told);
    let member = if failing.is_empty() {
        0
    } else {
        told.small_at(failing, 0)
    };
    let fails = numbers(rest(failing, 1), told);
    if let Some(own) = made(copies, &bytes, capacity, member, &fails, told) {
        state.put(Place::Mirror(own));
    }
}

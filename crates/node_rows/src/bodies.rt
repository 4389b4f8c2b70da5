// Journals of bodies, and of records.
use gate_journal::Journal;
use mem_devices::FaultDisk;
use record_log::RecordLog;
use row_records::{Known, Told, bytes_of, record};

/// `memory NODE BYTES`: a journal of bodies takes memory for bodies of so many bytes.
pub fn memory(journal: &mut Journal<FaultDisk>, words: &[&str], told: &mut Told) {
    let bytes = told.number_at(words, 0);
    if bytes > 1 << 40 {
        told.refuse("too long a body");
    } else {
        told.made(journal.reserve(bytes));
        if journal.reserved() < bytes {
            told.refuse("less memory than was asked for");
        }
    }
}

// Appends a body where there is memory for it.
fn append_body(journal: &mut Journal<FaultDisk>, body: &[u8], told: &mut Told) {
    if body.len() as u64 > journal.reserved() {
        told.refuse("no memory for such a body");
    } else {
        told.done(&journal.append(body));
    }
}

/// `append NODE PIECE..`, and what the journal of bodies says
pub fn append(journal: &mut Journal<FaultDisk>, words: &[&str], told: &mut Told) {
    let body = bytes_of(words, told);
    append_body(journal, &body, told);
}

/// `add NODE RECORD`, and what the journal of records says
pub fn add(known: &Known, log: &mut RecordLog<FaultDisk>, words: &[&str], told: &mut Told) {
    if let Some(own) = record(known, log.header.node.0, words, told) {
        told.done(&log.append(own));
    }
}

fn tell_broken(told: &mut Told, broken: Option<u64>) {
    match broken {
        Some(since) => told.named("broken", since as u128),
        None => told.word("whole"),
    }
}

/// `used NODE`, and of a journal of bodies how many bytes it takes, are free, and may be; then how often the disk has failed, and `whole`, or
/// `broken` and the count of faults behind that
pub fn used(journal: &Journal<FaultDisk>, told: &mut Told) {
    told.numbers(&[
        journal.used(),
        journal.room(),
        journal.capacity(),
        journal.faults(),
    ]);
    tell_broken(told, journal.is_broken());
}

/// The same of a journal of records: how many bytes it takes, how many records it has, and how many bytes may be.
pub fn used_by_records(log: &RecordLog<FaultDisk>, told: &mut Told) {
    let many = log.records.len() as u64;
    told.numbers(&[log.used(), many, log.capacity(), log.faults()]);
    tell_broken(told, log.is_broken());
}

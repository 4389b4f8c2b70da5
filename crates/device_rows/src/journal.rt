// How long it takes to open a journal on a real file and to append records to another one, and a bare loop of the same writes and syncs.

use cbdc_types::NodeId;
use gate_journal::Journal;
use host_devices::{FileDisk, FileRack};
use mem_devices::PlainDisk;
use outside::{Disk, Rack};
use std::alloc::Global;
use std::fs::{self, File};
use std::io::{self, ErrorKind};
use std::os::unix::fs::FileExt;
use std::time::{Duration, Instant};

// A body as long as the Lock of one transaction with one input.
const BODY: [u8; 122] = [7; 122];

// What an append of that body writes behind the closing gate: its length, the body and the next closing gate.
const FILLING: [u8; 131] = [0; 131];

fn failed() -> io::Error {
    io::Error::from(ErrorKind::Other)
}

// Appends that body so many times.
fn append_each<D: Disk>(journal: &mut Journal<D>, count: u32) -> io::Result<()> {
    for _ in 0..count {
        if journal.reserved() < 122 || journal.append(&BODY).is_err() {
            return Err(failed());
        }
    }
    Ok(())
}

// A new journal with memory for that body.
fn formatted<D: Disk + Drop>(alloc: Global, disk: D) -> io::Result<Journal<D>> {
    match Journal::format(alloc, disk) {
        Ok(made) => {
            let mut journal = made;
            journal.reserve(122)?;
            Ok(journal)
        }
        Err(_) => Err(failed()),
    }
}

// The bytes of a journal of so many records.
fn journal_of(alloc: Global, records: u32) -> io::Result<PlainDisk> {
    let disk = PlainDisk::new(alloc, records as usize * 131 + 1)?;
    let mut journal = formatted(alloc, disk)?;
    append_each(&mut journal, records)?;
    Ok(journal.into_disk())
}

// The nodes whose files are measured: no ledger has so many nodes, so no journal of a ledger is written over.
const OPENED: NodeId = NodeId(988);

const APPENDED: NodeId = NodeId(989);

// The files of these nodes, and the one that the bare loop writes.
const FILES: [&str; 3] = ["rack/node-988", "rack/node-989", "rack/loop"];

fn taken(rt: &HostRuntime, alloc: Global, node: NodeId) -> io::Result<FileDisk> {
    let mut rack = FileRack::new(rt, alloc);
    rack.take(node).map_err(|_| failed())
}

// Writes the journal that is to be opened.
fn write_journal(rt: &HostRuntime, bytes: &[u8]) -> io::Result<()> {
    fs::create_dir_all(rt, "rack")?;
    fs::write(rt, FILES[0], bytes)
}

// How many records the journal on a disk has, if it opens, and how long that took: what was opened is let go of behind the clock.
fn count_records(
    rt: &HostRuntime,
    alloc: Global,
    disk: FileDisk,
    start: &Instant,
) -> Option<(usize, io::Result<Duration>)> {
    match Journal::open(alloc, disk) {
        Ok((_journal, bodies)) => {
            let time = start.elapsed(rt);
            Some((bodies.len(), time))
        }
        Err(_) => None,
    }
}

// Opens that journal, which has so many records.
fn time_opening(rt: &HostRuntime, alloc: Global, records: u32, bytes: usize) -> io::Result<()> {
    let disk = taken(rt, alloc, OPENED)?;
    let start = Instant::now(rt)?;
    let Some((count, time)) = count_records(rt, alloc, disk, &start) else {
        return Err(failed());
    };
    let seconds = time?.as_secs_f64();
    if count != records as usize {
        return Err(failed());
    }
    eprintln!(rt; "opened {count} records, {bytes} bytes: {seconds} s")
}

// Opens a journal of so many records on a real file.
fn measure_opening(rt: &HostRuntime, alloc: Global, records: u32) -> io::Result<()> {
    let made = journal_of(alloc, records)?;
    write_journal(rt, made.bytes())?;
    time_opening(rt, alloc, records, made.bytes().len())
}

// Appends so many records to a journal.
fn time_appends<D: Disk>(rt: &HostRuntime, journal: &mut Journal<D>, count: u32) -> io::Result<()> {
    let start = Instant::now(rt)?;
    append_each(journal, count)?;
    let seconds = start.elapsed(rt)?.as_secs_f64();
    eprintln!(rt; "appended {count} records: {seconds} s")
}

// Appends so many records to a journal on another one.
fn measure_appends(rt: &HostRuntime, alloc: Global, count: u32) -> io::Result<()> {
    let mut journal = formatted(alloc, taken(rt, alloc, APPENDED)?)?;
    time_appends(rt, &mut journal, count)
}

// The writes and syncs of so many appends, and nothing else.
fn write_each(file: &File, count: u32) -> io::Result<()> {
    for i in 0..count {
        let gate = u64::from(i) * 131;
        file.write_all_at(&FILLING, gate + 1)?;
        file.sync_all()?;
        file.write_all_at(&[1], gate)?;
        file.sync_all()?;
    }
    Ok(())
}

// Makes the writes and syncs of so many appends to a file.
fn time_loop(rt: &HostRuntime, file: &File, count: u32) -> io::Result<()> {
    let start = Instant::now(rt)?;
    write_each(file, count)?;
    let seconds = start.elapsed(rt)?.as_secs_f64();
    eprintln!(rt; "bare loop of {count}: {seconds} s")
}

// Makes them to a file of their own.
fn measure_loop(rt: &HostRuntime, count: u32) -> io::Result<()> {
    let file = fs::create(rt, FILES[2])?;
    time_loop(rt, &file, count)
}

/// Opens a journal of so many records, and appends so many to another one and in a bare loop, all in files of the folder `rack` that no ledger has.
/// They are left there.
pub fn measure(rt: &HostRuntime, records: u32, appends: u32) -> io::Result<()> {
    let alloc = rt.alloc();
    measure_opening(rt, alloc, records)?;
    measure_appends(rt, alloc, appends)?;
    measure_loop(rt, appends)
}

/// Removes the files that measuring has left, and the folder, where nothing else is in it.
pub fn remove_files(rt: &HostRuntime) -> io::Result<()> {
    for file in &FILES {
        fs::remove_file(rt, *file)?;
    }
    let _ = fs::remove_dir(rt, "rack");
    Ok(())
}

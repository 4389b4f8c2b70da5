//! Runs the rows on parts of the program that its words name: `locks` and `devices`, those of `lock_rows` and `device_rows`, which stand in code, and the
//! files in the folders `pieces`, `nodes`, `journals`, `cuts`, `groups` and `mirrors`. Where the first word is `speeds` it runs no rows, and measures the
//! part that the next names.
#![tactic(auto)]

use row_records::words_where;
use std::io;
use std::process::ExitCode;
use std::rt::{Env, Files};
use std::sync::Wait;
use std::thread::Threads;

// The words for the rows that stand in code: of the lock round a node, and of the real devices.
const LOCKS: &str = "locks";

const DEVICES: &str = "devices";

// The folders of files.
const FOLDERS: [&str; 6] = [
    "pieces/",
    "nodes/",
    "journals/",
    "cuts/",
    "groups/",
    "mirrors/",
];

// The first word where parts are measured, and no rows are run.
const SPEEDS: &str = "speeds";

// Whether a word names rows that this program has.
fn is_own(word: &str) -> bool {
    word == LOCKS || word == DEVICES || FOLDERS.iter().any(|folder| word.starts_with(*folder))
}

// Whether a word asks for these rows, which stand in code.
fn asks_for<R: AllocGlobal + Env>(rt: &R, rows: &str) -> io::Result<bool> {
    let asks = words_where(rt, &|word: &str| word == rows)?;
    Ok(!asks.is_empty())
}

// Runs the rows of the lock round a node, where a word asks for them.
fn run_locks<R: AllocGlobal + Env + Print + Threads + Wait + Sync>(rt: &R) -> io::Result<bool> {
    if asks_for(rt, LOCKS)? {
        lock_rows::tell_rows(rt)
    } else {
        Ok(true)
    }
}

// Runs the rows of the real devices, where a word asks for them.
fn run_devices<W: Wait>(rt: &HostRuntime, wait: &W) -> io::Result<bool> {
    if asks_for(rt, DEVICES)? {
        device_rows::tell_rows(rt, wait)
    } else {
        Ok(true)
    }
}

// Prints the words that name no rows of this program; whether there is none.
fn tell_others<R: AllocGlobal + Env + Print>(rt: &R) -> io::Result<bool> {
    let others = words_where(rt, &|word: &str| !is_own(word))?;
    for word in &others {
        let word = word.as_str();
        println!(rt; "NOT {word}: names no rows")?;
    }
    Ok(others.is_empty())
}

// Runs all rows that the words name; whether each came to what it should.
fn run_rows<R: AllocGlobal + Env + Files + Print + Threads + Wait + Sync>(
    rt: &R,
    host: &HostRuntime,
) -> io::Result<bool> {
    let have_no_others = tell_others(rt)?;
    let has_locks = run_locks(rt)?;
    let has_devices = run_devices(host, rt)?;
    let has_pieces = piece_rows::run_rows(rt)?;
    let has_nodes = node_rows::run_rows(rt)?;
    let has_journals = journal_rows::run_rows(rt)?;
    let has_cuts = cut_rows::run_rows(rt)?;
    let has_groups = group_rows::run_rows(rt)?;
    let has_mirrors = mirror_rows::run_rows(rt)?;
    Ok(
        have_no_others
            && has_locks
            && has_devices
            && has_pieces
            && has_nodes
            && has_journals
            && has_cuts
            && has_groups
            && has_mirrors,
    )
}

// The status by whether each row came to what it should.
fn status(holds: bool) -> ExitCode {
    if holds {
        ExitCode::from(0)
    } else {
        ExitCode::from(1)
    }
}

fn main(rt: HostRuntime) -> io::Result<ExitCode> {
    let words = words_where(&rt, &|_word: &str| true)?;
    match words.as_slice().split_first() {
        Some((first, more)) if first.as_str() == SPEEDS => {
            device_rows::measure(&rt, more)?;
            Ok(status(true))
        }
        _rows => Ok(status(run_rows(&rt, &rt)?)),
    }
}

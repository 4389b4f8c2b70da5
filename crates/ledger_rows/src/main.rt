//! Runs the rows of whole runs of the program over devices in memory, in the files that its words name.
#![tactic(auto)]

mod few;
mod plain;
mod play;
mod subject;
mod tested;

use rack_rows::State;
use row_records::{Block, run_files, words_where};
use std::io;
use std::process::ExitCode;
use std::rt::{Env, Files};
use std::sync::Wait;
use std::thread::Threads;
use subject::step;

// Runs the rows of the files that the words name; whether each came to what it should.
fn run_rows<R: AllocGlobal + Env + Files + Print + Threads + Wait + Sync>(
    rt: &R,
) -> io::Result<bool> {
    let alloc = rt.alloc();
    let does = |state: &mut State, text: &str, block: &Block| {
        step(rt, alloc, state, text, block);
    };
    let names = words_where(rt, &|_word: &str| true)?;
    run_files::<R, State, _>(rt, &does, names.as_slice())
}

fn main(rt: HostRuntime) -> io::Result<ExitCode> {
    if run_rows(&rt)? {
        Ok(ExitCode::from(0))
    } else {
        Ok(ExitCode::from(1))
    }
}

//! Runs rows on cuts of a ledger whose records text files spell one by one: the cut of the first so many records of each node, and what an audit
//! finds of it.
#![tactic(auto)]

mod cutting;
mod state;
mod subject;

use row_records::{Block, run_files, words_where};
use state::State;
use std::io;
use std::rt::{Env, Files};
use std::thread::Threads;
use subject::step;

/// Runs the rows of those files that stand in the folder `cuts` among the ones that the program's words name. The answer is whether each came to what it
/// should.
pub fn run_rows<R: AllocGlobal + Env + Files + Print + Threads + Sync>(rt: &R) -> io::Result<bool> {
    let alloc = rt.alloc();
    let does = |state: &mut State, text: &str, block: &Block| {
        step(rt, alloc, state, text, block);
    };
    let names = words_where(rt, &|name: &str| name.starts_with("cuts/"))?;
    run_files::<R, State, _>(rt, &does, names.as_slice())
}

//! Runs rows on the pure parts: words, files, transactions and records as bytes, ids, ranges, refusals, lines and workloads.
#![tactic(auto)]

mod answers;
mod batches;
mod bytes;
mod fields;
mod files;
mod hashes;
mod kinds;
mod lines;
mod messages;
mod page;
mod reader;
mod records;
mod repeats;
mod state;
mod streams;
mod subject;
mod transactions;
mod verbs;
mod words;

use row_records::{Block, run_files, words_where};
use state::State;
use std::io;
use std::rt::{Env, Files};
use subject::step;

/// Runs the rows of those files that stand in the folder `pieces` among the ones that the program's words name. The answer is whether each came to
/// what it should.
pub fn run_rows<R: AllocGlobal + Env + Files + Print>(rt: &R) -> io::Result<bool> {
    let alloc = rt.alloc();
    let does = |state: &mut State, text: &str, block: &Block| {
        step(alloc, state, text, block);
    };
    let names = words_where(rt, &|name: &str| name.starts_with("pieces/"))?;
    run_files::<R, State, _>(rt, &does, names.as_slice())
}

//! Runs rows on nodes, told in text files: devices and disks in memory, journals on them, coordinators and shards, lanes over these, and the tables of a shard.
#![tactic(auto)]

mod asking;
mod bodies;
mod calls;
mod cores;
mod devices;
mod disks;
mod lanes;
mod ledgers;
mod looking;
mod opening;
mod parts;
mod slots;
mod state;
mod stores;
mod subject;
mod verbs;

use row_records::{Block, run_files, words_where};
use state::State;
use std::io;
use std::rt::{Env, Files};
use std::sync::Wait;
use subject::step;

/// Runs the rows of those files that stand in the folder `nodes` among the ones that the program's words name. The answer is whether each came to
/// what it should.
pub fn run_rows<R: AllocGlobal + Env + Files + Print + Wait>(rt: &R) -> io::Result<bool> {
    let alloc = rt.alloc();
    let does = |state: &mut State, text: &str, block: &Block| {
        step(rt, alloc, state, text, block);
    };
    let names = words_where(rt, &|name: &str| name.starts_with("nodes/"))?;
    run_files::<R, State, _>(rt, &does, names.as_slice())
}

//! Runs rows on disks that are written alike, as one, of which one fails: what each of them holds then, and what a shard on them answers.
#![tactic(auto)]

mod calls;
mod disks;
mod making;
mod members;
mod state;
mod subject;

use row_records::{Block, run_files, words_where};
use state::State;
use std::io;
use std::rt::{Env, Files};
use subject::step;

/// Runs the rows of those files that stand in the folder `mirrors` among the ones that the program's words name. The answer is whether each came to what
/// it should.
pub fn run_rows<R: AllocGlobal + Env + Files + Print>(rt: &R) -> io::Result<bool> {
    let alloc = rt.alloc();
    let does = |state: &mut State, text: &str, block: &Block| {
        step(alloc, state, text, block);
    };
    let names = words_where(rt, &|name: &str| name.starts_with("mirrors/"))?;
    run_files::<R, State, _>(rt, &does, names.as_slice())
}

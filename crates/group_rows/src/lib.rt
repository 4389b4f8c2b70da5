//! Runs rows on a group of members that hold a node's journal: what happens to it, event by event, what each is at the node of a world, and what each
//! member holds.
#![tactic(auto)]

mod events;
mod looking;
mod making;
mod state;
mod subject;

use row_records::{Block, run_files, words_where};
use state::State;
use std::io;
use std::rt::{Env, Files};
use subject::step;

/// Runs the rows of those files that stand in the folder `groups` among the ones that the program's words name. The answer is whether each came to what
/// it should.
pub fn run_rows<R: AllocGlobal + Env + Files + Print>(rt: &R) -> io::Result<bool> {
    let alloc = rt.alloc();
    let does = |state: &mut State, text: &str, block: &Block| {
        step(alloc, state, text, block);
    };
    let names = words_where(rt, &|name: &str| name.starts_with("groups/"))?;
    run_files::<R, State, _>(rt, &does, names.as_slice())
}

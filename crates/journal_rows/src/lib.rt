//! Runs rows on journals that text files spell record by record: the plain programs of the definitions, and a shard.
#![tactic(auto)]

mod calls;
mod looking;
mod making;
mod plain;
mod printed;
mod state;
mod subject;
mod verbs;
mod worlds;

use row_records::{Block, run_files, words_where};
use state::State;
use std::io;
use std::rt::{Env, Files};
use subject::step;

/// Runs the rows of those files that stand in the folder `journals` among the ones that the program's words name. The answer is whether each came to
/// what it should.
pub fn run_rows<R: AllocGlobal + Env + Files + Print>(rt: &R) -> io::Result<bool> {
    let alloc = rt.alloc();
    let does = |state: &mut State, text: &str, block: &Block| {
        step(alloc, state, text, block);
    };
    let names = words_where(rt, &|name: &str| name.starts_with("journals/"))?;
    run_files::<R, State, _>(rt, &does, names.as_slice())
}

//! The calls of a phase at the shards of a ledger: a set of ports, one to each shard, whose phases are made at once or in turn.
//!
//! - `Fanout`: Keeps `PortSet` over ports of any kind, not alone where they are not. What a phase tells is what its calls tell one after another, in
//!   rising order of shards, however they are made (the trait's clauses).
//! - Open: in which order the calls of a phase are made, and whether at once or one after another: no clause says so. Tested in `threads.rows`
//!   (calls at three shards, each held inside until those behind it were passed).
#![tactic(auto)]

mod fanout;
mod phases;

pub use fanout::{Fanout, PhaseGate};
pub use phases::{Pace, finish_phase, forget_phase, lock_phase};

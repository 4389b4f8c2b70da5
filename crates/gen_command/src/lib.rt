//! `gen`: makes a workload from a number, and runs and checks it over nodes in memory.
#![tactic(auto)]

mod generating;
mod lines;
mod watched;

pub use generating::generated;

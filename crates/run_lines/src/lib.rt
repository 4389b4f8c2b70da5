//! The lines of a run, by what its waves report, which are those of its journals: one for each submission, and the numbers that end the text.
#![tactic(auto)]

mod page;
mod report;

pub use report::{write_generated, write_report};

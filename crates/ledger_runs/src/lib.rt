//! Runs over the nodes of a ledger: batches that an earlier run left open are brought to their end, lane by lane, and what a wave
//! of transactions has to say, whose lanes run in whatever order.
#![tactic(auto)]

mod lanes;
mod openings;
mod resuming;
mod turns;

pub use lanes::{Decided, Lane, Work, first_fault};
pub use resuming::resume_all;
pub use turns::Turns;

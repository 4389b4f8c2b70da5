//! `run` and `recover`: client files over the ledger on a rack, and its open batches brought to their end; and the lines of a recovery.
#![tactic(auto)]

mod recovering;
mod running;

pub use recovering::recover;
pub use running::run;

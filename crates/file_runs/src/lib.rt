//! Client files over the nodes of a ledger: each file is a wave, which begins when those of the files before it are done; and the nodes, open, as what
//! brings open batches to their end is lent them.
//!
//! - `LentLedger`, `lend`, `take_back`: The nodes of a ledger bring open batches to their end as `ledger_runs` asks; what is lent is the ledger,
//!   and so is what is taken back.
//! - Open: in which order lanes come to a node in a wave: no clause says so. Nor does one say that lanes run beside each other, that a lane which
//!   waits for a node gets it, or that a wave ends.
#![tactic(auto)]

mod driving;
mod fed;
mod files;
mod ledger;
mod lent;
mod ran;
mod waves;
mod waving;

pub use files::{FilesRun, run_files};
pub use ledger::Ledger;
pub use lent::{LentLedger, lend};
pub use ran::Ran;
pub use waves::{FileRun, Wave, run_file};
pub use waving::run_wave;

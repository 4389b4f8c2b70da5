//! The lines that the program prints, and the status that it ends with.
//!
//! A line is made in a fixed array and then handed to the sink, so no call takes memory.
//!
//! - Tested in `piece_rows` (`lines.rows`, `faults.rows`): every line, and the status of each answer.
#![tactic(auto)]

mod faults;
mod line;
mod output;
mod reports;
mod status;
mod submissions;
mod summary;

pub use faults::write_fault;
pub use output::{WriteFault, write_all};
pub use reports::{write_audit, write_recovery, write_resumed, write_status};
pub use status::status_code;
pub use submissions::{write_confirmed, write_refused, write_rejected};
pub use summary::{Summary, write_init, write_summary};

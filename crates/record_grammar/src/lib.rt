//! Which records may stand in a journal, whatever stands before them; and what a node without its disk is, that takes in the records of a journal.
//!
//! - Tested in `journal_rows`.
#![tactic(auto)]

mod cores;
mod entries;
mod hashes;
mod limits;
mod records;

pub use cores::Core;
pub use entries::is_compact;
pub use limits::is_batch_of;
pub use records::is_in_grammar;

//! The top call: what the program does with its words, its files, its disks and its output.
//!
//! - Open: That at Ok the disk that is put back in a place is the very one that was taken there, beyond what is proved: the one that is back opens to
//!   the journal of its place, where all were told, and has as much room as the one that was there.
//! - Open: What more `run` and `recover` do to a ledger that is caused and not kept than is proved: its journals have grown at their ends, by records
//!   that are caused too and within the capacities, each disk holds its own at Ok where all were told, and all other disks are as before.
//! - Open: At a lane's fault, that no disk's fault is reported of a shard that had its record of the least lane's phase before its disk failed, in
//!   another lane's call. It is proved that the lane asks the node, each lesser shard of its batch having the record of the phase, and each shard
//!   where the node is the coordinator; and that the node's disk failed, or has no room or no stamp for what the lane lacks there.
//! - Open: At a lane's fault, of a node whose disk failed and has no room or no stamp either, which of these is reported.
//! - Open: Which help is shown; that a file or a disk that is not there is refused (tested for files).
//! - Open: Which lane memory ran out for, beyond that each lane below it has run all that its file sends it; and that it did run out for a lane above
//!   the one whose fault ended a file, which has something left and is between two batches or lacks a Lock.
//! - Open: That two causes of a refusal at an opening are one answer. Of each disk there is one answer (`one_answer_law`); not so of a whole rack,
//!   nor of Foreign.
#![tactic(auto)]

mod in_memory;
mod top;

pub use in_memory::process_in_memory;
pub use top::{Done, process};

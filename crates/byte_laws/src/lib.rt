//! Laws of bytes, for all inputs: what client files and mint files are as bytes, that no body of a record is the front of another, and how
//! long a record is in its journal.
//!
//! - Of the calls that these laws speak of, `piece_rows` tests bytes worked out elsewhere, each front of a transaction cut at its field, lists at
//!   their limits and past them, the sizes of records of 1 to 16 items, hashes of another shard, a file of two transactions and its faults.
#![tactic(auto)]

mod bodies;
mod files;
mod sizes;

pub use bodies::{each_body_law, first_read_back};
pub use files::{client_file_law, mint_file_law};
pub use sizes::bytes_in_the_journal;

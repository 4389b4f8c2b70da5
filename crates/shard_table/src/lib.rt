//! A set of hashes, and which batch holds which hash, both over values kept under hashes, in memory that is taken ahead.
//!
//! - The home of a hash is its bytes 8 to 15, read little endian, modulo the slots; a search goes upwards from there, from the last slot on to the first.
//! - Tested in `node_rows` (`tables.rows`).
#![tactic(auto)]

mod locks;
mod pages;
mod placing;
mod slots;
mod table;

pub use locks::Locks;
pub use slots::{HashSlots, Kept};
pub use table::Table;

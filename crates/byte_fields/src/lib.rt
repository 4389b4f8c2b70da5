//! The fields that files and journals are made of: numbers, hashes and counted lists, read and written.
//!
//! - Tested in `piece_rows` (`records.rows`, `transactions.rows`): the bytes of numbers, and fields one after another.
#![tactic(auto)]

mod fault;
mod reading;
mod records;
mod transactions;
mod writing;

pub use fault::{Fault, ReadError};
pub use reading::{Item, hash, hash_in, items, list, number, number_in, split};
pub use records::{batch_id, byte, put_byte, small_number};
pub use writing::{Spell, put_hash, put_items, put_list, put_number};

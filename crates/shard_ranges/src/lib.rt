//! Which shard holds a hash, and how a batch is divided among the shards.
//!
//! - Tested in `piece_rows` (`batches.rows`), and `split` in `journal_rows`, over four shards.
#![tactic(auto)]

mod parts;
mod ranges;

pub use parts::split;
pub use ranges::shard_of;

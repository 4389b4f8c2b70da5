//! A shard whose journal stands on several disks: a group of a primary and its backups.
//!
//! - `lock`, `finish`, `forget`: The shard's call, and what it is of the group: a list of steps, all delivered in turn, and answered once every member
//!   has the record (`AnswersAsGroup`). What holds of every image of the mirror holds of each member's disk.
//! - The calls are those of `ShardNode`, tested in `node_rows` (`shards.rows`), with nothing of their own in their bodies; `gen --replicas` makes them
//!   at this type (`gen.rows`).
#![tactic(auto)]

mod shard;

pub use shard::{ReplicatedShard, finish, forget, lock};

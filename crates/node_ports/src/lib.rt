//! Ports over the nodes of a ledger: nothing comes between two of their calls.
//!
//! - `NodeLogs`, `NodeShard`, `NodeShards`: Keep the port traits of `lane_driver`, all of them alone: an answer is that of the node's records, and
//!   the coordinator's other lanes stay as they were. `NodeShards` makes each call of a phase through a `NodeShard`. They serve every lane (the
//!   traits' clauses). Tested in `node_rows` (`lanes.rows`, `repeats.rows`).
//! - Open: that a port passes the gate, and at which points, has no clause; `ledger_rows` tests that it passes before, inside and behind each call,
//!   in order (`points.rows`, `lanes.rows`).
#![tactic(auto)]

mod logs;
mod shard;
mod shards;

pub use logs::{NodeLogs, decide_at, discard_at, done_at, prepare_at};
pub use shard::{NodeShard, finish_at, forget_at, lock_at};
pub use shards::NodeShards;

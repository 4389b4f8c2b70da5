//! A shard without its disk: what each call answers, what each record changes, and what it remembers of each lane's last batch.
//!
//! - `ShardStands` ties the unspent hashes and the locks at each hash to the status, the slot of each lane and the last stamp to a list of records.
//! - Tested in `journal_rows`, in which the same rows are done by the definitions: each refusal with what was kept; what a batch leaves at its
//!   hashes and transactions, phase by phase; which records are next; parts over four shards. In `node_rows` (`tables.rows`): `answered`.
#![tactic(auto)]

mod applying;
mod claiming;
mod comparing;
mod copying;
mod core_state;
mod judging;
mod plans;
mod replaying;
mod replying;
mod slots;

pub use copying::answered;
pub use core_state::ShardCore;
pub use plans::{LockPlan, Remembered, StampPlan};
pub use slots::{LaneSlot, Slots};

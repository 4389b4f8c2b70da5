//! A shard on its disk: it writes each record down before it applies it.
//!
//! - `lock`, `finish`, `forget`: A node at which an append has failed stays broken from then on.
//! - `lock`, `finish`, `forget`: A disk that held the journal holds it afterwards, with what is in flight or without.
//! - `lock`, `finish`, `forget`: A crash at any moment of the call leaves the journal from before it or the one behind it, each with what is in
//!   flight or without; each moment where the disk tells its past, else the end of the call.
//! - Which refusal it is, the bytes and the capacity decide: `one_answer_law` of `rack_ledgers`.
//! - Open: content holds for disks that tell it.
//! - `lock`, `finish`, `forget`: `lock` alone may run out of memory, with nothing written.
//! - Tested in `node_rows` (`shards.rows`): `open`.
#![tactic(auto)]

mod conditions;
mod locking;
mod node;
mod opening;
mod parts;
mod stamping;

pub use conditions::{is_finish_call, is_forget_call, is_lock_call};
pub use node::ShardNode;

//! A node and the journal on its disk: what contracts see of a node, of either kind, what a disk's bytes are as a node's journal, how a disk is opened
//! into its log and its core, and how a record that is due is written and taken in.
//!
//! - Open: content holds for disks that tell it.
//! - Tested in `node_rows` (`coordinators.rows`, `shards.rows`).
#![tactic(auto)]

mod nodes;
mod opening;
mod replaying;

pub use nodes::{Node, write};
pub use opening::open_node;

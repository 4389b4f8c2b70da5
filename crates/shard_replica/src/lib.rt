//! The laws of a node that is a group: a primary and backups that hold its journal too, in every order in which packets between them come.
//!
//! - `replica_law`, `answered_law`, `promoted_law`: Of every list of the group's events, with any events of the world at other nodes between them, in
//!   which each record that is taken is caused at its moment. They have no body that runs.
//! - `round_law`: What a node goes by that writes each record at all members before it answers.
#![tactic(auto)]

mod laws;
mod packets;

pub use laws::{answered_law, journal_law, promoted_law, replica_law, round_law};
pub use packets::{GroupEvent, Packet};

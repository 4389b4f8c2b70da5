//! A group of members that hold a node's journal, as a plain machine: what happens to it, one event after another, and what that is in a world of nodes.
//! Its contracts are the definitions of `shard_replica`, on whose laws no code here rests.
#![tactic(auto)]

mod group;
mod mapping;
mod members;

pub use group::Group;
pub use members::Member;

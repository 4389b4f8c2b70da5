//! What all other types are made of: hashes, the names of lanes, nodes and batches, stamps, lists, how large a ledger is, and what
//! is wrong with what is handed in.
//!
//! - Open: tests are missing.
#![tactic(auto)]

mod faults;
mod hash;
mod ids;
mod list;
mod shape;

pub use faults::{InputKind, Refusal};
pub use hash::Hash;
pub use ids::{BatchId, LaneId, NodeId, Stamp};
pub use list::List;
pub use shape::{BadShape, Shape, ShapeField};

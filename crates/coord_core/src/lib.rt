//! A coordinator's lanes: which record comes next on each, and what becomes of a batch by its shards' replies.
//!
//! - Tested in `node_rows` (`coordinators.rows`).
#![tactic(auto)]

mod combine;
mod coord;
mod copying;
mod lane;
mod mask;
mod phase;
mod replaying;

pub use coord::CoordCore;
pub use copying::copied_txs;
pub use phase::LanePhase;

//! A wave of lanes on threads of their own, over locks round all nodes of a ledger: the locks are made, each lane gets a seat of each node that it asks,
//! and behind the lanes' ends all seats and all nodes are given back.
//!
//! - `deal`, `gather`: The last item of each list is taken; an item is added to each list as its last. The lists keep their order and their room.
//! - `nodes_ran_law`, `nodes_still_law`, `held_law`: From lists of locks and of nodes to the record of a wave. They have no body that runs.
//! - Open: that no node was asked where memory runs out before the lanes' first calls: each lane is reported then as one that stopped because
//!   memory ran out, which may come later, too. That all memory but a lane's own is taken before these calls has no clause.
#![tactic(auto)]

mod choosing;
mod dealing;
mod ends;
mod gathering;
mod lanes;
mod laws;
mod node_dealing;
mod ports;
mod rows;
mod runs;
mod seats;
mod watching;
mod waves;

pub use ends::{Locked, close_all, lock_all};
pub use laws::{held_law, nodes_ran_law, nodes_still_law};
pub use node_dealing::{Dealt, deal, gather};
pub use ports::{ports_over, seats_back};
pub use runs::{LaneRun, run_all};
pub use seats::SeatSet;
pub use watching::Watch;
pub use waves::{Nodes, wave};

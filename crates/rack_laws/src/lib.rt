//! What a ledger that was opened from a rack is, by what the rack shows, and when what is asked of a rack is done, unless memory runs out. There is no
//! code here that runs.
//!
//! - What opens where the disks have the room that their journals need and do not fail: a node, a ledger, and one by its mint.
//! - A kept ledger that its disks show passes its audit; a ledger is made where nothing hinders it; files that hold what is asked are read.
//! - No lane of a run or a recovery meets a fault where there is room and no disk fails.
#![tactic(auto)]

mod complete;

pub use complete::{ledger_opens_law, new_room_law, node_opens_law};

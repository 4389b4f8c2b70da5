//! The lanes: batches brought through their phases, over ports to the nodes.
//!
//! - `LogPort`, `ShardPort`, `PortSet`: What a port must keep: each call is answered by what the node owed on the journal that it found, with
//!   stamps, hashes and batches within their limits. A node with a record in flight owes that it is broken, and where the port is alone no other
//!   does. A fault of `decide`, whatever the shards replied, is Broken, ClockEnd or DiskFault and has its cause in its node. Other shards are not
//!   touched; each node is the one that it was, and what held of it holds still. A port of shards is asked by lanes that it serves alone, and
//!   serves them still. Where a port is alone, nothing comes between its calls, and other lanes are as before (told, fault, each, replied, stamp,
//!   untouched, others, mine, keeps (`KeepsLog`, `KeepsShard`, `KeepsShards`)).
//! - `run_lane`, `run_batch`: At Ok the batch went through all its phases at the coordinator and at each shard that it concerns, and nothing else
//!   was done, with the outcomes of its Commit. Else what it had written, and the fault: what a node owed to a call of the batch whose cause
//!   stands, by what the lane has seen of the node at last, with the numbers taken there. Its disk has failed since it was opened where it says so;
//!   Memory only at a Prepare or a Lock, or of the driver itself before a batch's first call; Full, ClockEnd (up to the last stamp of all) and
//!   Memory only where the batch lacks its Prepare or a Lock. The calls of a phase are made at all concerned shards, whatever one answers, and the
//!   fault is that of the least shard that had one. `run_lane` stops with something left to do, or had no memory before its first call. The lane is
//!   settled before: so no shard refuses a call of it, and its fault is a disk's, Full, ClockEnd or Memory. Each node is the one that it was, and
//!   where the ports are alone other lanes are as before, whatever came (outcome, report, idle, keeps (`KeepsLanePorts`)). The outcome is told call
//!   by call; what a batch and a lane leave, the cause of the fault and where memory ran out follow from it (proofs/Outcomes.antt). Tested in
//!   `node_rows` (`lanes.rows`, `repeats.rows`).
//! - Open: how often a call is repeated is tested, since a repeated call leaves nothing that a clause could count; so is, for the same reason, in
//!   which order the calls of a batch are made.
//! - Open: a Lock that a shard was not asked could be told as one for which it had no memory, since neither leaves anything.
//! - Tested in `node_rows` (`parts.rows`): the parts of a batch, its calls, and the replies joined (`LaterRoom::take` through `BatchRoom::take`).
#![tactic(auto)]

mod answer;
mod batch;
mod fault;
mod lane;
mod made_ready;
mod making;
mod order;
mod phase;
mod port;
mod room;
mod source;

pub use answer::{ShardFault, gather, latest};
pub use batch::{from_committed, from_discarded, from_prepared, run_batch};
pub use fault::{BatchReport, LaneFault, LaneFaultKind, LaneReport, Stop, lane_fault, no_memory};
pub use lane::run_lane;
pub use made_ready::Ready;
pub use making::ready;
pub use order::{finish_calls, forget_calls, lock_calls};
pub use port::{LogPort, PortSet, Ports, ShardPort};
pub use room::{BatchRoom, LaterRoom};
pub use source::{SliceSource, Source};

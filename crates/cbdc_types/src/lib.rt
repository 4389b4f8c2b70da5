//! The types of the ledger: transactions, the records of the journals, the calls at nodes and what they answer.
#![tactic(auto)]

mod answer;
mod batch;
mod calls;
mod kinds;
mod record;
mod tx;

pub use answer::{Answer, Totals, UnsoundKind};
pub use base_types::{
    BadShape, BatchId, Hash, InputKind, LaneId, List, NodeId, Refusal, Shape, ShapeField, Stamp,
};
pub use batch::{
    Answered, Decisions, Entry, OpenLane, Outcome, Outcomes, Part, Phase, Replies, Reply,
    ShardReplies, Status,
};
pub use calls::{FinishCall, ForgetCall, LockCall, NodeFault, NodeOpenFault, Refused, Replied};
pub use kinds::kind;
pub use record::{Header, Record, RecordKind};
pub use tx::{Batch, CompactTx, FullTx, Input, Kind, Mint, OutPoint, Output};

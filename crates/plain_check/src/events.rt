// What may happen to a world.
use cbdc_types::{FinishCall, ForgetCall, LockCall, NodeId, Record};

/// A call at a shard.
#[derive(Drop)]
pub enum ShardCall {
    Lock(LockCall),
    Finish(FinishCall),
    Forget(ForgetCall),
}

/// What may happen at a node.
#[derive(Drop)]
pub enum Event {
    /// A record is begun: it is in flight.
    Begin(NodeId, Record),
    /// The record in flight goes to the journal's end.
    End(NodeId),
    /// The node goes down, and keeps what was in flight or not.
    Crash(NodeId, bool),
    /// The node is opened again.
    Reopen(NodeId),
    /// A call is made again, however old.
    Repeat(NodeId, ShardCall),
}

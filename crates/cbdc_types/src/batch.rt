// What a batch is at a shard, and what becomes of it.
use crate::CompactTx;
use base_types::{BatchId, Hash, List, Stamp};

/// A transaction's share at one shard: its place in the batch, its id, and those of its hashes that lie there.
#[derive(Clone, Debug, PartialEq, Eq, Drop)]
pub struct Entry {
    pub place: u32,
    pub id: Hash,
    pub inputs: List<Hash>,
    pub outputs: List<Hash>,
}

/// A batch's share at one shard: its entries, whose places rise.
pub type Part = List<Entry>;

/// What a shard answers for one entry.
#[derive(Clone, Copy, Debug, PartialEq, Eq)]
pub enum Reply {
    /// Its inputs are locked for the batch.
    Held,
    /// This input is not there.
    Missing(Hash),
    /// This input is locked for that batch.
    Locked(Hash, BatchId),
}

/// An entry with its reply, as a Lock keeps them.
#[derive(Clone, Debug, PartialEq, Eq, Drop)]
pub struct Answered {
    pub entry: Entry,
    pub reply: Reply,
}

/// What became of a transaction over all its shards. The number is the shard's.
#[derive(Clone, Copy, Debug, PartialEq, Eq)]
pub enum Outcome {
    /// Each shard held it: it is committed.
    Held,
    /// At this shard, the least that refused, the input is not there.
    Missing(u32, Hash),
    /// At this shard, the least that refused, the input is locked for that batch.
    Locked(u32, Hash, BatchId),
}

/// The outcomes of a batch, in the order of its transactions.
pub type Outcomes = List<Outcome>;

/// For each entry of a part, whether its transaction is committed.
pub type Decisions = List<bool>;

/// What one shard answered to a Lock, and the Lock's stamp.
#[derive(Debug, PartialEq, Eq, Drop)]
pub struct ShardReplies {
    pub shard: u32,
    pub replies: List<Reply>,
    pub stamp: Stamp,
}

/// What the concerned shards answered, in rising order.
pub type Replies = List<ShardReplies>;

/// What is written down last of a batch that is not done.
#[derive(Clone, Copy, Debug, PartialEq, Eq)]
pub enum Phase {
    Prepared,
    Committed,
    Discarded,
}

/// A batch that is not done: its phase, the stamp of its last record, its transactions, and from Committed on their outcomes.
#[derive(Debug, PartialEq, Eq, Drop)]
pub struct OpenLane {
    pub batch: BatchId,
    pub phase: Phase,
    pub stamp: Stamp,
    pub txs: List<CompactTx>,
    pub outcomes: Outcomes,
}

/// What a shard knows of a hash.
#[derive(Clone, Copy, Debug, PartialEq, Eq)]
pub enum Status {
    Unspent,
    Locked(BatchId),
    Absent,
}

// The records of the journals.
use crate::{Answered, CompactTx, Decisions, Outcomes};
use base_types::{BatchId, Hash, List, NodeId, Shape, Stamp};

/// What each journal begins with: whose it is, how large the ledger is, and the id of its mint.
#[derive(Clone, Copy, Debug, PartialEq, Eq)]
pub struct Header {
    pub node: NodeId,
    pub shape: Shape,
    pub genesis: Hash,
}

/// A record of a journal. Genesis to Forget and Carry stand at shards, Start to Done, CarryStart and Seal at coordinators, an Upgrade at either.
#[derive(Clone, Debug, PartialEq, Eq, Drop)]
pub enum Record {
    /// The minted hashes that lie on this shard, in the order of the mint.
    Genesis {
        header: Header,
        hashes: List<Hash>,
    },
    /// A batch's part with the replies to it: the inputs of its Held entries are locked from here on.
    Lock {
        stamp: Stamp,
        batch: BatchId,
        entries: List<Answered>,
    },
    /// Which entries of the batch's Lock are committed.
    Finish {
        stamp: Stamp,
        batch: BatchId,
        decisions: Decisions,
    },
    /// The shard has forgotten the batch.
    Forget {
        stamp: Stamp,
        batch: BatchId,
    },
    /// A coordinator's first record.
    Start {
        header: Header,
    },
    /// A batch is about to be locked.
    Prepare {
        stamp: Stamp,
        batch: BatchId,
        txs: List<CompactTx>,
    },
    /// Each transaction of the batch is decided.
    Commit {
        stamp: Stamp,
        batch: BatchId,
        outcomes: Outcomes,
    },
    /// The batch is applied at each concerned shard.
    Discard {
        stamp: Stamp,
        batch: BatchId,
    },
    /// The batch is forgotten at each concerned shard.
    Done {
        stamp: Stamp,
        batch: BatchId,
    },
    /// Version 2 is in force on this node from here on, with batches of so many transactions at most.
    Upgrade {
        stamp: Stamp,
        batch: u32,
    },
    /// A shard's first record where the ledger goes on from that of another generation: those of its unspent hashes that lie on this shard, in
    /// rising order, and the last batch number of every lane.
    Carry {
        stamp: Stamp,
        header: Header,
        source: u32,
        hashes: List<Hash>,
        numbers: List<u64>,
    },
    /// A coordinator's first record there: the last batch numbers of its own lanes.
    CarryStart {
        stamp: Stamp,
        header: Header,
        source: u32,
        numbers: List<u64>,
    },
    /// The ledger goes on as that generation, over so many shards. Node 0 alone has it, as its last record.
    Seal {
        stamp: Stamp,
        to: u32,
        shards: u32,
    },
}

/// The kinds of record. As a number, a kind is the first byte of a record's body (docs/FORMATS.md).
#[derive(Clone, Copy)]
pub enum RecordKind {
    Genesis = 1,
    Lock = 2,
    Finish = 3,
    Forget = 4,
    Start = 5,
    Prepare = 6,
    Commit = 7,
    Discard = 8,
    Done = 9,
    Upgrade = 10,
    Carry = 12,
    CarryStart = 13,
    Seal = 14,
}

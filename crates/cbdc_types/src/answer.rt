// What the program answers.
use crate::Header;
use base_types::{Hash, InputKind, NodeId, Stamp};

/// What is wrong with a history.
#[derive(Clone, Copy, Debug, PartialEq, Eq)]
pub enum UnsoundKind {
    /// A record is not caused by what stands before it.
    Cause,
    /// No transaction handed in has this compact form.
    Unknown(Hash),
    /// An input of this transaction is not in the book.
    Unfunded(Hash),
    /// A batch is not done.
    Unfinished,
}

/// What the coins of the last book of a sound history come to, what was minted, and what its committed transactions come to.
#[derive(Clone, Copy, Debug, PartialEq, Eq)]
pub struct Totals {
    /// The coins left.
    pub coins: u64,
    /// The sum of their values.
    pub value: u128,
    /// The sum of the mint's values.
    pub minted: u128,
    /// The transactions committed.
    pub committed: u64,
    /// The sum of the values of the coins left that are money.
    pub money: u128,
    /// What the committed transactions issued.
    pub issued: u128,
    /// What they redeemed.
    pub redeemed: u128,
}

/// How a run of the program ended. A file is its place among the words.
#[derive(Clone, Copy, Debug, PartialEq, Eq)]
pub enum Answer {
    Ok,
    BadWords,
    BadInput {
        file: u64,
        at: u64,
        kind: InputKind,
    },
    /// The minted values pass 2^64 - 1.
    TooMuch {
        total: u128,
    },
    NotReady(NodeId),
    /// The node's header is not the one asked for.
    Foreign {
        node: NodeId,
        kept: Header,
        asked: Header,
    },
    /// The node has records already.
    NotEmpty(NodeId),
    Full {
        node: NodeId,
        used: u64,
        need: u64,
        capacity: u64,
    },
    /// The record at this place of the history is wrong.
    Unsound {
        place: u64,
        kind: UnsoundKind,
    },
    ClockEnd {
        node: NodeId,
        stamp: Stamp,
    },
    Damaged {
        node: NodeId,
        at: u64,
    },
    /// The file could not be read.
    ReadFault {
        file: u64,
    },
    /// The output could not be written.
    WriteFault,
    DiskFault(NodeId),
    Memory,
}
